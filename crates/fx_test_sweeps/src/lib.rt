//! Sweeps, totals and jobs of numbers, against values worked apart: tests alone.
#![tactic(auto)]

#[cfg(test)]
mod jobs;
#[cfg(test)]
mod limits;
#[cfg(test)]
mod nets;
#[cfg(test)]
mod series;
#[cfg(test)]
mod sweeps;
#[cfg(test)]
mod totals;
