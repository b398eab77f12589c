//! The crates of numbers and of tables of numbers, against values worked by hand: tests alone.
#![tactic(auto)]

#[cfg(test)]
mod decimals;
#[cfg(test)]
mod fractions;
#[cfg(test)]
mod intervals;
#[cfg(test)]
mod matrices;
#[cfg(test)]
mod products;
#[cfg(test)]
mod tables;
#[cfg(test)]
mod words;
