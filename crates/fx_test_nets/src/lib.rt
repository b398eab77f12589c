//! The crates of equations, structures, nets and programs, against values worked by hand: tests alone.
#![tactic(auto)]

#[cfg(test)]
mod forms;
#[cfg(test)]
mod ladders;
#[cfg(test)]
mod machines;
#[cfg(test)]
mod nets;
#[cfg(test)]
mod programs;
#[cfg(test)]
mod structures;
#[cfg(test)]
mod systems;
