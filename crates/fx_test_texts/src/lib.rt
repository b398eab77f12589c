//! The crates of texts and of what is read from them, against values worked by hand: tests alone.
#![tactic(auto)]

#[cfg(test)]
mod certificates;
#[cfg(test)]
mod codes;
#[cfg(test)]
mod filters;
#[cfg(test)]
mod findings;
#[cfg(test)]
mod keys;
#[cfg(test)]
mod lines;
#[cfg(test)]
mod samples;
#[cfg(test)]
mod words;
