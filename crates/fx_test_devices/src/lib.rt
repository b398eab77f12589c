//! What shelves and outputs do, and what the commands answer where devices fail, files are absent, cut or too long: tests
//! alone, most of them over files and output in memory.
#![tactic(auto)]

#[cfg(test)]
mod again;
#[cfg(test)]
mod case;
#[cfg(test)]
mod damage;
#[cfg(test)]
mod devices;
#[cfg(test)]
mod disk;
#[cfg(test)]
mod forms;
#[cfg(test)]
mod jobs;
#[cfg(test)]
mod numbers;
