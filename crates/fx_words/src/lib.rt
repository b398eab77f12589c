//! The words of a command line: the commands, their operands, and what the words ask for.
#![tactic(auto)]

mod command;
mod number;
mod operand;
mod reading;

pub use command::{Command, VERBS, Verb, plain_command};
pub use number::{given_number, number_of};
pub use operand::{LONGEST_FILE, LONGEST_SAMPLES, Operand};
pub use reading::{Asked, ReadCommand, read_words, words_are_a_command};
