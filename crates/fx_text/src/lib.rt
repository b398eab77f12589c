//! Integer code as text: a program is read and written exactly.
#![tactic(auto)]

mod fault;
mod parts;
mod reader;
mod term;
mod token;
mod writer;

pub use fault::CodeFault;
pub use reader::{
    code_is_read_exactly, read_code, terms_are_read_to_the_store, text_spells_one_program,
};
pub use writer::{write_code, written_code_is_spelled};
