//! Filter files: a filter in one of four forms, the formats of its words, and what is to be tried in making its code.
#![tactic(auto)]

mod building;
mod coefficients;
mod filter;
mod formats;
mod forms;
mod head;
mod laws;
mod lists;
mod plan;
mod ports;
mod reading;
mod settings;

pub use filter::{Filter, filters_fit};
pub use formats::{InputFormat, OutputFormat};
pub use forms::{Form, Structure};
pub use fx_keys::{FilterFault, Key, KeyText, unknown_keys_come_first};
pub use laws::{files_are_described, tables_describe_one_filter};
pub use plan::Plan;
pub use reading::read_filter;
