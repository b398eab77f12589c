//! Keys of filter files: how each is spelled, the value at it, its kind and its limits, up to the first fault. What a
//! filter is, is not known here.
#![tactic(auto)]

mod entries;
mod fault;
mod key;
mod limits;
mod numerals;
mod table;
mod wholes;
mod words;

pub use entries::{all_tables, at_most, exactly, item_count, list_at, some};
pub use fault::FilterFault;
pub use key::{Key, KeyText};
pub use limits::{
    ACCUMULATOR_WIDTHS, BOUNDS, DEFAULT_FRACTIONS, DEFAULT_GUARDS, DEFAULT_LENGTHS, FRACTIONS,
    GUARDS, LENGTHS, LIST_ENTRIES, LOW_DIFFERENCES, LOWS, NO_NUMBERS, Range, SECTION_COEFFICIENTS,
    WIDTHS, counts_are_these, defaults_are_these, ranges_are_these,
};
pub use numerals::{each_numeral, entries_of, matrix_of, numeral_of, rows_of};
pub use table::{needed, only_keys, table_of, unknown_keys_come_first, value_at};
pub use wholes::{integer_or, narrowed, natural_of, naturals_of, whole_of, whole_or};
pub use words::text_at;
