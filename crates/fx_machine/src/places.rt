//! Where a machine keeps its words: the rows of this moment come first.

use fx_code::CODE_ROWS;
use fx_eqs::PORTS;

// The first of the words of the moment before.
pub const FIRST_OLD: usize = CODE_ROWS;

// The first of the words of the inputs.
pub const FIRST_INPUT: usize = FIRST_OLD + CODE_ROWS;

// How many words there are.
pub const WORD_COUNT: usize = FIRST_INPUT + PORTS;
