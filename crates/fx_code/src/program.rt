ghost use Rattle.fx_eqs.specs.declared.mode.Mode.{Mode};
ghost use Rattle.fx_code.specs.declared.term.CodeTerm.{CodeTerm};
ghost use Rattle.std.specs.Prelude.{
  map,
  ◌≡◌,
  ◌↔◌,
  IsTrue,
  ◌<◌,
  ◌≤◌,
  ◌^◌,
  ◌≤ℤ◌,
  ◌++◌,
  [],
  ◌∷◌,
  length,
  IfOk,
  OnOk,
  OnErr,
  pos,
  slice_index,
  All,
};
ghost use Rattle.fx_code.specs.Code.{Code, row_at, constant_of, OldIsThere, IsWhole};
ghost use Rattle.fx_code.specs.Inside.{row_of, RowReadsFit};
ghost use Rattle.fx_math.specs.Answers.{fault_told};
ghost use Rattle.fx_math.specs.Words.{WidthFits};
ghost use Rattle.fx_code.specs.Fits.{TermFits, RowFits, CodeFits};
ghost use Rattle.fx_code.specs.Limits.{start_fault, row_fault, output_fault, is_memory};
ghost use Rattle.fx_code.specs.NetRows.{class_of};

use crate::checks::{start_fault, terms_fault};
use crate::dropping::{class_in, constant_in};
use crate::fault::{LimitOf, ProgramFault};
use crate::limits::{CODE_ROWS, CODE_TERMS, LONGEST_SHIFT};
use crate::term::{CodeTerm, Read};
use fx_eqs::{Mode, PORTS};
use fx_math::{GREATEST_WIDTH, LEAST_WIDTH};
use std::alloc::{AllocError, Global};
use std::marker::Model;

#[derive(Drop)]
struct ProgramRow {
    width: u8,
    shift: u8,
    mode: Mode,
    terms: Vec<CodeTerm>,
}

/// Rows of integer code. Each program keeps the limits from its start on.
#[derive(Drop)]
pub struct Program {
    alloc: Global,
    accumulator: u8,
    inputs: Vec<u8>,
    rows: Vec<ProgramRow>,
    outputs: Vec<u8>,
    // Terms over all rows.
    terms: usize,
}

impl Model for Program {
    ghost use Rattle.fx_code.specs.Code.{Code};

    ghost Value = { Code };

    ghost use Rattle.fx_code.specs.Inside.{code_of, IsKept};

    ghost view = { code_of };

    ghost invariant = { IsKept };
}

impl Program {
    /// A program without rows, over accumulators of 16, 32 or 64 bits, with 1 to 4 inputs of 2 to 32 bits.
    /// Its error is the first fault, and `NoMemory` only where there is none.
    pub fn start(
        alloc: Global,
        accumulator: u8,
        input_widths: &[u8],
    ) -> Result<Program, ProgramFault>
        ensures ok { IfOk result (λ p. p ≡ record {
          accumulator = accumulator;
          inputs =
              input_widths.now;
          rows = [];
          outputs = [];
        }) }
        ensures fault { start_fault accumulator input_widths.now ≡ fault_told is_memory result }
    {
        if let Some(fault) = start_fault(accumulator, input_widths) {
            return Err(fault);
        }
        let Ok(inputs) = input_widths.to_vec(alloc) else {
            return Err(ProgramFault::NoMemory);
        };
        Ok(Program {
            alloc,
            accumulator,
            inputs,
            rows: Vec::new(alloc),
            outputs: Vec::new(alloc),
            terms: 0,
        })
    }

    // The first fault of a row that is to be added, in either mode.
    fn row_fault(&self, width: u8, shift: u8, terms: &[CodeTerm]) -> Option<ProgramFault>
        ensures { (mode : Mode) → result ≡ row_fault self.now (record {
          width = width;
          own = record { shift = shift; mode = mode; terms = terms.now };
        }) }
    {
        if self.rows.len() >= CODE_ROWS {
            return Some(ProgramFault::Limit(LimitOf::Rows, self.rows.len() as i128 + 1));
        }
        if width < LEAST_WIDTH || width > self.accumulator.min(GREATEST_WIDTH) {
            return Some(ProgramFault::Limit(LimitOf::Width, i128::from(width)));
        }
        if shift > (self.accumulator - 1).min(LONGEST_SHIFT) {
            return Some(ProgramFault::Limit(LimitOf::Shift, i128::from(shift)));
        }
        if let Some(fault) = terms_fault(self.rows.len() as u8, self.inputs.len(), shift, terms) {
            return Some(fault);
        }
        let count = self.terms as i128 + terms.len() as i128;
        if count > CODE_TERMS as i128 {
            return Some(ProgramFault::Limit(LimitOf::Terms, count));
        }
        None
    }

    /// Adds a row behind the others: the bits of its word, its right shift, how that drops the low places, and its
    /// terms. Its error is the first fault, and `NoMemory` only where there is none; a refused row leaves the program
    /// unchanged.
    pub fn add_row(
        &mut self,
        width: u8,
        shift: u8,
        mode: Mode,
        terms: &[CodeTerm],
    ) -> Result<(), ProgramFault>
        ensures ok { OnOk result (self.new ≡ record self.old {
          rows =
              self.old.rows ++ record {
                width = width;
                own = record { shift = shift; mode = mode; terms = terms.now };
              } ∷ [];
        }) }
        ensures fault { row_fault self.old (record {
          width = width;
          own = record { shift = shift; mode = mode; terms = terms.now };
        }) ≡ fault_told is_memory result }
        ensures err { OnErr result (self.new ≡ self.old) }
    {
        if let Some(fault) = self.row_fault(width, shift, terms) {
            return Err(fault);
        }
        let count = terms.len();
        let Ok(terms) = terms.to_vec(self.alloc) else {
            return Err(ProgramFault::NoMemory);
        };
        let row = ProgramRow {
            width,
            shift,
            mode,
            terms,
        };
        match self.rows.push(row) {
            Ok(()) => {
                self.terms += count;
                Ok(())
            }
            Err(_) => Err(ProgramFault::NoMemory),
        }
    }

    // The first fault of an output that is to be added.
    fn output_fault(&self, row: u8) -> Option<ProgramFault>
        ensures { result ≡ output_fault self.now row }
    {
        if self.outputs.len() >= PORTS {
            return Some(ProgramFault::Limit(LimitOf::Outputs, self.outputs.len() as i128 + 1));
        }
        if usize::from(row) >= self.rows.len() {
            return Some(ProgramFault::Limit(LimitOf::OutputRow, i128::from(row)));
        }
        None
    }

    /// Puts out the word of a row, behind the other outputs. Its error is the first fault, and `NoMemory` only
    /// where there is none; a refused output leaves the program unchanged.
    pub fn add_output(&mut self, row: u8) -> Result<(), ProgramFault>
        ensures ok { OnOk result (self.new ≡ record self.old { outputs = self.old.outputs ++ row ∷ [] }) }
        ensures fault { output_fault self.old row ≡ fault_told is_memory result }
        ensures err { OnErr result (self.new ≡ self.old) }
    {
        if let Some(fault) = self.output_fault(row) {
            return Err(fault);
        }
        match self.outputs.push(row) {
            Ok(()) => Ok(()),
            Err(_) => Err(ProgramFault::NoMemory),
        }
    }

    /// An equal program. Its error is want of memory.
    pub fn copy(&self, alloc: Global) -> Result<Program, AllocError>
        ensures { IfOk result (λ p. p ≡ self.now) }
    {
        let inputs = self.inputs.to_vec(alloc)?;
        let rows = copy_rows(alloc, &self.rows)?;
        let outputs = self.outputs.to_vec(alloc)?;
        Ok(Program {
            alloc,
            accumulator: self.accumulator,
            inputs,
            rows,
            outputs,
            terms: self.terms,
        })
    }

    /// Whether each row of the moment before that is read is there, and there is an output.
    pub fn is_whole(&self) -> bool
        ensures { IsTrue result ↔ IsWhole self.now }
    {
        !self.outputs.is_empty() && rows_are_there(&self.rows, self.rows.len())
    }

    /// The bits of the accumulators: 16, 32 or 64.
    pub fn accumulator(&self) -> u8
        ensures value { result ≡ self.now.accumulator }
        ensures low { 16 ≤ result }
        ensures high { result ≤ 64 }
    {
        self.accumulator
    }

    /// How many inputs there are: 1 to 4.
    pub fn inputs(&self) -> usize
        ensures value { result ≡ length self.now.inputs }
        ensures low { 1 ≤ result }
        ensures high { result ≤ PORTS }
    {
        self.inputs.len()
    }

    /// The bits of input j: 2 to 32.
    pub fn input_width(&self, j: usize) -> u8
        requires { j < length self.now.inputs }
        ensures value { result ≡ slice_index self.now.inputs j }
        ensures fits { WidthFits result }
    {
        self.inputs[j]
    }

    /// How many rows there are: at most 40.
    pub fn rows(&self) -> usize
        ensures value { result ≡ length self.now.rows }
        ensures high { result ≤ CODE_ROWS }
    {
        self.rows.len()
    }

    // Row i.
    fn row(&self, i: usize) -> &ProgramRow
        requires { i < length self.now.rows }
        ensures value { row_of result.now ≡ row_at self.now i }
        ensures fits { RowFits self.now.accumulator (row_of result.now) }
        ensures few { length (row_of result.now).own.terms ≤ CODE_TERMS }
    {
        &self.rows[i]
    }

    /// The bits of row i's word: 2 to 32, and at most those of the accumulators.
    pub fn width(&self, i: usize) -> u8
        requires { i < length self.now.rows }
        ensures value { result ≡ (row_at self.now i).width }
        ensures fits { WidthFits result }
        ensures kept { result ≤ self.now.accumulator }
    {
        self.row(i).width
    }

    /// Row i's right shift: at most 62, and below the bits of the accumulators.
    pub fn shift(&self, i: usize) -> u8
        requires { i < length self.now.rows }
        ensures value { result ≡ (row_at self.now i).own.shift }
        ensures high { result ≤ LONGEST_SHIFT }
        ensures kept { result < self.now.accumulator }
    {
        self.row(i).shift
    }

    /// How row i drops its low places.
    pub fn mode(&self, i: usize) -> Mode
        requires { i < length self.now.rows }
        ensures { result ≡ (row_at self.now i).own.mode }
    {
        self.row(i).mode
    }

    /// What row i's accumulator begins with: half of the last place that the shift drops where the row rounds to the
    /// nearest, else 0.
    pub fn constant(&self, i: usize) -> i64
        requires { i < length self.now.rows }
        ensures value { result ≡ pos (constant_of (row_at self.now i).own) }
        ensures high { result ≤ℤ pos (2 ^ 61) }
    {
        let row = self.row(i);
        constant_in(row.mode, row.shift)
    }

    /// The class of row i: how many half steps it may be off. Without a right shift none, else one where it rounds to
    /// the nearest and two where it floors.
    pub fn class(&self, i: usize) -> u8
        requires { i < length self.now.rows }
        ensures value { result ≡ class_of (row_at self.now i).own }
        ensures high { result ≤ 2 }
    {
        let row = self.row(i);
        class_in(row.mode, row.shift)
    }

    /// The terms of row i, in their order.
    pub fn terms(&self, i: usize) -> &[CodeTerm]
        requires { i < length self.now.rows }
        ensures value { result.now ≡ (row_at self.now i).own.terms }
        ensures high { length result.now ≤ CODE_TERMS }
        ensures fits { All (TermFits (row_at self.now i).own.shift) result.now }
    {
        &self.row(i).terms
    }

    /// The rows that are put out, in the order of the outputs: at most 4, each below the count of rows.
    pub fn outputs(&self) -> &[u8]
        ensures value { result.now ≡ self.now.outputs }
        ensures high { length result.now ≤ PORTS }
        ensures fits { All (λ row. row < length self.now.rows) result.now }
    {
        &self.outputs
    }
}

// Equal rows.
fn copy_rows(alloc: Global, rows: &[ProgramRow]) -> Result<Vec<ProgramRow>, AllocError>
    ensures { IfOk result (λ v. map row_of v.items ≡ map row_of rows.now) }
{
    let mut copies = Vec::new(alloc);
    for row in rows {
        let terms = row.terms.to_vec(alloc)?;
        copies.push(ProgramRow {
            width: row.width,
            shift: row.shift,
            mode: row.mode,
            terms,
        })?;
    }
    Ok(copies)
}

// Whether each row of the moment before that rows read is among so many.
fn rows_are_there(rows: &[ProgramRow], count: usize) -> bool
    ensures { IsTrue result ↔ All (RowReadsFit count) rows.now }
{
    rows.iter().all(|row| reads_are_there(&row.terms, count))
}

// Whether each row of the moment before that terms read is among so many.
fn reads_are_there(terms: &[CodeTerm], rows: usize) -> bool
    ensures { IsTrue result ↔ All (λ (t : CodeTerm). OldIsThere rows t.from) terms.now }
{
    terms.iter().all(|term| read_is_there(term.from, rows))
}

// Whether a row of the moment before that is read is among so many.
fn read_is_there(from: Read, rows: usize) -> bool
    ensures { IsTrue result ↔ OldIsThere rows from }
{
    match from {
        Read::Old(i) => usize::from(i) < rows,
        Read::Now(_) => true,
        Read::In(_) => true,
    }
}

/// A law with nothing to run: each program keeps the limits.
pub fn programs_fit(program: &Program)
    ensures { CodeFits program.now }
{
    let _ = &program.accumulator;
}
