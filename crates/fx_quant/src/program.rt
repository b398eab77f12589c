//! Designs as programs of integer code.

ghost use Rattle.std.specs.Prelude.{◌≡◌, ◌<◌, ◌≤◌, ◌+◌, ◌-◌, ◌++◌, [], ◌∷◌, length, true, IfOk, OnOk};
ghost use Rattle.fx_code.specs.Code.{IsWhole};
ghost use Rattle.fx_code.specs.Limits.{is_memory};
ghost use Rattle.fx_quant.specs.Design.{
  DesignFits,
  HasShape,
  OutputsFit,
  WidthsFit,
  as_program,
  last_places,
  sized_rows,
};

use crate::design::Design;
use fx_code::{Program, ProgramFault, programs_fit, what_fits_has_no_fault};
use fx_eqs::PORTS;
use std::alloc::{AllocError, Global};

// The only fault of what fits.
fn want_of_memory(fault: ProgramFault) -> AllocError
    requires { is_memory fault ≡ true }
{
    match fault {
        ProgramFault::NoMemory => AllocError,
        _ => unreachable!(),
    }
}

// Puts out the word of a row, behind the other outputs.
#[tactic(auto, using(crate::proofs::Programs::memory_left))]
fn add_output(program: &mut Program, row: usize) -> Result<(), AllocError>
    requires few { length program.old.outputs < PORTS }
    requires there { row < length program.old.rows }
    ensures { OnOk result (program.new ≡ record program.old { outputs = program.old.outputs ++ row ∷ [] }) }
{
    what_fits_has_no_fault();
    programs_fit(program);
    match program.add_output(row as u8) {
        Ok(()) => Ok(()),
        Err(fault) => Err(want_of_memory(fault)),
    }
}

// Puts out the words of the last rows.
#[tactic(auto, using(crate::proofs::Programs::places_count))]
fn add_outputs(program: &mut Program, outputs: usize) -> Result<(), AllocError>
    requires few { outputs ≤ PORTS }
    requires there { outputs ≤ length program.old.rows }
    requires none { program.old.outputs ≡ [] }
    ensures { OnOk result (program.new
        ≡ record program.old { outputs = last_places (length program.old.rows) outputs outputs }) }
{
    let first = program.rows() - outputs;
    for o in 0..outputs {
        add_output(program, first + o)?;
    }
    Ok(())
}

impl Design {
    // Adds row i with its width.
    #[tactic(auto, using(crate::proofs::Programs::memory_left, crate::proofs::Programs::row_unrefused))]
    fn add_row(&self, program: &mut Program, widths: &[u8], i: usize) -> Result<(), AllocError>
        requires row { i < length self.now.rows }
        requires design { DesignFits self.now }
        requires widths { WidthsFit self.now program.old.accumulator program.old.inputs widths.now }
        requires before { program.old.rows ≡ sized_rows widths.now self.now.rows i }
        ensures { OnOk result (program.new
            ≡ record program.old { rows = sized_rows widths.now self.now.rows (i + 1) }) }
    {
        what_fits_has_no_fault();
        programs_fit(program);
        match program.add_row(widths[i], self.shift(i), self.mode(i), self.terms(i)) {
            Ok(()) => Ok(()),
            Err(fault) => Err(want_of_memory(fault)),
        }
    }

    // Adds each row with its width.
    #[tactic(auto, using(crate::proofs::Programs::sized_count))]
    fn add_rows(&self, program: &mut Program, widths: &[u8]) -> Result<(), AllocError>
        requires design { DesignFits self.now }
        requires widths { WidthsFit self.now program.old.accumulator program.old.inputs widths.now }
        requires none { program.old.rows ≡ [] }
        ensures { OnOk result (program.new
            ≡ record program.old { rows = sized_rows widths.now self.now.rows (length self.now.rows) }) }
    {
        for i in 0..self.rows() {
            self.add_row(program, widths, i)?;
        }
        Ok(())
    }

    // The program without rows.
    #[tactic(auto, using(crate::proofs::Programs::memory_left, crate::proofs::Programs::start_unrefused))]
    fn start(
        &self,
        alloc: Global,
        accumulator: u8,
        input_widths: &[u8],
        widths: &[u8],
    ) -> Result<Program, AllocError>
        requires design { DesignFits self.now }
        requires widths { WidthsFit self.now accumulator input_widths.now widths.now }
        ensures { IfOk result (λ p. p ≡ record {
          accumulator = accumulator;
          inputs = input_widths.now;
          rows = [];
          outputs = [];
        }) }
    {
        what_fits_has_no_fault();
        match Program::start(alloc, accumulator, input_widths) {
            Ok(program) => Ok(program),
            Err(fault) => Err(want_of_memory(fault)),
        }
    }

    /// The rows with these widths, 2 to 32 bits and at most those of the accumulators, as a program with inputs of
    /// these widths. Put out are the last rows, so many, in their order. The accumulators have 16, 32 or 64 bits, and
    /// no fewer than those that the design was made for.
    ///
    /// A design that fits is never refused: its error is want of memory.
    pub fn program(
        &self,
        alloc: Global,
        accumulator: u8,
        input_widths: &[u8],
        widths: &[u8],
        outputs: usize,
    ) -> Result<Program, AllocError>
        requires design { DesignFits self.now }
        requires widths { WidthsFit self.now accumulator input_widths.now widths.now }
        requires outputs { OutputsFit self.now outputs }
        ensures ok { IfOk result (λ p. p ≡ as_program self.now accumulator input_widths.now widths.now outputs) }
        ensures shape { IfOk result (HasShape self.now widths.now outputs) }
        ensures whole { IfOk result (λ p. 1 ≤ outputs → IsWhole p) }
    {
        let mut program = self.start(alloc, accumulator, input_widths, widths)?;
        self.add_rows(&mut program, widths)?;
        add_outputs(&mut program, outputs)?;
        Ok(program)
    }
}
