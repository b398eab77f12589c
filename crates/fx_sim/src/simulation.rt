// Runs of a program on samples.

ghost use Rattle.std.specs.Prelude.{◌≡◌, ◌≤◌, ◌++◌, ◌∷◌, [], List, ℤ, length, IfOk, OnOk};
ghost use Rattle.csv.specs.Reading.{default_config, records, strip_bom};
ghost use Rattle.fx_code.specs.Code.{Code, IsWhole};
ghost use Rattle.fx_eqs.specs.declared.limits.TheConstants.{PORTS};
ghost use Rattle.fx_code.specs.Inputs.{IsMoment, word_at};
ghost use Rattle.fx_code.specs.Run.{outputs_at};
ghost use Rattle.fx_machine.specs.Moments.{StandsAfter};
ghost use Rattle.fx_sim.specs.Between.{StandsBetween};
ghost use Rattle.fx_sim.specs.Output.{line_of};
ghost use Rattle.fx_math.specs.Answers.{Gives};
ghost use Rattle.fx_sim.specs.Samples.{is_memory};
ghost use Rattle.fx_sim.specs.Simulation.{simulation};

use crate::fault::SampleFault;
use crate::moment::read_moment;
use crate::plain::read_plain;
use crate::record::{next_record, text_reader};
use crate::text::Lines;
use csv::ByteRecord;
use fx_code::{Program, words_read_no_later_inputs};
use fx_eqs::PORTS;
use fx_machine::Machine;
use std::alloc::{AllocError, Global};

// Runs one moment, and puts its line.
fn put_moment(
    machine: &mut Machine<'_>,
    input: &[i64],
    output: &mut [i64],
    lines: &mut Lines,
) -> Result<(), AllocError>
    requires input { IsMoment machine.old.program input.now }
    requires output { length output.old ≡ length machine.old.program.outputs }
    requires few { length output.old ≤ PORTS }
    ensures stands { (p : Code) (list : List (List ℤ)) → StandsAfter machine.old p list →
        StandsAfter machine.new p (list ++ input.now ∷ []) }
    ensures output { (p : Code) (list : List (List ℤ)) → StandsAfter machine.old p list →
        output.new ≡ outputs_at p (word_at (list ++ input.now ∷ [])) (length list) }
    ensures line { OnOk result (lines.new ≡ lines.old ++ line_of output.new) }
{
    machine.step(input, output);
    lines.put(output)
}

// Runs the plain lines at the front of samples. Gives their count, and the text from the line feed of the last one on.
fn run_plain_lines<'t>(
    program: &Program,
    machine: &mut Machine<'_>,
    input: &mut [i64],
    output: &mut [i64],
    lines: &mut Lines,
    samples: &'t [u8],
) -> Result<(u64, &'t [u8]), AllocError>
    requires begins { StandsAfter machine.old program.now [] }
    requires none { lines.old ≡ [] }
    requires input { length input.old ≡ length program.now.inputs }
    requires output { length output.old ≡ length program.now.outputs }
    requires few { length output.old ≤ PORTS }
    ensures { IfOk result (λ r. StandsBetween program.now samples.now machine.new
        (records default_config (strip_bom r.1.now)) r.0 lines.new) }
{
    words_read_no_later_inputs();
    let mut number = 0u64;
    let mut rest = samples;
    while let Some(behind) = read_plain(program, rest, input) {
        put_moment(machine, input, output, lines)?;
        number += 1;
        rest = behind;
    }
    Ok((number, rest))
}

/// The text of a program's run on samples: for each record one line, the output words in decimal, joined by commas and
/// ended by a line feed.
///
/// The records are those that `csv` reads, with no header, commas, quotes as by default, no trimming, and any count of
/// fields; a byte order mark at the start is skipped. A field is blanks (space, tab, carriage return, line feed),
/// perhaps a sign, 1 to 18 digits, and blanks. Its number lies in its input's width, in two's complement.
///
/// The error is the first fault in the order of the records: of one record the count of its fields comes first, then
/// column by column. `NoMemory` is no fault of the samples.
#[tactic(auto, using(crate::proofs::BetweenRecords::front_of_ports))]
pub fn simulate(alloc: Global, program: &Program, samples: &[u8]) -> Result<Vec<u8>, SampleFault>
    requires { IsWhole program.now }
    ensures { Gives is_memory (λ text. text.items) result (simulation program.now samples.now) }
{
    words_read_no_later_inputs();
    let mut machine = Machine::new(alloc, program)?;
    let mut words = [0i64; PORTS];
    let mut results = [0i64; PORTS];
    let input = &mut words[..program.inputs()];
    let output = &mut results[..program.outputs().len()];
    let mut lines = Lines::new(alloc);
    let mut row = ByteRecord::new(alloc);
    let (mut number, rest) = run_plain_lines(
        program,
        &mut machine,
        input,
        output,
        &mut lines,
        samples,
    )?;
    let mut reader = text_reader(alloc, rest);
    while next_record(&mut reader, &mut row)? {
        number += 1;
        read_moment(program, number, &row, input)?;
        put_moment(&mut machine, input, output, &mut lines)?;
    }
    Ok(lines.into_text())
}
