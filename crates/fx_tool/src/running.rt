//! A run of a command line.
ghost use Rattle.std.specs.Prelude.{◌≡◌, length, option_map, take, IsTrue};
ghost use Rattle.fx_words.specs.Command.{allows, named, operand_words, operands_of, texts};
ghost use Rattle.fx_words.specs.Words.{IsWhole};
ghost use Rattle.fx_tool.specs.Answer.{WhereDone};
ghost use Rattle.fx_tool.specs.CheckCauses.{
  AcceptedExactly,
  BadCertificateExactly,
  BadCodeExactly,
  BadFilterExactly,
  PassingIsAccepted,
  RefusedExactly,
};
ghost use Rattle.fx_tool.specs.Plan.{Follows, MayRead};
ghost use Rattle.fx_tool.specs.Running.{
  plan_of,
  reads_to,
  targets_to,
  Answers,
  CanRead,
  Establishes,
  EstablishesTo,
  EstablishesWords,
  FollowsAsked,
  Runs,
};

use crate::check::check;
use crate::ending::Ending;
use crate::gain::gain;
use crate::judgement::Detail;
use crate::large::run_large;
use crate::make::make_files;
use crate::show::show;
use crate::simulate::simulate;
use crate::status::Status;
use fx_block::none_fails_where_all_hold;
use fx_cert::certificate_is_read_exactly;
use fx_io::{IoFault, Shelf, Sink};
use fx_words::{Command, Verb, read_words};
use std::alloc::Global;

// All commands.
const USAGE: &str =
    "usage: fixif check FILTER CODE CERT, make FILTER CODE CERT, simulate CODE SAMPLES, gain FILTER, \
     show FILTER, report FILTER CODE CERT, large NUMBER\n";

// Reads what a command reads, and says how the run ends.
fn command_ending<S: Shelf>(
    alloc: Global,
    verb: Verb,
    names: &[String],
    shelf: &mut S,
) -> Result<Ending, IoFault>
    requires count { length names.now ≡ length (operand_words verb) }
    requires allowed { IsTrue (allows verb (texts names.now)) }
    requires readable { MayRead (S.seen shelf.old) (take (length (operands_of verb)) (texts names.now)) }
    ensures follows { Follows (operands_of verb) (texts names.now) (plan_of verb (texts names.now))
        (S.seen shelf.old) (S.seen shelf.new) result }
    ensures establishes { WhereDone result (Establishes verb (texts names.now) (S.seen shelf.old).files) }
{
    match (verb, names) {
        (Verb::Check, [filter, code, cert]) => {
            check(
                alloc,
                Detail::Brief,
                filter.as_str(),
                code.as_str(),
                cert.as_str(),
                shelf,
            )
        }
        (Verb::Gain, [filter]) => gain(alloc, filter.as_str(), shelf),
        (Verb::Large, [number]) => Ok(run_large(alloc, number.as_str())?),
        (Verb::Make, [filter, _, _]) => make_files(alloc, filter.as_str(), shelf),
        (Verb::Report, [filter, code, cert]) => {
            check(
                alloc,
                Detail::Full,
                filter.as_str(),
                code.as_str(),
                cert.as_str(),
                shelf,
            )
        }
        (Verb::Show, [filter]) => show(alloc, filter.as_str(), shelf),
        (Verb::Simulate, [code, samples]) => {
            simulate(alloc, code.as_str(), samples.as_str(), shelf)
        }
        _ => unreachable!(),
    }
}

// The same for what the words ask for.
fn ending<S: Shelf>(
    alloc: Global,
    asked: Option<Command<'_>>,
    shelf: &mut S,
) -> Result<Ending, IoFault>
    requires whole { IsWhole (option_map named asked) }
    requires readable { MayRead (S.seen shelf.old) (reads_to (option_map named asked)) }
    ensures follows { FollowsAsked (option_map named asked.entry) (S.seen shelf.old) (S.seen shelf.new) result }
    ensures establishes { WhereDone result (EstablishesTo (option_map named asked.entry) (S.seen shelf.old).files) }
{
    match asked {
        Some(command) => command_ending(alloc, command.verb, command.names, shelf),
        None => Ok(Ending::line(alloc, Status::Usage, USAGE)?),
    }
}

// The names of the files that it places.
fn targets(asked: Option<Command<'_>>) -> &[String]
    ensures { texts result.now ≡ targets_to (option_map named asked.entry) }
{
    match asked {
        Some(command) => command.verb.targets(command.names),
        None => &[],
    }
}

// Runs a command line, and gives the answer of its words and files.
fn answer<S: Shelf, K: Sink>(alloc: Global, words: &[String], shelf: &mut S, out: &mut K) -> Status
    requires { CanRead (S.seen shelf.old) (texts words.now) }
    ensures answers { Answers (texts words.now) (S.seen shelf.old) (S.seen shelf.new)
        (K.seen out.old) (K.seen out.new) result }
    ensures establishes { result ≡ Status.Done → EstablishesWords (texts words.now) (S.seen shelf.old).files }
{
    let Ok(asked) = read_words(alloc, words) else {
        return Status::NoMemory;
    };
    let command = asked.command();
    match ending(alloc, command, shelf) {
        Ok(ending) => ending.deliver(targets(command), shelf, out),
        Err(IoFault::Failed) => Status::ReadFault,
        Err(IoFault::NoMemory) => Status::NoMemory,
    }
}

/// Runs a command line: the program's name, a command and its operands. It reads and places the files that the words
/// name and puts a text; what it gives is the answer of the words and the files, unless a read, a write or memory
/// fails. Then nothing is put after a failed read, and the first bytes of the text after a failed write or want of
/// memory. Files are placed one after another before the first byte is put; after a failed write or want of memory the
/// first few stand, and the file whose placing failed may hold anything.
///
/// Where the shelf tells its files, and with `Done` of `check` and of `report`: for every list of input words within
/// the filter's bounds, of any length, every row of the code ends with the exact sum in its accumulator, every stored
/// word lies in its format, and every output differs from the filter's exact output by at most the certificate's error,
/// which is the one printed. With `Done` of `make` the same holds of the code and the certificate that it placed, and
/// with `Done` of `large` of what was made for the number's filter. With `Done` of `gain` each interval and the words
/// that were put enclose how far that output goes on words of one input alone. With `Done` of `show` the lines of the
/// file's filter were put, with `Done` of `simulate` the outputs of the file's program on the samples. Of files that are
/// not told, as on the disk, nothing of this is said.
pub fn run<S: Shelf, K: Sink>(alloc: Global, words: &[String], shelf: &mut S, out: &mut K) -> Status
    requires { CanRead (S.seen shelf.old) (texts words.now) }
    ensures { Runs (texts words.now) (S.seen shelf.old) (S.seen shelf.new)
        (K.seen out.old) (K.seen out.new) result }
{
    certificate_is_read_exactly();
    none_fails_where_all_hold();
    answer(alloc, words, shelf, out)
}

/// A law with nothing to run: which status the answer of `check` has, where the files before are there and have at most
/// `LONGEST_FILE` bytes. A run ends with that, or with 8, 9 or 12. 3 comes exactly where the first file is that of no
/// filter, 4 exactly where the second spells no program, 5 exactly where the third is the text of no certificate,
/// 1 exactly where an inequality fails, and 0 exactly where all hold, with the lines of the certificate's errors.
pub fn check_ends_by_its_files()
    ensures bad_filter { BadFilterExactly }
    ensures bad_code { BadCodeExactly }
    ensures bad_certificate { BadCertificateExactly }
    ensures refused { RefusedExactly }
    ensures done { AcceptedExactly }
    ensures accepted { PassingIsAccepted }
{
    certificate_is_read_exactly();
    none_fails_where_all_hold();
}
