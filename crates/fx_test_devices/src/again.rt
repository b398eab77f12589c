//! Runs over the forms without faults, on one shelf again and again, and with no words.
ghost use Rattle.std.specs.Prelude.{◌≡◌, ◌∷◌, [], IfOk, IsTrue, codes};
ghost use Rattle.std.specs.FinMap as map;
ghost use Rattle.fx_words.specs.Command.{texts};
ghost use Rattle.fx_words.specs.Words.{command_of};
ghost use Rattle.fx_tool.specs.Running.{reads_to};

use crate::case::{run_on, shelf_of, words_of};
use crate::jobs::{CHECK, HALF, HALF_CERT, HALF_CODE};
use fx_io::{MemSink, SureShelf, SureSink};
use fx_tool::{Status, run};
use std::alloc::{AllocError, Global};
use std::test::Fail;

// The words of `check` on the files f, c and k.
#[tactic(auto, using(crate::proofs::TestWords::reads_of_check))]
fn check_words(alloc: Global) -> Result<Vec<String>, AllocError>
    ensures { IfOk result (λ words. reads_to (command_of (texts words.items))
        ≡ codes "f" ∷ codes "c" ∷ codes "k" ∷ []) }
{
    let name = String::from_str(alloc, "fixif")?;
    let command = String::from_str(alloc, "check")?;
    let filter = String::from_str(alloc, "f")?;
    let code = String::from_str(alloc, "c")?;
    let cert = String::from_str(alloc, "k")?;
    Ok(vec![in alloc; name, command, filter, code, cert]?)
}

// The files of `check`, in the form without faults.
fn sure_files(alloc: Global) -> Result<SureShelf, AllocError>
    ensures filter { IfOk result (λ s. IsTrue (map.contains_key s (codes "f"))) }
    ensures code { IfOk result (λ s. IsTrue (map.contains_key s (codes "c"))) }
    ensures cert { IfOk result (λ s. IsTrue (map.contains_key s (codes "k"))) }
{
    let mut shelf = SureShelf::new(alloc)?;
    shelf.add("f", HALF)?;
    shelf.add("c", HALF_CODE)?;
    shelf.add("k", HALF_CERT)?;
    Ok(shelf)
}

#[test]
fn checks_over_the_sure_forms(rt: HostRuntime) -> Result<(), Fail> {
    let alloc = rt.alloc();
    let mut shelf = sure_files(alloc)?;
    let mut out = SureSink::new(alloc)?;
    let words = check_words(alloc)?;
    let status = run(alloc, &words, &mut shelf, &mut out);
    assert_eq!(rt; (status.number(), out.bytes()), (0, CHECK.text));
    Ok(())
}

#[test]
fn a_failed_run_leaves_the_next_as_it_is(rt: HostRuntime) -> Result<(), Fail> {
    let alloc = rt.alloc();
    let words = words_of(alloc, CHECK.words)?;
    let mut shelf = shelf_of(alloc, CHECK.files)?;
    let mut out = MemSink::new(alloc)?;
    // The read that finds the end of the filter fails, then the first put, then nothing.
    shelf.fail_read(2)?;
    out.fail_put(1)?;
    for (number, text) in [(8, b"".as_slice()), (9, b""), (0, CHECK.text)] {
        let status = run(alloc, &words, &mut shelf, &mut out);
        assert_eq!(rt; (status.number(), out.bytes()), (number, text));
    }
    Ok(())
}

#[test]
fn no_words_at_all_are_no_command(rt: HostRuntime) -> Result<(), Fail> {
    assert!(rt; run_on(rt.alloc(), &[], &[], &[])?.ended(Status::Usage));
    Ok(())
}
