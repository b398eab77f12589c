ghost use Rattle.std.specs.Prelude.{◌≡◌, ◌≢◌, ◌⊎◌, ◌≤◌, ◌∷◌, [], IfOk, IsTrue};
ghost use Rattle.fx_io.specs.Causes.{Rose};
ghost use Rattle.fx_tool.specs.Answer.{says, Delivers};
ghost use Rattle.fx_words.specs.Command.{texts};
ghost use Rattle.fx_tool.specs.Placing.{placings, DeliversAll, PlacesAll};
ghost use Rattle.fx_tool.specs.Judgement.{led_by};
ghost use Rattle.fx_tool.specs.Status.{is_spoken};

use crate::placing::place_all;
use crate::status::Status;
use crate::writing::put_all;
use fx_io::{IoFault, Shelf, Sink};
use std::alloc::{AllocError, Global};
use std::marker::Model;

/// The contents of the files that are made for a filter.
#[derive(Drop)]
pub struct MadeFiles {
    pub code: Vec<u8>,
    pub certificate: Vec<u8>,
}

/// How a run ends before a file is placed and the first byte of its text is put: a status, the files to place, and the
/// whole text.
#[derive(Drop)]
pub struct Ending {
    status: Status,
    made: Option<MadeFiles>,
    text: Vec<u8>,
}

impl Model for Ending {
    ghost use Rattle.fx_tool.specs.Answer.{Answer};
    ghost use Rattle.fx_tool.specs.Ending.{answer_of, HasText};

    ghost Value = { Answer };

    ghost view = { answer_of };

    ghost invariant = { HasText };
}

impl Ending {
    /// This status with this text.
    pub fn new(status: Status, text: Vec<u8>) -> Ending
        requires { IsTrue (is_spoken status) }
        ensures { result ≡ says status text.items }
    {
        Ending {
            status,
            made: None,
            text,
        }
    }

    /// `Done` with this text and with these files, which are to be placed.
    pub fn placing(made: MadeFiles, text: Vec<u8>) -> Ending
        ensures { result ≡ record {
          status = Status.Done;
          placed = made.code.items ∷ made.certificate.items ∷ [];
          text = text.items;
        } }
    {
        Ending {
            status: Status::Done,
            made: Some(made),
            text,
        }
    }

    /// This status with this line.
    pub fn line(alloc: Global, status: Status, line: &str) -> Result<Ending, AllocError>
        requires { IsTrue (is_spoken status) }
        ensures { IfOk result (λ e. e ≡ says status line.now) }
    {
        Ok(Ending::new(status, Vec::from_slice(alloc, line.as_bytes())?))
    }

    /// The same with lines before its text.
    pub fn led_by(self, mut lines: Vec<u8>) -> Result<Ending, AllocError>
        ensures { IfOk result (λ e. e ≡ led_by lines.items self) }
    {
        lines.extend_from_slice(&self.text)?;
        Ok(Ending {
            status: self.status,
            made: self.made,
            text: lines,
        })
    }

    // Places the files under these names.
    fn place<S: Shelf>(&self, names: &[String], shelf: &mut S) -> Result<(), IoFault>
        ensures { PlacesAll (placings (texts names.now) self.now.placed) (S.seen shelf.old) (S.seen shelf.new) result }
    {
        match &self.made {
            Some(made) => place_all(shelf, names, &[&made.code, &made.certificate]),
            None => Ok(()),
        }
    }

    /// Puts the text, and ends with the status.
    pub fn put<K: Sink>(&self, out: &mut K) -> Status
        ensures delivers { Delivers self.now result (K.seen out.old).told (K.seen out.new).told }
        ensures spoken { result ≢ Status.ReadFault }
        ensures cause { result ≡ Status.WriteFault → Rose (K.seen out.old).faults (K.seen out.new).faults }
        ensures kept { ((K.seen out.new).faults ≡ (K.seen out.old).faults) ⊎ (result ≡ Status.WriteFault) }
        ensures later { (K.seen out.old).faults ≤ (K.seen out.new).faults }
    {
        match put_all(out, &self.text) {
            Ok(()) => self.status,
            Err(IoFault::Failed) => Status::WriteFault,
            Err(IoFault::NoMemory) => Status::NoMemory,
        }
    }

    /// Places the files under these names, one after another, then puts the text, and ends with the status.
    pub fn deliver<S: Shelf, K: Sink>(&self, names: &[String], shelf: &mut S, out: &mut K) -> Status
        ensures { DeliversAll self.now (placings (texts names.now) self.now.placed) (S.seen shelf.old)
            (S.seen shelf.new) (K.seen out.old) (K.seen out.new) result }
    {
        // The invariant is at hand from here on: the status has a text.
        let _ = &self.status;
        match self.place(names, shelf) {
            Ok(()) => self.put(out),
            Err(IoFault::Failed) => Status::WriteFault,
            Err(IoFault::NoMemory) => Status::NoMemory,
        }
    }
}
