//! How plays end before their reader does.

ghost use Rattle.std.specs.Prelude.{Some};
ghost use Rattle.ink_player.specs.Printed.{play_fault_text};

use ink_host::Desk;
use ink_model::{Fault, ReadRefusal};
use ink_protocol::RunFault;
use std::error::Error;
use std::fmt;

/// Why a story could not be played to its reader's end.
#[derive(Debug, Drop)]
pub enum PlayFault {
    /// The story was refused.
    Story(ReadRefusal),
    /// The story could not be opened.
    Start(Fault),
    /// The session ended early, or reading the story failed.
    Run(RunFault),
}

/// `story refused: `, `story fault: ` or `run fault: `, and behind it which one, as the program says it (docs/PROTOCOL.md, "The
/// program").
impl fmt::Display for PlayFault {
    ghost output = { λ fault. Some (play_fault_text fault) };

    fn fmt<W: fmt::Write>(&self, f: &mut fmt::Formatter<W>) -> fmt::Result {
        match self {
            PlayFault::Story(refusal) => write!(f, "story refused: {refusal}"),
            PlayFault::Start(fault) => write!(f, "story fault: {fault}"),
            PlayFault::Run(fault) => write!(f, "run fault: {fault}"),
        }
    }
}

impl Error for PlayFault {}

/// A story that was not played to its reader's end: why, and the desk.
#[derive(Drop)]
pub struct PlayEnd<P, F, O> {
    pub fault: PlayFault,
    pub desk: Desk<P, F, O>,
}

/// Why, as its fault prints.
impl<P, F, O> fmt::Display for PlayEnd<P, F, O> {
    ghost output = { λ end. Some (play_fault_text end.fault) };

    fn fmt<W: fmt::Write>(&self, f: &mut fmt::Formatter<W>) -> fmt::Result {
        self.fault.fmt(f)
    }
}

/// The fault alone, whatever the objects on the desk are.
impl<P, F, O> fmt::Debug for PlayEnd<P, F, O> {
    fn fmt<W: fmt::Write>(&self, f: &mut fmt::Formatter<W>) -> fmt::Result {
        f.debug_struct("PlayEnd")
            .field("fault", &self.fault)
            .finish_non_exhaustive()
    }
}

impl<P: Drop, F: Drop, O: Drop> Error for PlayEnd<P, F, O> {}
