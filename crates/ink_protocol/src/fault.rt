//! How sessions end before their reader does.

ghost use Rattle.std.specs.Prelude.{◌≡◌, Some};
ghost use Rattle.ink_protocol.specs.Ends.{run_fault_name};
ghost use Rattle.ink_protocol.specs.declared.fault.RunFault.TheVariants as fault;

use std::alloc::{AllocError, AllocFailed};
use std::fmt;

/// Why a session ended before its reader did. What was answered before stands.
#[derive(Clone, Copy, Debug, PartialEq, Eq, thiserror::Error)]
pub enum RunFault {
    /// The reader failed.
    Read,
    /// The writer failed, or took no byte. The command whose answer could not be written has taken effect.
    Write,
    /// A line or the input is longer than its limit.
    TooLong,
    /// Memory was refused: for a line, which was not served then, or for the text of an answer, whose command has taken
    /// effect.
    OutOfMemory,
}

impl RunFault {
    /// The fault's name, as the program prints it (docs/PROTOCOL.md, "The program").
    pub fn name(self) -> &'static str
        ensures { result.now ≡ run_fault_name self }
    {
        match self {
            RunFault::Read => "Read",
            RunFault::Write => "Write",
            RunFault::TooLong => "TooLong",
            RunFault::OutOfMemory => "OutOfMemory",
        }
    }
}

impl fmt::Display for RunFault {
    ghost output = { λ f. Some (run_fault_name f) };

    fn fmt<W: fmt::Write>(&self, f: &mut fmt::Formatter<W>) -> fmt::Result {
        f.write_str(self.name())
    }
}

impl From<AllocError> for RunFault {
    ghost from_gives = { λ _ e. e ≡ fault.OutOfMemory };

    fn from(_refused: AllocError) -> RunFault {
        RunFault::OutOfMemory
    }
}

impl<T: Drop> From<AllocFailed<T>> for RunFault {
    ghost from_gives = { λ _ e. e ≡ fault.OutOfMemory };

    fn from(_refused: AllocFailed<T>) -> RunFault {
        RunFault::OutOfMemory
    }
}
