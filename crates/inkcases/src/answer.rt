//! Answers to the questions of a table.

use ink_model::{Cause, Fault, Halt, ReadRefusal, Refusal};
use std::alloc::{AllocError, AllocFailed};

/// Why a question has no plain answer: a refused request for memory, a fault, a refused story or path, a refused call of a
/// player, or words that are no question.
#[derive(Clone, Copy)]
pub enum NoAnswer {
    OutOfMemory,
    Fault(Fault),
    Unread(Cause),
    Refused(Refusal),
    NoQuestion,
}

impl From<AllocError> for NoAnswer {
    fn from(_refused: AllocError) -> NoAnswer {
        NoAnswer::OutOfMemory
    }
}

impl<T: Drop> From<AllocFailed<T>> for NoAnswer {
    fn from(_refused: AllocFailed<T>) -> NoAnswer {
        NoAnswer::OutOfMemory
    }
}

impl From<Fault> for NoAnswer {
    fn from(fault: Fault) -> NoAnswer {
        match fault {
            Fault::OutOfMemory => NoAnswer::OutOfMemory,
            fault => NoAnswer::Fault(fault),
        }
    }
}

impl From<ReadRefusal> for NoAnswer {
    fn from(refusal: ReadRefusal) -> NoAnswer {
        NoAnswer::from_cause(refusal.cause)
    }
}

impl NoAnswer {
    /// That of a refused story.
    pub fn from_cause(cause: Cause) -> NoAnswer {
        match cause {
            Cause::OutOfMemory => NoAnswer::OutOfMemory,
            cause => NoAnswer::Unread(cause),
        }
    }
}

impl From<Refusal> for NoAnswer {
    fn from(refusal: Refusal) -> NoAnswer {
        match refusal {
            Refusal::OutOfMemory | Refusal::Broken(Fault::OutOfMemory) => NoAnswer::OutOfMemory,
            refusal => NoAnswer::Refused(refusal),
        }
    }
}

impl From<Halt> for NoAnswer {
    fn from(halt: Halt) -> NoAnswer {
        match halt {
            Halt::Refused(refusal) => NoAnswer::from(refusal),
            Halt::Fault { fault, events: _ } => NoAnswer::from(fault),
        }
    }
}
