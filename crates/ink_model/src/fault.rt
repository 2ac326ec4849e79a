//! Refusals and faults.

ghost use Rattle.std.specs.Prelude.{◌≡◌, Some};
ghost use Rattle.ink_model.specs.declared.fault.Fault.TheVariants.{OutOfMemory};

use crate::host::Event;
use crate::place::Place;
use crate::seq::Seq;
use std::alloc::{AllocError, AllocFailed, Global};
use std::fmt;

/// Why a story is refused.
#[derive(Clone, Copy, Debug, PartialEq, Eq, thiserror::Error)]
pub enum Cause {
    /// The bytes are no UTF-8, or no JSON.
    NotJson,
    /// `inkVersion` is neither 20 nor 21.
    Version,
    /// What stands there has no form that the format knows.
    Shape,
    /// What stands there is known, and left out: lists, floats, shuffles; or it is a word that is not known.
    Unsupported,
    /// A path leads nowhere, or to what it may not.
    BadPath,
    /// The story, a text, a number or the nesting of containers is over its limit.
    Limit,
    /// A request for memory was refused.
    OutOfMemory,
}

/// A refused story: why, and the place of what is wrong, which is the root where the whole is.
#[derive(Debug, Drop, thiserror::Error)]
pub struct ReadRefusal {
    pub cause: Cause,
    pub place: Place,
}

/// What can go wrong while a story runs.
#[derive(Clone, Copy, Debug, PartialEq, Eq, thiserror::Error)]
pub enum Fault {
    /// A value is taken or looked at where there is none.
    StackEmpty,
    /// An operand, a printed value, a condition, the text of a choice or an argument is of a kind that does not fit.
    BadOperands,
    /// A division by 0, or of the least integer by -1.
    Divide,
    /// What begins or ends there may not: evaluation mode, a string, a tag, or a call in which strings or tags were left open; or glue is evaluated.
    BadMode,
    /// The top frame is not the one that returns; or a tunnel returns with a value that is neither void nor a target.
    BadPop,
    /// A value that is to name a place is no target, or leads nowhere.
    BadTarget,
    /// A pointer leads to a frame that is gone or to no global, or a chain of pointers is too long.
    BadPointer,
    /// A count is asked for that the container does not keep.
    NotCounted,
    /// A temporary is assigned that was not declared.
    NoTemp,
    /// A turn function is called while a string is open.
    UnsafeInString,
    /// An external function is neither bound nor a knot.
    Unbound,
    /// The object of the host refused to answer.
    HostRefused,
    /// Flow stops while a string or a tag is open.
    StopInString,
    /// A limit is reached: of values, frames, threads, choices, sections, marks, or the length of a text.
    TooDeep,
    /// A command made 1,000,000 steps and has not ended.
    OutOfSteps,
    /// A request for memory was refused.
    OutOfMemory,
}

/// Why a command is refused. Nothing has changed then.
#[derive(Clone, Copy, Debug, PartialEq, Eq, thiserror::Error)]
pub enum Refusal {
    /// Flow has stopped.
    CannotContinue,
    /// There is no visible choice of that number.
    NotAChoice,
    /// There is no global of that name.
    NoSuchVariable,
    /// The path leads nowhere, or to what it may not.
    NoSuchPath,
    /// The value cannot be set: it is of another kind, or over its limit. Or the name is none of a flow.
    BadValue,
    /// The save does not fit this story, or is none.
    BadSave,
    /// The line is no command.
    BadCommand,
    /// There is no flow of that name.
    NoSuchFlow,
    /// The first flow cannot be dropped.
    DefaultFlow,
    /// There are as many flows as there may be.
    TooManyFlows,
    /// The player is broken by this fault, until a load or a restart.
    Broken(Fault),
    /// A request for memory was refused.
    OutOfMemory,
}

/// Why a command was not done: it was refused, and nothing has changed; or a fault ended it, with the events up to it.
#[derive(Debug, Drop, thiserror::Error)]
pub enum Halt {
    Refused(Refusal),
    Fault { fault: Fault, events: Seq<Event> },
}

impl Cause {
    ghost use Rattle.ink_model.specs.Protocol.Answer.{cause_name, is_of_a_place};

    /// The cause's name, as the program prints it (docs/PROTOCOL.md, "The program").
    pub fn name(self) -> &'static str
        ensures { result.now ≡ cause_name self }
    {
        match self {
            Cause::NotJson => "NotJson",
            Cause::Version => "Version",
            Cause::Shape => "Shape",
            Cause::Unsupported => "Unsupported",
            Cause::BadPath => "BadPath",
            Cause::Limit => "Limit",
            Cause::OutOfMemory => "OutOfMemory",
        }
    }

    /// Whether a story that is refused for this cause is so for what stands at one place.
    pub fn is_of_a_place(self) -> bool
        ensures { result ≡ is_of_a_place self }
    {
        match self {
            Cause::Shape | Cause::Unsupported | Cause::BadPath | Cause::Limit => true,
            Cause::NotJson | Cause::Version | Cause::OutOfMemory => false,
        }
    }
}

impl fmt::Display for Cause {
    ghost use Rattle.ink_model.specs.Protocol.Answer.{cause_name};

    ghost output = { λ c. Some (cause_name c) };

    fn fmt<W: fmt::Write>(&self, f: &mut fmt::Formatter<W>) -> fmt::Result {
        f.write_str(self.name())
    }
}

impl Fault {
    ghost use Rattle.ink_model.specs.Protocol.Answer.{fault_name};

    /// The fault's name, as answers have it (docs/PROTOCOL.md, "Answers").
    pub fn name(self) -> &'static str
        ensures { result.now ≡ fault_name self }
    {
        match self {
            Fault::StackEmpty => "StackEmpty",
            Fault::BadOperands => "BadOperands",
            Fault::Divide => "Divide",
            Fault::BadMode => "BadMode",
            Fault::BadPop => "BadPop",
            Fault::BadTarget => "BadTarget",
            Fault::BadPointer => "BadPointer",
            Fault::NotCounted => "NotCounted",
            Fault::NoTemp => "NoTemp",
            Fault::UnsafeInString => "UnsafeInString",
            Fault::Unbound => "Unbound",
            Fault::HostRefused => "HostRefused",
            Fault::StopInString => "StopInString",
            Fault::TooDeep => "TooDeep",
            Fault::OutOfSteps => "OutOfSteps",
            Fault::OutOfMemory => "OutOfMemory",
        }
    }
}

impl fmt::Display for Fault {
    ghost use Rattle.ink_model.specs.Protocol.Answer.{fault_name};

    ghost output = { λ f. Some (fault_name f) };

    fn fmt<W: fmt::Write>(&self, f: &mut fmt::Formatter<W>) -> fmt::Result {
        f.write_str(self.name())
    }
}

impl Refusal {
    ghost use Rattle.ink_model.specs.Protocol.Answer.{refusal_name};

    /// The refusal's name, as answers have it (docs/PROTOCOL.md, "Answers").
    pub fn name(self) -> &'static str
        ensures { result.now ≡ refusal_name self }
    {
        match self {
            Refusal::CannotContinue => "CannotContinue",
            Refusal::NotAChoice => "NotAChoice",
            Refusal::NoSuchVariable => "NoSuchVariable",
            Refusal::NoSuchPath => "NoSuchPath",
            Refusal::BadValue => "BadValue",
            Refusal::BadSave => "BadSave",
            Refusal::BadCommand => "BadCommand",
            Refusal::NoSuchFlow => "NoSuchFlow",
            Refusal::DefaultFlow => "DefaultFlow",
            Refusal::TooManyFlows => "TooManyFlows",
            Refusal::Broken(_) => "Broken",
            Refusal::OutOfMemory => "OutOfMemory",
        }
    }
}

impl fmt::Display for Refusal {
    ghost use Rattle.ink_model.specs.Protocol.Answer.{refusal_name};

    ghost output = { λ r. Some (refusal_name r) };

    fn fmt<W: fmt::Write>(&self, f: &mut fmt::Formatter<W>) -> fmt::Result {
        f.write_str(self.name())
    }
}

impl ReadRefusal {
    ghost use Rattle.ink_model.specs.Story.Grammar.{here};

    /// A refusal of the story as a whole, at its root. Takes no memory.
    pub fn at_root(alloc: Global, cause: Cause) -> ReadRefusal
        ensures { result ≡ here cause }
    {
        ReadRefusal {
            cause,
            place: Place::root(alloc),
        }
    }
}

/// The cause, and where it is of one place ` at ` with that.
impl fmt::Display for ReadRefusal {
    ghost use Rattle.ink_model.specs.Protocol.Answer.{refused_story_text};

    ghost output = { λ r. Some (refused_story_text r) };

    fn fmt<W: fmt::Write>(&self, f: &mut fmt::Formatter<W>) -> fmt::Result {
        f.write_str(self.cause.name())?;
        if self.cause.is_of_a_place() {
            f.write_str(" at ")?;
            self.place.fmt(f)?;
        }
        Ok(())
    }
}

/// `refused: ` and the refusal's name, or `fault: ` and the fault's.
impl fmt::Display for Halt {
    ghost use Rattle.ink_model.specs.Protocol.Answer.{halt_text};

    ghost output = { λ h. Some (halt_text h) };

    fn fmt<W: fmt::Write>(&self, f: &mut fmt::Formatter<W>) -> fmt::Result {
        match self {
            Halt::Refused(refusal) => write!(f, "refused: {refusal}"),
            Halt::Fault { fault, events: _ } => write!(f, "fault: {fault}"),
        }
    }
}

impl From<AllocError> for Fault {
    ghost from_gives = { λ _ e. e ≡ OutOfMemory };

    fn from(_refused: AllocError) -> Fault {
        Fault::OutOfMemory
    }
}

impl<T: Drop> From<AllocFailed<T>> for Fault {
    ghost from_gives = { λ _ e. e ≡ OutOfMemory };

    fn from(_refused: AllocFailed<T>) -> Fault {
        Fault::OutOfMemory
    }
}

/// Why something was not made: memory was refused, or it was refused itself.
#[derive(Drop)]
pub enum Failure<E> {
    OutOfMemory,
    Refused(E),
}

impl<E> From<AllocError> for Failure<E> {
    ghost use Rattle.ink_model.specs.declared.fault.Failure.TheVariants as failure;

    ghost from_gives = { λ _ e. e ≡ failure.OutOfMemory };

    fn from(_refused: AllocError) -> Failure<E> {
        Failure::OutOfMemory
    }
}

impl<E, T: Drop> From<AllocFailed<T>> for Failure<E> {
    ghost use Rattle.ink_model.specs.declared.fault.Failure.TheVariants as failure;

    ghost from_gives = { λ _ e. e ≡ failure.OutOfMemory };

    fn from(_refused: AllocFailed<T>) -> Failure<E> {
        Failure::OutOfMemory
    }
}
