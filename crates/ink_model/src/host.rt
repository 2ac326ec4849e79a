//! What a host's objects are asked and answer, and what happened between them and a player (docs/HOST.md).

ghost use Rattle.std.specs.Prelude.{◌≡◌, IfOk, OnErr};
ghost use Rattle.ink_model.specs.Host.Bindings.{value_given};
ghost use Rattle.ink_model.specs.declared.host.HostFault.TheVariants as fault;

use crate::seq::Seq;
use crate::shared::Shared;
use crate::text::Text;
use crate::value::Value;
use std::alloc::{AllocError, AllocFailed, Global};

/// What a host object answers, and what a global is given. A function may answer `Void`; a global is given none.
#[derive(Debug, Drop)]
pub enum Given {
    Int(i32),
    Bool(bool),
    Text(Shared<Text>),
    Void,
}

impl Given {
    ghost use Rattle.ink_model.specs.Host.Bindings.{giving, shares};
    ghost use Rattle.ink_model.specs.declared.host.Given.TheVariants as given;

    /// A text of its own. The one error is a refused request for memory.
    pub fn text(alloc: Global, text: &str) -> Result<Given, AllocError>
        ensures { IfOk result (λ answer. answer ≡ given.Text text.now) }
    {
        Ok(Given::Text(Shared::new(alloc, Text::from_str(alloc, text)?)?))
    }

    /// The answer that gives this value, such as one from `get`; none for a target, a pointer or a tag. Takes no memory.
    pub fn from_value(value: Value) -> Option<Given>
        ensures { result ≡ giving value }
    {
        match value {
            Value::Int(number) => Some(Given::Int(number)),
            Value::Bool(truth) => Some(Given::Bool(truth)),
            Value::Text(text) => Some(Given::Text(text)),
            Value::Void => Some(Given::Void),
            Value::Target(_) | Value::Pointer(..) | Value::Tag(_) => None,
        }
    }

    /// A copy, which shares a text: it asks for no memory. The one error is a count of owners that is full.
    pub fn clone_in(&self, _alloc: Global) -> Result<Given, AllocError>
        ensures copy { IfOk result (λ copy. copy ≡ self.now) }
        ensures memory { OnErr result (shares self.now) }
    {
        match self {
            Given::Int(number) => Ok(Given::Int(*number)),
            Given::Bool(truth) => Ok(Given::Bool(*truth)),
            Given::Text(text) => Ok(Given::Text(text.share()?)),
            Given::Void => Ok(Given::Void),
        }
    }
}

/// What is given, as a value.
pub fn value_given(given: Given) -> Value
    ensures { result ≡ value_given given }
{
    match given {
        Given::Int(number) => Value::Int(number),
        Given::Bool(truth) => Value::Bool(truth),
        Given::Text(text) => Value::Text(text),
        Given::Void => Value::Void,
    }
}

/// Why a host object gives no answer: it refuses the call, or was itself refused memory.
#[derive(Clone, Copy, Debug, PartialEq, Eq, thiserror::Error)]
pub enum HostFault {
    #[error("Refused")]
    Refused,
    #[error("OutOfMemory")]
    OutOfMemory,
}

impl From<AllocError> for HostFault {
    ghost from_gives = { λ _ e. e ≡ fault.OutOfMemory };

    fn from(_refused: AllocError) -> HostFault {
        HostFault::OutOfMemory
    }
}

impl<T: Drop> From<AllocFailed<T>> for HostFault {
    ghost from_gives = { λ _ e. e ≡ fault.OutOfMemory };

    fn from(_refused: AllocFailed<T>) -> HostFault {
        HostFault::OutOfMemory
    }
}

/// What happened between a player and the objects of its host: a turn function was called and gave an answer, none where it
/// refused; or a watcher saw the new value of a global. Stamps number all events of a player, from 0.
#[derive(Debug, Drop)]
pub enum Event {
    Call {
        name: Text,
        arguments: Seq<Value>,
        gave: Option<Given>,
        stamp: u64,
    },
    Saw {
        name: Text,
        stamp: u64,
        value: Value,
    },
}

/// A global that has another value than before, with the new one; also one that was not there.
#[derive(Debug, Drop)]
pub struct Change {
    pub name: Text,
    pub value: Value,
}
