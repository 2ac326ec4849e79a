//! Values.

ghost use Rattle.std.specs.Prelude.{◌≡◌, true, IfOk, OnErr};

use crate::place::Path;
use crate::shared::Shared;
use crate::text::Text;
use std::alloc::{AllocError, Global};

/// A value of a running story. It takes 16 bytes: what does not fit into them is shared, and the number of a pointer stands
/// before its name.
#[derive(Debug, Drop)]
pub enum Value {
    Int(i32),
    Bool(bool),
    Text(Shared<Text>),
    Target(Shared<Path>),
    Pointer(i32, Shared<Text>),
    Void,
    Tag(Shared<Text>),
}

impl Value {
    ghost use Rattle.ink_model.specs.Memory.Refusals.{holds_memory};

    /// A copy, which shares what it can: it asks for no memory. The one error is a count of owners that is full.
    pub fn clone_in(&self, _alloc: Global) -> Result<Value, AllocError>
        ensures copy { IfOk result (λ copy. copy ≡ self.now) }
        ensures memory { OnErr result (holds_memory self.now ≡ true) }
    {
        match self {
            Value::Int(number) => Ok(Value::Int(*number)),
            Value::Bool(truth) => Ok(Value::Bool(*truth)),
            Value::Text(text) => Ok(Value::Text(text.share()?)),
            Value::Target(path) => Ok(Value::Target(path.share()?)),
            Value::Pointer(frame, name) => Ok(Value::Pointer(*frame, name.share()?)),
            Value::Void => Ok(Value::Void),
            Value::Tag(text) => Ok(Value::Tag(text.share()?)),
        }
    }
}
