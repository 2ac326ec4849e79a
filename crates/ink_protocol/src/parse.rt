//! JSON in command lines.

ghost use Rattle.std.specs.Prelude.{◌≡◌, IfOk, option_map};
ghost use Rattle.serde_json.specs.View.{view};
ghost use Rattle.ink_model.specs.Protocol.Command.{json_of};

use serde_json::Value;
use std::alloc::{AllocError, Global};

/// The JSON value that a text spells, if it spells one. The one error is a refused request for memory.
pub(crate) fn parsed(alloc: Global, text: &str) -> Result<Option<Value>, AllocError>
    ensures { IfOk result (λ json. option_map view json ≡ json_of text.now) }
{
    match Value::from_str(alloc, text) {
        Ok(json) => Ok(Some(json)),
        Err(error) => {
            if error.is_memory() {
                return Err(AllocError);
            }
            Ok(None)
        }
    }
}
