//! The truth of values.

ghost use Rattle.std.specs.Prelude.{◌≡◌};
ghost use Rattle.ink_model.specs.Values.Value as rules;

use ink_model::{Fault, Value};

/// Whether a value is true (docs/VALUES.md).
///
/// `BadOperands` where it is neither true nor false.
#[tactic(auto, unfolding(ink_model::specs::Values::Value::is_true))]
pub fn is_true(value: &Value) -> Result<bool, Fault>
    ensures { result ≡ rules.is_true value.now }
{
    match value {
        Value::Int(number) => Ok(*number != 0),
        Value::Bool(truth) => Ok(*truth),
        Value::Text(text) => Ok(!text.as_str().is_empty()),
        Value::Void => Ok(false),
        Value::Target(_) | Value::Pointer(..) | Value::Tag(_) => Err(Fault::BadOperands),
    }
}
