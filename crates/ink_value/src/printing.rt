//! The printed text of values.

ghost use Rattle.std.specs.Prelude.{◌≡◌, ◌≢◌};
ghost use Rattle.ink_model.specs.Memory.Refusals.{Gives};
ghost use Rattle.ink_model.specs.Values.Value as rules;

use ink_model::{Fault, Text, Value};
use std::alloc::Global;

/// The printed text of a value (docs/VALUES.md).
///
/// `BadOperands` where it has none, whatever memory there is; `OutOfMemory` for a refused request for memory, which is never
/// made for void, whose text is empty.
#[tactic(auto, unfolding(ink_model::specs::Values::Value::printed))]
pub fn printed(alloc: Global, value: &Value) -> Result<Text, Fault>
    ensures result { Gives result (rules.printed value.now) }
    ensures memory { value.now ≡ Value.Void → result ≢ Err Fault.OutOfMemory }
{
    match value {
        Value::Int(number) => Ok(Text::from_string(number.to_string(alloc)?)),
        Value::Bool(truth) => Ok(Text::from_str(alloc, truth_text(*truth))?),
        Value::Text(text) => Ok(text.get().clone_in(alloc)?),
        Value::Void => Ok(Text::from_string(String::new(alloc))),
        Value::Target(_) | Value::Pointer(..) | Value::Tag(_) => Err(Fault::BadOperands),
    }
}

fn truth_text(truth: bool) -> &'static str
    ensures { result.now ≡ rules.truth_text truth }
{
    if truth { "true" } else { "false" }
}
