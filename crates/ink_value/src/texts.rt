//! Operators on two texts.

ghost use Rattle.std.specs.Prelude.{◌≡◌, ◌≢◌, [], ◌∷◌, ◌++◌, false, IfOk};
ghost use Rattle.ink_model.specs.Text.Bytes as bytes;
ghost use Rattle.ink_model.specs.Values.Joining.{is_for_texts, joins};
ghost use Rattle.ink_model.specs.Memory.Refusals.{Gives};
ghost use Rattle.ink_model.specs.Values.Operator as rules;

use ink_model::{Fault, MAX_TEXT, Op, Shared, Text, Value};
use std::alloc::{AllocError, Global};

/// Whether the operator has a result for two texts.
pub(crate) fn is_for_texts(operator: Op) -> bool
    ensures { result ≡ is_for_texts operator }
{
    matches!(
        operator,
        Op::Add | Op::Equal | Op::NotEqual | Op::Has | Op::HasNot
    )
}

/// What an operator makes of two texts that can be shared: one that is joined with nothing is shared, and not copied.
pub(crate) fn of_shared(
    alloc: Global,
    operator: Op,
    left: &Shared<Text>,
    right: &Shared<Text>,
) -> Result<Value, Fault>
    ensures result { Gives result (rules.of_texts operator left.now right.now) }
    ensures memory { joins operator (Value.Text left.now ∷ Value.Text right.now ∷ []) ≡ false → result ≢ Err Fault.OutOfMemory }
{
    match operator {
        Op::Add => joined_or_shared(alloc, left, right),
        _ => of_texts(alloc, operator, left.as_str(), right.as_str()),
    }
}

// Two texts joined, or the one that is not empty, where a text may be so long.
fn joined_or_shared(
    alloc: Global,
    left: &Shared<Text>,
    right: &Shared<Text>,
) -> Result<Value, Fault>
    ensures result { Gives result (rules.joined_text (left.now ++ right.now)) }
    ensures memory { bytes.fits_text (left.now ++ right.now) ≡ false → result ≢ Err Fault.OutOfMemory }
{
    let before = left.as_str();
    let behind = right.as_str();
    if behind.is_empty() && before.len() <= MAX_TEXT {
        return Ok(Value::Text(left.share()?));
    }
    if before.is_empty() && behind.len() <= MAX_TEXT {
        return Ok(Value::Text(right.share()?));
    }
    joined(alloc, before, behind)
}

pub(crate) fn of_texts(alloc: Global, operator: Op, left: &str, right: &str) -> Result<Value, Fault>
    ensures result { Gives result (rules.of_texts operator left.now right.now) }
    ensures memory { joins operator (Value.Text left.now ∷ Value.Text right.now ∷ []) ≡ false → result ≢ Err Fault.OutOfMemory }
{
    match operator {
        Op::Add => joined(alloc, left, right),
        Op::Equal => Ok(Value::Bool(left == right)),
        Op::NotEqual => Ok(Value::Bool(left != right)),
        Op::Has => Ok(Value::Bool(has(left, right))),
        Op::HasNot => Ok(Value::Bool(!has(left, right))),
        _ => Err(Fault::BadOperands),
    }
}

fn joined(alloc: Global, left: &str, right: &str) -> Result<Value, Fault>
    ensures result { Gives result (rules.joined_text (left.now ++ right.now)) }
    ensures memory { bytes.fits_text (left.now ++ right.now) ≡ false → result ≢ Err Fault.OutOfMemory }
{
    if left.len() + right.len() > MAX_TEXT {
        return Err(Fault::TooDeep);
    }
    Ok(Value::Text(Shared::new(alloc, both(alloc, left, right)?)?))
}

// A text that is two others, one after the other.
#[inline(always)]
fn both(alloc: Global, left: &str, right: &str) -> Result<Text, AllocError>
    ensures { IfOk result (λ text. text ≡ left.now ++ right.now) }
{
    let mut text = String::with_capacity(alloc, left.len() + right.len())?;
    text.push_str(left)?;
    text.push_str(right)?;
    Ok(Text::from_string(text))
}

// Whether the second text stands in the first.
#[tactic(auto, using(crate::proofs::Standing::has_from_contains))]
fn has(text: &str, part: &str) -> bool
    ensures { result ≡ bytes.has text.now part.now }
{
    text.contains(part)
}
