//! Operators on values.

ghost use Rattle.std.specs.Prelude.{◌≡◌, ◌≢◌, ◌&&◌, ◌||◌, false, true, is_some, None, Some, [], ◌∷◌, List, ℕ};
ghost use Rattle.ink_model.specs.Values.Joining.{is_for_texts, is_number, is_text, joins, makes_text};
ghost use Rattle.ink_model.specs.Memory.Refusals.{Gives};
ghost use Rattle.ink_model.specs.Values.Operator as rules;
ghost use Rattle.ink_model.specs.Values.Operator.{operand, both};
ghost use Rattle.ink_value.specs.Standing as words;

use crate::numbers::of_numbers;
use crate::printing::printed;
use crate::targets::of_targets;
use crate::texts::{is_for_texts, of_shared, of_texts};
use ink_model::{Fault, Op, Path, Shared, Text, Value};
use std::alloc::Global;

/// What an operator makes of as many values as it takes, in the order in which they were pushed (docs/VALUES.md).
///
/// `BadOperands` where the operator has no result for values of these kinds, or for as many; `Divide` for a divisor that is 0,
/// and for the least integer by -1; `TooDeep` for a text that would be longer than a text may be; `OutOfMemory` for a
/// refused request for memory. Memory is asked for only where two texts are joined to one within its limit, and for the text of
/// a number beside a text: never for values without a text, for comparisons of two texts, and where the answer is
/// `BadOperands` or `Divide`.
#[tactic(auto, unfolding(ink_model::specs::Values::Operator::apply))]
#[inline(always)]
pub fn apply(alloc: Global, operator: Op, values: &[Value]) -> Result<Value, Fault>
    ensures result { Gives result (rules.apply operator values.now) }
    ensures memory { makes_text operator values.now ≡ false → result ≢ Err Fault.OutOfMemory }
{
    match values {
        [Value::Int(left), Value::Int(right)] => of_numbers(operator, *left, *right),
        [value] => of_one(operator, value),
        [left, right] => of_two(alloc, operator, left, right),
        _ => Err(Fault::BadOperands),
    }
}

#[tactic(auto, using(crate::proofs::Operands::operand_number))]
fn of_one(operator: Op, value: &Value) -> Result<Value, Fault>
    ensures { result ≡ rules.of_one operator (operand value.now) }
{
    match number_of(value) {
        Some(number) => of_number(operator, number),
        None => Err(Fault::BadOperands),
    }
}

fn of_number(operator: Op, x: i32) -> Result<Value, Fault>
    ensures { (text : List ℕ) → result ≡ rules.of_one operator (rules.number x text) }
{
    match operator {
        Op::Negate => Ok(Value::Int(x.wrapping_neg())),
        Op::Not => Ok(Value::Bool(x == 0)),
        Op::Floor | Op::Ceiling | Op::Int => Ok(Value::Int(x)),
        _ => Err(Fault::BadOperands),
    }
}

#[inline(always)]
fn of_two(alloc: Global, operator: Op, left: &Value, right: &Value) -> Result<Value, Fault>
    ensures result { Gives result (rules.of_two operator (both (operand left.now) (operand right.now))) }
    ensures memory { makes_text operator (left.now ∷ right.now ∷ []) ≡ false → result ≢ Err Fault.OutOfMemory }
{
    if let Some(number) = number_of(left) {
        return after_number(alloc, operator, left, number, right);
    }
    match left {
        Value::Text(text) => after_text(alloc, operator, text, right),
        Value::Target(path) => after_target(operator, path.get(), right),
        _ => Err(Fault::BadOperands),
    }
}

/// The number that an integer or a boolean counts for.
#[inline(always)]
pub(crate) fn number_of(value: &Value) -> Option<i32>
    ensures { result ≡ words.number_of value.now }
{
    match value {
        Value::Int(number) => Some(*number),
        Value::Bool(truth) => Some(i32::from(*truth)),
        _ => None,
    }
}

// A value that stands for a number, and any value.
#[inline(always)]
fn after_number(
    alloc: Global,
    operator: Op,
    left: &Value,
    number: i32,
    right: &Value,
) -> Result<Value, Fault>
    requires { words.number_of left.now ≡ Some number }
    ensures result { Gives result (rules.of_two operator (both (operand left.now) (operand right.now))) }
    ensures memory { is_for_texts operator && is_text right.now ≡ false → result ≢ Err Fault.OutOfMemory }
{
    match number_of(right) {
        Some(other) => of_numbers(operator, number, other),
        None => before_text(alloc, operator, left, right),
    }
}

// A value that stands for a number, and one that stands for none.
#[tactic(auto, using(crate::proofs::Operands::operand_counted, crate::proofs::Operands::printed_counted))]
#[inline(never)]
fn before_text(alloc: Global, operator: Op, left: &Value, right: &Value) -> Result<Value, Fault>
    requires number { is_some (words.number_of left.now) ≡ true }
    requires other { words.number_of right.now ≡ None }
    ensures result { Gives result (rules.of_two operator (both (operand left.now) (operand right.now))) }
    ensures memory { is_for_texts operator && is_text right.now ≡ false → result ≢ Err Fault.OutOfMemory }
{
    match right {
        Value::Text(text) if is_for_texts(operator) => {
            let left = printed(alloc, left)?;
            of_texts(alloc, operator, left.as_str(), text.as_str())
        }
        _ => Err(Fault::BadOperands),
    }
}

// A text and any value.
#[tactic(auto, unfolding(ink_model::specs::Values::Value::printed))]
#[inline(never)]
fn after_text(
    alloc: Global,
    operator: Op,
    left: &Shared<Text>,
    right: &Value,
) -> Result<Value, Fault>
    ensures result { Gives result (rules.of_two operator (both (rules.words left.now) (operand right.now))) }
    ensures memory { joins operator (Value.Text left.now ∷ right.now ∷ []) || (is_for_texts operator && is_number right.now) ≡ false → result ≢ Err Fault.OutOfMemory }
{
    match right {
        Value::Text(text) => of_shared(alloc, operator, left, text),
        Value::Int(_) | Value::Bool(_) if is_for_texts(operator) => {
            let text = printed(alloc, right)?;
            of_texts(alloc, operator, left.as_str(), text.as_str())
        }
        _ => Err(Fault::BadOperands),
    }
}

// A divert target and any value.
#[inline(never)]
fn after_target(operator: Op, left: &Path, right: &Value) -> Result<Value, Fault>
    ensures { result ≡ rules.of_two operator (both (rules.target left.now) (operand right.now)) }
{
    match right {
        Value::Target(path) => of_targets(operator, left, path.get()),
        _ => Err(Fault::BadOperands),
    }
}
