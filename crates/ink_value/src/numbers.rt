//! Operators on two integers of 32 bits, which wrap. None of them takes memory.

ghost use Rattle.std.specs.Prelude.{◌≡◌};
ghost use Rattle.ink_model.specs.Values.Operator as rules;

use ink_model::{Fault, Op, Value};

/// What an operator makes of two integers. `BadOperands` for one that takes another number of operands, or texts.
#[inline(always)]
pub(crate) fn of_numbers(operator: Op, x: i32, y: i32) -> Result<Value, Fault>
    ensures { result ≡ rules.of_numbers operator x y }
{
    match operator {
        Op::Add => Ok(Value::Int(x.wrapping_add(y))),
        Op::Subtract => Ok(Value::Int(x.wrapping_sub(y))),
        Op::Divide => quotient(x, y),
        Op::Multiply => Ok(Value::Int(x.wrapping_mul(y))),
        Op::Remainder => remainder(x, y),
        Op::Equal => Ok(Value::Bool(x == y)),
        Op::Greater => Ok(Value::Bool(x > y)),
        Op::Less => Ok(Value::Bool(x < y)),
        Op::AtLeast => Ok(Value::Bool(x >= y)),
        Op::AtMost => Ok(Value::Bool(x <= y)),
        Op::NotEqual => Ok(Value::Bool(x != y)),
        Op::And => Ok(Value::Bool(x != 0 && y != 0)),
        Op::Or => Ok(Value::Bool(x != 0 || y != 0)),
        Op::Min => Ok(Value::Int(x.min(y))),
        Op::Max => Ok(Value::Int(x.max(y))),
        _ => Err(Fault::BadOperands),
    }
}

// Truncated toward zero.
fn quotient(x: i32, y: i32) -> Result<Value, Fault>
    ensures { result ≡ rules.quotient x y }
{
    if can_divide(x, y) {
        Ok(Value::Int(x / y))
    } else {
        Err(Fault::Divide)
    }
}

// With the sign of the dividend.
fn remainder(x: i32, y: i32) -> Result<Value, Fault>
    ensures { result ≡ rules.remainder x y }
{
    if can_divide(x, y) {
        Ok(Value::Int(x % y))
    } else {
        Err(Fault::Divide)
    }
}

// Whether there is a quotient, and it fits.
fn can_divide(x: i32, y: i32) -> bool
    ensures { result ≡ rules.can_divide x y }
{
    y != 0 && !(x == i32::MIN && y == -1)
}
