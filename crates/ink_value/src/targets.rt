//! Operators on two divert targets.

ghost use Rattle.std.specs.Prelude.{◌≡◌};
ghost use Rattle.ink_model.specs.Values.Operator as rules;
ghost use Rattle.ink_model.specs.Values.Value as values;

use ink_model::{Fault, Op, Part, Path, Value};

pub(crate) fn of_targets(operator: Op, p: &Path, q: &Path) -> Result<Value, Fault>
    ensures { result ≡ rules.of_targets operator p.now q.now }
{
    match operator {
        Op::Equal => Ok(Value::Bool(same_path(p, q))),
        Op::NotEqual => Ok(Value::Bool(!same_path(p, q))),
        _ => Err(Fault::BadOperands),
    }
}

pub(crate) fn same_path(p: &Path, q: &Path) -> bool
    ensures { result ≡ values.same_path p.now q.now }
{
    p.relative == q.relative && same_parts(p.parts.as_slice(), q.parts.as_slice())
}

#[tactic(auto, using(crate::proofs::Lengths::same_length))]
fn same_parts(left: &[Part], right: &[Part]) -> bool
    ensures { result ≡ values.same_parts left.now right.now }
{
    if left.len() != right.len() {
        return false;
    }
    for i in 0..left.len() {
        if !same_part(&left[i], &right[i]) {
            return false;
        }
    }
    true
}

fn same_part(left: &Part, right: &Part) -> bool
    ensures { result ≡ values.same_part left.now right.now }
{
    match (left, right) {
        (Part::Index(i), Part::Index(j)) => *i == *j,
        (Part::Name(name), Part::Name(other)) => name.as_str() == other.as_str(),
        _ => false,
    }
}
