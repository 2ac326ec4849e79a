//! When two values are the same.

ghost use Rattle.std.specs.Prelude.{◌≡◌, ◌↔◌, true};
ghost use Rattle.ink_model.specs.Values.Same as rules;

use crate::targets::same_path;
use ink_model::Value;

/// Whether two values are the same: of one kind, with the same content. Takes no memory.
pub fn same_value(left: &Value, right: &Value) -> bool
    ensures value { result ≡ rules.same_value left.now right.now }
    ensures exact { (result ≡ true) ↔ (left.now ≡ right.now) }
{
    match (left, right) {
        (Value::Int(i), Value::Int(j)) => *i == *j,
        (Value::Bool(b), Value::Bool(c)) => *b == *c,
        (Value::Text(text), Value::Text(other)) => text.as_str() == other.as_str(),
        (Value::Target(path), Value::Target(other)) => same_path(path.get(), other.get()),
        (Value::Pointer(frame, name), Value::Pointer(other_frame, other)) => {
            *frame == *other_frame && name.get().as_str() == other.get().as_str()
        }
        (Value::Void, Value::Void) => true,
        (Value::Tag(text), Value::Tag(other)) => text.as_str() == other.as_str(),
        _ => false,
    }
}
