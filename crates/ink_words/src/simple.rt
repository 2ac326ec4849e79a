//! Values whose text as JSON needs no memory: integers and truth values.

ghost use Rattle.std.specs.Prelude.{◌≡◌, ◌++◌, ℕ, List, bytes_eq, false, map, option_map, true};
ghost use Rattle.std.specs.List.{list_all};
ghost use Rattle.std.specs.Fmt.{signed_decimal};
ghost use Rattle.serde_json.specs.Written.{comma_if, compact_text, items_text};
ghost use Rattle.ink_model.specs.Protocol.Answer.{items_of};
ghost use Rattle.ink_model.specs.Protocol.ValueJson.{value_data};
ghost use Rattle.ink_protocol.specs.Answers.{values_text};
ghost use Rattle.ink_words.specs.Simple.{goes_on, is_simple};

use ink_model::Value;

/// Whether all values are integers and truth values.
pub(crate) fn are_simple(values: &[Value]) -> bool
    ensures { result ≡ list_all is_simple values.now }
{
    values.iter().all(|value| is_simple(value))
}

fn is_simple(value: &Value) -> bool
    ensures { result ≡ is_simple value.now }
{
    match value {
        Value::Int(_) | Value::Bool(_) => true,
        _ => false,
    }
}

/// Whether a text spells such values as a compact JSON array.
pub(crate) fn spells(text: &[u8], values: &[Value]) -> bool
    requires { list_all is_simple values.now ≡ true }
    ensures { result ≡ bytes_eq (values_text values.now) text.now }
{
    match text.strip_prefix(b"[") {
        Some(rest) => spells_all(rest, values),
        None => false,
    }
}

// Whether a text spells such values with commas between them and the bracket behind the last.
fn spells_all(text: &[u8], values: &[Value]) -> bool
    requires { list_all is_simple values.now ≡ true }
    ensures { result ≡ bytes_eq (items_text false (items_of (map value_data values.now))) text.now }
{
    let mut left = text;
    let mut follows = false;
    for value in values {
        match behind(left, follows, value) {
            Some(rest) => left = rest,
            None => return false,
        }
        follows = true;
    }
    left == b"]".as_slice()
}

// What stands in a text behind a value, with a comma before it where it follows another; none where the text does not begin so.
fn behind<'a>(text: &'a [u8], follows: bool, value: &Value) -> Option<&'a [u8]>
    requires { is_simple value.now ≡ true }
    ensures { (more : List ℕ) → bytes_eq (comma_if follows ++ (compact_text (value_data value.now) ++ more)) text.now ≡ goes_on more (option_map (λ rest. rest.now) result) }
{
    if follows {
        return behind_value(text.strip_prefix(b",")?, value);
    }
    behind_value(text, value)
}

// The same of a value alone.
fn behind_value<'a>(text: &'a [u8], value: &Value) -> Option<&'a [u8]>
    requires { is_simple value.now ≡ true }
    ensures { (more : List ℕ) → bytes_eq (compact_text (value_data value.now) ++ more) text.now ≡ goes_on more (option_map (λ rest. rest.now) result) }
{
    match value {
        Value::Int(number) => behind_integer(text, *number),
        Value::Bool(true) => text.strip_prefix(b"true"),
        Value::Bool(false) => text.strip_prefix(b"false"),
        _ => unreachable!(),
    }
}

// The same of an integer.
fn behind_integer(text: &[u8], number: i32) -> Option<&[u8]>
    ensures { (more : List ℕ) → bytes_eq (signed_decimal number ++ more) text.now ≡ goes_on more (option_map (λ rest. rest.now) result) }
{
    let mut digits = itoa::Buffer::new();
    text.strip_prefix(digits.format(number).as_bytes())
}
