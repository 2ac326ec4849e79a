//! JSON values that are read where they stand.

ghost use Rattle.std.specs.Prelude.{◌≡◌, ℕ, List, Some, option_map};
ghost use Rattle.std.specs.Slice.Iter.{iter_rest};
ghost use Rattle.serde_json.specs.Data.{Data, Items, Members};
ghost use Rattle.serde_json.specs.Find.{as_str};
ghost use Rattle.serde_json.specs.View.{items_view, members_view, number_view, view};
ghost use Rattle.json_tape.specs.Shape.{IsKind, first_item, first_member};
ghost use Rattle.json_tape.specs.Number.{num};

use crate::number::Number;
use serde_json::Value;
use std::collections::btree_map;
use std::slice;

/// What a JSON value is.
#[derive(Drop)]
pub enum Kind<'j, I, M> {
    Null,
    Bool(bool),
    Number(Number),
    String(&'j str),
    Array(I),
    Object(M),
}

/// A JSON value.
pub trait Json: Sized + Drop {
    /// The elements of an array that are left.
    type Items: Drop;

    /// The members of an object that are left, in the order of their names.
    type Members: Drop;

    /// The name of a member.
    type Name: Drop;

    ghost spells: { Self → Data };

    ghost elements: { Self.Items → Items };

    ghost members: { Self.Members → Members };

    ghost named: { Self.Name → List ℕ };

    /// What it is.
    fn kind(&self) -> Kind<'_, Self::Items, Self::Members>
        ensures { IsKind elements members result (spells self.now) };

    /// The next element. It goes behind it.
    fn next_item(left: &mut Self::Items) -> Option<Self>
        ensures { option_map (λ j. (spells j, elements left.new)) result ≡ first_item (elements left.old) };

    /// The next member, with its name. It goes behind it.
    fn next_member(left: &mut Self::Members) -> Option<(Self::Name, Self)>
        ensures { option_map (λ m. (named m.0, (spells m.1, members left.new))) result ≡ first_member (members left.old) };

    /// The text of a name.
    fn name_text<'n>(name: &'n Self::Name) -> &'n str
        ensures { result.now ≡ named name.now };

    /// The same members once more.
    fn again(left: &Self::Members) -> Self::Members
        ensures { members result ≡ members left.now };
}

/// A JSON value whose text may be kept for longer than the value.
pub trait Lent<'j>: Json {
    /// The text, where it is a string.
    fn text(&self) -> Option<&'j str>
        ensures { option_map (λ t. t.now) result ≡ as_str (Self.spells self.now) };
}

impl<'v> Json for &'v Value {
    type Items = slice::Iter<'v, Value>;

    type Members = btree_map::Iter<'v, String, Value>;

    type Name = &'v str;

    ghost spells = { λ j. view j.now };

    ghost elements = { λ left. items_view (iter_rest left) };

    ghost members = { λ left. members_view left };

    ghost named = { λ name. name.now };

    fn kind(&self) -> Kind<'_, slice::Iter<'v, Value>, btree_map::Iter<'v, String, Value>> {
        match *self {
            Value::Null => Kind::Null,
            Value::Bool(truth) => Kind::Bool(*truth),
            Value::Number(number) => Kind::Number(number_of(number)),
            Value::String(text) => Kind::String(text.as_str()),
            Value::Array(items) => Kind::Array(items.iter()),
            Value::Object(members) => Kind::Object(members.iter()),
        }
    }

    fn next_item(left: &mut slice::Iter<'v, Value>) -> Option<&'v Value> {
        left.next()
    }

    fn next_member(left: &mut btree_map::Iter<'v, String, Value>) -> Option<(&'v str, &'v Value)> {
        let (name, value) = left.next()?;
        Some((name.as_str(), value))
    }

    fn name_text<'n>(name: &'n &'v str) -> &'n str {
        *name
    }

    fn again(left: &btree_map::Iter<'v, String, Value>) -> btree_map::Iter<'v, String, Value> {
        match left.clone() {
            Ok(same) => same,
            Err(_) => unreachable!(),
        }
    }
}

impl<'v> Lent<'v> for &'v Value {
    fn text(&self) -> Option<&'v str> {
        match *self {
            Value::String(text) => Some(text.as_str()),
            Value::Null | Value::Bool(_) | Value::Number(_) | Value::Array(_) | Value::Object(_) =>
                { None }
        }
    }
}

// The number that one of the JSON library is.
fn number_of(number: &serde_json::Number) -> Number
    ensures { Some (num result) ≡ Some (number_view number.now) }
{
    if let Some(natural) = number.as_u64() {
        return Number::Unsigned(natural);
    }
    match number.as_i64() {
        Some(integer) => Number::Negative(integer),
        None => Number::Float(number.as_f64().unwrap_or(0.0)),
    }
}
