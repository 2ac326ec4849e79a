//! The values of a text of JSON, which stand in a tape.

ghost use Rattle.std.specs.Prelude.{◌≡◌, ◌<◌, ◌^◌, ◌∷◌, true, false, length, Some, None, option_map, option_and_then, is_some, MatchOption, IfOk, OnSome};
ghost use Rattle.json.specs.Token.{begin_array};
ghost use Rattle.serde_json.specs.Data.{no_items, item};
ghost use Rattle.serde_json.specs.Find.{get, as_bool, as_str, as_array, as_object, as_number, as_u64};
ghost use Rattle.json_tape.specs.Marks.{AreMarked};
ghost use Rattle.json_tape.specs.Number.{num};
ghost use Rattle.json_tape.specs.Other.{is_other, has_other};
ghost use Rattle.json_tape.specs.Spelled.{is_readable, are_sound, data_of, held};

use crate::element::{self, Element};
use crate::marks::Marks;
use crate::number::Number;
use crate::tape::Tape;
use json::Node;
use std::alloc::{AllocError, Global};
use std::collections::BTreeMap;

/// How deep arrays and objects may nest.
const MAX_DEPTH: usize = 127;

/// A value. A clause sees its data.
#[derive(Drop)]
pub struct Value<'t, 'a> {
    pub(crate) element: Element<'t, 'a>,
    ghost readable: { is_readable element ≡ true },
}

/// The items of an array that are left. A clause sees their data.
#[derive(Drop)]
pub struct Items<'t, 'a> {
    rest: element::Items<'t, 'a>,
    ghost readable: { is_readable (begin_array ∷ rest) ≡ true },
}

/// What a value is.
#[derive(Drop)]
pub enum Kind<'t, 'a> {
    Null,
    Bool(bool),
    Number(Number),
    String(&'a str),
    Array(Items<'t, 'a>),
    Object,
}

/// The value that a tape holds; none where something in it nests too deeply, or a number has no value.
pub fn root<'t, 'a>(tape: &'t Tape<'a>) -> Option<Value<'t, 'a>>
    ensures sound { MatchOption result (are_sound 0 tape.now ≡ false) (λ v. (are_sound 0 tape.now ≡ true) × (v.element ≡ tape.now)) }
    ensures data { option_map (λ v. data_of v.element) result ≡ held tape.now }
{
    if are_sound(tape) {
        Some(Value {
            element: Element::root(tape),
        })
    } else {
        None
    }
}

/// Whether nothing in a tape nests too deeply, and each number has a value.
fn are_sound(tape: &Tape<'_>) -> bool
    ensures { result ≡ are_sound 0 tape.now }
{
    let mut levels = 0;
    for at in 0..tape.len() {
        match tape.node(at) {
            Node::Object(_) | Node::Array(_) => {
                if levels >= MAX_DEPTH {
                    return false;
                }
                levels += 1;
            }
            Node::EndObject | Node::EndArray => levels = levels.saturating_sub(1),
            Node::Number(text) => {
                if Number::parse(text).is_none() {
                    return false;
                }
            }
            Node::Key(_) | Node::String(_) | Node::Bool(_) | Node::Null => {}
        }
    }
    true
}

// Whether a name is another than these two.
#[inline(always)]
fn is_other(name: &str, first: &str, second: &str) -> bool
    ensures { result ≡ is_other first.now second.now name.now }
{
    name != first && name != second
}

impl<'t, 'a> Value<'t, 'a> {
    ghost use Rattle.json_tape.specs.Value.{json_data, is_blank, IsKind, items_left, items_of, items_count, members_of, members_data};
    ghost use Rattle.json_tape.specs.Size.{items_size};

    /// What it is.
    pub fn kind(&self) -> Kind<'t, 'a>
        ensures { IsKind result (json_data self.now) }
    {
        if let Some(text) = self.as_str() {
            Kind::String(text)
        } else if let Some(items) = self.items() {
            Kind::Array(items)
        } else if self.is_object() {
            Kind::Object
        } else if let Some(number) = self.as_number() {
            Kind::Number(number)
        } else if let Some(truth) = self.as_bool() {
            Kind::Bool(truth)
        } else {
            Kind::Null
        }
    }

    /// The text, where it is a string.
    #[inline(always)]
    pub fn as_str(&self) -> Option<&'a str>
        ensures { option_map (λ s. s.now) result ≡ as_str (json_data self.now) }
    {
        self.element.as_str()
    }

    /// Which truth it is, where it is one.
    #[inline(always)]
    pub fn as_bool(&self) -> Option<bool>
        ensures { result ≡ as_bool (json_data self.now) }
    {
        self.element.as_bool()
    }

    /// The number, where it is one.
    #[inline(always)]
    pub fn as_number(&self) -> Option<Number>
        ensures { option_map num result ≡ as_number (json_data self.now) }
    {
        match self.element.as_number() {
            Some(text) => Number::parse(text),
            None => None,
        }
    }

    /// The number, where it is one that is whole and not below 0.
    pub fn as_u64(&self) -> Option<u64>
        ensures { result ≡ option_and_then as_u64 (as_number (json_data self.now)) }
    {
        match self.as_number() {
            Some(number) => number.as_u64(),
            None => None,
        }
    }

    /// Whether it is an object.
    #[inline(always)]
    pub fn is_object(&self) -> bool
        ensures { result ≡ is_some (as_object (json_data self.now)) }
    {
        self.element.members().is_some()
    }

    /// Whether it is an object without members.
    pub fn is_blank(&self) -> bool
        ensures { result ≡ is_blank (json_data self.now) }
    {
        match self.element.members() {
            Some(mut members) => members.next().is_none(),
            None => false,
        }
    }

    /// Whether it is an object that has a member of another name than these two.
    pub fn has_other(&self, first: &str, second: &str) -> bool
        ensures { result ≡ has_other first.now second.now (members_of (json_data self.now)) }
    {
        let Some(mut members) = self.element.members() else {
            return false;
        };
        while let Some((name, _element)) = members.next() {
            if is_other(name, first, second) {
                return true;
            }
        }
        false
    }

    /// Which names the members may have, where it is an object.
    pub fn marks(&self) -> Marks
        ensures { AreMarked result (λ name. get name (json_data self.now)) }
    {
        self.element.marks()
    }

    /// The last member of this name, where it is an object.
    pub fn get(&self, name: &str) -> Option<Value<'t, 'a>>
        ensures { option_map json_data result ≡ get name.now (json_data self.now) }
    {
        match self.element.get(name) {
            Some(element) => Some(Value { element }),
            None => None,
        }
    }

    /// The items, where it is an array.
    #[inline(always)]
    pub fn items(&self) -> Option<Items<'t, 'a>>
        ensures { option_map items_left result ≡ as_array (json_data self.now) }
    {
        match self.element.items() {
            Some(rest) => Some(Items { rest }),
            None => None,
        }
    }

    /// How many items it has; none where it is no array.
    pub(crate) fn len(&self) -> usize
        requires { items_size (items_of (json_data self.now)) < 2 ^ 32 }
        ensures { result ≡ items_count (items_of (json_data self.now)) }
    {
        let mut count = 0;
        if let Some(mut items) = self.items() {
            while let Some(_) = items.next() {
                count += 1;
            }
        }
        count
    }

    /// The members, where it is an object: in the order of their names, with the last of each name.
    pub fn members(&self, alloc: Global) -> Result<BTreeMap<&'a str, Value<'t, 'a>>, AllocError>
        ensures { IfOk result (λ found. members_data found.entries ≡ members_of (json_data self.now)) }
    {
        let mut found = BTreeMap::new(alloc);
        let Some(mut members) = self.element.members() else {
            return Ok(found);
        };
        while let Some((name, element)) = members.next() {
            found.insert(name, Value { element })?;
        }
        Ok(found)
    }
}

impl<'t, 'a> Items<'t, 'a> {
    ghost use Rattle.json_tape.specs.Value.{json_data, items_left};

    /// The next item. It goes behind it.
    pub fn next(&mut self) -> Option<Value<'t, 'a>>
        ensures value { MatchOption result (items_left self.old ≡ no_items)
            (λ v. items_left self.old ≡ item (json_data v) (items_left self.new)) }
        ensures shorter { OnSome result (length self.new.rest < length self.old.rest) }
    {
        match self.rest.next() {
            Some(element) => Some(Value { element }),
            None => None,
        }
    }
}
