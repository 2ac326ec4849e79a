//! What a container's last element says of the container itself.

ghost use Rattle.std.specs.Prelude.{◌≡◌, false, true, not, MatchOption, Some, None, option_map, if◌then◌else◌, IfOk};
ghost use Rattle.json_tape.specs.Other.{has_other};
ghost use Rattle.json_tape.specs.Value.{json_data, members_of};
ghost use Rattle.ink_model.specs.Story.Grammar.{own_of, is_last, are_flags, flags_of, is_name, name_in, member_of, flags_key, name_key, is_own};
ghost use Rattle.ink_json.specs.Reading.{IsLabel, is_whole};

use crate::texts::Texts;
use ink_model::{Shared, Text};
use json_tape::value::{Kind, Value};
use std::alloc::AllocError;

/// What a container gives itself: its flags, and in list position its name.
#[derive(Drop)]
pub(crate) struct Own<'a> {
    pub(crate) name: Option<&'a str>,
    pub(crate) flags: u8,
}

/// What a container gives itself; none where its last element is not such.
pub(crate) fn read_own<'a>(array: &Value<'_, 'a>, listed: bool) -> Option<Own<'a>>
    ensures { MatchOption result (is_whole (own_of (json_data array.now)) ≡ false) (λ o.
        (is_whole (own_of (json_data array.now)) ≡ true)
        × (o.flags ≡ flags_of (own_of (json_data array.now)))
        × (option_map (λ n. n.now) o.name ≡ (if listed then name_in (own_of (json_data array.now)) else None))) }
{
    match last_item(array) {
        Some(last) => own_in(&last, listed),
        None => None,
    }
}

/// The last item, where it is an array.
fn last_item<'t, 'a>(array: &Value<'t, 'a>) -> Option<Value<'t, 'a>>
    ensures { option_map json_data result ≡ own_of (json_data array.now) }
{
    let mut items = array.items()?;
    let mut last = None;
    while let Some(item) = items.next() {
        last = Some(item);
    }
    last
}

fn own_in<'a>(last: &Value<'_, 'a>, listed: bool) -> Option<Own<'a>>
    ensures { MatchOption result (is_whole (Some (json_data last.now)) ≡ false) (λ o.
        (is_whole (Some (json_data last.now)) ≡ true)
        × (o.flags ≡ flags_of (Some (json_data last.now)))
        × (option_map (λ n. n.now) o.name ≡ (if listed then name_in (Some (json_data last.now)) else None))) }
{
    if !is_last(last) {
        return None;
    }
    let flags = read_flags(last)?;
    let name = if listed { name_in(last) } else { None };
    Some(Own { name, flags })
}

/// Whether a value may be a container's last element.
fn is_last(value: &Value<'_, '_>) -> bool
    ensures { result ≡ is_last (Some (json_data value.now)) }
{
    matches!(value.kind(), Kind::Null | Kind::Object)
}

/// The flags that a last element gives, none where they are not from 0 to 7.
fn read_flags(last: &Value<'_, '_>) -> Option<u8>
    ensures { MatchOption result (are_flags (member_of flags_key (Some (json_data last.now))) ≡ false)
        (λ flags. (are_flags (member_of flags_key (Some (json_data last.now))) ≡ true) × (flags ≡ flags_of (Some (json_data last.now)))) }
{
    let Some(flags) = last.get("#f") else {
        return Some(0);
    };
    match flags.as_u64() {
        Some(flags) if flags < 8 => Some(flags as u8),
        _ => None,
    }
}

/// The name that a last element gives.
fn name_in<'a>(last: &Value<'_, 'a>) -> Option<&'a str>
    ensures { option_map (λ n. n.now) result ≡ name_in (Some (json_data last.now)) }
{
    match last.get("#n") {
        Some(name) => name.as_str(),
        None => None,
    }
}

/// What content says of its own name: whether what it gives for one is a text, and the name.
#[derive(Clone, Copy)]
pub(crate) struct Label<'a> {
    pub(crate) sound: bool,
    pub(crate) name: Option<&'a str>,
}

/// The label of content, of which an array's last element alone gives any.
pub(crate) fn label_of<'a>(value: &Value<'_, 'a>) -> Label<'a>
    ensures { IsLabel result (json_data value.now) }
{
    match last_item(value) {
        Some(last) => label_in(&last),
        None => Label {
            sound: true,
            name: None,
        },
    }
}

fn label_in<'a>(last: &Value<'_, 'a>) -> Label<'a>
    ensures sound { result.sound ≡ is_name (member_of name_key (Some (json_data last.now))) }
    ensures name { option_map (λ n. n.now) result.name ≡ name_in (Some (json_data last.now)) }
{
    let Some(name) = last.get("#n") else {
        return Label {
            sound: true,
            name: None,
        };
    };
    let name = name.as_str();
    Label {
        sound: name.is_some(),
        name,
    }
}

/// Whether a last element has a member whose key may be the name of a container.
pub(crate) fn has_names(last: &Value<'_, '_>) -> bool
    ensures { result ≡ has_other name_key flags_key (members_of (json_data last.now)) }
{
    last.has_other("#n", "#f")
}

/// Whether a key is no name of a container.
pub(crate) fn is_own(key: &str) -> bool
    ensures { result ≡ is_own key.now }
{
    key == "#n" || key == "#f"
}

/// A copy of a name, where there is one.
pub(crate) fn copy_name(
    texts: &mut Texts,
    name: Option<&str>,
) -> Result<Option<Shared<Text>>, AllocError>
    ensures { IfOk result (λ copy. copy ≡ option_map (λ n. n.now) name.entry) }
{
    match name {
        Some(name) => Ok(Some(texts.keep(name)?)),
        None => Ok(None),
    }
}
