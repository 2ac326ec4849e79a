//! Rows of places and numbers: visits and turns. Names in their places stay where they stand in the save.

ghost use Rattle.json_tape.specs.Number.{num};
ghost use Rattle.std.specs.Prelude.{◌≡◌, IfOk, IfSome, OnErr, Some, map, option_and_then, option_map, true};
ghost use Rattle.serde_json.specs.Data.{array};
ghost use Rattle.serde_json.specs.Find.{as_str};
ghost use Rattle.ink_model.specs.Save.Asks.{counts_ask, items_ask, none_asks, pair_asks, place_asks, text_asks};
ghost use Rattle.ink_model.specs.Save.Unspelled as rules;
ghost use Rattle.ink_model.specs.Save.Unspelled.{all_of, count_of, index_of, list_of, pair_of, part_of, place_of};
ghost use Rattle.ink_model.specs.declared.place.Part.TheVariants.{Name};
ghost use Rattle.ink_spelling.specs.Readings.{pair_by, part_as, two_ask, two_in};

use crate::members::next_named;
use crate::pair::two;
use crate::spelled::Spelled;
use ink_model::Seq;
use json_tape::{Kind, Lent, Number};
use smallvec::SmallVec;
use std::alloc::{AllocError, Global};
use std::marker::Model;

/// A part of a place as it is spelled, with a name where it stands in the save.
#[derive(Clone, Copy)]
pub enum SavedPart<'j> {
    Index(u32),
    Name(&'j str),
}

/// What an empty slot of a place holds.
impl Default for SavedPart<'_> {
    fn default() -> Self {
        SavedPart::Index(0)
    }
}

/// A place as it is spelled, with its names where they stand in the save. Most places have two parts at most, which take no memory.
/// A contract sees the place.
#[derive(Drop)]
pub struct SavedPlace<'j> {
    parts: SmallVec<SavedPart<'j>, 2>,
}

impl<'j> Model for SavedPlace<'j> {
    ghost use Rattle.std.specs.Prelude.{List, map};
    ghost use Rattle.ink_model.specs.declared.place.Part.{Part};
    ghost use Rattle.ink_spelling.specs.Readings.{part_as};

    ghost Value = { List Part };

    ghost view = { λ p. map part_as p.parts.items };
}

impl<'j> SavedPlace<'j> {
    /// Its parts.
    pub fn parts(&self) -> &[SavedPart<'j>]
        ensures { map part_as result.now ≡ self.now }
    {
        self.parts.as_slice()
    }
}

/// The rows that the value of the next member spells, if it has this name. It goes one member on. The one error is a refused
/// request for memory.
pub(crate) fn next_rows<'j, J: Lent<'j>>(
    alloc: Global,
    members: &mut J::Members,
    name: &str,
) -> Result<Option<Seq<(SavedPlace<'j>, u64)>>, AllocError>
    ensures found { IfOk result (λ found. found ≡ option_and_then (λ r. list_of (pair_of place_of count_of) r.0) (rules.next_named name.now (J.members members.old))) }
    ensures rest { IfOk result (λ found. IfSome found (λ _. option_map (λ r. r.1) (rules.next_named name.now (J.members members.old)) ≡ Some (J.members members.new))) }
    ensures memory { OnErr result (option_map (λ r. counts_ask r.0) (rules.next_named name.now (J.members members.old)) ≡ Some true) }
{
    match next_named::<J>(members, name) {
        Some(json) => read_rows::<J>(alloc, json),
        None => Ok(None),
    }
}

// The rows that a JSON value spells. The one error is a refused request for memory.
fn read_rows<'j, J: Lent<'j>>(
    alloc: Global,
    json: J,
) -> Result<Option<Seq<(SavedPlace<'j>, u64)>>, AllocError>
    ensures found { IfOk result (λ found. found ≡ list_of (pair_of place_of count_of) (J.spells json)) }
    ensures memory { OnErr result (counts_ask (J.spells json) ≡ true) }
{
    match json.kind() {
        Kind::Array(items) => read_all::<J>(alloc, items),
        Kind::Null | Kind::Bool(_) | Kind::Number(_) | Kind::String(_) | Kind::Object(_) => Ok(
            None,
        ),
    }
}

// The rows that elements spell. The one error is a refused request for memory.
fn read_all<'j, J: Lent<'j>>(
    alloc: Global,
    items: J::Items,
) -> Result<Option<Seq<(SavedPlace<'j>, u64)>>, AllocError>
    ensures found { IfOk result (λ found. found ≡ all_of (pair_of place_of count_of) (J.elements items)) }
    ensures memory { OnErr result (items_ask (pair_of place_of count_of) (pair_asks place_of place_asks none_asks) (J.elements items) ≡ true) }
{
    let mut made = Vec::new(alloc);
    let mut rest = items;
    while let Some(item) = J::next_item(&mut rest) {
        match read_row::<J>(alloc, item)? {
            Some(row) => made.push(row)?,
            None => return Ok(None),
        }
    }
    Ok(Some(Seq::from_vec(made)))
}

// The row that a JSON value spells. The one error is a refused request for memory.
fn read_row<'j, J: Lent<'j>>(
    alloc: Global,
    json: J,
) -> Result<Option<(SavedPlace<'j>, u64)>, AllocError>
    ensures found { IfOk result (λ row. row ≡ pair_of place_of count_of (J.spells json)) }
    ensures memory { OnErr result (pair_asks place_of place_asks none_asks (J.spells json) ≡ true) }
{
    match json.kind() {
        Kind::Array(items) => read_array::<J>(alloc, items),
        Kind::Null | Kind::Bool(_) | Kind::Number(_) | Kind::String(_) | Kind::Object(_) => Ok(
            None,
        ),
    }
}

// The row that elements spell. The one error is a refused request for memory.
fn read_array<'j, J: Lent<'j>>(
    alloc: Global,
    items: J::Items,
) -> Result<Option<(SavedPlace<'j>, u64)>, AllocError>
    ensures found { IfOk result (λ row. row ≡ pair_of place_of count_of (array (J.elements items))) }
    ensures memory { OnErr result (pair_asks place_of place_asks none_asks (array (J.elements items)) ≡ true) }
{
    read_two::<J>(alloc, items)
}

// The same by the two of them.
fn read_two<'j, J: Lent<'j>>(
    alloc: Global,
    items: J::Items,
) -> Result<Option<(SavedPlace<'j>, u64)>, AllocError>
    ensures found { IfOk result (λ row. row ≡ pair_by place_of count_of (two_in (J.elements items))) }
    ensures memory { OnErr result (two_ask place_of place_asks none_asks (two_in (J.elements items)) ≡ true) }
{
    let Some((first, second)) = two::<J>(items) else {
        return Ok(None);
    };
    let Some(place) = read_place::<J>(alloc, first)? else {
        return Ok(None);
    };
    let Some(count) = u64::read::<J>(alloc, second)? else {
        return Ok(None);
    };
    Ok(Some((place, count)))
}

// The place that a JSON value spells. The one error is a refused request for memory.
fn read_place<'j, J: Lent<'j>>(alloc: Global, json: J) -> Result<Option<SavedPlace<'j>>, AllocError>
    ensures found { IfOk result (λ place. place ≡ place_of (J.spells json)) }
    ensures memory { OnErr result (place_asks (J.spells json) ≡ true) }
{
    match json.kind() {
        Kind::Array(items) => read_parts::<J>(alloc, items),
        Kind::Null | Kind::Bool(_) | Kind::Number(_) | Kind::String(_) | Kind::Object(_) => Ok(
            None,
        ),
    }
}

// The place that elements spell. The one error is a refused request for memory.
fn read_parts<'j, J: Lent<'j>>(
    alloc: Global,
    items: J::Items,
) -> Result<Option<SavedPlace<'j>>, AllocError>
    ensures found { IfOk result (λ place. place ≡ all_of part_of (J.elements items)) }
    ensures memory { OnErr result (items_ask part_of text_asks (J.elements items) ≡ true) }
{
    let mut parts = SmallVec::new(alloc);
    let mut rest = items;
    while let Some(item) = J::next_item(&mut rest) {
        match read_part::<J>(item) {
            Some(part) => parts.push(part)?,
            None => return Ok(None),
        }
    }
    Ok(Some(SavedPlace { parts }))
}

// The part that a JSON value spells.
fn read_part<'j, J: Lent<'j>>(json: J) -> Option<SavedPart<'j>>
    ensures { option_map part_as result ≡ part_of (J.spells json) }
{
    match json.kind() {
        Kind::Number(number) => read_index(number),
        Kind::String(_) => read_name::<J>(&json),
        Kind::Null | Kind::Bool(_) | Kind::Array(_) | Kind::Object(_) => None,
    }
}

fn read_index<'j>(number: Number) -> Option<SavedPart<'j>>
    ensures { option_map part_as result ≡ index_of (num number) }
{
    match number {
        Number::Unsigned(index) if index <= u32::MAX as u64 => Some(SavedPart::Index(index as u32)),
        Number::Unsigned(_) | Number::Negative(_) | Number::Float(_) => None,
    }
}

fn read_name<'j, J: Lent<'j>>(json: &J) -> Option<SavedPart<'j>>
    ensures { option_map part_as result ≡ option_map (λ t. Name t) (as_str (J.spells json.now)) }
{
    match json.text() {
        Some(name) => Some(SavedPart::Name(name)),
        None => None,
    }
}
