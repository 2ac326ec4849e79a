//! Members of objects, one after another.

ghost use Rattle.std.specs.Prelude.{◌≡◌, IfOk, IfSome, OnErr, Some, option_and_then, option_map, true};
ghost use Rattle.ink_model.specs.Save.Unspelled.{closed};
ghost use Rattle.ink_model.specs.Save.Unspelled as rules;

use crate::spelled::Spelled;
use json_tape::Json;
use std::alloc::{AllocError, Global};

/// The value of the next member, if it has this name. It goes one member on.
pub(crate) fn next_named<J: Json>(members: &mut J::Members, name: &str) -> Option<J>
    ensures { option_map (λ j. (J.spells j, J.members members.new)) result ≡ rules.next_named name.now (J.members members.old) }
{
    let (key, value) = J::next_member(members)?;
    if name == J::name_text(&key) {
        Some(value)
    } else {
        None
    }
}

/// What the value of the next member spells, if it has this name. It goes one member on. The one error is a refused request for
/// memory.
pub(crate) fn next_spelled<J: Json, T: Spelled>(
    alloc: Global,
    members: &mut J::Members,
    name: &str,
) -> Result<Option<T>, AllocError>
    ensures found { IfOk result (λ found. found ≡ option_and_then (λ r. T.spelled r.0) (rules.next_named name.now (J.members members.old))) }
    ensures rest { IfOk result (λ found. IfSome found (λ _. option_map (λ r. r.1) (rules.next_named name.now (J.members members.old)) ≡ Some (J.members members.new))) }
    ensures memory { OnErr result (option_map (λ r. T.asks r.0) (rules.next_named name.now (J.members members.old)) ≡ Some true) }
{
    match next_named::<J>(members, name) {
        Some(json) => T::read::<J>(alloc, json),
        None => Ok(None),
    }
}

/// What was read, if there is no further member.
pub(crate) fn alone<J: Json, T: Drop>(members: &mut J::Members, found: T) -> Option<T>
    ensures found { result ≡ closed found (J.members members.old) }
    ensures same { IfSome result (λ r. r ≡ found) }
{
    match J::next_member(members) {
        Some(_) => None,
        None => Some(found),
    }
}
