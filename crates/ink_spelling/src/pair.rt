//! Pairs: arrays of two.

ghost use Rattle.std.specs.Prelude.{◌≡◌, IfOk, OnErr, option_map, true};
ghost use Rattle.serde_json.specs.Data.{array};
ghost use Rattle.ink_spelling.specs.Readings.{pair_by, two_ask, two_in};
ghost use Rattle.ink_model.specs.Save.Asks.{pair_asks};
ghost use Rattle.ink_model.specs.Save.Unspelled.{pair_of};

use crate::spelled::Spelled;
use json_tape::{Json, Kind};
use std::alloc::{AllocError, Global};

impl<A: Spelled + Drop, B: Spelled + Drop> Spelled for (A, B) {
    ghost spelled = { λ j. pair_of A.spelled B.spelled j };

    ghost asks = { λ j. pair_asks A.spelled A.asks B.asks j };

    fn read<J: Json>(alloc: Global, json: J) -> Result<Option<(A, B)>, AllocError> {
        match json.kind() {
            Kind::Array(items) => read_array::<J, A, B>(alloc, items),
            Kind::Null | Kind::Bool(_) | Kind::Number(_) | Kind::String(_) | Kind::Object(_) => {
                Ok(None)
            }
        }
    }
}

// The pair that elements spell. The one error is a refused request for memory.
fn read_array<J: Json, A: Spelled + Drop, B: Spelled + Drop>(
    alloc: Global,
    items: J::Items,
) -> Result<Option<(A, B)>, AllocError>
    ensures found { IfOk result (λ found. found ≡ pair_of A.spelled B.spelled (array (J.elements items))) }
    ensures memory { OnErr result (pair_asks A.spelled A.asks B.asks (array (J.elements items)) ≡ true) }
{
    read_two::<J, A, B>(alloc, items)
}

// The same by the two of them.
fn read_two<J: Json, A: Spelled + Drop, B: Spelled + Drop>(
    alloc: Global,
    items: J::Items,
) -> Result<Option<(A, B)>, AllocError>
    ensures found { IfOk result (λ found. found ≡ pair_by A.spelled B.spelled (two_in (J.elements items))) }
    ensures memory { OnErr result (two_ask A.spelled A.asks B.asks (two_in (J.elements items)) ≡ true) }
{
    let Some((first, second)) = two::<J>(items) else {
        return Ok(None);
    };
    let Some(first) = A::read::<J>(alloc, first)? else {
        return Ok(None);
    };
    let Some(second) = B::read::<J>(alloc, second)? else {
        return Ok(None);
    };
    Ok(Some((first, second)))
}

/// The elements, where there are two.
pub(crate) fn two<J: Json>(items: J::Items) -> Option<(J, J)>
    ensures { option_map (λ p. (J.spells p.0, J.spells p.1)) result ≡ two_in (J.elements items) }
{
    let mut rest = items;
    let first = J::next_item(&mut rest)?;
    let second = J::next_item(&mut rest)?;
    match J::next_item(&mut rest) {
        Some(_) => None,
        None => Some((first, second)),
    }
}
