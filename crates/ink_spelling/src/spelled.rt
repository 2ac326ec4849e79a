//! What JSON values spell, and lists of it.

ghost use Rattle.std.specs.Prelude.{◌≡◌, Bool, IfOk, OnErr, Option, true};
ghost use Rattle.serde_json.specs.Data.{Data};
ghost use Rattle.ink_model.specs.Save.Asks.{items_ask, list_asks};
ghost use Rattle.ink_model.specs.Save.Unspelled.{all_of, list_of};

use ink_model::Seq;
use json_tape::{Json, Kind};
use std::alloc::{AllocError, Global};

/// What a JSON value may spell.
pub trait Spelled {
    ghost spelled: { Data → Option Self };

    ghost asks: { Data → Bool };

    /// What a JSON value spells, if it spells one. The one error is a refused request for memory, which is asked for only where
    /// something of the value is kept.
    fn read<J: Json>(alloc: Global, json: J) -> Result<Option<Self>, AllocError>
        ensures found { IfOk result (λ found. found ≡ spelled (J.spells json)) }
        ensures memory { OnErr result (asks (J.spells json) ≡ true) };
}

impl<T: Spelled + Drop> Spelled for Seq<T> {
    ghost spelled = { λ j. list_of T.spelled j };

    ghost asks = { λ j. list_asks T.spelled T.asks j };

    fn read<J: Json>(alloc: Global, json: J) -> Result<Option<Seq<T>>, AllocError> {
        match json.kind() {
            Kind::Array(items) => read_items::<J, T>(alloc, items),
            Kind::Null | Kind::Bool(_) | Kind::Number(_) | Kind::String(_) | Kind::Object(_) => {
                Ok(None)
            }
        }
    }
}

/// The list that the elements of an array spell, if each spells one. The one error is a refused request for memory.
pub(crate) fn read_items<J: Json, T: Spelled + Drop>(
    alloc: Global,
    items: J::Items,
) -> Result<Option<Seq<T>>, AllocError>
    ensures found { IfOk result (λ found. found ≡ all_of T.spelled (J.elements items)) }
    ensures memory { OnErr result (items_ask T.spelled T.asks (J.elements items) ≡ true) }
{
    let mut made = Vec::new(alloc);
    let mut rest = items;
    while let Some(item) = J::next_item(&mut rest) {
        match T::read::<J>(alloc, item)? {
            Some(part) => made.push(part)?,
            None => return Ok(None),
        }
    }
    Ok(Some(Seq::from_vec(made)))
}
