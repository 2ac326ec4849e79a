//! Places.

ghost use Rattle.json_tape.specs.Number.{num};
ghost use Rattle.std.specs.Prelude.{◌≡◌};
ghost use Rattle.ink_model.specs.Save.Asks.{place_asks, text_asks};
ghost use Rattle.ink_model.specs.Save.Unspelled.{any_place_of, index_of, part_of};

use crate::spelled::{Spelled, read_items};
use ink_model::{Part, Seq, Text};
use json_tape::{Json, Kind, Number};
use std::alloc::{AllocError, Global};

impl Spelled for Part {
    ghost spelled = { λ j. part_of j };

    ghost asks = { λ j. text_asks j };

    fn read<J: Json>(alloc: Global, json: J) -> Result<Option<Part>, AllocError> {
        match json.kind() {
            Kind::Number(number) => Ok(small_index(number)),
            Kind::String(text) => {
                let name = Text::from_str(alloc, text)?;
                Ok(Some(Part::Name(name)))
            }
            Kind::Null | Kind::Bool(_) | Kind::Array(_) | Kind::Object(_) => Ok(None),
        }
    }
}

fn small_index(number: Number) -> Option<Part>
    ensures { result ≡ index_of (num number) }
{
    match number {
        Number::Unsigned(index) if index <= u32::MAX as u64 => Some(Part::Index(index as u32)),
        Number::Unsigned(_) | Number::Negative(_) | Number::Float(_) => None,
    }
}

impl Spelled for Option<Seq<Part>> {
    ghost spelled = { λ j. any_place_of j };

    ghost asks = { λ j. place_asks j };

    fn read<J: Json>(alloc: Global, json: J) -> Result<Option<Option<Seq<Part>>>, AllocError> {
        match json.kind() {
            Kind::Null => Ok(Some(None)),
            Kind::Array(items) => match read_items::<J, Part>(alloc, items)? {
                Some(place) => Ok(Some(Some(place))),
                None => Ok(None),
            },
            Kind::Bool(_) | Kind::Number(_) | Kind::String(_) | Kind::Object(_) => Ok(None),
        }
    }
}
