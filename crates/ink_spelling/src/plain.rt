//! Numbers, truth values and texts.

ghost use Rattle.json_tape.specs.Number.{num};
ghost use Rattle.std.specs.Prelude.{◌≡◌, IfOk, is_some};
ghost use Rattle.serde_json.specs.Find.{as_u64};
ghost use Rattle.ink_model.specs.Save.Asks.{none_asks, text_asks};
ghost use Rattle.ink_model.specs.Save.Unspelled.{count_of, format_of, int_of, number_integer, text_of, truth_of};

use crate::spelled::Spelled;
use ink_model::{Shared, Text};
use json_tape::{Json, Kind, Number};
use std::alloc::{AllocError, Global};

impl Spelled for i32 {
    ghost spelled = { λ j. int_of j };

    ghost asks = { λ j. none_asks j };

    fn read<J: Json>(_alloc: Global, json: J) -> Result<Option<i32>, AllocError> {
        match json.kind() {
            Kind::Number(number) => Ok(small_integer(number)),
            Kind::Null | Kind::Bool(_) | Kind::String(_) | Kind::Array(_) | Kind::Object(_) => {
                Ok(None)
            }
        }
    }
}

/// The integer of 32 bits that a number is, if it is one.
pub(crate) fn small_integer(number: Number) -> Option<i32>
    ensures { result ≡ number_integer (num number) }
{
    match number {
        Number::Unsigned(natural) if natural <= i32::MAX as u64 => Some(natural as i32),
        Number::Negative(below) if below < 0 && below >= i32::MIN as i64 => Some(below as i32),
        Number::Unsigned(_) | Number::Negative(_) | Number::Float(_) => None,
    }
}

impl Spelled for u64 {
    ghost spelled = { λ j. count_of j };

    ghost asks = { λ j. none_asks j };

    fn read<J: Json>(_alloc: Global, json: J) -> Result<Option<u64>, AllocError> {
        match json.kind() {
            Kind::Number(number) => Ok(natural(number)),
            Kind::Null | Kind::Bool(_) | Kind::String(_) | Kind::Array(_) | Kind::Object(_) => {
                Ok(None)
            }
        }
    }
}

fn natural(number: Number) -> Option<u64>
    ensures { result ≡ as_u64 (num number) }
{
    match number {
        Number::Unsigned(natural) => Some(natural),
        Number::Negative(_) | Number::Float(_) => None,
    }
}

impl Spelled for bool {
    ghost spelled = { λ j. truth_of j };

    ghost asks = { λ j. none_asks j };

    fn read<J: Json>(_alloc: Global, json: J) -> Result<Option<bool>, AllocError> {
        match json.kind() {
            Kind::Bool(truth) => Ok(Some(truth)),
            Kind::Null | Kind::Number(_) | Kind::String(_) | Kind::Array(_) | Kind::Object(_) => {
                Ok(None)
            }
        }
    }
}

impl Spelled for Text {
    ghost spelled = { λ j. text_of j };

    ghost asks = { λ j. text_asks j };

    fn read<J: Json>(alloc: Global, json: J) -> Result<Option<Text>, AllocError> {
        match json.kind() {
            Kind::String(text) => Ok(Some(Text::from_str(alloc, text)?)),
            Kind::Null | Kind::Bool(_) | Kind::Number(_) | Kind::Array(_) | Kind::Object(_) => {
                Ok(None)
            }
        }
    }
}

impl Spelled for Shared<Text> {
    ghost spelled = { λ j. text_of j };

    ghost asks = { λ j. text_asks j };

    fn read<J: Json>(alloc: Global, json: J) -> Result<Option<Shared<Text>>, AllocError> {
        match json.kind() {
            Kind::String(text) => Ok(Some(shared_text(alloc, text)?)),
            Kind::Null | Kind::Bool(_) | Kind::Number(_) | Kind::Array(_) | Kind::Object(_) => {
                Ok(None)
            }
        }
    }
}

/// A copy of a text, to be shared. The one error is a refused request for memory.
pub(crate) fn shared_text(alloc: Global, text: &str) -> Result<Shared<Text>, AllocError>
    ensures { IfOk result (λ copy. copy ≡ text.now) }
{
    Shared::new(alloc, Text::from_str(alloc, text)?)
}

/// Whether a JSON value is the number of a layout.
pub(crate) fn is_layout<J: Json>(json: J, layout: u64) -> bool
    ensures { result ≡ is_some (format_of layout (J.spells json)) }
{
    match json.kind() {
        Kind::Number(number) => natural(number) == Some(layout),
        Kind::Null | Kind::Bool(_) | Kind::String(_) | Kind::Array(_) | Kind::Object(_) => false,
    }
}
