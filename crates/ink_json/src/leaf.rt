//! Reading content that holds no other.

ghost use Rattle.std.specs.Prelude.{◌≡◌, ℕ, List, length, nat_lt, IfSome, Ok, Err, if◌then◌else◌, ok_or};
ghost use Rattle.serde_json.specs.Data.{string};
ghost use Rattle.serde_json.specs.Find.{as_integer};
ghost use Rattle.json_tape.specs.Number.{num};
ghost use Rattle.json_tape.specs.Value.{json_data};
ghost use Rattle.ink_model.specs.Story.Word.{word};
ghost use Rattle.ink_model.specs.Story.Leaves.{string_leaf, integer_leaf};
ghost use Rattle.ink_json.specs.Reading.{Reads, placed};

use crate::error::{ReadFailure, refused};
use crate::limits::{LEAST, MOST};
use crate::texts::Texts;
use crate::word::word_leaf;
use ink_model::{Cause, Leaf, MAX_TEXT};
use json_tape::Number;
use json_tape::value::Value;
use std::alloc::Global;

/// The leaf that a string is.
#[inline(never)]
#[tactic(auto, unfolding(ink_model::specs::Story::Leaves::string_leaf))]
pub(crate) fn read_string(alloc: Global, texts: &mut Texts, text: &str) -> Result<Leaf, ReadFailure>
    ensures { Reads (λ l. l) result (placed (string_leaf text.now)) }
{
    match text.strip_prefix('^') {
        Some(written) => read_written(alloc, texts, written),
        None => read_word(alloc, text),
    }
}

fn read_written(alloc: Global, texts: &mut Texts, written: &str) -> Result<Leaf, ReadFailure>
    ensures { Reads (λ l. l) result
        (placed (if nat_lt MAX_TEXT (length written.now) then Err Cause.Limit else Ok (Leaf.Text written.now))) }
{
    if written.len() > MAX_TEXT {
        return Err(refused(alloc, Cause::Limit));
    }
    Ok(Leaf::Text(texts.keep(written)?))
}

fn read_word(alloc: Global, text: &str) -> Result<Leaf, ReadFailure>
    ensures { Reads (λ l. l) result (placed (ok_or (word text.now) Cause.Unsupported)) }
{
    match word_leaf(text) {
        Some(leaf) => Ok(leaf),
        None => Err(refused(alloc, Cause::Unsupported)),
    }
}

/// The leaf that a value is which is a word, as most elements are; none where it is none.
#[inline(always)]
pub(crate) fn word_in(value: &Value<'_, '_>) -> Option<Leaf>
    ensures { IfSome result (λ leaf. (text : List ℕ) × (json_data value.now ≡ string text) × (string_leaf text ≡ Ok leaf)) }
{
    let text = value.as_str()?;
    match text.strip_prefix('^') {
        Some(_) => None,
        None => word_leaf(text),
    }
}

/// The leaf that a number is.
pub(crate) fn read_number(alloc: Global, number: Number) -> Result<Leaf, ReadFailure>
    ensures { Reads (λ l. l) result (placed (integer_leaf (as_integer (num number)))) }
{
    match number.as_i128() {
        Some(number) if number < LEAST || number > MOST => { Err(refused(alloc, Cause::Limit)) }
        Some(number) => Ok(Leaf::Int(number as i32)),
        None => Err(refused(alloc, Cause::Unsupported)),
    }
}
