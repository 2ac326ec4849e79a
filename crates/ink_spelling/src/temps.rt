//! Temporaries of frames.

ghost use Rattle.std.specs.Prelude.{◌≡◌, ◌++◌, ◌∷◌, [], IfOk, OnErr, OnOk, true};
ghost use Rattle.ink_model.specs.Save.Asks.{rows_ask, temps_ask};
ghost use Rattle.ink_model.specs.Save.Unspelled.{rows_of, temps_of};

use crate::plain::shared_text;
use crate::spelled::Spelled;
use crate::value::SavedValue;
use ink_model::{Shared, Text};
use json_tape::{Json, Kind};
use std::alloc::{AllocError, Global};
use std::marker::Model;

/// Values by name, in the order of an object's members. A contract sees the rows.
#[derive(Drop)]
pub struct SavedTemps {
    rows: Vec<(Shared<Text>, SavedValue)>,
}

impl Model for SavedTemps {
    ghost use Rattle.ink_model.specs.Variables.Store.{Values};

    ghost Value = { Values };

    ghost view = { λ t. t.rows.items };
}

impl SavedTemps {
    /// The rows.
    pub fn rows(&self) -> &[(Shared<Text>, SavedValue)]
        ensures { result.now ≡ self.now }
    {
        self.rows.as_slice()
    }
}

impl Spelled for SavedTemps {
    ghost spelled = { λ j. temps_of j };

    ghost asks = { λ j. temps_ask j };

    fn read<J: Json>(alloc: Global, json: J) -> Result<Option<SavedTemps>, AllocError> {
        match json.kind() {
            Kind::Object(members) => read_rows::<J>(alloc, members),
            Kind::Null | Kind::Bool(_) | Kind::Number(_) | Kind::String(_) | Kind::Array(_) => {
                Ok(None)
            }
        }
    }
}

// Adds a row. The one error is a refused request for memory.
fn add_row(
    alloc: Global,
    rows: &mut Vec<(Shared<Text>, SavedValue)>,
    name: &str,
    value: SavedValue,
) -> Result<(), AllocError>
    ensures { OnOk result (rows.new.items ≡ rows.old.items ++ (name.now, value) ∷ []) }
{
    let name = shared_text(alloc, name)?;
    rows.push((name, value))?;
    Ok(())
}

// The rows that members spell. The one error is a refused request for memory.
fn read_rows<J: Json>(alloc: Global, members: J::Members) -> Result<Option<SavedTemps>, AllocError>
    ensures found { IfOk result (λ temps. temps ≡ rows_of (J.members members)) }
    ensures memory { OnErr result (rows_ask (J.members members) ≡ true) }
{
    let mut rows = Vec::new(alloc);
    let mut rest = members;
    while let Some((name, json)) = J::next_member(&mut rest) {
        match SavedValue::read::<J>(alloc, json)? {
            Some(value) => add_row(alloc, &mut rows, J::name_text(&name), value)?,
            None => return Ok(None),
        }
    }
    Ok(Some(SavedTemps { rows }))
}
