//! Values and places that a save spells, in a story.

ghost use Rattle.std.specs.Prelude.{◌≡◌, ◌↔◌, IfOk, IsTrue, option_map};
ghost use Rattle.ink_model.specs.Text.Bytes.{fits_text};
ghost use Rattle.ink_restore.specs.Building.{Builds};
ghost use Rattle.ink_spelling.specs.Readings.{ReadsSame};
ghost use Rattle.ink_model.specs.Save.Sound.{AnyPlace, PathFits, PlaceFits, RowFits, ValueFits};
ghost use Rattle.ink_tree.specs.Nodes.{place_of, story_tree};

use crate::building::Built;
use ink_model::{MAX_TEXT, Part, Path, Seq, Shared, Text, Value};
use ink_spelling::SavedValue;
use ink_tree::{NodeId, Spot, Tree};
use std::alloc::{AllocError, Global};

// ---- places

/// The spot of a place.
pub(crate) fn spot_of(tree: &Tree, place: &Seq<Part>) -> Option<Spot>
    ensures { let s = story_tree tree.now in Builds (place_of s) (PlaceFits s) place.now result }
{
    tree.spot(place.as_slice())
}

/// The same, or none.
pub(crate) fn any_spot(tree: &Tree, place: &Option<Seq<Part>>) -> Option<Option<Spot>>
    ensures { let s = story_tree tree.now in Builds (option_map (place_of s)) (AnyPlace s) place.now result }
{
    match place {
        Some(place) => match spot_of(tree, place) {
            Some(spot) => Some(Some(spot)),
            None => None,
        },
        None => Some(None),
    }
}

// ---- values

impl Built for SavedValue {
    type Made = Value;

    ghost in_story = { λ s value. value };

    ghost fits = { λ s value. ValueFits s value };

    ghost asks = { λ s value. ValueFits s value };

    fn build(&self, alloc: Global, tree: &Tree) -> Result<Option<Value>, AllocError> {
        if value_fits(tree, self) {
            Ok(Some(self.get().clone_in(alloc)?))
        } else {
            Ok(None)
        }
    }
}

fn value_fits(tree: &Tree, value: &SavedValue) -> bool
    ensures { IsTrue result ↔ ValueFits (story_tree tree.now) value.now }
{
    match value.get() {
        Value::Int(number) => {
            // No effect at run time: a proof reads from it that the number has 32 bits.
            let _number = *number;
            true
        }
        Value::Bool(_) | Value::Void => true,
        Value::Text(text) => text_fits(text.as_str()),
        Value::Target(path) => leads(tree, path.get()),
        Value::Pointer(frame, _) => *frame >= 0,
        Value::Tag(text) => text_fits(text.as_str()),
    }
}

/// Whether a text is within its limit.
pub(crate) fn text_fits(text: &str) -> bool
    ensures { result ≡ fits_text text.now }
{
    text.len() <= MAX_TEXT
}

// Whether a path that is read from its text is one from the root that leads somewhere.
fn leads(tree: &Tree, path: &Path) -> bool
    requires { ReadsSame path.now }
    ensures { IsTrue result ↔ PathFits (story_tree tree.now) path.now }
{
    !path.relative && tree.resolve(NodeId { number: 0 }, path).is_some()
}

impl Built for (Shared<Text>, SavedValue) {
    type Made = (Shared<Text>, Value);

    ghost in_story = { λ s row. row };

    ghost fits = { λ s row. RowFits s row };

    ghost asks = { λ s row. RowFits s row };

    fn build(
        &self,
        alloc: Global,
        tree: &Tree,
    ) -> Result<Option<(Shared<Text>, Value)>, AllocError> {
        match self.1.build(alloc, tree)? {
            Some(value) => Ok(Some((self.0.share()?, value))),
            None => Ok(None),
        }
    }
}
