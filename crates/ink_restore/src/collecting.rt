//! Stacks, lists of choices and globals that a save spells, in a story.

ghost use Rattle.std.specs.Prelude.{◌≡◌, IfOk, OnErr, map};
ghost use Rattle.ink_model.specs.Run.Configuration.{map_choice};
ghost use Rattle.ink_restore.specs.Building.{Builds, ChoiceAsks, FirstAsks};
ghost use Rattle.ink_model.specs.Save.Sound.{ChoiceFits, ChoicesFit, GlobalsFit, RowFits, StackFits, ValueFits};
ghost use Rattle.ink_tree.specs.Nodes.{place_of, story_tree};

use crate::building::{Built, build_all};
use ink_choice::Choices;
use ink_model::Text;
use ink_spelling::{SavedChoice, SavedValue};
use ink_tree::{Spot, Tree};
use ink_value::EvalStack;
use ink_vars::Globals;
use std::alloc::{AllocError, Global};

/// The stack of these values; none where one does not fit, or there are too many. The one error is a refused request for
/// memory, which is made once the first one fits.
pub fn build_stack(
    alloc: Global,
    tree: &Tree,
    values: &[SavedValue],
) -> Result<Option<EvalStack>, AllocError>
    ensures builds { let s = story_tree tree.now in IfOk result (λ made. Builds (λ v. v.items) (StackFits s) values.now made) }
    ensures memory { let s = story_tree tree.now in OnErr result (FirstAsks (ValueFits s) (ValueFits s) values.now) }
{
    let Some(items) = build_all(alloc, tree, values)? else {
        return Ok(None);
    };
    Ok(EvalStack::from_vec(items))
}

/// The list of these choices; none where one does not fit, or there are too many. The one error is a refused request for
/// memory, which is made once the first one fits, or asks for some.
pub fn build_choices(
    alloc: Global,
    tree: &Tree,
    choices: &[SavedChoice],
) -> Result<Option<Choices<Spot>>, AllocError>
    ensures builds { let s = story_tree tree.now in
        IfOk result (λ made. Builds (λ v. map (map_choice (place_of s)) v.items) (ChoicesFit s) choices.now made) }
    ensures memory { let s = story_tree tree.now in OnErr result (FirstAsks (ChoiceFits s) (ChoiceAsks s) choices.now) }
{
    let Some(items) = build_all(alloc, tree, choices)? else {
        return Ok(None);
    };
    Ok(Choices::from_vec(items))
}

/// The globals of these rows; none where a value does not fit, or a name stands twice. The one error is a refused request for
/// memory, which is made once the first value fits.
pub fn build_globals(
    alloc: Global,
    tree: &Tree,
    rows: &[(Text, SavedValue)],
) -> Result<Option<Globals>, AllocError>
    ensures builds { let s = story_tree tree.now in IfOk result (λ made. Builds (λ v. v.rows) (GlobalsFit s) rows.now made) }
    ensures memory { let s = story_tree tree.now in OnErr result (FirstAsks (RowFits s) (RowFits s) rows.now) }
{
    let mut made = Globals::new(alloc);
    for row in rows {
        if made.contains(row.0.as_str()) {
            return Ok(None);
        }
        match row.1.build(alloc, tree)? {
            Some(value) => made.put(row.0.as_str(), None, value)?,
            None => return Ok(None),
        }
    }
    // No effect at run time: a proof reads from it that no two globals have one name.
    let _count = made.len();
    Ok(Some(made))
}
