//! Choices that a save spells, in a story.

ghost use Rattle.std.specs.Prelude.{◌≡◌, IfOk, IsTrue, OnErr};
ghost use Rattle.ink_model.specs.Text.Bytes.{fits_text};
ghost use Rattle.ink_model.specs.Run.Configuration.{map_choice};
ghost use Rattle.ink_model.specs.Flow.Frames.{map_thread};
ghost use Rattle.ink_restore.specs.Building.{Builds, ChoiceAsks, ThreadAsks};
ghost use Rattle.ink_model.specs.Save.Sound.{ChoiceFits, ThreadStands};
ghost use Rattle.ink_tree.specs.Nodes.{place_of, story_tree};

use crate::building::{Built, build_all};
use crate::fitting::{spot_of, text_fits};
use ink_choice::Choice;
use ink_model::{Seq, Shared, Text};
use ink_spelling::{SavedChoice, SavedThread};
use ink_stack::Thread;
use ink_tree::{Spot, Tree};
use std::alloc::{AllocError, Global};

impl Built for Shared<Text> {
    type Made = Shared<Text>;

    ghost in_story = { λ s text. text };

    ghost fits = { λ s text. IsTrue (fits_text text) };

    ghost asks = { λ s text. IsTrue (fits_text text) };

    fn build(&self, _alloc: Global, _tree: &Tree) -> Result<Option<Shared<Text>>, AllocError> {
        if text_fits(self.as_str()) {
            Ok(Some(self.share()?))
        } else {
            Ok(None)
        }
    }
}

/// What is made of a thread, where it is at a place of the story. The one error is a refused request for memory, which is
/// made only where the thread asks for some.
pub(crate) fn build_standing(
    alloc: Global,
    tree: &Tree,
    thread: &SavedThread,
) -> Result<Option<Thread<Spot>>, AllocError>
    ensures builds { let s = story_tree tree.now in IfOk result (λ made. Builds (map_thread (place_of s)) (ThreadStands s) thread.now made) }
    ensures memory { OnErr result (ThreadAsks (story_tree tree.now) thread.now) }
{
    let Some(made) = thread.build(alloc, tree)? else {
        return Ok(None);
    };
    if made.place().is_some() {
        Ok(Some(made))
    } else {
        Ok(None)
    }
}

impl Built for SavedChoice {
    type Made = Choice<Spot>;

    ghost in_story = { λ s choice. map_choice (place_of s) choice };

    ghost fits = { λ s choice. ChoiceFits s choice };

    ghost asks = { λ s choice. ChoiceAsks s choice };

    fn build(&self, alloc: Global, tree: &Tree) -> Result<Option<Choice<Spot>>, AllocError> {
        if !text_fits(self.text.as_str()) {
            return Ok(None);
        }
        let Some(target) = spot_of(tree, &self.target) else {
            return Ok(None);
        };
        let Some(tags) = build_all(alloc, tree, self.tags.as_slice())? else {
            return Ok(None);
        };
        let Some(thread) = build_standing(alloc, tree, &self.thread)? else {
            return Ok(None);
        };
        Ok(Some(Choice {
            text: self.text.clone_in(alloc)?,
            tags: Seq::from_vec(tags),
            target,
            hidden: self.hidden,
            thread,
        }))
    }
}
