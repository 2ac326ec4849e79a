//! What is made of what a save spells, in a story.

ghost use Rattle.std.specs.Prelude.{◌≡◌, IfOk, OnErr, map};
ghost use Rattle.std.specs.List.{AllByRecursion};
ghost use Rattle.ink_model.specs.Story.Tree.{StoryTree};
ghost use Rattle.ink_restore.specs.Building.{Builds, FirstAsks};
ghost use Rattle.ink_tree.specs.Nodes.{story_tree};

use ink_tree::Tree;
use std::alloc::{AllocError, Global};

/// What is made of something that a save spells.
pub trait Built {
    type Made;

    ghost in_story: { StoryTree → Self.Made → Self };

    ghost fits: { StoryTree → Self → Type 0 };

    ghost asks: { StoryTree → Self → Type 0 };

    /// What is made of it in a story; none where it does not fit. The one error is a refused request for memory.
    fn build(&self, alloc: Global, tree: &Tree) -> Result<Option<Self::Made>, AllocError>
        ensures builds { IfOk result (λ made. Builds (in_story (story_tree tree.now)) (fits (story_tree tree.now)) self.now made) }
        ensures memory { OnErr result (asks (story_tree tree.now) self.now) };
}

/// What is made of each of these; none where one does not fit. The one error is a refused request for memory, which is made once
/// the first one fits, or asks for some.
pub(crate) fn build_all<T: Built>(
    alloc: Global,
    tree: &Tree,
    items: &[T],
) -> Result<Option<Vec<T::Made>>, AllocError>
where
    T::Made: Drop,
    ensures builds { let s = story_tree tree.now in
        IfOk result (λ made. Builds (λ v. map (T.in_story s) v.items) (AllByRecursion (T.fits s)) items.now made) }
    ensures memory { let s = story_tree tree.now in OnErr result (FirstAsks (T.fits s) (T.asks s) items.now) }
{
    let mut made = Vec::new(alloc);
    for item in items {
        match item.build(alloc, tree)? {
            Some(one) => made.push(one)?,
            None => return Ok(None),
        }
    }
    Ok(Some(made))
}
