//! All threads that a save spells, in a story.

ghost use Rattle.std.specs.Prelude.{◌≡◌};
ghost use Rattle.std.specs.List.{list_all};
ghost use Rattle.ink_model.specs.Flow.Frames.{map_threads};
ghost use Rattle.ink_restore.specs.Building.{ThreadsAsk, flows, placed};
ghost use Rattle.ink_model.specs.Save.Sound.{ThreadsFit};
ghost use Rattle.ink_tree.specs.Nodes.{place_of};

use crate::building::{Built, build_all};
use ink_spelling::SavedThreads;
use ink_stack::{Thread, Threads};
use ink_tree::{Spot, Tree};
use std::alloc::{AllocError, Global};

impl Built for SavedThreads {
    type Made = Threads<Spot>;

    ghost in_story = { λ s threads. map_threads (place_of s) threads.threads };

    ghost fits = { λ s threads. ThreadsFit s threads };

    ghost asks = { λ s threads. ThreadsAsk s threads };

    fn build(&self, alloc: Global, tree: &Tree) -> Result<Option<Threads<Spot>>, AllocError> {
        let Some(below) = build_all(alloc, tree, self.below.as_slice())? else {
            return Ok(None);
        };
        if !all_placed(below.as_slice()) {
            return Ok(None);
        }
        let Some(thread) = self.thread.build(alloc, tree)? else {
            return Ok(None);
        };
        if !flows(thread.place(), below.as_slice()) {
            return Ok(None);
        }
        let mut all = below;
        all.push(thread)?;
        Ok(Threads::from_threads(alloc, all))
    }
}

// Whether each thread is at a place.
fn all_placed(threads: &[Thread<Spot>]) -> bool
    ensures { result ≡ list_all placed threads.now }
{
    threads.iter().all(|thread| thread.place().is_some())
}

// Whether flow is at a place, or has stopped in one thread.
fn flows(place: Option<Spot>, below: &[Thread<Spot>]) -> bool
    ensures { result ≡ flows place below.now }
{
    place.is_some() || below.is_empty()
}
