//! Frames and threads that a save spells, in a story.

ghost use Rattle.std.specs.Prelude.{◌≡◌, is_some};
ghost use Rattle.std.specs.List.{list_all};
ghost use Rattle.ink_model.specs.Flow.Frames.{map_frame, map_thread};
ghost use Rattle.ink_restore.specs.Building.{FrameAsks, FrameBuilds, ThreadAsks, ThreadBuilds};
ghost use Rattle.ink_tree.specs.Nodes.{place_of};

use crate::building::{Built, build_all};
use crate::fitting::any_spot;
use ink_model::MAX_SECTIONS;
use ink_spelling::{SavedFrame, SavedThread};
use ink_stack::{Frame, Thread};
use ink_tree::{Spot, Tree};
use std::alloc::{AllocError, Global};

impl Built for SavedFrame {
    type Made = Frame<Spot>;

    ghost in_story = { λ s frame. map_frame (place_of s) frame };

    ghost fits = { λ s frame. FrameBuilds s frame };

    ghost asks = { λ s frame. FrameAsks s frame };

    fn build(&self, alloc: Global, tree: &Tree) -> Result<Option<Frame<Spot>>, AllocError> {
        if self.depth > MAX_SECTIONS as u64 {
            return Ok(None);
        }
        let Some(place) = any_spot(tree, &self.place) else {
            return Ok(None);
        };
        let Some(temps) = build_all(alloc, tree, self.temps.rows())? else {
            return Ok(None);
        };
        Ok(Frame::of(
            alloc,
            self.kind,
            place,
            temps,
            self.evaluating,
            self.fresh,
            self.depth as usize,
        ))
    }
}

impl Built for SavedThread {
    type Made = Thread<Spot>;

    ghost in_story = { λ s thread. map_thread (place_of s) thread };

    ghost fits = { λ s thread. ThreadBuilds s thread };

    ghost asks = { λ s thread. ThreadAsks s thread };

    fn build(&self, alloc: Global, tree: &Tree) -> Result<Option<Thread<Spot>>, AllocError> {
        let Some(previous) = any_spot(tree, &self.previous) else {
            return Ok(None);
        };
        let Some(below) = build_all(alloc, tree, self.below.as_slice())? else {
            return Ok(None);
        };
        if !all_stand(below.as_slice()) {
            return Ok(None);
        }
        let Some(frame) = self.frame.build(alloc, tree)? else {
            return Ok(None);
        };
        let mut frames = below;
        frames.push(frame)?;
        Thread::from_frames(alloc, frames, previous)
    }
}

// Whether each frame is at a place.
fn all_stand(frames: &[Frame<Spot>]) -> bool
    ensures { result ≡ list_all (λ f. is_some f.place) frames.now }
{
    frames.iter().all(|frame| frame.place().is_some())
}
