//! The frames below the top one of a thread as a list.

ghost use Rattle.std.specs.Prelude.{◌≡◌, ◌≢◌, [], ◌<◌, get_or, length, IfOk, OnErr};
ghost use Rattle.ink_model.specs.Flow.Frames.{FrameOf};

use crate::frame::Frame;
use crate::frames::Frames;
use crate::temps::Temps;
use std::alloc::{AllocError, Global};

impl<P: Copy> Frames<P> {
    /// These frames, the bottom one first. The one error is a refused request for memory.
    pub fn of(alloc: Global, frames: Vec<Frame<P>>) -> Result<Frames<P>, AllocError>
        ensures frames { IfOk result (λ made. made.items ≡ frames.items) }
        ensures memory { OnErr result (frames.items ≢ []) }
    {
        let mut made = Frames::new(alloc);
        for frame in frames {
            made.make_room(&frame)?;
            made.push_reserved(frame);
        }
        Ok(made)
    }

    /// Copies of the frames, the bottom one first. The one error is a refused request for memory.
    pub fn list(&self, alloc: Global) -> Result<Vec<Frame<P>>, AllocError>
        ensures copies { IfOk result (λ list. list.items ≡ self.now.items) }
        ensures memory { OnErr result (self.now.items ≢ []) }
    {
        let mut list = Vec::with_capacity(alloc, self.len())?;
        for index in 0..self.len() {
            list.push_reserved(self.frame_at(alloc, index)?);
        }
        Ok(list)
    }

    // A copy of the frame at an index.
    fn frame_at(&self, alloc: Global, index: usize) -> Result<Frame<P>, AllocError>
        requires { index < length self.now.items }
        ensures { (d : FrameOf P) → IfOk result (λ copy. copy ≡ get_or self.now.items index d) }
    {
        let temps = temps_at(alloc, self.temps.as_slice(), index)?;
        Ok(Frame {
            header: self.header_at(index),
            temps,
        })
    }
}

// A copy of the temporaries at an index; past the last ones there are none.
fn temps_at(alloc: Global, temps: &[Temps], index: usize) -> Result<Temps, AllocError>
    ensures { IfOk result (λ copy. copy ≡ get_or temps.now index []) }
{
    match temps.get(index) {
        Some(own) => own.clone_in(alloc),
        None => Ok(Temps::new(alloc)),
    }
}
