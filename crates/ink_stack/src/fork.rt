//! What copies of threads are made of.

ghost use Rattle.std.specs.Prelude.{◌≡◌, []};

use ink_frames::{Frames, Temps};
use std::alloc::Global;
use std::marker::Model;

/// What a copy of a thread asks memory for: the temporaries of its top frame, and the frames below that. A contract sees both, the
/// bottom frame first.
#[derive(Drop)]
pub struct Fork<P> {
    pub(crate) temps: Temps,
    pub(crate) below: Frames<P>,
}

impl<P> Model for Fork<P> {
    ghost use Rattle.std.specs.Prelude.{List};
    ghost use Rattle.ink_model.specs.Flow.Frames.{FrameOf};
    ghost use Rattle.ink_model.specs.Variables.Store.{Values};

    ghost Value = { Values × List (FrameOf P) };

    ghost view = { λ f. (f.temps, f.below.items) };
}

impl<P: Copy> Fork<P> {
    /// What a copy of a frame alone without temporaries asks for: nothing.
    #[inline(always)]
    pub fn none(alloc: Global) -> Fork<P>
        ensures { result ≡ ([], []) }
    {
        Fork {
            temps: Temps::new(alloc),
            below: Frames::new(alloc),
        }
    }
}
