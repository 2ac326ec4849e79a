//! Threads that do not run.

ghost use Rattle.std.specs.Prelude.{◌≡◌, ◌≢◌, ◌⊎◌, [], IfOk, OnErr};
ghost use Rattle.ink_model.specs.Flow.Frames.{unnumbered_thread};
ghost use Rattle.ink_stack.specs.Cells.{Within};

use crate::running::Running;
use std::alloc::{AllocError, Global};
use std::marker::Model;

/// A thread below the one that runs, or one that a choice keeps. A contract sees its frames and its previous place.
#[derive(Drop)]
pub struct Thread<P> {
    pub(crate) running: Running<P>,
}

impl<P> Model for Thread<P> {
    ghost use Rattle.ink_model.specs.Flow.Frames.{ThreadOf};

    ghost Value = { ThreadOf P };

    ghost view = { λ t. t.running.thread };
}

impl<P: Copy> Thread<P> {
    /// Where the top frame is; none where flow has stopped.
    pub fn place(&self) -> Option<P>
        ensures { result ≡ self.now.frame.place }
    {
        self.running.place()
    }

    /// The place from which flow last moved in this thread; none where it has not moved.
    pub fn previous(&self) -> Option<P>
        ensures { result ≡ self.now.previous }
    {
        self.running.previous()
    }

    /// As it runs.
    #[inline(always)]
    pub(crate) fn run(self) -> Running<P>
        ensures thread { result.thread ≡ self }
        ensures within { Within result.room result.thread }
    {
        let running = self.running;
        running.within();
        running
    }

    /// A copy. The one error is a refused request for memory, which a frame alone without temporaries never makes.
    pub fn clone_in(&self, alloc: Global) -> Result<Thread<P>, AllocError>
        ensures copy { IfOk result (λ copy. copy ≡ self.now) }
        ensures memory { OnErr result ((self.now.frame.temps ≢ []) ⊎ (self.now.below ≢ [])) }
    {
        let running = self.running.clone_in(alloc)?;
        Ok(Thread { running })
    }

    /// No frame has the number of its Enter any more. Takes no memory.
    pub fn clear_numbers(&mut self)
        ensures { self.new ≡ unnumbered_thread self.old }
    {
        self.running.clear_numbers();
    }
}
