//! What watchers are to be told of a machine's globals (docs/HOST.md, "Telling").

ghost use Rattle.std.specs.Prelude.{◌≡◌, ◌≢◌, [], IfOk, OnErr};
ghost use Rattle.ink_host.specs.Desk.{watches};
ghost use Rattle.ink_model.specs.Host.Told.{told};

use crate::machine::Machine;
use ink_host::Desk;
use ink_model::{Change, Seq};
use ink_told::told_since;
use std::alloc::AllocError;

impl Machine {
    ghost use Rattle.ink_step.specs.Standing.{globals_of, start_of};

    /// The watched globals that have another value than when the last running command began or the last global was set, whichever
    /// came later, or were not there then, in order of declaration. The one error is a refused request for memory, which is made
    /// only where there are such globals.
    pub fn told<P, T, W>(&self, desk: &Desk<P, T, W>) -> Result<Seq<Change>, AllocError>
        ensures told { IfOk result (λ changes. changes ≡ told (watches desk.now.watchers) (start_of self.now) (globals_of self.now)) }
        ensures memory { OnErr result (told (watches desk.now.watchers) (start_of self.now) (globals_of self.now) ≢ []) }
    {
        told_since(self.alloc, &self.shared.globals, desk)
    }
}
