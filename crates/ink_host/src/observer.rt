//! A watcher that notes what it is told.

ghost use Rattle.std.specs.Prelude.{◌≡◌, []};
ghost use Rattle.ink_host.specs.Telling.{refused};

use crate::objects::{Seen, Watcher};
use ink_model::{Text, Value};
use std::alloc::{AllocError, Global};
use std::marker::Model;

/// A watcher that notes what it is told, and does nothing else. A watcher of a host's own can hold one for its notes: its state is
/// then that of its notes.
#[derive(Drop)]
pub struct Observer {
    seen: Vec<Seen>,
    is_told: bool,
    begins: u64,
    ends: u64,
    refusals: u64,
    alloc: Global,
}

impl Model for Observer {
    ghost use Rattle.std.specs.Prelude.{not};
    ghost use Rattle.ink_host.specs.Telling.{Watching};

    ghost Value = { Watching };

    ghost view = { λ o. record { log = o.seen.items; resting = not o.is_told; begins = o.begins; ends = o.ends; refusals = o.refusals } };
}

impl Observer {
    ghost use Rattle.std.specs.Prelude.{true, IfOk};

    /// A watcher that was told nothing yet.
    pub fn new(alloc: Global) -> Observer
        ensures { result ≡ record { log = []; resting = true; begins = 0; ends = 0; refusals = 0 } }
    {
        Observer {
            seen: Vec::new(alloc),
            is_told: false,
            begins: 0,
            ends: 0,
            refusals: 0,
            alloc,
        }
    }

    /// What it was told, in order.
    pub fn seen(&self) -> &[Seen]
        ensures { result.now ≡ self.now.log }
    {
        &self.seen
    }

    /// Counts that the watcher that holds it was itself refused memory for a change.
    pub fn lack(&mut self) -> AllocError
        ensures { self.new ≡ refused self.old }
    {
        self.refusals = self.refusals.wrapping_add(1);
        AllocError
    }

    // A change, as it is noted.
    fn copied(&self, stamp: u64, name: &str, value: &Value) -> Result<Seen, AllocError>
        ensures { IfOk result (λ seen. seen ≡ record { stamp = stamp; name = name.now; value = value.now }) }
    {
        let name = Text::from_str(self.alloc, name)?;
        let value = value.clone_in(self.alloc)?;
        Ok(Seen { stamp, name, value })
    }
}

impl Watcher for Observer {
    ghost state = { λ o. o };

    fn begin(&mut self) {
        self.is_told = true;
        self.begins = self.begins.wrapping_add(1);
    }

    fn changed(&mut self, stamp: u64, name: &str, value: &Value) -> Result<(), AllocError> {
        let Ok(seen) = self.copied(stamp, name, value) else {
            return Err(self.lack());
        };
        if self.seen.push(seen).is_err() {
            return Err(self.lack());
        }
        Ok(())
    }

    fn end(&mut self) {
        self.is_told = false;
        self.ends = self.ends.wrapping_add(1);
    }
}
