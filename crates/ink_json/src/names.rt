//! The names given in a container so far.

ghost use Rattle.std.specs.Prelude.{◌≡◌, ℕ, List, [], Some, IfOk, OnOk, option_map};
ghost use Rattle.serde_json.specs.Data.{Data};
ghost use Rattle.ink_model.specs.Story.Grammar.{is_taken, with_name, is_misnamed};
ghost use Rattle.ink_json.specs.Reading.{Holds, IsLabel, ending};

use crate::own::Label;
use std::alloc::{AllocError, Global};
use std::collections::BTreeSet;

/// The names given in a container so far. Each stands behind the number that its last bytes are, by which most are told apart.
#[derive(Drop)]
pub(crate) struct Given<'v> {
    names: BTreeSet<(u64, &'v str)>,
}

impl<'v> Given<'v> {
    /// None yet. Takes no memory.
    pub(crate) fn none(alloc: Global) -> Given<'v>
        ensures { Holds result [] }
    {
        Given {
            names: BTreeSet::new(alloc),
        }
    }

    /// Whether a name was given.
    pub(crate) fn has(&self, name: &'v str) -> bool
        ensures { (taken : List (List ℕ)) → Holds self.now taken → result ≡ is_taken taken (Some name.now) }
    {
        if self.names.is_empty() {
            return false;
        }
        self.names.contains(&(ending(name), name))
    }

    /// Gives the name of content of this label, where it has one. Whether such content may not stand in a list by its name: it is no
    /// text, or was given before.
    pub(crate) fn give(&mut self, label: Label<'v>) -> Result<bool, AllocError>
        ensures misnamed { IfOk result (λ misnamed. (taken : List (List ℕ)) → Holds self.old taken → (d : Data) → IsLabel label.entry d → misnamed ≡ is_misnamed taken d) }
        ensures given { OnOk result ((taken : List (List ℕ)) → Holds self.old taken → Holds self.new (with_name taken (option_map (λ n. n.now) label.entry.name))) }
    {
        let Some(name) = label.name else {
            return Ok(!label.sound);
        };
        let is_new = self.names.insert((ending(name), name))?;
        Ok(!label.sound || !is_new)
    }
}

/// The last eight bytes of a name, as a number.
fn ending(name: &str) -> u64
    ensures { result ≡ ending name.now }
{
    let bytes = name.as_bytes();
    let mut number: u64 = 0;
    for byte in &bytes[bytes.len().saturating_sub(8)..] {
        number = number.wrapping_mul(256).wrapping_add(*byte as u64);
    }
    number
}
