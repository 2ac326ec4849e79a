//! The names that containers give themselves in a list.

ghost use Rattle.std.specs.Prelude.{◌≡◌, List, ℕ, OnOk, Some, None, bytes_eq, if◌then◌else◌, option_map};
ghost use Rattle.ink_tree.specs.Names.{first_of, given, named_at};

use crate::spot::NodeId;
use std::alloc::{AllocError, Global};
use std::collections::BTreeMap;

/// Indices in a list by the names that containers there give themselves. Of containers of one name the first counts.
#[derive(Drop)]
pub(crate) struct Names {
    indices: BTreeMap<String, u32>,
}

/// A container, and the names in its list.
#[derive(Drop)]
pub(crate) struct Listed {
    pub holder: NodeId,
    pub names: Names,
}

impl Names {
    /// None, which take no memory.
    pub(crate) fn none(alloc: Global) -> Names
        ensures { (name : List ℕ) → named_at name result ≡ None }
    {
        Names {
            indices: BTreeMap::new(alloc),
        }
    }

    /// With the name that one content more gives itself, where that is new. The one error is a refused request for memory.
    pub(crate) fn add(
        &mut self,
        alloc: Global,
        own: Option<&str>,
        index: u32,
    ) -> Result<(), AllocError>
        ensures { OnOk result ((name : List ℕ) → named_at name self.new ≡ first_of (named_at name self.old) (given name index (option_map (λ n. n.now) own.entry))) }
    {
        match own {
            Some(own) => self.put(alloc, own, index),
            None => Ok(()),
        }
    }

    // With one name more, where it is new: what stood there already is put back.
    fn put(&mut self, alloc: Global, own: &str, index: u32) -> Result<(), AllocError>
        ensures { OnOk result ((name : List ℕ) → named_at name self.new ≡ first_of (named_at name self.old) (if bytes_eq name own.now then Some index else None)) }
    {
        let key = String::from_str(alloc, own)?;
        if let Some(first) = self.indices.insert(key, index)? {
            let again = String::from_str(alloc, own)?;
            self.indices.insert(again, first)?;
        }
        Ok(())
    }

    /// Whether there are none.
    pub(crate) fn is_empty(&self) -> bool {
        self.indices.is_empty()
    }

    /// The index that a name leads to.
    pub(crate) fn index(&self, name: &str) -> Option<u32>
        ensures { result ≡ named_at name.now self.now }
    {
        match self.indices.get(name) {
            Some(index) => Some(*index),
            None => None,
        }
    }
}
