//! Names with their numbers.

ghost use Rattle.std.specs.Prelude.{◌≡◌, [], ◌∷◌, ◌++◌, None, Some, length, option_map, slice_get, IfOk, IfSome, OnOk, OnErr};
ghost use Rattle.std.specs.BTreeMap.{get_by_text};
ghost use Rattle.ink_names.specs.Names.{Differ, number_of, without_last};

use crate::hints::Hints;
use crate::same::same_name;
use std::alloc::{AllocError, Global};
use std::collections::BTreeMap;
use std::marker::Model;

/// Names, each once, in the order in which they came. A name whose slot is empty is no one's, and one that its slot leads to is found
/// there, which takes one look. Each other name is looked for by order and not by hash, so that nobody can choose names that are slow to
/// find.
#[derive(Drop)]
pub struct Names {
    list: Vec<String>,
    others: BTreeMap<String, usize>,
    hints: Hints,
}

impl Model for Names {
    ghost use Rattle.std.specs.Prelude.{◌≤◌, ◌*◌, ℕ, List, length};
    ghost use Rattle.ink_names.specs.Hints.{Finds, Right};
    ghost use Rattle.ink_names.specs.Names.{Differ, names_of};

    ghost Value = { List (List ℕ) };

    ghost view = { λ n. names_of n.list.items };

    ghost invariant = { λ n. Differ (names_of n.list.items) × Right n.others (names_of n.list.items) × Finds n.hints n.others (names_of n.list.items) × (2 * length n.list.items ≤ length n.hints) };
}

impl Names {
    /// No names, which take no memory.
    pub fn new(alloc: Global) -> Names
        ensures { result ≡ [] }
    {
        Names {
            list: Vec::new(alloc),
            others: BTreeMap::new(alloc),
            hints: Hints::new(alloc),
        }
    }

    /// No names, with room for so many. The one error is a refused request for memory.
    pub fn with_room(alloc: Global, count: usize) -> Result<Names, AllocError>
        ensures { IfOk result (λ names. names ≡ []) }
    {
        Ok(Names {
            list: Vec::with_capacity(alloc, count)?,
            others: BTreeMap::new(alloc),
            hints: Hints::with_room(alloc, count)?,
        })
    }

    /// How many there are; no two are the same.
    pub fn len(&self) -> usize
        ensures len { result ≡ length self.now }
        ensures differ { Differ self.now }
    {
        self.list.len()
    }

    /// The number of a name, where it is there. Takes no memory.
    pub fn number(&self, name: &str) -> Option<usize>
        ensures { result ≡ number_of self.now name.now }
    {
        let behind = self.hints.behind(name);
        if behind == 0 {
            return None;
        }
        match self.list.get(behind - 1) {
            Some(there) if same_name(there.as_str(), name) => Some(behind - 1),
            _ => other(&self.others, name),
        }
    }

    /// The name of a number; none past the last. Takes no memory.
    pub fn name(&self, number: usize) -> Option<&str>
        ensures name { option_map (λ name. name.now) result ≡ slice_get self.now number }
        ensures number { IfSome result (λ name. number_of self.now name.now ≡ Some number) }
    {
        match self.list.get(number) {
            Some(name) => Some(name.as_str()),
            None => None,
        }
    }

    /// Adds a name that is not there behind the others. The one error is a refused request for memory, and leaves all as it was.
    pub fn add(&mut self, alloc: Global, name: &str) -> Result<(), AllocError>
        requires { number_of self.old name.now ≡ None }
        ensures ok { OnOk result (self.new ≡ self.old ++ name.now ∷ []) }
        ensures err { OnErr result (self.new ≡ self.old) }
    {
        self.hints.make_slots(alloc, &self.list, &mut self.others)?;
        let listed = String::from_str(alloc, name)?;
        self.list.reserve(1)?;
        let number = self.list.len();
        self.hints.note(alloc, name, number, &mut self.others)?;
        self.list.push_reserved(listed);
        Ok(())
    }

    /// Takes the last name away, where there is one. Takes no memory.
    pub fn remove_last(&mut self)
        ensures { self.new ≡ without_last self.old }
    {
        if let Some(name) = self.list.pop() {
            let _number = self.others.remove(name.as_str());
        }
    }
}

// The number of a name that is among the others. It is a call of its own, so that most names are found without what it wants.
#[inline(never)]
fn other(others: &BTreeMap<String, usize>, name: &str) -> Option<usize>
    ensures { result ≡ get_by_text others.now name.now }
{
    others.get(name).copied()
}
