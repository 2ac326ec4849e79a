//! Values by name, in order, found by name and by number.

ghost use Rattle.std.specs.Prelude.{◌≡◌, ◌<◌, ◌≤◌, ◌+◌, [], false, true, is_some, is_ok, length, max, option_map, slice_get, IfErr, IfOk, IfSome, OnOk, OnErr, Some};
ghost use Rattle.ink_model.specs.Variables.Store.{stored, store};
ghost use Rattle.ink_trail.specs.Undo.{but_last};
ghost use Rattle.ink_vars.specs.Changes.{global_index};
ghost use Rattle.ink_vars.specs.Globals.{DifferInName, set_value_at};
ghost use Rattle.ink_vars.specs.Undo.{global_back};

use crate::undo::GlobalPair;
use ink_model::Value;
use ink_names::{Names, same_name};
use std::alloc::{AllocError, Global};
use std::marker::Model;
use std::mem;

/// The values of globals by name, in the order in which they were declared. A contract sees the list of them.
///
/// The index of a global is its place in that order. A name may have a number, which whoever asks gives with it: the slot of that
/// number has the index at which a global was added with it last, so that it is found there at once. It is looked at whether the name
/// stands there; if not, the global is found by its name.
#[derive(Drop)]
pub(crate) struct Table {
    names: Names,
    values: Vec<Value>,
    slots: Vec<usize>,
    alloc: Global,
}

impl Model for Table {
    ghost use Rattle.std.specs.Prelude.{◌≡◌, length};
    ghost use Rattle.ink_model.specs.Variables.Store.{Values};
    ghost use Rattle.ink_vars.specs.Globals.{rows_of};

    ghost Value = { Values };

    ghost view = { λ t. rows_of t.names t.values.items };

    ghost invariant = { λ t. length t.names ≡ length t.values.items };
}

impl Table {
    /// No globals, which take no memory.
    pub(crate) fn new(alloc: Global) -> Table
        ensures { result ≡ [] }
    {
        Table {
            names: Names::new(alloc),
            values: Vec::new(alloc),
            slots: Vec::new(alloc),
            alloc,
        }
    }

    /// No globals, with room for so many. The one error is a refused request for memory.
    pub(crate) fn with_room(alloc: Global, count: usize) -> Result<Table, AllocError>
        ensures { IfOk result (λ table. table ≡ []) }
    {
        Ok(Table {
            names: Names::with_room(alloc, count)?,
            values: Vec::with_capacity(alloc, count)?,
            slots: Vec::with_capacity(alloc, count)?,
            alloc,
        })
    }

    /// The value of a global, none where there is no such global.
    pub(crate) fn get(&self, name: &str) -> Option<&Value>
        ensures { option_map (λ value. value.now) result ≡ stored name.now self.now }
    {
        match self.find(name) {
            Some((_, value)) => Some(value),
            None => None,
        }
    }

    /// The same with the index of the global.
    #[inline(always)]
    pub(crate) fn find(&self, name: &str) -> Option<(usize, &Value)>
        ensures { option_map (λ f. f.1.now) result ≡ stored name.now self.now }
    {
        match self.names.number(name) {
            Some(index) => match self.values.get(index) {
                Some(value) => Some((index, value)),
                None => None,
            },
            None => None,
        }
    }

    /// The same by a name and its number.
    #[inline(always)]
    pub(crate) fn get_at(&self, name: &str, number: Option<usize>) -> Option<&Value>
        ensures { option_map (λ value. value.now) result ≡ stored name.now self.now }
    {
        match self.found(name, number) {
            Some((_, value)) => Some(value),
            None => self.get(name),
        }
    }

    /// Whether there is such a global.
    pub(crate) fn contains(&self, name: &str) -> bool
        ensures { result ≡ is_some (stored name.now self.now) }
    {
        self.names.number(name).is_some()
    }

    /// How many globals there are, each with a name of its own.
    pub(crate) fn len(&self) -> usize
        ensures len { result ≡ length self.now }
        ensures names { DifferInName self.now }
    {
        self.names.len()
    }

    /// The index of a global; where there is no such global, that of the next new one.
    pub(crate) fn index_of(&self, name: &str) -> usize
        ensures { result ≡ global_index name.now self.now }
    {
        let next = self.names.len();
        self.names.number(name).unwrap_or(next)
    }

    /// The same by a name and its number.
    pub(crate) fn index_by(&self, name: &str, number: Option<usize>) -> usize
        ensures { result ≡ global_index name.now self.now }
    {
        match self.found(name, number) {
            Some((index, _)) => index,
            None => self.index_of(name),
        }
    }

    /// The global that the slot of a number leads to, with its index, where it has that name.
    #[inline(always)]
    pub(crate) fn found(&self, name: &str, number: Option<usize>) -> Option<(usize, &Value)>
        ensures { IfSome result (λ f. (f.0 ≡ global_index name.now self.now) × (Some f.1.now ≡ stored name.now self.now)) }
    {
        let index = *self.slots.get(number?)?;
        self.found_at(name, index)
    }

    /// The global at an index, where it has that name.
    #[inline(always)]
    pub(crate) fn found_at(&self, name: &str, index: usize) -> Option<(usize, &Value)>
        ensures { IfSome result (λ f. (f.0 ≡ global_index name.now self.now) × (Some f.1.now ≡ stored name.now self.now)) }
    {
        let there = self.names.name(index)?;
        let value = self.values.get(index)?;
        if same_name(there, name) {
            Some((index, value))
        } else {
            None
        }
    }

    /// The name and the value of the global at an index, in the order in which they were declared; none past the last. Takes
    /// no memory.
    pub(crate) fn pair(&self, index: usize) -> Option<(&str, &Value)>
        ensures { option_map (λ pair. (pair.0.now, pair.1.now)) result ≡ slice_get self.now index }
    {
        match self.names.name(index) {
            Some(name) => match self.values.get(index) {
                Some(value) => Some((name, value)),
                None => None,
            },
            None => None,
        }
    }

    /// The value of the global of a name, by its index; none where there is no such global.
    pub(crate) fn value_at(&self, name: &str, index: usize) -> Option<&Value>
        requires index { index ≡ global_index name.now self.now }
        ensures { option_map (λ value. value.now) result ≡ stored name.now self.now }
    {
        self.values.get(index)
    }

    /// Gives a global that is there a value, without memory. Where there is none, the value is handed back.
    pub(crate) fn replace(&mut self, name: &str, value: Value) -> Result<(), Value>
        ensures found { is_ok result ≡ is_some (stored name.now self.old) }
        ensures ok { OnOk result (self.new ≡ store name.now value self.old) }
        ensures err { IfErr result (λ handed_back. handed_back ≡ value) }
        ensures kept { OnErr result (self.new ≡ self.old) }
    {
        match self.names.number(name) {
            Some(index) => {
                self.values[index] = value;
                Ok(())
            }
            None => Err(value),
        }
    }

    /// Adds a global of a name that no other has, which may have a number: it comes last, and has the slot of the number. The one
    /// error is a refused request for memory, and leaves the globals as they were.
    pub(crate) fn add_at(
        &mut self,
        name: &str,
        number: Option<usize>,
        value: Value,
    ) -> Result<(), AllocError>
        requires absent { is_some (stored name.now self.old) ≡ false }
        ensures ok { OnOk result (self.new ≡ store name.now value self.old) }
        ensures err { OnErr result (self.new ≡ self.old) }
    {
        let index = self.names.len();
        if let Some(number) = number {
            make_slot(&mut self.slots, number)?;
            self.slots[number] = index;
        }
        self.add(name, value)
    }

    /// Gives the global at an index a value, and hands out the one before. Takes no memory.
    pub(crate) fn swap_at(&mut self, index: usize, value: Value) -> Value
        requires { index < length self.old }
        ensures written { self.new ≡ set_value_at self.old index value }
        ensures before { set_value_at self.new index result ≡ self.old }
    {
        mem::replace(&mut self.values[index], value)
    }

    /// Puts what a global held back. Takes no memory.
    pub(crate) fn put_one_back(&mut self, pair: GlobalPair)
        ensures { self.new ≡ global_back pair self.old }
    {
        match pair {
            GlobalPair::Added => self.remove_last(),
            GlobalPair::Changed(index, value) => {
                if index < self.len() {
                    let _before = self.swap_at(index, value);
                }
            }
        }
    }

    // Takes the last global away, where there is one.
    fn remove_last(&mut self)
        ensures { self.new ≡ but_last self.old }
    {
        self.names.remove_last();
        self.values.truncate(self.names.len());
    }

    // The same without a slot, and with a copy of the name.
    fn add(&mut self, name: &str, value: Value) -> Result<(), AllocError>
        requires absent { is_some (stored name.now self.old) ≡ false }
        ensures ok { OnOk result (self.new ≡ store name.now value self.old) }
        ensures err { OnErr result (self.new ≡ self.old) }
    {
        self.values.reserve(1)?;
        self.names.add(self.alloc, name)?;
        self.values.push_reserved(value);
        Ok(())
    }
}

/// A slot to which no global came leads to none.
const NOWHERE: usize = usize::MAX;

// Makes room for the slot of a number, and for no more, where there is none.
fn make_slot(slots: &mut Vec<usize>, number: usize) -> Result<(), AllocError>
    ensures room { OnOk result (number < length slots.new.items) }
    ensures most { length slots.new.items ≤ max (length slots.old.items) (number + 1) }
{
    while slots.len() <= number {
        slots.push(NOWHERE)?;
    }
    Ok(())
}
