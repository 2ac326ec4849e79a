//! Which globals were assigned since a moment, and what they were then.

ghost use Rattle.std.specs.Prelude.{◌≡◌, ◌≢◌, ◌≤◌, ◌<◌, ◌++◌, ◌∷◌, ℕ, List, [], Bool, false, true, None, is_some, length, nat_eq, slice_get, slice_index_or, IfOk, OnOk, OnErr};
ghost use Rattle.std.specs.List.{IsDistinct};
ghost use Rattle.std.specs.Option.{option_copied};
ghost use Rattle.ink_model.specs.Variables.Store.{Values, store, stored};
ghost use Rattle.ink_model.specs.declared.value.Value.{Value};
ghost use Rattle.ink_vars.specs.Changes.{AnswersAs, Marks, Tracks, changed_indices, changed_to, noted_at, global_index, with_noted};
ghost use Rattle.ink_vars.specs.Globals.{set_value_at};

use crate::table::Table;
use ink_model::Value;
use ink_value::same_value;
use std::alloc::{AllocError, Global};
use std::marker::Model;

/// What a global was, by its index: nothing where it was not there.
#[derive(Drop)]
pub(crate) struct Before {
    index: usize,
    value: Option<Value>,
}

/// Which globals were assigned since a moment, and what they were then. A new moment costs what was noted since the last, however
/// many globals there are. A contract sees what was noted, in order, and how many of the first globals have a slot: a mark, and room
/// for their note. A global gets its slot when it is added.
#[derive(Drop)]
pub(crate) struct Changes {
    noted: Vec<Before>,
    marked: Vec<bool>,
    alloc: Global,
}

impl Model for Changes {
    ghost use Rattle.std.specs.Prelude.{◌≤◌, length, vec_capacity};
    ghost use Rattle.ink_vars.specs.Changes.{Marks};
    ghost use Rattle.ink_vars.specs.Views.{ChangesView};

    ghost Value = { ChangesView };

    ghost view = { λ c. record { noted = c.noted.items; slots = length c.marked.items } };

    ghost invariant = { λ c. Marks c.marked.items c.noted.items × (length c.marked.items ≤ vec_capacity c.noted) };
}

impl Changes {
    /// Nothing was assigned, which takes no memory.
    pub(crate) fn new(alloc: Global) -> Changes
        ensures { result.noted ≡ [] }
    {
        Changes {
            noted: Vec::new(alloc),
            marked: Vec::new(alloc),
            alloc,
        }
    }

    /// Nothing was assigned, with room for the notes of so many. The one error is a refused request for memory.
    pub(crate) fn with_room(alloc: Global, count: usize) -> Result<Changes, AllocError>
        ensures { IfOk result (λ changes. changes.noted ≡ []) }
    {
        Ok(Changes {
            noted: Vec::with_capacity(alloc, count)?,
            marked: Vec::with_capacity(alloc, count)?,
            alloc,
        })
    }

    /// Forgets all: from now on, changes are those since this moment. Takes no memory.
    pub(crate) fn start(&mut self)
        ensures none { self.new.noted ≡ [] }
        ensures tracks { (now : Values) → Tracks now self.new.noted now }
        ensures slots { self.old.slots ≤ self.new.slots }
    {
        clear_marks(&mut self.marked, &self.noted);
        self.noted.clear();
    }

    /// Notes what the global of a name is, whose index is given, where it was not noted since the moment; called before it is put.
    /// After that there is a slot for each global, the new one too. The one error is a refused request for memory, which is made only
    /// for the first note of a global, and leaves all as it was.
    pub(crate) fn note(
        &mut self,
        globals: &Table,
        name: &str,
        index: usize,
    ) -> Result<(), AllocError>
        requires slots { length globals.now ≤ self.old.slots }
        requires index { index ≡ global_index name.now globals.now }
        ensures ok { OnOk result (self.new.noted ≡ with_noted name.now globals.now self.old.noted) }
        ensures err { OnErr result (self.new.noted ≡ self.old.noted) }
        ensures memory { OnErr result (noted_at (global_index name.now globals.now) self.old.noted ≡ None) }
        ensures tracks { (start : Values) → Tracks start self.old.noted globals.now → Tracks start self.new.noted globals.now }
        ensures stored { OnOk result ((start : Values) (value : Value) → Tracks start self.old.noted globals.now → Tracks start self.new.noted (store name.now value globals.now)) }
        ensures more { self.old.slots ≤ self.new.slots }
        ensures slots { OnOk result ((value : Value) → length (store name.now value globals.now) ≤ self.new.slots) }
    {
        if self.is_noted(index) {
            return Ok(());
        }
        self.make_slot(index)?;
        let value = copied(self.alloc, globals.value_at(name, index))?;
        self.add(index, value);
        Ok(())
    }

    /// Gives the global of a name, which may have a number, a value, and notes before what it was, where that was not noted
    /// since the moment. The one error is a refused request for memory, which is made only for a new global, and leaves the globals
    /// as they were. Most globals are found by their number.
    #[inline(always)]
    pub(crate) fn put(
        &mut self,
        globals: &mut Table,
        name: &str,
        number: Option<usize>,
        value: Value,
    ) -> Result<(), AllocError>
        requires slots { length globals.old ≤ self.old.slots }
        ensures ok { OnOk result (globals.new ≡ store name.now value globals.old) }
        ensures noted { OnOk result (self.new.noted ≡ with_noted name.now globals.old self.old.noted) }
        ensures err { OnErr result (globals.new ≡ globals.old) }
        ensures memory { OnErr result (is_some (stored name.now globals.old) ≡ false) }
        ensures tracks { (start : Values) → Tracks start self.old.noted globals.old → Tracks start self.new.noted globals.new }
        ensures slots { length globals.new ≤ self.new.slots }
    {
        match globals.found(name, number) {
            Some((index, _)) => {
                self.put_at(globals, name, index, value);
                Ok(())
            }
            None => self.put_any(globals, name, number, value),
        }
    }

    /// The same of a global that is there, whose index is given. Takes no memory.
    #[inline(always)]
    pub(crate) fn put_at(&mut self, globals: &mut Table, name: &str, index: usize, value: Value)
        requires slots { length globals.old ≤ self.old.slots }
        requires index { index ≡ global_index name.now globals.old }
        requires there { is_some (stored name.now globals.old) ≡ true }
        ensures globals { globals.new ≡ store name.now value globals.old }
        ensures noted { self.new.noted ≡ with_noted name.now globals.old self.old.noted }
        ensures tracks { (start : Values) → Tracks start self.old.noted globals.old → Tracks start self.new.noted globals.new }
        ensures slots { length globals.new ≤ self.new.slots }
    {
        if self.is_noted(index) {
            let _before = globals.swap_at(index, value);
            return;
        }
        self.put_first(globals, index, value);
    }

    // Whether it was noted what the global at an index was, which then has a slot.
    #[inline(always)]
    fn is_noted(&self, index: usize) -> bool
        ensures noted { result ≡ is_some (noted_at index self.now.noted) }
        ensures slot { result ≡ true → index < self.now.slots }
    {
        is_marked(&self.marked, index)
    }

    // As `put`, of a global that is looked for by its name.
    #[inline(never)]
    fn put_any(
        &mut self,
        globals: &mut Table,
        name: &str,
        number: Option<usize>,
        value: Value,
    ) -> Result<(), AllocError>
        requires slots { length globals.old ≤ self.old.slots }
        ensures ok { OnOk result (globals.new ≡ store name.now value globals.old) }
        ensures noted { OnOk result (self.new.noted ≡ with_noted name.now globals.old self.old.noted) }
        ensures err { OnErr result (globals.new ≡ globals.old) }
        ensures memory { OnErr result (is_some (stored name.now globals.old) ≡ false) }
        ensures tracks { (start : Values) → Tracks start self.old.noted globals.old → Tracks start self.new.noted globals.new }
        ensures slots { length globals.new ≤ self.new.slots }
    {
        let index = globals.index_of(name);
        if index >= globals.len() {
            return self.put_new(globals, name, number, value);
        }
        self.put_at(globals, name, index, value);
        Ok(())
    }

    // As `put`, of a global that is not there, so that it comes last.
    fn put_new(
        &mut self,
        globals: &mut Table,
        name: &str,
        number: Option<usize>,
        value: Value,
    ) -> Result<(), AllocError>
        requires slots { length globals.old ≤ self.old.slots }
        requires absent { is_some (stored name.now globals.old) ≡ false }
        ensures ok { OnOk result (globals.new ≡ store name.now value globals.old) }
        ensures noted { OnOk result (self.new.noted ≡ with_noted name.now globals.old self.old.noted) }
        ensures err { OnErr result (globals.new ≡ globals.old) }
        ensures tracks { (start : Values) → Tracks start self.old.noted globals.old → Tracks start self.new.noted globals.new }
        ensures slots { length globals.new ≤ self.new.slots }
    {
        let next = globals.len();
        if self.is_noted(next) {
            return globals.add_at(name, number, value);
        }
        self.make_slot(next)?;
        globals.add_at(name, number, value)?;
        self.add(next, None);
        Ok(())
    }

    // Gives the global at an index a value, and notes what it was, which was not noted since the moment. Takes no memory.
    #[inline(never)]
    fn put_first(&mut self, globals: &mut Table, index: usize, value: Value)
        requires slots { length globals.old ≤ self.old.slots }
        requires there { index < length globals.old }
        requires unnoted { noted_at index self.old.noted ≡ None }
        ensures globals { globals.new ≡ set_value_at globals.old index value }
        ensures noted { (name : List ℕ) → index ≡ global_index name globals.old → self.new.noted ≡ with_noted name globals.old self.old.noted }
        ensures slots { self.new.slots ≡ self.old.slots }
    {
        let before = globals.swap_at(index, value);
        self.add(index, Some(before));
    }

    // Notes what the global at an index was, which has a slot, and no mark yet. Takes no memory.
    fn add(&mut self, index: usize, value: Option<Value>)
        requires slot { index < self.old.slots }
        requires unnoted { noted_at index self.old.noted ≡ None }
        ensures noted { self.new.noted ≡ self.old.noted ++ record { index = index; value = value } ∷ [] }
        ensures slots { self.new.slots ≡ self.old.slots }
    {
        self.noted.push_reserved(Before { index, value });
        self.marked[index] = true;
    }

    // Makes a slot for an index that has one or is the next. The one error is a refused request for memory, which is made only for the
    // next.
    fn make_slot(&mut self, index: usize) -> Result<(), AllocError>
        requires next { index ≤ self.old.slots }
        ensures noted { self.new.noted ≡ self.old.noted }
        ensures more { self.old.slots ≤ self.new.slots }
        ensures ok { OnOk result (index < self.new.slots) }
        ensures memory { OnErr result (self.old.slots ≤ index) }
    {
        if index < self.marked.len() {
            return Ok(());
        }
        let free = self.marked.len() - self.noted.len();
        self.noted.reserve(free + 1)?;
        self.marked.push(false)?;
        Ok(())
    }
}

/// The indices of the globals that are wanted, by their names, and were not there at the moment, or had another value, in order of
/// declaration. The one error is a refused request for memory, which is made only where there are such globals.
pub(crate) fn changed<F: Fn(&str) -> bool>(
    alloc: Global,
    changes: &Changes,
    globals: &Table,
    is_wanted: F,
) -> Result<Vec<usize>, AllocError>
    requires { F.IsAlwaysCallable is_wanted }
    ensures indices { (wanted : List ℕ → Bool) (start : Values) → AnswersAs (F.post is_wanted) wanted → Tracks start changes.now.noted globals.now → IfOk result (λ indices. indices.items ≡ changed_indices wanted start globals.now) }
    ensures once { (wanted : List ℕ → Bool) → AnswersAs (F.post is_wanted) wanted → IfOk result (λ indices. IsDistinct nat_eq indices.items) }
    ensures memory { (wanted : List ℕ → Bool) (start : Values) → AnswersAs (F.post is_wanted) wanted → Tracks start changes.now.noted globals.now → OnErr result (changed_indices wanted start globals.now ≢ []) }
{
    let there = globals.len();
    let mut indices = Vec::new(alloc);
    for before in &changes.noted {
        if before.index < there && has_changed(before, globals, &is_wanted) {
            indices.push(before.index)?;
        }
    }
    indices.sort_unstable();
    Ok(indices)
}

// Whether a global is there now that is wanted, and was not there, or was another value.
fn has_changed<F: Fn(&str) -> bool>(before: &Before, globals: &Table, is_wanted: &F) -> bool
    requires { F.IsAlwaysCallable is_wanted.now }
    ensures { (wanted : List ℕ → Bool) → AnswersAs (F.post is_wanted.now) wanted → result ≡ changed_to wanted before.now.value (slice_get globals.now before.now.index) }
{
    let Some((name, value)) = globals.pair(before.index) else {
        return false;
    };
    let is_other = match &before.value {
        Some(was) => !same_value(was, value),
        None => true,
    };
    is_wanted(name) && is_other
}

fn copied(alloc: Global, value: Option<&Value>) -> Result<Option<Value>, AllocError>
    ensures { IfOk result (λ copy. copy ≡ option_copied value.entry) }
{
    match value {
        Some(value) => Ok(Some(value.clone_in(alloc)?)),
        None => Ok(None),
    }
}

fn is_marked(marked: &[bool], index: usize) -> bool
    ensures { result ≡ slice_index_or marked.now index false }
{
    index < marked.len() && marked[index]
}

// Takes away the marks of what was noted.
fn clear_marks(marked: &mut [bool], noted: &[Before])
    requires { Marks marked.old noted.now }
    ensures marks { Marks marked.new [] }
    ensures len { length marked.new ≡ length marked.old }
{
    for before in noted {
        marked[before.index] = false;
    }
}
