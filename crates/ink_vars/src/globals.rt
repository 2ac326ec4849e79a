//! The globals of a running story, and what they were at a moment.

ghost use Rattle.std.specs.Prelude.{◌≡◌, ◌≢◌, ◌≤◌, ◌<◌, ◌+◌, ◌⊎◌, ℕ, List, [], Bool, None, Some, false, is_ok, is_some, length, nat_eq, option_map, refl, slice_get, true, IfOk, IfSome, IfErr, OnOk, OnErr};
ghost use Rattle.std.specs.List.{IsDistinct};
ghost use Rattle.ink_model.specs.Variables.Store.{Values, stored, store};
ghost use Rattle.ink_trail.specs.Undo.{KeepsTrail, TrailsOrKeeps};
ghost use Rattle.ink_vars.specs.Changes.{AnswersAs, changed_indices, global_index};
ghost use Rattle.ink_vars.specs.Globals.{DifferInName};
ghost use Rattle.ink_vars.specs.Outcomes.{name_of};
ghost use Rattle.ink_vars.specs.Undo.{global_back, globals_spare, globals_stood};

use crate::changes::{Changes, changed};
use crate::places::Name;
use crate::table::Table;
use crate::undo::{GlobalPair, put_noted};
use ink_model::Value;
use ink_trail::{Trail, Undo};
use std::alloc::{AllocError, Global};
use std::marker::Model;

/// Values by name, in the order in which they were declared; what they were at a moment, which `begin` sets; and while a mark
/// stands the trail of what they were. A contract sees both lists and the trail.
///
/// What they were is found by notes of those that were put since, which fit the globals at all times. So a new moment costs what
/// was noted since the last, however many globals there are.
pub struct Globals {
    table: Table,
    changes: Changes,
    trail: Trail<GlobalPair>,
}

/// Written out, so that wherever globals are let go that is one call, and a proof there does not go through their contents.
impl Drop for Globals {
    fn drop(self) {
        let Globals {
            table: _,
            changes: _,
            trail: _,
        } = self;
    }
}

impl Model for Globals {
    ghost use Rattle.std.specs.Prelude.{length};
    ghost use Rattle.ink_trail.specs.Undo.{trail_of};
    ghost use Rattle.ink_vars.specs.Changes.{NotesFit, as_they_were};
    ghost use Rattle.ink_vars.specs.Undo.{Covers};
    ghost use Rattle.ink_vars.specs.Views.{GlobalsView};

    ghost Value = { GlobalsView };

    ghost view = { λ g. record { rows = g.table; start = as_they_were g.changes.noted 0 g.table; trail = g.trail } };

    ghost invariant = { λ g. NotesFit g.changes g.table × Covers g.changes.noted (length g.table) (trail_of g.trail.undo) };
}

#[tactic(auto, unfolding(crate::specs::Undo::globals_stood, crate::specs::Undo::globals_spare, ink_trail::specs::Undo::stood_at, ink_trail::specs::Undo::spare))]
impl Globals {
    /// No globals, which take no memory.
    pub fn new(alloc: Global) -> Globals
        ensures rows { result.rows ≡ [] }
        ensures stood { globals_stood result ≡ None }
    {
        Globals {
            table: Table::new(alloc),
            changes: Changes::new(alloc),
            trail: Trail::new(alloc),
        }
    }

    /// No globals, with room for so many. The one error is a refused request for memory.
    pub fn with_room(alloc: Global, count: usize) -> Result<Globals, AllocError>
        ensures rows { IfOk result (λ globals. globals.rows ≡ []) }
        ensures stood { IfOk result (λ globals. globals_stood globals ≡ None) }
    {
        Ok(Globals {
            table: Table::with_room(alloc, count)?,
            changes: Changes::with_room(alloc, count)?,
            trail: Trail::new(alloc),
        })
    }

    /// The moment is this one from now on. No mark may stand, since going back leaves the moment where it is. Takes no memory.
    pub fn begin(&mut self)
        requires unmarked { globals_stood self.old ≡ None }
        ensures rows { self.new.rows ≡ self.old.rows }
        ensures start { self.new.start ≡ self.old.rows }
        ensures trail { KeepsTrail self.old.trail self.new.trail }
        ensures stood { globals_stood self.new ≡ globals_stood self.old }
        ensures spare { globals_spare self.old ≤ globals_spare self.new }
    {
        self.changes.start();
    }

    /// The value of a global, none where there is no such global.
    #[inline(always)]
    pub fn get(&self, name: &str) -> Option<&Value>
        ensures { option_map (λ value. value.now) result ≡ stored name.now self.now.rows }
    {
        self.table.get(name)
    }

    /// The same by a name that may have a number, which finds it sooner.
    #[inline(always)]
    pub(crate) fn get_at(&self, name: &str, number: Option<usize>) -> Option<&Value>
        ensures { option_map (λ value. value.now) result ≡ stored name.now self.now.rows }
    {
        self.table.get_at(name, number)
    }

    /// The global to which the number of a name leads at once, by its index, with its value. None says nothing of the name.
    #[inline(always)]
    pub fn found(&self, name: &str, number: Option<usize>) -> Option<(usize, &Value)>
        ensures { IfSome result (λ f. (f.0 ≡ global_index name.now self.now.rows) × (Some f.1.now ≡ stored name.now self.now.rows)) }
    {
        self.table.found(name, number)
    }

    /// The value of a global with its index, none where there is no such global.
    #[inline(always)]
    pub(crate) fn find(&self, name: &str) -> Option<(usize, &Value)>
        ensures { option_map (λ f. f.1.now) result ≡ stored name.now self.now.rows }
    {
        self.table.find(name)
    }

    /// Whether there is such a global.
    pub fn contains(&self, name: &str) -> bool
        ensures { result ≡ is_some (stored name.now self.now.rows) }
    {
        self.table.contains(name)
    }

    /// How many globals there are, each with a name of its own.
    pub fn len(&self) -> usize
        ensures len { result ≡ length self.now.rows }
        ensures names { DifferInName self.now.rows }
    {
        self.table.len()
    }

    /// The name and the value of the global at an index, in the order in which they were declared; none past the last. Takes
    /// no memory.
    pub fn pair(&self, index: usize) -> Option<(&str, &Value)>
        ensures { option_map (λ pair. (pair.0.now, pair.1.now)) result ≡ slice_get self.now.rows index }
    {
        self.table.pair(index)
    }

    /// Gives a global that is there a value, without memory. Where there is none, the value is handed back, and the globals stay as
    /// they were. The moment is this one from now on in either case, so no mark may stand.
    pub fn replace(&mut self, name: &str, value: Value) -> Result<(), Value>
        requires unmarked { globals_stood self.old ≡ None }
        ensures found { is_ok result ≡ is_some (stored name.now self.old.rows) }
        ensures ok { OnOk result (self.new.rows ≡ store name.now value self.old.rows) }
        ensures err { IfErr result (λ handed_back. handed_back ≡ value) }
        ensures kept { OnErr result (self.new.rows ≡ self.old.rows) }
        ensures start { self.new.start ≡ self.new.rows }
        ensures trail { KeepsTrail self.old.trail self.new.trail }
        ensures stood { globals_stood self.new ≡ globals_stood self.old }
        ensures spare { globals_spare self.old ≤ globals_spare self.new }
    {
        self.changes.start();
        self.table.replace(name, value)
    }

    /// Gives the global of a name, which may have a number, a value, which is one change of a cell: one that is there keeps its
    /// place, and a new one comes last. What the globals were at the moment stays known. The one error is a refused request for
    /// memory, which leaves all as it was. Memory is asked for only for a new global, or while a mark stands: there only where the
    /// global is as it was at the moment, or where there is no room for its pair.
    #[inline(always)]
    pub fn put(&mut self, name: &str, number: Option<usize>, value: Value) -> Result<(), AllocError>
        ensures ok { OnOk result (self.new.rows ≡ store name.now value self.old.rows) }
        ensures err { OnErr result (self.new.rows ≡ self.old.rows) }
        ensures start { self.new.start ≡ self.old.start }
        ensures memory { OnErr result ((is_some (stored name.now self.old.rows) ≡ false) ⊎ (is_some (globals_stood self.old) ≡ true)) }
        ensures asks { OnErr result ((stored name.now self.old.start ≡ stored name.now self.old.rows) ⊎ (globals_spare self.old < 1)) }
        ensures trail { TrailsOrKeeps global_back 1 self.old.rows self.old.trail self.new.rows self.new.trail result }
        ensures stood { globals_stood self.new ≡ globals_stood self.old }
        ensures spare { globals_spare self.old ≤ globals_spare self.new + 1 }
    {
        if self.trail.is_marked() {
            return self.put_marked(name, number, value);
        }
        self.changes.put(&mut self.table, name, number, value)
    }

    /// The same by the name of a variable. Where a pointer led to it, the global is looked for first where it was found then.
    #[inline(always)]
    pub fn put_named(&mut self, name: &Name<'_>, value: Value) -> Result<(), AllocError>
        ensures ok { OnOk result (self.new.rows ≡ store (name_of name.now) value self.old.rows) }
        ensures err { OnErr result (self.new.rows ≡ self.old.rows) }
        ensures start { self.new.start ≡ self.old.start }
        ensures memory { OnErr result ((is_some (stored (name_of name.now) self.old.rows) ≡ false) ⊎ (is_some (globals_stood self.old) ≡ true)) }
        ensures asks { OnErr result ((stored (name_of name.now) self.old.start ≡ stored (name_of name.now) self.old.rows) ⊎ (globals_spare self.old < 1)) }
        ensures trail { TrailsOrKeeps global_back 1 self.old.rows self.old.trail self.new.rows self.new.trail result }
        ensures stood { globals_stood self.new ≡ globals_stood self.old }
        ensures spare { globals_spare self.old ≤ globals_spare self.new + 1 }
    {
        match name {
            Name::Given(name, number) => self.put(name.as_str(), *number, value),
            Name::Pointed(name, index) => self.put_pointed(name.as_str(), *index, value),
        }
    }

    // As `put`, of a global that is looked for at an index first.
    #[inline(never)]
    fn put_pointed(
        &mut self,
        name: &str,
        index: Option<usize>,
        value: Value,
    ) -> Result<(), AllocError>
        ensures ok { OnOk result (self.new.rows ≡ store name.now value self.old.rows) }
        ensures err { OnErr result (self.new.rows ≡ self.old.rows) }
        ensures start { self.new.start ≡ self.old.start }
        ensures memory { OnErr result ((is_some (stored name.now self.old.rows) ≡ false) ⊎ (is_some (globals_stood self.old) ≡ true)) }
        ensures asks { OnErr result ((stored name.now self.old.start ≡ stored name.now self.old.rows) ⊎ (globals_spare self.old < 1)) }
        ensures trail { TrailsOrKeeps global_back 1 self.old.rows self.old.trail self.new.rows self.new.trail result }
        ensures stood { globals_stood self.new ≡ globals_stood self.old }
        ensures spare { globals_spare self.old ≤ globals_spare self.new + 1 }
    {
        match self.index_at(name, index) {
            Some(index) => self.put_there(name, index, value),
            None => self.put(name, None, value),
        }
    }

    // The index, where the global that stands there has that name.
    #[inline(always)]
    fn index_at(&self, name: &str, index: Option<usize>) -> Option<usize>
        ensures { IfSome result (λ index. (index ≡ global_index name.now self.now.rows) × (is_some (stored name.now self.now.rows) ≡ true)) }
    {
        let (index, _) = self.table.found_at(name, index?)?;
        Some(index)
    }

    /// The same of a global that is there, whose index is given, while no mark stands. Takes no memory.
    #[inline(always)]
    pub fn put_at(&mut self, name: &str, index: usize, value: Value)
        requires unmarked { globals_stood self.old ≡ None }
        requires index { index ≡ global_index name.now self.old.rows }
        requires there { is_some (stored name.now self.old.rows) ≡ true }
        ensures rows { self.new.rows ≡ store name.now value self.old.rows }
        ensures start { self.new.start ≡ self.old.start }
        ensures trail { KeepsTrail self.old.trail self.new.trail }
        ensures stood { globals_stood self.new ≡ None }
        ensures spare { globals_spare self.old ≤ globals_spare self.new }
    {
        self.changes.put_at(&mut self.table, name, index, value);
    }

    /// The same of a global that is there, whose index is given; a mark may stand. Memory is asked for only
    /// while one does, as by `put`.
    pub fn put_there(&mut self, name: &str, index: usize, value: Value) -> Result<(), AllocError>
        requires index { index ≡ global_index name.now self.old.rows }
        requires there { is_some (stored name.now self.old.rows) ≡ true }
        ensures ok { OnOk result (self.new.rows ≡ store name.now value self.old.rows) }
        ensures err { OnErr result (self.new.rows ≡ self.old.rows) }
        ensures start { self.new.start ≡ self.old.start }
        ensures memory { OnErr result (is_some (globals_stood self.old) ≡ true) }
        ensures asks { OnErr result ((stored name.now self.old.start ≡ stored name.now self.old.rows) ⊎ (globals_spare self.old < 1)) }
        ensures trail { TrailsOrKeeps global_back 1 self.old.rows self.old.trail self.new.rows self.new.trail result }
        ensures stood { globals_stood self.new ≡ globals_stood self.old }
        ensures spare { globals_spare self.old ≤ globals_spare self.new + 1 }
    {
        if self.is_marked() {
            return self.put_marked_at(name, None, index, value);
        }
        self.put_at(name, index, value);
        Ok(())
    }

    // As `put`, while a mark stands.
    #[cold]
    #[inline(never)]
    fn put_marked(
        &mut self,
        name: &str,
        number: Option<usize>,
        value: Value,
    ) -> Result<(), AllocError>
        ensures ok { OnOk result (self.new.rows ≡ store name.now value self.old.rows) }
        ensures err { OnErr result (self.new.rows ≡ self.old.rows) }
        ensures start { self.new.start ≡ self.old.start }
        ensures asks { OnErr result ((stored name.now self.old.start ≡ stored name.now self.old.rows) ⊎ (globals_spare self.old < 1)) }
        ensures trail { TrailsOrKeeps global_back 1 self.old.rows self.old.trail self.new.rows self.new.trail result }
    {
        let index = self.table.index_by(name, number);
        self.put_marked_at(name, number, index, value)
    }

    // The same where the global's index is known, too.
    #[inline(never)]
    fn put_marked_at(
        &mut self,
        name: &str,
        number: Option<usize>,
        index: usize,
        value: Value,
    ) -> Result<(), AllocError>
        requires index { index ≡ global_index name.now self.old.rows }
        ensures ok { OnOk result (self.new.rows ≡ store name.now value self.old.rows) }
        ensures err { OnErr result (self.new.rows ≡ self.old.rows) }
        ensures start { self.new.start ≡ self.old.start }
        ensures asks { OnErr result ((stored name.now self.old.start ≡ stored name.now self.old.rows) ⊎ (globals_spare self.old < 1)) }
        ensures trail { TrailsOrKeeps global_back 1 self.old.rows self.old.trail self.new.rows self.new.trail result }
    {
        self.trail.ready(1)?;
        match self.changes.note(&self.table, name, index) {
            Ok(()) => put_noted(&mut self.table, &mut self.trail, name, number, index, value),
            Err(error) => Err(error),
        }
    }

    /// The indices of the globals that are wanted, by their names, and were not there at the moment, or had another value, in order
    /// of declaration. The one error is a refused request for memory, which is made only where there are such globals.
    pub fn changed<F: Fn(&str) -> bool>(
        &self,
        alloc: Global,
        is_wanted: F,
    ) -> Result<Vec<usize>, AllocError>
        requires { F.IsAlwaysCallable is_wanted }
        ensures indices { (wanted : List ℕ → Bool) → AnswersAs (F.post is_wanted) wanted → IfOk result (λ indices. indices.items ≡ changed_indices wanted self.now.start self.now.rows) }
        ensures once { (wanted : List ℕ → Bool) → AnswersAs (F.post is_wanted) wanted → IfOk result (λ indices. IsDistinct nat_eq indices.items) }
        ensures memory { (wanted : List ℕ → Bool) → AnswersAs (F.post is_wanted) wanted → OnErr result (changed_indices wanted self.now.start self.now.rows ≢ []) }
    {
        changed(alloc, &self.changes, &self.table, is_wanted)
    }
}

#[tactic(auto, unfolding(crate::specs::Undo::globals_stood, crate::specs::Undo::globals_spare, ink_trail::specs::Undo::stood_at, ink_trail::specs::Undo::spare))]
impl Undo for Globals {
    type Pair = GlobalPair;

    ghost Cells = { Values };

    ghost Aside = { Values };

    ghost cells = { λ globals. globals.rows };

    ghost trail = { λ globals. globals.trail };

    ghost before = { global_back };

    ghost stood = { globals_stood };

    ghost spare = { globals_spare };

    ghost aside = { λ globals. globals.start };

    ghost stood_is = { λ globals. unfold globals_stood in refl };

    ghost spare_is = { λ globals. unfold globals_spare in refl };

    #[inline(always)]
    fn trail(&self) -> &Trail<GlobalPair> {
        &self.trail
    }

    fn undo_last(&mut self) -> bool {
        let Some(pair) = self.trail.take_last() else {
            return false;
        };
        self.table.put_one_back(pair);
        true
    }

    #[inline(always)]
    fn mark(&mut self) {
        self.trail.mark();
    }

    #[inline(always)]
    fn forget(&mut self) {
        self.trail.forget();
    }

    fn make_room(&mut self, count: usize) -> Result<(), AllocError> {
        self.trail.make_room(count)
    }
}
