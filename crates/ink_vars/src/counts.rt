//! Visits and turns of containers.

ghost use Rattle.std.specs.Prelude.{◌≡◌, ◌≤◌, ◌<◌, ◌+◌, ◌⊎◌, ℕ, Bool, [], None, Some, length, refl, true, ◌&&◌, IfErr, OnOk, OnErr};
ghost use Rattle.std.specs.Ordering.{nat_cmp};
ghost use Rattle.ink_model.specs.Variables.Counts as rules;
ghost use Rattle.ink_model.specs.Variables.Counts.{CountsOf};
ghost use Rattle.ink_model.specs.Variables.Rows.{row};
ghost use Rattle.ink_trail.specs.Undo.{Trails, TrailsOrKeeps};
ghost use Rattle.ink_vars.specs.Undo.{counts_back, counts_spare, counts_stood};

use crate::slots::{add_one, make_room, put, put_back, slot};
use crate::turn::Turn;
use crate::undo::{CountPair, add_rows, note_slots, put_row_back};
use ink_model::{Fault, flags};
use ink_trail::{Trail, Undo};
use std::alloc::{AllocError, Global};
use std::marker::Model;

/// How often each container was visited, and in which turn last, by the container's number, and found at once by it; and while a
/// mark stands the trail of what that was. A contract sees two lists of rows, which rise by number, and the trail.
pub struct Counts {
    pub(crate) visits: Vec<Option<u32>>,
    pub(crate) turns: Vec<Option<u32>>,
    pub(crate) trail: Trail<CountPair>,
}

/// Written out, so that wherever counts are let go that is one call, and a proof there does not go through their fields.
impl Drop for Counts {
    fn drop(self) {
        let Counts {
            visits: _,
            turns: _,
            trail: _,
        } = self;
    }
}

impl Model for Counts {
    ghost use Rattle.std.specs.Prelude.{length};
    ghost use Rattle.ink_trail.specs.Undo.{trail_of};
    ghost use Rattle.ink_vars.specs.Slots.{AreCounts, rows_from};
    ghost use Rattle.ink_vars.specs.Undo.{HaveSlots};
    ghost use Rattle.ink_vars.specs.Views.{CountsView};

    ghost Value = { CountsView };

    ghost view = { λ c. record { rows = record { visits = rows_from 0 c.visits.items; turns = rows_from 0 c.turns.items }; trail = c.trail } };

    ghost invariant = { λ c. AreCounts c.visits.items × AreCounts c.turns.items × HaveSlots (length c.visits.items) (length c.turns.items) (trail_of c.trail.undo) };
}

/// What counts say of one container: how often it was visited, and in which turn last.
#[derive(Drop)]
pub struct Noted {
    visits: Option<u32>,
    turn: Option<u32>,
}

impl Model for Noted {
    ghost use Rattle.std.specs.Prelude.{ℕ, ◌≤◌, IfSome, Option};
    ghost use Rattle.ink_model.specs.declared.limits.TheConstants.{MAX_COUNT};

    ghost Value = { Option ℕ × Option ℕ };

    ghost view = { λ n. (n.visits, n.turn) };

    ghost invariant = { λ n. IfSome n.visits (λ v. v ≤ MAX_COUNT) × IfSome n.turn (λ t. t ≤ MAX_COUNT) };
}

#[tactic(auto, unfolding(crate::specs::Undo::counts_stood, crate::specs::Undo::counts_spare, ink_trail::specs::Undo::stood_at, ink_trail::specs::Undo::spare))]
impl Counts {
    /// No container was visited, which takes no memory.
    pub fn new(alloc: Global) -> Counts
        ensures rows { result.rows ≡ record { visits = []; turns = [] } }
        ensures stood { counts_stood result ≡ None }
    {
        Counts {
            visits: Vec::new(alloc),
            turns: Vec::new(alloc),
            trail: Trail::new(alloc),
        }
    }

    /// A container with these flags is entered in a turn, at its start or not: one more visit where flag 1 says so, which
    /// stays at 2,147,483,647, and the turn is noted where flag 2 says so; where flag 4 is set, only at its start. These are two
    /// changes of cells. The one error is `OutOfMemory` for a refused request for memory, which is made only for a container that
    /// has no such row yet, or, while a mark stands, where there is no room for its pairs, and leaves all as it was
    /// (docs/VARIABLES.md, "Counts").
    pub fn visit(&mut self, node: usize, flags: u8, at_start: bool, turn: Turn) -> Result<(), Fault>
        ensures ok { OnOk result (self.new.rows ≡ rules.visited nat_cmp node flags at_start turn self.old.rows) }
        ensures fault { IfErr result (λ f. f ≡ Fault.OutOfMemory) }
        ensures kept { OnErr result (self.new.rows ≡ self.old.rows) }
        ensures memory { OnErr result (((rules.counts flags at_start && rules.adds_row nat_cmp node flags self.old.rows) ≡ true) ⊎ (counts_spare self.old < 2)) }
        ensures trail { TrailsOrKeeps counts_back 2 self.old.rows self.old.trail self.new.rows self.new.trail result }
        ensures stood { counts_stood self.new ≡ counts_stood self.old }
        ensures spare { counts_spare self.old ≤ counts_spare self.new + 2 }
    {
        if !at_start && flags::counts_at_start(flags) {
            return Ok(());
        }
        let visits = flags::counts_visits(flags);
        let turns = flags::notes_turns(flags);
        make_room(&mut self.visits, node, visits)?;
        make_room(&mut self.turns, node, turns)?;
        add_rows(
            &mut self.trail,
            self.visits.as_slice(),
            self.turns.as_slice(),
            node,
            visits,
            turns,
        )?;
        add_one(self.visits.as_mut_slice(), node, visits);
        put(self.turns.as_mut_slice(), node, turn.number(), turns);
        Ok(())
    }

    /// How often a container with these flags was visited. `NotCounted` where flag 1 is not set. Takes no memory
    /// (docs/VARIABLES.md, "Counts").
    pub fn visits_of(&self, node: usize, flags: u8) -> Result<i32, Fault>
        ensures { result ≡ rules.visits_of nat_cmp node flags self.now.rows }
    {
        if !flags::counts_visits(flags) {
            return Err(Fault::NotCounted);
        }
        match slot(self.visits.as_slice(), node) {
            Some(visits) => Ok(visits as i32),
            None => Ok(0),
        }
    }

    /// What is known of a container, which `restore` puts back. Takes no memory.
    pub fn noted(&self, node: usize) -> Noted
        ensures { result ≡ (row nat_cmp node self.now.rows.visits, row nat_cmp node self.now.rows.turns) }
    {
        Noted {
            visits: slot(self.visits.as_slice(), node),
            turn: slot(self.turns.as_slice(), node),
        }
    }

    /// Takes the visit of a container back: all is as it was before, where what was known of the container is put back. These
    /// are two changes of cells. Takes no memory.
    pub fn restore(&mut self, node: usize, noted: Noted)
        requires room { 2 ≤ counts_spare self.old }
        ensures restored { (before : CountsOf ℕ) → noted ≡ (row nat_cmp node before.visits, row nat_cmp node before.turns)
            → (flags : ℕ) (at_start : Bool) (turn : ℕ) → self.old.rows ≡ rules.visited nat_cmp node flags at_start turn before → self.new.rows ≡ before }
        ensures trail { Trails counts_back 2 self.old.rows self.old.trail self.new.rows self.new.trail }
        ensures stood { counts_stood self.new ≡ counts_stood self.old }
        ensures spare { counts_spare self.old ≤ counts_spare self.new + 2 }
    {
        note_slots(
            &mut self.trail,
            self.visits.as_slice(),
            self.turns.as_slice(),
            node,
        );
        put_back(self.visits.as_mut_slice(), node, noted.visits);
        put_back(self.turns.as_mut_slice(), node, noted.turn);
    }

    /// How many turns ago a container with these flags was entered last, counted from this turn; -1 where it never was.
    /// `NotCounted` where flag 2 is not set. Takes no memory (docs/VARIABLES.md, "Counts").
    pub fn turns_since(&self, node: usize, flags: u8, turn: Turn) -> Result<i32, Fault>
        ensures { result ≡ rules.turns_since nat_cmp node flags turn self.now.rows }
    {
        if !flags::notes_turns(flags) {
            return Err(Fault::NotCounted);
        }
        match slot(self.turns.as_slice(), node) {
            Some(noted) => Ok(turn.number() as i32 - noted as i32),
            None => Ok(-1),
        }
    }
}

#[tactic(auto, unfolding(crate::specs::Undo::counts_stood, crate::specs::Undo::counts_spare, ink_trail::specs::Undo::stood_at, ink_trail::specs::Undo::spare))]
impl Undo for Counts {
    type Pair = CountPair;

    ghost Cells = { CountsOf ℕ };

    ghost cells = { λ counts. counts.rows };

    ghost trail = { λ counts. counts.trail };

    ghost before = { counts_back };

    ghost stood = { counts_stood };

    ghost spare = { counts_spare };

    ghost aside = { λ counts. tt };

    ghost stood_is = { λ counts. unfold counts_stood in refl };

    ghost spare_is = { λ counts. unfold counts_spare in refl };

    #[inline(always)]
    fn trail(&self) -> &Trail<CountPair> {
        &self.trail
    }

    fn undo_last(&mut self) -> bool {
        let Some(pair) = self.trail.take_last() else {
            return false;
        };
        put_row_back(self.visits.as_mut_slice(), self.turns.as_mut_slice(), pair);
        true
    }

    #[inline(always)]
    fn mark(&mut self) {
        self.trail.mark();
    }

    #[inline(always)]
    fn forget(&mut self) {
        self.trail.forget();
    }

    fn make_room(&mut self, count: usize) -> Result<(), AllocError> {
        self.trail.make_room(count)
    }
}
