//! How changes of globals and counts are put back.

ghost use Rattle.std.specs.Prelude.{◌≡◌, ◌≤◌, ◌<◌, ◌+◌, None, List, OnOk, OnErr, is_some, length, nat_lt, true, false};
ghost use Rattle.ink_vars.specs.Globals.{set_value_at};
ghost use Rattle.ink_model.specs.Variables.Store.{store, stored};
ghost use Rattle.ink_trail.specs.Undo.{KeepsTrail, Trails, TrailsOrKeeps, spare, trail_of};
ghost use Rattle.ink_vars.specs.Changes.{AreNew, noted_at, global_index};
ghost use Rattle.ink_vars.specs.Slots.{AreCounts};
ghost use Rattle.ink_vars.specs.Undo.{Covers, HasSlot, counts_back, global_back, rows_of, with_rows, with_wanted};
ghost use Rattle.ink_vars.specs.declared.changes.Before.{Before};

use crate::slots::slot;
use crate::table::Table;
use ink_model::Value;
use ink_trail::Trail;
use std::alloc::AllocError;

/// A global, and what it held: nothing, where the last one was added, or the value at an index.
#[derive(Drop)]
pub enum GlobalPair {
    Added,
    Changed(usize, Value),
}

/// A row of a container, and what it held: of its visits or of its turn.
#[derive(Drop)]
pub enum CountPair {
    Visits(usize, Option<u32>),
    Turn(usize, Option<u32>),
}

/// Gives the global of a name, which may have a number, a value, and notes what it held. Its index is given, and there has to be
/// room for the pair.
pub(crate) fn put_noted(
    table: &mut Table,
    trail: &mut Trail<GlobalPair>,
    name: &str,
    number: Option<usize>,
    index: usize,
    value: Value,
) -> Result<(), AllocError>
    requires room { 1 ≤ spare trail.old }
    requires index { index ≡ global_index name.now table.old }
    ensures ok { OnOk result (table.new ≡ store name.now value table.old) }
    ensures err { OnErr result (table.new ≡ table.old) }
    ensures memory { OnErr result (is_some (stored name.now table.old) ≡ false) }
    ensures trail { TrailsOrKeeps global_back 1 table.old trail.old table.new trail.new result }
    ensures covers { (noted : List Before) → is_some (noted_at (global_index name.now table.old) noted) ≡ true → AreNew (length table.old) noted
        → Covers noted (length table.old) (trail_of trail.old.undo) → Covers noted (length table.new) (trail_of trail.new.undo) }
{
    if index < table.len() {
        change_noted(table, trail, index, value);
        Ok(())
    } else {
        add_noted(table, trail, name, number, value)
    }
}

// Gives the global at an index a value, and notes the one before.
fn change_noted(table: &mut Table, trail: &mut Trail<GlobalPair>, index: usize, value: Value)
    requires there { index < length table.old }
    requires room { 1 ≤ spare trail.old }
    ensures table { table.new ≡ set_value_at table.old index value }
    ensures trail { Trails global_back 1 table.old trail.old table.new trail.new }
    ensures covers { (noted : List Before) → is_some (noted_at index noted) ≡ true
        → Covers noted (length table.old) (trail_of trail.old.undo) → Covers noted (length table.new) (trail_of trail.new.undo) }
{
    let before = table.swap_at(index, value);
    trail.note(GlobalPair::Changed(index, before), 1);
}

// Adds a global, and notes that it was not there.
fn add_noted(
    table: &mut Table,
    trail: &mut Trail<GlobalPair>,
    name: &str,
    number: Option<usize>,
    value: Value,
) -> Result<(), AllocError>
    requires absent { stored name.now table.old ≡ None }
    requires room { 1 ≤ spare trail.old }
    ensures ok { OnOk result (table.new ≡ store name.now value table.old) }
    ensures err { OnErr result (table.new ≡ table.old) }
    ensures trail { TrailsOrKeeps global_back 1 table.old trail.old table.new trail.new result }
    ensures covers { (noted : List Before) → is_some (noted_at (length table.old) noted) ≡ true → AreNew (length table.old) noted
        → Covers noted (length table.old) (trail_of trail.old.undo) → Covers noted (length table.new) (trail_of trail.new.undo) }
{
    table.add_at(name, number, value)?;
    trail.note(GlobalPair::Added, 1);
    Ok(())
}

/// Notes what both rows of a container hold, each where it is wanted, while a mark stands, and makes room for that first. The one
/// error is a refused request for memory, and nothing is noted then.
#[inline(always)]
pub(crate) fn add_rows(
    trail: &mut Trail<CountPair>,
    visits: &[Option<u32>],
    turns: &[Option<u32>],
    node: usize,
    has_visits: bool,
    has_turn: bool,
) -> Result<(), AllocError>
    ensures ok { OnOk result (trail.new.undo ≡ with_rows node has_visits has_turn (rows_of visits.now turns.now) trail.old.undo) }
    ensures room { trail.old.room ≤ trail.new.room + 2 }
    ensures err { OnErr result (KeepsTrail trail.old trail.new) }
    ensures memory { OnErr result (spare trail.old < 2) }
{
    if trail.is_marked() {
        add_marked(trail, visits, turns, node, has_visits, has_turn)
    } else {
        Ok(())
    }
}

// The same, while a mark stands.
#[cold]
#[inline(never)]
fn add_marked(
    trail: &mut Trail<CountPair>,
    visits: &[Option<u32>],
    turns: &[Option<u32>],
    node: usize,
    has_visits: bool,
    has_turn: bool,
) -> Result<(), AllocError>
    ensures ok { OnOk result (trail.new.undo ≡ with_rows node has_visits has_turn (rows_of visits.now turns.now) trail.old.undo) }
    ensures room { trail.old.room ≤ trail.new.room + 2 }
    ensures err { OnErr result (KeepsTrail trail.old trail.new) }
    ensures memory { OnErr result (spare trail.old < 2) }
{
    trail.ready(2)?;
    note_rows(trail, visits, turns, node, has_visits, has_turn);
    Ok(())
}

/// Notes what both rows of a container hold, each where it has a slot, while a mark stands. There has to be room for two pairs.
#[inline(always)]
pub(crate) fn note_slots(
    trail: &mut Trail<CountPair>,
    visits: &[Option<u32>],
    turns: &[Option<u32>],
    node: usize,
)
    requires { 2 ≤ spare trail.old }
    ensures undo { trail.new.undo ≡ with_rows node (nat_lt node (length visits.now)) (nat_lt node (length turns.now)) (rows_of visits.now turns.now) trail.old.undo }
    ensures room { trail.old.room ≤ trail.new.room + 2 }
{
    if trail.is_marked() {
        note_rows(
            trail,
            visits,
            turns,
            node,
            node < visits.len(),
            node < turns.len(),
        );
    }
}

// Notes what both rows of a container hold, each where it is wanted.
#[cold]
#[inline(never)]
fn note_rows(
    trail: &mut Trail<CountPair>,
    visits: &[Option<u32>],
    turns: &[Option<u32>],
    node: usize,
    has_visits: bool,
    has_turn: bool,
)
    requires { 2 ≤ spare trail.old }
    ensures undo { trail.new.undo ≡ with_rows node has_visits has_turn (rows_of visits.now turns.now) trail.old.undo }
    ensures room { trail.old.room ≤ trail.new.room + 2 }
{
    let before = slot(visits, node);
    note_row(trail, CountPair::Visits(node, before), has_visits);
    let last = slot(turns, node);
    note_row(trail, CountPair::Turn(node, last), has_turn);
}

// Notes what a row holds, where it is wanted.
fn note_row(trail: &mut Trail<CountPair>, pair: CountPair, wanted: bool)
    requires { 1 ≤ spare trail.old }
    ensures undo { trail.new.undo ≡ with_wanted wanted pair trail.old.undo }
    ensures room { trail.old.room ≤ trail.new.room + 1 }
    ensures spare { spare trail.old ≤ spare trail.new + 1 }
{
    if wanted {
        trail.note(pair, 1);
    }
}

/// Puts a row back. Takes no memory.
pub(crate) fn put_row_back(visits: &mut [Option<u32>], turns: &mut [Option<u32>], pair: CountPair)
    requires slot { HasSlot (length visits.old) (length turns.old) pair }
    ensures rows { rows_of visits.new turns.new ≡ counts_back pair (rows_of visits.old turns.old) }
    ensures visits { AreCounts visits.old → AreCounts visits.new }
    ensures turns { AreCounts turns.old → AreCounts turns.new }
{
    match pair {
        CountPair::Visits(number, before) => {
            visits[number] = before;
        }
        CountPair::Turn(number, before) => {
            turns[number] = before;
        }
    }
}
