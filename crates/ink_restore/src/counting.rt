//! Visits and turns that a save spells, in a story.

ghost use Rattle.std.specs.Prelude.{◌≡◌, ◌≤◌, ◌<◌, ◌+◌, ◌++◌, ◌∷◌, [], IfOk, IfSome, OnErr, OnOk, length, nat_le, true};
ghost use Rattle.ink_json.specs.Order.{key_part};
ghost use Rattle.ink_model.specs.Run.Entered.{flags_at};
ghost use Rattle.ink_model.specs.Story.Places.{places};
ghost use Rattle.ink_model.specs.Save.Sound.{CountsFit, RowCounts, RowsCount};
ghost use Rattle.ink_model.specs.Story.Tree.{at};
ghost use Rattle.ink_model.specs.declared.limits.TheConstants.{MAX_COUNT};
ghost use Rattle.ink_restore.specs.Asks.{CountsAsk};
ghost use Rattle.ink_restore.specs.Building.{Builds, FirstAsks};
ghost use Rattle.ink_restore.specs.Counted.{AreBelow, AreOwn, counts_at, flag_of, least_of, place_at, row_at, rows_at};
ghost use Rattle.ink_spelling.specs.Readings.{part_as};
ghost use Rattle.ink_tree.specs.Nodes.{Finds, NumbersInOrder, story_tree};
ghost use Rattle.ink_vars.specs.Slots.{AreCounts, rows_from};

use ink_json::Key;
use ink_model::{MAX_COUNT, flags};
use ink_spelling::{SavedPart, SavedPlace};
use ink_tree::{NodeId, Tree};
use ink_vars::Counts;
use std::alloc::{AllocError, Global};

/// What is counted: visits, or the turns of the last ones.
#[derive(Clone, Copy)]
pub enum Counted {
    Visits,
    Turns,
}

/// The counts of these rows; none where a row is of no container that has such a count, a count is out of its bounds, or rows do
/// not rise by place. The one error is a refused request for memory, which is made once the first row of visits fits, or, where
/// there is none, the first row of turns does.
pub fn build_counts(
    alloc: Global,
    tree: &Tree,
    visits: &[(SavedPlace<'_>, u64)],
    turns: &[(SavedPlace<'_>, u64)],
) -> Result<Option<Counts>, AllocError>
    ensures builds { let s = story_tree tree.now in
        IfOk result (λ made. Builds (λ v. counts_at s v.rows) (CountsFit s) (record { visits = visits.now; turns = turns.now }) made) }
    ensures own { IfOk result (λ made. IfSome made (λ v. AreOwn (story_tree tree.now) v.rows)) }
    ensures memory { OnErr result (CountsAsk (story_tree tree.now) (record { visits = visits.now; turns = turns.now })) }
{
    let Some(visits) = build_rows(alloc, tree, Counted::Visits, visits)? else {
        return Ok(None);
    };
    let Some(turns) = build_rows(alloc, tree, Counted::Turns, turns)? else {
        return Ok(None);
    };
    Ok(Some(Counts::from_slots(visits, turns)))
}

// The counts of rows, by the numbers of their containers. The one error is a refused request for memory, which is made once the
// first one fits.
fn build_rows(
    alloc: Global,
    tree: &Tree,
    what: Counted,
    rows: &[(SavedPlace<'_>, u64)],
) -> Result<Option<Vec<Option<u32>>>, AllocError>
    ensures rows { let s = story_tree tree.now in
        IfOk result (λ made. Builds (λ v. rows_at s (rows_from 0 v.items)) (RowsCount s (flag_of what) (least_of what)) rows.now made) }
    ensures own { IfOk result (λ made. IfSome made (λ v. AreBelow (length (places (story_tree tree.now))) (rows_from 0 v.items))) }
    ensures counts { IfOk result (λ made. IfSome made (λ v. AreCounts v.items)) }
    ensures memory { let s = story_tree tree.now in let fits = RowCounts s (flag_of what) (least_of what) in OnErr result (FirstAsks fits fits rows.now) }
{
    let mut slots = Vec::new(alloc);
    for row in rows {
        let Some((number, count)) = build_row(tree, what, row) else {
            return Ok(None);
        };
        if number < slots.len() {
            return Ok(None);
        }
        put_last(&mut slots, number, count)?;
    }
    Ok(Some(slots))
}

// The number and the count of a row.
fn build_row(tree: &Tree, what: Counted, row: &(SavedPlace<'_>, u64)) -> Option<(usize, u32)>
    ensures row { let s = story_tree tree.now in Builds (row_at s) (RowCounts s (flag_of what) (least_of what)) row.now result }
    ensures number { let s = story_tree tree.now in IfSome result (λ r. r.0 < length (places s)) }
    ensures order { IfSome result (λ r. NumbersInOrder (story_tree tree.now)) }
{
    let number = flagged(tree, what, &row.0)?;
    let count = bounded(what, row.1)?;
    Some((number, count))
}

// The number of the container at a place, if it has such a count.
fn flagged(tree: &Tree, what: Counted, place: &SavedPlace<'_>) -> Option<usize>
    ensures number { let s = story_tree tree.now in Builds (place_at s) (λ p. flag_of what (flags_at (at s p)) ≡ true) place.now result }
    ensures own { IfSome result (λ n. n < length (places (story_tree tree.now))) }
    ensures order { IfSome result (λ n. NumbersInOrder (story_tree tree.now)) }
{
    let node = node_at(tree, place)?;
    let flags = tree.flags(node);
    if has_count(what, flags) {
        Some(tree.number_of(node))
    } else {
        None
    }
}

// The content at a place.
fn node_at(tree: &Tree, place: &SavedPlace<'_>) -> Option<NodeId>
    ensures { Finds (story_tree tree.now) place.now result }
{
    let all = place.parts();
    let mut here = NodeId::ROOT;
    for part in all {
        here = tree.child(here, key_of(part))?;
    }
    Some(here)
}

// The key that a part is.
#[inline(always)]
fn key_of<'j>(part: &SavedPart<'j>) -> Key<'j>
    ensures { key_part result ≡ part_as part.now }
{
    match *part {
        SavedPart::Index(index) => Key::Index(index),
        SavedPart::Name(name) => Key::Name(name),
    }
}

fn has_count(what: Counted, flags: u8) -> bool
    ensures { result ≡ flag_of what flags }
{
    match what {
        Counted::Visits => flags::counts_visits(flags),
        Counted::Turns => flags::notes_turns(flags),
    }
}

// A count, if it is within its bounds.
fn bounded(what: Counted, count: u64) -> Option<u32>
    ensures { Builds (λ n. n) (λ n. (least_of what ≤ n) × (n ≤ MAX_COUNT)) count result }
{
    if is_least(what, count) && count <= MAX_COUNT as u64 {
        Some(count as u32)
    } else {
        None
    }
}

fn is_least(what: Counted, count: u64) -> bool
    ensures { result ≡ nat_le (least_of what) count }
{
    match what {
        Counted::Visits => count >= 1,
        Counted::Turns => true,
    }
}

// Puts the count of a number that is beyond those of the others. The one error is a refused request for memory.
fn put_last(slots: &mut Vec<Option<u32>>, number: usize, count: u32) -> Result<(), AllocError>
    requires { length slots.old.items ≤ number }
    ensures rows { OnOk result (rows_from 0 slots.new.items ≡ rows_from 0 slots.old.items ++ (number, count) ∷ []) }
    ensures len { OnOk result (length slots.new.items ≡ number + 1) }
    ensures counts { AreCounts slots.old.items → count ≤ MAX_COUNT → OnOk result (AreCounts slots.new.items) }
{
    while slots.len() < number {
        slots.push(None)?;
    }
    slots.push(Some(count))?;
    Ok(())
}
