//! Containers that are entered, and what that counts (docs/RUNNING.md, "Visits").

ghost use Rattle.ink_vars.specs.Undo.{counts_spare, counts_stood};
ghost use Rattle.std.specs.Prelude.{◌≡◌, true, IfOk, IfErr, OnOk, OnErr, option_map, ◌≤◌, ◌+◌, ◌*◌, ◌^◌, ◌⊎◌, is_some, length, MatchOption};
ghost use Rattle.ink_model.specs.Variables.Counts as rules;
ghost use Rattle.ink_model.specs.Run.Entered.{entered_places, flags_at, passed_places};
ghost use Rattle.ink_model.specs.Run.Place.{content_place};
ghost use Rattle.ink_model.specs.Variables.Rows.{place_order};
ghost use Rattle.ink_model.specs.Story.Tree.{at};
ghost use Rattle.ink_model.specs.Run.Visits.{adds_rows, all_visited};
ghost use Rattle.ink_effects.specs.Marks.{lacks};
ghost use Rattle.ink_effects.specs.Standing.{counts_in};
ghost use Rattle.ink_tree.specs.Kept.{leaf_in};
ghost use Rattle.ink_tree.specs.Nodes.{node_place, place_of, story_tree};
ghost use Rattle.ink_tree.specs.Walks.{still_entered};

use crate::noting::ready_counts;
use ink_model::{Fault, Leaf};
use ink_trail::Undo;
use ink_tree::{NodeId, Spot, Tree, Upward};
use ink_vars::{Counts, Turn};

/// How often a container was visited. `NotCounted` where its visits are not counted. Takes no memory.
pub fn visits_of(tree: &Tree, counts: &Counts, container: NodeId) -> Result<i32, Fault>
    ensures { let s = story_tree tree.now in let q = node_place s container in
        result ≡ rules.visits_of place_order q (flags_at (at s q)) (counts_in s counts.now.rows) }
{
    counts.visits_of(tree.number_of(container), tree.flags(container))
}

/// How many turns ago a container was entered last, -1 where it never was. `NotCounted` where its turns are not noted. Takes no
/// memory.
pub(crate) fn turns_since(
    tree: &Tree,
    counts: &Counts,
    container: NodeId,
    turn: Turn,
) -> Result<i32, Fault>
    ensures { let s = story_tree tree.now in let q = node_place s container in
        result ≡ rules.turns_since place_order q (flags_at (at s q)) turn (counts_in s counts.now.rows) }
{
    counts.turns_since(tree.number_of(container), tree.flags(container), turn)
}

// A container is entered in a turn, as at its start. The one error is a refused request for memory, which is made only for a row
// that is not there, and where a mark stands and there is no room for its notes.
#[inline(always)]
fn enter(tree: &Tree, counts: &mut Counts, container: NodeId, turn: Turn) -> Result<(), Fault>
    ensures ok { let s = story_tree tree.now in let q = node_place s container in
        OnOk result (counts_in s counts.new.rows ≡ rules.visited place_order q (flags_at (at s q)) true turn (counts_in s counts.old.rows)) }
    ensures fault { IfErr result (λ f. f ≡ Fault.OutOfMemory) }
    ensures memory { let s = story_tree tree.now in let q = node_place s container in
        OnErr result ((rules.adds_row place_order q (flags_at (at s q)) (counts_in s counts.old.rows) ≡ true) ⊎ (lacks (counts_stood counts.new) (counts_spare counts.new) 2 ≡ true)) }
    ensures mark { counts_stood counts.new ≡ counts_stood counts.old }
{
    if tree.flags(container) == 0 {
        return Ok(());
    }
    enter_flagged(tree, counts, container, turn)
}

// The same with a call, for a container that may have flags.
#[inline(never)]
fn enter_flagged(
    tree: &Tree,
    counts: &mut Counts,
    container: NodeId,
    turn: Turn,
) -> Result<(), Fault>
    ensures ok { let s = story_tree tree.now in let q = node_place s container in
        OnOk result (counts_in s counts.new.rows ≡ rules.visited place_order q (flags_at (at s q)) true turn (counts_in s counts.old.rows)) }
    ensures fault { IfErr result (λ f. f ≡ Fault.OutOfMemory) }
    ensures memory { let s = story_tree tree.now in let q = node_place s container in
        OnErr result ((rules.adds_row place_order q (flags_at (at s q)) (counts_in s counts.old.rows) ≡ true) ⊎ (lacks (counts_stood counts.new) (counts_spare counts.new) 2 ≡ true)) }
    ensures mark { counts_stood counts.new ≡ counts_stood counts.old }
{
    let flags = tree.flags(container);
    ready_counts(counts, 2)?;
    counts.visit(tree.number_of(container), flags, true, turn)
}

/// The containers on the way down from a content are entered, to the first content that holds no other by index, which is given;
/// an empty container is entered too, and none is given. The one error is a refused request for memory, which is made only for a
/// row that is not there, and where a mark stands and there is no room for the notes; containers further up may have been entered
/// then.
#[inline(always)]
pub fn enter_passed<'a>(
    tree: &'a Tree,
    counts: &mut Counts,
    node: NodeId,
    turn: Turn,
) -> Result<(Spot, Option<&'a Leaf>), Fault>
    ensures here { let s = story_tree tree.now in IfOk result (λ r. place_of s r.0 ≡ content_place s (node_place s node)) }
    ensures found { let s = story_tree tree.now in IfOk result (λ r. option_map (λ l. l.now) r.1 ≡ leaf_in (at s (place_of s r.0))) }
    ensures ok { let s = story_tree tree.now in OnOk result (counts_in s counts.new.rows ≡ all_visited s turn (passed_places s (node_place s node)) (counts_in s counts.old.rows)) }
    ensures fault { IfErr result (λ f. f ≡ Fault.OutOfMemory) }
    ensures memory { let s = story_tree tree.now in OnErr result ((adds_rows s (passed_places s (node_place s node)) (counts_in s counts.old.rows) ≡ true) ⊎ (lacks (counts_stood counts.new) (counts_spare counts.new) 2 ≡ true)) }
    ensures mark { counts_stood counts.new ≡ counts_stood counts.old }
{
    let mut last = node;
    while let Some(first) = tree.first(last) {
        enter(tree, counts, last, turn)?;
        last = first;
    }
    let here = Spot {
        holder: last,
        index: None,
    };
    let found = tree.leaf(last);
    if found.is_none() {
        enter(tree, counts, last, turn)?;
    }
    Ok((here, found))
}

/// The containers around a place are entered in a turn where flow lands there from another place: those of `entered_places`, among
/// which is none with the flag 4 in whose middle the place is, so that `all_visited` counts each as at its start. The one error is a
/// refused request for memory, which is made only for a row that is not there, and where a mark stands and there is no room for the
/// notes; nothing has changed then.
#[inline(always)]
pub fn enter_landed(
    tree: &Tree,
    counts: &mut Counts,
    previous: Option<Spot>,
    place: Spot,
    turn: Turn,
) -> Result<(), Fault>
    ensures ok { let s = story_tree tree.now in OnOk result (counts_in s counts.new.rows ≡ all_visited s turn (entered_places s (option_map (place_of s) previous) (place_of s place)) (counts_in s counts.old.rows)) }
    ensures fault { IfErr result (λ f. f ≡ Fault.OutOfMemory) }
    ensures kept { OnErr result (counts.new.rows ≡ counts.old.rows) }
    ensures memory { let s = story_tree tree.now in let ps = entered_places s (option_map (place_of s) previous) (place_of s place) in
        OnErr result ((adds_rows s ps (counts_in s counts.old.rows) ≡ true) ⊎ (lacks (counts_stood counts.new) (counts_spare counts.new) (4 * length ps) ≡ true)) }
    ensures mark { counts_stood counts.new ≡ counts_stood counts.old }
{
    if !tree.has_flags_around(place) {
        return Ok(());
    }
    let rest = tree.upward(place);
    if counts.is_marked() {
        make_entering_room(tree, counts, previous, rest)?;
    }
    enter_all(tree, counts, previous, rest, turn)
}

// Makes room for what entering the containers of a walk upward changes, and for taking it back.
#[cold]
#[inline(never)]
fn make_entering_room(
    tree: &Tree,
    counts: &mut Counts,
    previous: Option<Spot>,
    rest: Upward,
) -> Result<(), Fault>
    requires marked { is_some (counts_stood counts.old) ≡ true }
    ensures rows { counts.new.rows ≡ counts.old.rows }
    ensures mark { counts_stood counts.new ≡ counts_stood counts.old }
    ensures fault { IfErr result (λ f. f ≡ Fault.OutOfMemory) }
    ensures ok { let s = story_tree tree.now in OnOk result (4 * length (still_entered s (option_map (place_of s) previous) rest) ≤ counts_spare counts.new) }
    ensures memory { let s = story_tree tree.now in OnErr result (lacks (counts_stood counts.new) (counts_spare counts.new) (4 * length (still_entered s (option_map (place_of s) previous) rest)) ≡ true) }
{
    match entering_room(tree, previous, rest) {
        Some(room) => ready_counts(counts, room),
        None => {
            // The room is a number that the machine holds, so that it is too small.
            let _room = counts.room();
            Err(Fault::OutOfMemory)
        }
    }
}

// How many changes entering the containers of a walk upward makes, and taking that back; none for a number that no machine holds.
fn entering_room(tree: &Tree, previous: Option<Spot>, rest: Upward) -> Option<usize>
    ensures { let s = story_tree tree.now in let n = 4 * length (still_entered s (option_map (place_of s) previous) rest) in MatchOption result (2 ^ 64 ≤ n) (λ room. room ≡ n) }
{
    let Some(next) = tree.next_entered(previous, rest) else {
        return Some(0);
    };
    entering_room(tree, previous, next)?.checked_add(4)
}

// The containers that a walk upward still enters are entered, all of them or none.
fn enter_all(
    tree: &Tree,
    counts: &mut Counts,
    previous: Option<Spot>,
    rest: Upward,
    turn: Turn,
) -> Result<(), Fault>
    requires room { let s = story_tree tree.now in is_some (counts_stood counts.old) ≡ true → 4 * length (still_entered s (option_map (place_of s) previous) rest) ≤ counts_spare counts.old }
    ensures ok { let s = story_tree tree.now in OnOk result (counts_in s counts.new.rows ≡ all_visited s turn (still_entered s (option_map (place_of s) previous) rest) (counts_in s counts.old.rows)) }
    ensures fault { IfErr result (λ f. f ≡ Fault.OutOfMemory) }
    ensures kept { OnErr result (counts.new.rows ≡ counts.old.rows) }
    ensures memory { let s = story_tree tree.now in OnErr result (adds_rows s (still_entered s (option_map (place_of s) previous) rest) (counts_in s counts.old.rows) ≡ true) }
    ensures mark { counts_stood counts.new ≡ counts_stood counts.old }
    ensures spare { let s = story_tree tree.now in counts_spare counts.old ≤ counts_spare counts.new + 4 * length (still_entered s (option_map (place_of s) previous) rest) }
{
    let Some(next) = tree.next_entered(previous, rest) else {
        return Ok(());
    };
    let container = tree.number_of(next.node);
    let noted = counts.noted(container);
    counts.visit(container, tree.flags(next.node), true, turn)?;
    match enter_all(tree, counts, previous, next, turn) {
        Ok(()) => Ok(()),
        Err(fault) => {
            counts.restore(container, noted);
            Err(fault)
        }
    }
}
