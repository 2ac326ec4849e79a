//! A trail of pairs.

ghost use Rattle.std.specs.Prelude.{◌≡◌, ◌≤◌, ◌<◌, ◌+◌, [], ◌∷◌, None, Some, drop, false, is_some, length, reverse, OnOk, OnErr, MatchOption, true, vec_capacity, vec_len};
ghost use Rattle.ink_trail.specs.Undo.{Begins, Ends, HasRoom, KeepsTrail, LacksRoom, spare, trail_of, with_count, with_pair, writes_of};

use std::alloc::{AllocError, Global};
use std::marker::Model;
use std::mem::forget;

/// While a mark stands, the pairs of a cell and what it held, in the order of the changes, and how many changes of single cells
/// were counted. A contract sees the last pair first, and how many pairs more fit without memory.
#[derive(Drop)]
pub struct Trail<E> {
    pairs: Vec<E>,
    writes: u64,
    marked: bool,
}

impl<E> Model for Trail<E> {
    ghost use Rattle.std.specs.Prelude.{◌≡◌, ◌-◌, ◌≤◌, [], None, Some, false, if◌then◌else◌, reverse, vec_capacity, vec_len};
    ghost use Rattle.ink_trail.specs.Undo.{TrailView};

    ghost Value = { TrailView E };

    ghost view = { λ t. record {
      undo = if t.marked then Some (record { trail = reverse t.pairs.items; writes = t.writes }) else None;
      room = vec_capacity t.pairs - vec_len t.pairs;
    } };

    ghost invariant = { λ t. (vec_len t.pairs ≤ t.writes) × (t.marked ≡ false → t.pairs.items ≡ []) };
}

impl<E> Trail<E> {
    /// No mark stands, which takes no memory.
    pub fn new(alloc: Global) -> Trail<E>
        ensures { result.undo ≡ None }
    {
        Trail {
            pairs: Vec::new(alloc),
            writes: 0,
            marked: false,
        }
    }

    /// Whether a mark stands.
    #[inline(always)]
    pub fn is_marked(&self) -> bool
        ensures { result ≡ is_some self.now.undo }
    {
        self.marked
    }

    /// The changes of single cells that were counted since the mark, which stay at 2^64 - 1; 0 where none stands.
    pub fn writes(&self) -> u64
        ensures { result ≡ writes_of self.now.undo }
    {
        if self.marked { self.writes } else { 0 }
    }

    /// How many pairs there are; 0 where no mark stands.
    pub fn len(&self) -> usize
        ensures len { result ≡ length (trail_of self.now.undo) }
        ensures writes { result ≤ writes_of self.now.undo }
    {
        self.pairs.len()
    }

    /// The last pair, as it stands in the trail; none where there is no pair.
    #[inline(always)]
    pub fn last(&self) -> Option<&E>
        ensures { MatchOption result (trail_of self.now.undo ≡ []) (λ e. trail_of self.now.undo ≡ e.now ∷ drop 1 (trail_of self.now.undo)) }
    {
        self.pairs.last()
    }

    /// The pairs, in the order in which they were noted; none where no mark stands.
    #[inline(always)]
    pub fn pairs(&self) -> &[E]
        ensures { result.now ≡ reverse (trail_of self.now.undo) }
    {
        self.pairs.as_slice()
    }

    /// Counts so many changes of single cells, where a mark stands: those that the pairs that were noted last put back already.
    #[tactic(auto, unfolding(crate::specs::Undo::spare))]
    pub fn count(&mut self, cells: u64)
        ensures undo { self.new.undo ≡ with_count cells self.old.undo }
        ensures room { self.new.room ≡ self.old.room }
        ensures spare { spare self.new ≡ spare self.old }
    {
        if self.marked {
            self.writes = self.writes.saturating_add(cells);
        }
    }

    /// How many pairs more fit without memory.
    #[inline(always)]
    pub fn room(&self) -> usize
        ensures { result ≡ self.now.room }
    {
        self.pairs.capacity() - self.pairs.len()
    }

    /// Makes room for pairs, whether a mark stands or not. The one error is a refused request for memory, and leaves all as it
    /// was.
    #[tactic(auto, unfolding(crate::specs::Undo::spare))]
    pub fn make_room(&mut self, count: usize) -> Result<(), AllocError>
        ensures kept { KeepsTrail self.old self.new }
        ensures more { spare self.old ≤ spare self.new }
        ensures ok { OnOk result (count ≤ self.new.room) }
        ensures spare { OnOk result (count ≤ spare self.new) }
        ensures memory { OnErr result (self.old.room < count) }
        ensures err { OnErr result (self.new.room ≡ self.old.room) }
    {
        self.pairs.reserve(count)
    }

    /// Makes room for pairs where a mark stands, and takes no memory else. The one error is a refused request for memory, and
    /// leaves all as it was.
    #[tactic(auto, unfolding(crate::specs::Undo::spare))]
    #[inline(always)]
    pub fn ready(&mut self, count: usize) -> Result<(), AllocError>
        ensures kept { KeepsTrail self.old self.new }
        ensures more { spare self.old ≤ spare self.new }
        ensures ok { OnOk result (HasRoom count self.new) }
        ensures spare { OnOk result (count ≤ spare self.new) }
        ensures memory { OnErr result (LacksRoom count self.old) }
        ensures lacks { OnErr result (spare self.old < count) }
        ensures err { OnErr result (self.new.room ≡ self.old.room) }
    {
        if self.marked && self.room() < count {
            return self.ready_marked(count);
        }
        Ok(())
    }

    #[tactic(auto, unfolding(crate::specs::Undo::spare))]
    #[cold]
    #[inline(never)]
    fn ready_marked(&mut self, count: usize) -> Result<(), AllocError>
        requires { is_some self.old.undo ≡ true }
        ensures kept { KeepsTrail self.old self.new }
        ensures more { spare self.old ≤ spare self.new }
        ensures ok { OnOk result (HasRoom count self.new) }
        ensures spare { OnOk result (count ≤ spare self.new) }
        ensures memory { OnErr result (LacksRoom count self.old) }
        ensures lacks { OnErr result (spare self.old < count) }
        ensures err { OnErr result (self.new.room ≡ self.old.room) }
    {
        self.make_room(count)
    }
}

impl<E: Drop> Trail<E> {
    /// Starts a mark with no pairs, and forgets an older one. Takes no memory.
    #[inline(always)]
    pub fn mark(&mut self)
        ensures { Begins self.old self.new }
    {
        drop_all(&mut self.pairs);
        self.writes = 0;
        self.marked = true;
    }

    /// Ends the mark. Takes no memory.
    #[inline(always)]
    pub fn forget(&mut self)
        ensures { Ends self.old self.new }
    {
        self.marked = false;
        drop_all(&mut self.pairs);
    }

    /// Notes a pair, and counts so many changes of single cells, where a mark stands. Takes no memory.
    #[tactic(auto, unfolding(crate::specs::Undo::spare))]
    #[inline(always)]
    pub fn note(&mut self, pair: E, cells: u64)
        requires cells { 0 < cells }
        requires spare { 1 ≤ spare self.old }
        ensures undo { self.new.undo ≡ with_pair pair cells self.old.undo }
        ensures room { self.old.room ≤ self.new.room + 1 }
        ensures spare { spare self.old ≤ spare self.new + 1 }
    {
        if self.marked {
            self.pairs.push_reserved(pair);
            self.writes = self.writes.saturating_add(cells);
        }
    }

    /// The same, and makes room for the pair before. The one error is a refused request for memory, which is made only where a
    /// mark stands; nothing has changed then.
    #[inline(always)]
    pub fn add(&mut self, pair: E, cells: u64) -> Result<(), AllocError>
        requires cells { 0 < cells }
        ensures ok { OnOk result (self.new.undo ≡ with_pair pair cells self.old.undo) }
        ensures room { self.old.room ≤ self.new.room + 1 }
        ensures spare { spare self.old ≤ spare self.new + 1 }
        ensures err { OnErr result (KeepsTrail self.old self.new) }
        ensures memory { OnErr result (LacksRoom 1 self.old) }
        ensures lacks { OnErr result (spare self.old < 1) }
    {
        if self.marked {
            return self.add_marked(pair, cells);
        }
        Ok(())
    }

    #[tactic(auto, unfolding(crate::specs::Undo::spare))]
    #[cold]
    #[inline(never)]
    fn add_marked(&mut self, pair: E, cells: u64) -> Result<(), AllocError>
        requires cells { 0 < cells }
        requires marked { is_some self.old.undo ≡ true }
        ensures ok { OnOk result (self.new.undo ≡ with_pair pair cells self.old.undo) }
        ensures room { self.old.room ≤ self.new.room + 1 }
        ensures spare { spare self.old ≤ spare self.new + 1 }
        ensures err { OnErr result (KeepsTrail self.old self.new) }
        ensures memory { OnErr result (LacksRoom 1 self.old) }
        ensures lacks { OnErr result (spare self.old < 1) }
    {
        self.make_room(1)?;
        self.note(pair, cells);
        Ok(())
    }

    /// Takes the last pair out: the mark stands as before, and no change is counted. None where there is no pair. Takes no memory.
    #[inline(always)]
    pub fn take_last(&mut self) -> Option<E>
        ensures pair { MatchOption result ((trail_of self.old.undo ≡ []) × (self.new.undo ≡ self.old.undo)) (λ e. trail_of self.old.undo ≡ e ∷ trail_of self.new.undo) }
        ensures writes { writes_of self.new.undo ≡ writes_of self.old.undo }
        ensures marked { is_some self.new.undo ≡ is_some self.old.undo }
        ensures room { self.old.room ≤ self.new.room }
    {
        self.pairs.pop()
    }

    /// Takes the last pair away once it was copied, so that what it holds is not let go: the mark stands as before, and no change is
    /// counted. Takes no memory.
    #[inline(always)]
    pub fn drop_last(&mut self)
        ensures pairs { trail_of self.new.undo ≡ drop 1 (trail_of self.old.undo) }
        ensures writes { writes_of self.new.undo ≡ writes_of self.old.undo }
        ensures marked { is_some self.new.undo ≡ is_some self.old.undo }
        ensures room { self.old.room ≤ self.new.room }
    {
        forget(self.take_last());
    }
}

// All pairs go. Most often there are none, which is seen in place.
#[inline(always)]
fn drop_all<E: Drop>(pairs: &mut Vec<E>)
    ensures items { pairs.new.items ≡ [] }
    ensures len { vec_len pairs.new ≡ 0 }
    ensures capacity { vec_capacity pairs.new ≡ vec_capacity pairs.old }
{
    if !pairs.is_empty() {
        drop_some(pairs);
    }
}

#[cold]
#[inline(never)]
fn drop_some<E: Drop>(pairs: &mut Vec<E>)
    ensures items { pairs.new.items ≡ [] }
    ensures len { vec_len pairs.new ≡ 0 }
    ensures capacity { vec_capacity pairs.new ≡ vec_capacity pairs.old }
{
    pairs.clear();
}
