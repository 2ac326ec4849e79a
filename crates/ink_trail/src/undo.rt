//! A part that can be put back to a mark.

ghost use Rattle.std.specs.Prelude.{◌≡◌, ◌≤◌, ◌<◌, ℕ, Option, None, Some, is_some, length, true, unwrap_or, OnOk, OnErr};
ghost use Rattle.ink_trail.specs.Undo as rules;
ghost use Rattle.ink_trail.specs.Parts.{PutsBack};
ghost use Rattle.ink_trail.specs.Undo.{Begins, Ends, KeepsTrail, TrailView, trail_of, writes_of};

use crate::trail::Trail;
use std::alloc::AllocError;

/// A part that keeps a trail of its cells while a mark stands. It says what a pair puts back; how all of it is put back is said
/// here, once for all parts.
///
/// A contract sees its cells, its trail, the cells as they stood at the mark, where one stands, how many changes more can be noted
/// without memory, and what else it has, which no call here changes.
pub trait Undo {
    /// A cell, and what it held.
    type Pair: Drop;

    ghost Cells: { Type 0 };

    ghost Aside: { Type 0 } = { Unit {0} };

    ghost cells: { Self → Cells };

    ghost trail: { Self → TrailView Self.Pair };

    ghost before: { Self.Pair → Cells → Cells };

    ghost stood: { Self → Option Cells };

    ghost spare: { Self → ℕ };

    ghost aside: { Self → Aside };

    /// The trail.
    fn trail(&self) -> &Trail<Self::Pair>
        ensures { result.now ≡ trail self.now };

    /// Puts the last pair back, and takes it out of the trail; the mark stands on, and `writes` says what it said. False where there
    /// is none, and nothing has changed then. Takes no memory.
    fn undo_last(&mut self) -> bool
        ensures cells { PutsBack before result (cells self.old) (trail self.old) (cells self.new) (trail self.new) }
        ensures marked { is_some (trail self.new).undo ≡ is_some (trail self.old).undo }
        ensures writes { writes_of (trail self.new).undo ≡ writes_of (trail self.old).undo }
        ensures aside { aside self.new ≡ aside self.old };

    /// Starts a mark with an empty trail, and forgets an older one. Takes no memory.
    fn mark(&mut self)
        ensures cells { cells self.new ≡ cells self.old }
        ensures aside { aside self.new ≡ aside self.old }
        ensures trail { Begins (trail self.old) (trail self.new) }
        ensures stood { stood self.new ≡ Some (cells self.old) };

    /// Ends the mark, and changes nothing else. Takes no memory.
    fn forget(&mut self)
        ensures cells { cells self.new ≡ cells self.old }
        ensures aside { aside self.new ≡ aside self.old }
        ensures trail { Ends (trail self.old) (trail self.new) }
        ensures stood { stood self.new ≡ None };

    /// Makes room for so many changes to be noted without memory. The one error is a refused request for memory, and leaves all as
    /// it was.
    fn make_room(&mut self, count: usize) -> Result<(), AllocError>
        ensures cells { cells self.new ≡ cells self.old }
        ensures aside { aside self.new ≡ aside self.old }
        ensures kept { KeepsTrail (trail self.old) (trail self.new) }
        ensures stood { stood self.new ≡ stood self.old }
        ensures more { spare self.old ≤ spare self.new }
        ensures ok { OnOk result (count ≤ (trail self.new).room) }
        ensures memory { OnErr result ((trail self.old).room < count) }
        ensures err { OnErr result ((trail self.new).room ≡ (trail self.old).room) };

    ghost stood_is: { (part : Self) → stood part ≡ rules.stood_at before (trail part) (cells part) };

    ghost spare_is: { (part : Self) → spare part ≡ rules.spare (trail part) };

    /// Whether a mark stands.
    #[inline(always)]
    final fn is_marked(&self) -> bool
        ensures { result ≡ is_some (stood self.now) }
    {
        self.trail().is_marked()
    }

    /// How many changes of single cells there were since the mark, which stays at 2^64 - 1; 0 without one.
    final fn writes(&self) -> u64
        ensures { result ≡ writes_of (trail self.now).undo }
    {
        self.trail().writes()
    }

    /// How many changes can be noted without memory.
    final fn room(&self) -> usize
        ensures { result ≡ (trail self.now).room }
    {
        self.trail().room()
    }

    /// As `make_room` while a mark stands; without one it takes no memory.
    #[inline(always)]
    final fn ready(&mut self, count: usize) -> Result<(), AllocError>
        ensures cells { cells self.new ≡ cells self.old }
        ensures aside { aside self.new ≡ aside self.old }
        ensures kept { KeepsTrail (trail self.old) (trail self.new) }
        ensures stood { stood self.new ≡ stood self.old }
        ensures more { spare self.old ≤ spare self.new }
        ensures ok { OnOk result (count ≤ spare self.new) }
        ensures memory { OnErr result ((is_some (stood self.old) ≡ true) × (spare self.old < count)) }
        ensures err { OnErr result ((trail self.new).room ≡ (trail self.old).room) }
    {
        if self.is_marked() && self.room() < count {
            return self.make_room(count);
        }
        Ok(())
    }

    /// Puts the cells back as they stood at the mark, ends the mark, and answers how many pairs there were. Without a mark it
    /// changes nothing, and answers 0. Takes no memory.
    #[inline(always)]
    final fn back(&mut self) -> u64
        ensures cells { cells self.new ≡ unwrap_or (stood self.old) (cells self.old) }
        ensures aside { aside self.new ≡ aside self.old }
        ensures trail { Ends (trail self.old) (trail self.new) }
        ensures stood { stood self.new ≡ None }
        ensures len { result ≡ length (trail_of (trail self.old).undo) }
        ensures writes { result ≤ writes_of (trail self.old).undo }
    {
        let count = self.trail().len() as u64;
        if count > 0 {
            undo_all(self);
        }
        self.forget();
        count
    }
}

// Puts all pairs back, the last first. Most often there are none.
#[inline(never)]
fn undo_all<U: Undo>(part: &mut U)
    ensures cells { U.cells part.new ≡ rules.stood U.before (U.trail part.old) (U.cells part.old) }
    ensures aside { U.aside part.new ≡ U.aside part.old }
    ensures room { (U.trail part.old).room ≤ (U.trail part.new).room }
{
    while part.undo_last() {}
}
