//! The machine's own fields, and what they were at the mark.

ghost use Rattle.std.specs.Prelude.{◌≡◌, ◌≤◌, ◌+◌, true, length, None, Some, unwrap_or, IfErr, OnErr, OnOk};
ghost use Rattle.ink_step.specs.Marks.{NotesOwn, own_back, own_lacks, own_of, own_spare, own_stood, stood_of};
ghost use Rattle.ink_trail.specs.Undo.{KeepsTrail, Trails, trail_of, writes_of};

use crate::machine::Machine;
use ink_model::Fault;
use ink_vars::Turn;

/// A cell of a machine's own fields, and what it held.
#[derive(Drop)]
pub enum OwnPair {
    Turned(Turn),
    Safe(bool),
}

impl Machine {
    /// Stops are safe from now on, or not. The one error is `OutOfMemory` for a refused request for memory, while a mark stands.
    #[inline(always)]
    pub(crate) fn change_safe(&mut self, safe: bool) -> Result<(), Fault>
        ensures same { self.new ≡ record self.old { trail = self.new.trail; flow = record self.old.flow { safe = self.new.flow.safe } } }
        ensures safe { OnOk result (self.new.flow.safe ≡ safe) }
        ensures own { NotesOwn 1 self.old.trail self.new.trail }
        ensures mark { stood_of self.new ≡ stood_of self.old }
        ensures fault { IfErr result (λ f. f ≡ Fault.OutOfMemory) }
        ensures memory { OnErr result (own_lacks 2 self.new ≡ true) }
    {
        self.make_own_room()?;
        self.set_safe(safe);
        Ok(())
    }

    /// Makes room for changes of both fields, where a mark stands. The one error is `OutOfMemory` for a refused request for memory.
    #[tactic(auto, unfolding(crate::specs::Marks::own_spare, crate::specs::Marks::own_stood, ink_trail::specs::Undo::spare, ink_trail::specs::Undo::stood_at))]
    #[inline(always)]
    pub(crate) fn make_own_room(&mut self) -> Result<(), Fault>
        ensures same { self.new ≡ record self.old { trail = self.new.trail } }
        ensures kept { KeepsTrail self.old.trail self.new.trail }
        ensures mark { stood_of self.new ≡ stood_of self.old }
        ensures room { OnOk result (2 ≤ own_spare self.new.trail) }
        ensures fault { IfErr result (λ f. f ≡ Fault.OutOfMemory) }
        ensures memory { OnErr result (own_lacks 2 self.new ≡ true) }
    {
        self.trail.ready(2)?;
        Ok(())
    }

    // Starts a mark of the fields. Takes no memory.
    #[tactic(auto, unfolding(crate::specs::Marks::own_spare, crate::specs::Marks::own_stood, ink_trail::specs::Undo::spare, ink_trail::specs::Undo::stood_at))]
    #[inline(always)]
    pub(crate) fn mark_own(&mut self)
        ensures same { self.new ≡ record self.old { trail = self.new.trail } }
        ensures mark { own_stood self.new.trail self.old.shared.turn self.old.flow.safe ≡ Some (own_of self.old) }
        ensures writes { writes_of self.new.trail.undo ≡ 0 }
        ensures room { self.old.trail.room ≤ self.new.trail.room }
    {
        self.trail.mark();
    }

    // Puts the fields back as they stood at the mark, ends it, and answers how many pairs there were. Takes no memory.
    #[tactic(auto, unfolding(crate::specs::Marks::own_spare, crate::specs::Marks::own_stood, ink_trail::specs::Undo::spare, ink_trail::specs::Undo::stood_at))]
    #[inline(always)]
    pub(crate) fn back_own(&mut self) -> u64
        ensures same { self.new ≡ record self.old { trail = self.new.trail; flow = record self.old.flow { safe = self.new.flow.safe }; shared = record self.old.shared { turn = self.new.shared.turn } } }
        ensures own { own_of self.new ≡ unwrap_or (own_stood self.old.trail self.old.shared.turn self.old.flow.safe) (own_of self.old) }
        ensures mark { own_stood self.new.trail self.new.shared.turn self.new.flow.safe ≡ None }
        ensures len { result ≡ length (trail_of self.old.trail.undo) }
        ensures writes { result ≤ writes_of self.old.trail.undo }
        ensures room { self.old.trail.room ≤ self.new.trail.room }
    {
        if self.trail.len() == 0 {
            self.trail.forget();
            return 0;
        }
        self.put_own_back()
    }

    // The same in a loop, where there are pairs.
    #[tactic(auto, unfolding(crate::specs::Marks::own_spare, crate::specs::Marks::own_stood, ink_trail::specs::Undo::spare, ink_trail::specs::Undo::stood_at))]
    #[inline(never)]
    fn put_own_back(&mut self) -> u64
        ensures same { self.new ≡ record self.old { trail = self.new.trail; flow = record self.old.flow { safe = self.new.flow.safe }; shared = record self.old.shared { turn = self.new.shared.turn } } }
        ensures own { own_of self.new ≡ unwrap_or (own_stood self.old.trail self.old.shared.turn self.old.flow.safe) (own_of self.old) }
        ensures mark { own_stood self.new.trail self.new.shared.turn self.new.flow.safe ≡ None }
        ensures len { result ≡ length (trail_of self.old.trail.undo) }
        ensures writes { result ≤ writes_of self.old.trail.undo }
        ensures room { self.old.trail.room ≤ self.new.trail.room }
    {
        let count = self.trail.len() as u64;
        while let Some(pair) = self.trail.take_last() {
            match pair {
                OwnPair::Turned(turn) => self.shared.turn = turn,
                OwnPair::Safe(safe) => self.flow.safe = safe,
            }
        }
        self.trail.forget();
        count
    }

    // Ends the mark of the fields. Takes no memory.
    #[tactic(auto, unfolding(crate::specs::Marks::own_spare, crate::specs::Marks::own_stood, ink_trail::specs::Undo::spare, ink_trail::specs::Undo::stood_at))]
    #[inline(always)]
    pub(crate) fn forget_own(&mut self)
        ensures same { self.new ≡ record self.old { trail = self.new.trail } }
        ensures mark { own_stood self.new.trail self.old.shared.turn self.old.flow.safe ≡ None }
        ensures room { self.old.trail.room ≤ self.new.trail.room }
    {
        self.trail.forget();
    }

    /// Stops are safe from now on, or not. Takes no memory.
    #[tactic(auto, unfolding(crate::specs::Marks::own_spare, crate::specs::Marks::own_stood, ink_trail::specs::Undo::spare, ink_trail::specs::Undo::stood_at))]
    #[inline(always)]
    pub(crate) fn set_safe(&mut self, safe: bool)
        requires room { 1 ≤ own_spare self.old.trail }
        ensures set { self.new ≡ record self.old { trail = self.new.trail; flow = record self.old.flow { safe = safe } } }
        ensures trail { Trails own_back 1 (own_of self.old) self.old.trail (own_of self.new) self.new.trail }
        ensures mark { stood_of self.new ≡ stood_of self.old }
        ensures spare { own_spare self.old.trail ≤ own_spare self.new.trail + 1 }
    {
        self.trail.note(OwnPair::Safe(self.flow.safe), 1);
        self.flow.safe = safe;
    }

    /// The turn is this one from now on. Takes no memory.
    #[tactic(auto, unfolding(crate::specs::Marks::own_spare, crate::specs::Marks::own_stood, ink_trail::specs::Undo::spare, ink_trail::specs::Undo::stood_at))]
    #[inline(always)]
    pub(crate) fn set_turn(&mut self, turn: Turn)
        requires room { 1 ≤ own_spare self.old.trail }
        ensures set { self.new ≡ record self.old { trail = self.new.trail; shared = record self.old.shared { turn = turn } } }
        ensures trail { Trails own_back 1 (own_of self.old) self.old.trail (own_of self.new) self.new.trail }
        ensures mark { stood_of self.new ≡ stood_of self.old }
        ensures spare { own_spare self.old.trail ≤ own_spare self.new.trail + 1 }
    {
        self.trail.note(OwnPair::Turned(self.shared.turn), 1);
        self.shared.turn = turn;
    }
}
