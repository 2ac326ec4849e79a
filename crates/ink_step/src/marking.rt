//! Marks: a machine goes back to where it stood at one (docs/RUNNING.md, "Marks").

ghost use Rattle.std.specs.Prelude.{◌≡◌, ◌≤◌, ◌<◌, OnErr, OnOk};
ghost use Rattle.ink_model.specs.Story.Tree.{StoryTree};
ghost use Rattle.ink_step.specs.Marks.{KeepsTrails, config_back, marked_at, pairs_in, room_in, stood_of, unmarked, writes_in};

use crate::machine::Machine;
use ink_trail::Undo;
use std::alloc::AllocError;

impl Machine {
    ghost use Rattle.ink_step.specs.Standing.{aside_in, config_of, start_of};

    /// Starts a mark, at which all stands as it does now, and forgets an older one. There is as much room afterwards. Takes no memory.
    #[inline(never)]
    pub fn mark(&mut self)
        ensures config { (s : StoryTree) → config_of s self.new ≡ config_of s self.old }
        ensures start { start_of self.new ≡ start_of self.old }
        ensures aside { aside_in self.new ≡ aside_in self.old }
        ensures mark { stood_of self.new ≡ marked_at self.old }
        ensures writes { writes_in self.new ≡ 0 }
        ensures room { room_in self.old ≤ room_in self.new }
    {
        self.mark_own();
        self.flow.threads.mark();
        self.flow.stack.mark();
        self.flow.choices.mark();
        self.shared.globals.mark();
        self.shared.counts.mark();
        self.output.mark();
    }

    /// How many changes of single cells there were since the mark, in all parts, which stays at 2^64 - 1; 0 without one.
    pub fn writes(&self) -> u64
        ensures { result ≡ writes_in self.now }
    {
        self.trail
            .writes()
            .saturating_add(self.flow.threads.trail().writes())
            .saturating_add(self.flow.stack.trail().writes())
            .saturating_add(self.flow.choices.trail().writes())
            .saturating_add(self.shared.globals.trail().writes())
            .saturating_add(self.shared.counts.trail().writes())
            .saturating_add(self.output.trail().writes())
    }

    /// Puts all back as it stood at the mark, ends the mark, and answers how many pairs there were in all parts, which stays at
    /// 2^64 - 1. Without a mark it changes nothing, and answers 0. What the globals were when the command began stays known. Takes
    /// no memory, and is allowed after a fault too.
    pub fn back(&mut self) -> u64
        ensures config { (s : StoryTree) → config_of s self.new ≡ config_back s self.old }
        ensures start { start_of self.new ≡ start_of self.old }
        ensures aside { aside_in self.new ≡ aside_in self.old }
        ensures mark { stood_of self.new ≡ unmarked }
        ensures pairs { result ≡ pairs_in self.old }
        ensures few { result ≤ writes_in self.old }
        ensures room { room_in self.old ≤ room_in self.new }
    {
        let own = self.back_own();
        let threads = self.flow.threads.back();
        let stack = self.flow.stack.back();
        let choices = self.flow.choices.back();
        let globals = self.shared.globals.back();
        let counts = self.shared.counts.back();
        let output = self.output.back();
        own.saturating_add(threads)
            .saturating_add(stack)
            .saturating_add(choices)
            .saturating_add(globals)
            .saturating_add(counts)
            .saturating_add(output)
    }

    /// How many changes can be noted without memory, in whichever part. Takes no memory.
    pub fn room(&self) -> usize
        ensures { result ≡ room_in self.now }
    {
        self.trail
            .room()
            .min(self.flow.threads.trail().room())
            .min(self.flow.stack.trail().room())
            .min(self.flow.choices.trail().room())
            .min(self.shared.globals.trail().room())
            .min(self.shared.counts.trail().room())
            .min(self.output.trail().room())
    }

    /// Makes room for so many changes to be noted in each part without memory. The one error is a refused request for memory,
    /// which is made only where there is less room; where the machine stands, and where it goes back to, is then as it was.
    #[tactic(auto, unfolding(crate::specs::Marks::own_spare, crate::specs::Marks::own_stood, ink_trail::specs::Undo::spare, ink_trail::specs::Undo::stood_at))]
    pub fn make_room(&mut self, count: usize) -> Result<(), AllocError>
        ensures config { (s : StoryTree) → config_of s self.new ≡ config_of s self.old }
        ensures start { start_of self.new ≡ start_of self.old }
        ensures aside { aside_in self.new ≡ aside_in self.old }
        ensures mark { stood_of self.new ≡ stood_of self.old }
        ensures kept { KeepsTrails self.old self.new }
        ensures ok { OnOk result (count ≤ room_in self.new) }
        ensures memory { OnErr result (room_in self.old < count) }
    {
        self.trail.make_room(count)?;
        self.flow.threads.make_room(count)?;
        self.flow.stack.make_room(count)?;
        self.flow.choices.make_room(count)?;
        self.shared.globals.make_room(count)?;
        self.shared.counts.make_room(count)?;
        self.output.make_room(count)
    }
}
