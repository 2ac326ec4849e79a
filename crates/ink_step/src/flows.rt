//! Flows of a machine: going to one, and taking one away (docs/RUNNING.md, "Flows").

ghost use Rattle.std.specs.Prelude.{◌≡◌, bytes_eq, is_none, is_some, length, IfOk, OnErr, OnOk, false, true};
ghost use Rattle.ink_check.specs.Standing.{story_tree};
ghost use Rattle.ink_model.specs.Run.Flows.{current_name, default_flow, has_room, in_flow, is_flow_name, without_flow};
ghost use Rattle.ink_model.specs.Variables.Named.{at, names};
ghost use Rattle.ink_model.specs.Story.Tree.{StoryTree};
ghost use Rattle.ink_step.specs.Marks.{stood_of, unmarked};

use crate::machine::Machine;
use ink_check::Story;
use ink_model::{Seq, Text};
use std::alloc::AllocError;

impl Machine {
    ghost use Rattle.ink_step.specs.Standing.{aside_of, aside_in, game_of, start_of};

    /// Goes to the flow of a name, which is made at the story's start where it is absent: the current one is put aside as it is, and
    /// what flows share stays. The one error is a refused request for memory, which is made only for an absent one, and changes
    /// nothing.
    pub fn flow(&mut self, story: &Story, name: &str) -> Result<(), AllocError>
        requires unmarked { stood_of self.old ≡ unmarked }
        requires name { is_flow_name name.now ≡ true }
        requires room { let s = story_tree story.now in has_room name.now (game_of s self.old).aside ≡ true }
        ensures ok { let s = story_tree story.now in OnOk result (game_of s self.new ≡ in_flow s name.now (game_of s self.old)) }
        ensures err { let s = story_tree story.now in OnErr result (game_of s self.new ≡ game_of s self.old) }
        ensures memory { let s = story_tree story.now in OnErr result (is_none (at name.now (game_of s self.old).aside) ≡ true) }
        ensures start { start_of self.new ≡ start_of self.old }
        ensures mark { stood_of self.new ≡ unmarked }
    {
        let start = story.tree().start();
        self.aside.go(name, &mut self.flow, start)?;
        self.forget();
        Ok(())
    }

    /// Takes the flow of a name away, which is not the first; all others stay as they are. Where it is the current one, the first
    /// becomes that before. Takes no memory.
    pub fn drop_flow(&mut self, name: &str)
        requires unmarked { stood_of self.old ≡ unmarked }
        requires there { (s : StoryTree) → is_some (at name.now (game_of s self.old).aside) ≡ true }
        requires other { bytes_eq name.now default_flow ≡ false }
        ensures game { (s : StoryTree) → game_of s self.new ≡ without_flow s name.now (game_of s self.old) }
        ensures start { start_of self.new ≡ start_of self.old }
        ensures mark { stood_of self.new ≡ unmarked }
    {
        self.aside.drop_flow(name, &mut self.flow);
        self.forget();
    }

    /// The name of the current flow, also after a fault. Takes no memory.
    pub fn flow_name(&self) -> &str
        ensures { (s : StoryTree) → result.now ≡ current_name (game_of s self.now).aside }
    {
        self.aside.current_name()
    }

    /// The names of all flows, in order of making, also after a fault. The one error is a refused request for memory.
    pub fn flows(&self) -> Result<Seq<Text>, AllocError>
        ensures { (s : StoryTree) → IfOk result (λ found. found ≡ names (game_of s self.now).aside) }
    {
        self.aside.names(self.alloc)
    }

    /// Whether there is a flow of this name. Takes no memory.
    pub fn has_flow(&self, name: &str) -> bool
        ensures { (s : StoryTree) → result ≡ is_some (at name.now (game_of s self.now).aside) }
    {
        self.aside.contains(name)
    }

    /// How many flows there are. Takes no memory.
    pub fn flow_count(&self) -> usize
        ensures { (s : StoryTree) → result ≡ length (game_of s self.now).aside }
    {
        self.aside.len()
    }
}
