//! What a machine has, lent and taken (docs/RUNNING.md, "Configurations").

ghost use Rattle.std.specs.Prelude.{◌≡◌, []};
ghost use Rattle.ink_check.specs.Standing.{story_tree};
ghost use Rattle.ink_model.specs.Run.Configuration.{start};
ghost use Rattle.ink_model.specs.Run.Flows.{one_flow};
ghost use Rattle.ink_model.specs.Story.Tree.{StoryTree};
ghost use Rattle.ink_step.specs.Parts.{config_of_fields, config_of_parts};

use crate::machine::Machine;
use ink_check::Story;
use ink_effects::Shared;
use ink_flows::{Aside, Flow};
use ink_out::Output;
use ink_trail::Trail;
use ink_vars::Globals;
use std::alloc::Global;

/// All that a machine has, lent: what its configuration is made of, and the flows that stand aside.
#[derive(Clone, Copy)]
pub struct Parts<'a> {
    pub flow: &'a Flow,
    pub aside: &'a Aside,
    pub shared: &'a Shared,
    pub output: &'a Output,
}

/// The same, of which a machine is made.
#[derive(Drop)]
pub struct Fields {
    pub flow: Flow,
    pub aside: Aside,
    pub shared: Shared,
    pub output: Output,
}

impl Machine {
    ghost use Rattle.ink_step.specs.Marks.{stood_of, unmarked};
    ghost use Rattle.ink_step.specs.Standing.{aside_in, config_of};

    /// A machine at the story's start, without globals, and with one flow. Takes no memory.
    pub fn new(alloc: Global, story: &Story) -> Machine
        ensures new { let s = story_tree story.now in config_of s result ≡ start s [] }
        ensures aside { aside_in result ≡ one_flow }
        ensures mark { stood_of result ≡ unmarked }
    {
        Machine::at_start(alloc, story, Globals::new(alloc))
    }

    /// What the machine has. Takes no memory.
    pub fn parts(&self) -> Parts<'_>
        ensures config { (s : StoryTree) → config_of_parts s result ≡ config_of s self.now }
        ensures aside { result.aside.now ≡ aside_in self.now }
    {
        Parts {
            flow: &self.flow,
            aside: &self.aside,
            shared: &self.shared,
            output: &self.output,
        }
    }

    /// The machine that has these, where no mark stands. Takes no memory.
    pub fn from_parts(alloc: Global, fields: Fields) -> Machine
        ensures config { (s : StoryTree) → config_of s result ≡ config_of_fields s fields }
        ensures aside { aside_in result ≡ fields.aside }
        ensures mark { stood_of result ≡ unmarked }
    {
        let mut machine = Machine {
            flow: fields.flow,
            aside: fields.aside,
            shared: fields.shared,
            output: fields.output,
            trail: Trail::new(alloc),
            alloc,
        };
        machine.forget();
        machine
    }
}
