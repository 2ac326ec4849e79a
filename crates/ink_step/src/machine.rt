//! The machine that runs a story forward.

ghost use Rattle.std.specs.Prelude.{◌≡◌, ◌≤◌, IfErr, OnOk, OnErr, is_ok, is_some};
ghost use Rattle.ink_model.specs.Run.Configuration.{begun, settled, can_go_on, with_globals};
ghost use Rattle.ink_model.specs.Protocol.Passage.{is_loose};
ghost use Rattle.ink_model.specs.Variables.Store.{store, stored};
ghost use Rattle.ink_model.specs.Story.Tree.{StoryTree};
ghost use Rattle.ink_step.specs.Marks.{room_in, stood_of, unmarked};

use crate::own::OwnPair;
use ink_effects::Shared;
use ink_flows::{Aside, Flow};
use ink_model::Value;
use ink_out::Output;
use ink_trail::{Trail, Undo};
use ink_vars::Globals;
use std::alloc::Global;
use std::mem;

/// What changes while a story runs: a configuration, which has the current flow; the flows that stand aside; what the globals were
/// when the last running command began or the last global was set, whichever came later; and while a mark stands the trail of what
/// all was.
pub struct Machine {
    pub(crate) flow: Flow,
    pub(crate) aside: Aside,
    pub(crate) shared: Shared,
    pub(crate) output: Output,
    pub(crate) trail: Trail<OwnPair>,
    pub(crate) alloc: Global,
}

/// Written out, so that wherever a machine is let go that is one call, and a proof there does not go through its fields.
impl Drop for Machine {
    fn drop(self) {
        let Machine {
            flow: _,
            aside: _,
            shared: _,
            output: _,
            trail: _,
            alloc: _,
        } = self;
    }
}

impl Machine {
    ghost use Rattle.ink_step.specs.Standing.{aside_in, config_of, globals_of, start_of};

    /// Whether flow has not stopped. Takes no memory.
    pub fn can_go_on(&self) -> bool
        ensures { (s : StoryTree) → result ≡ can_go_on (config_of s self.now) }
    {
        self.flow.threads.place().is_some()
    }

    /// The globals. Takes no memory.
    pub fn globals(&self) -> &Globals
        ensures { result.now.rows ≡ globals_of self.now }
    {
        &self.shared.globals
    }

    /// The globals, without the machine. Takes no memory.
    pub(crate) fn into_globals(mut self) -> Globals
        ensures { result.rows ≡ globals_of self }
    {
        mem::replace(&mut self.shared.globals, Globals::new(self.alloc))
    }

    /// Gives a global that is there a value, without memory. Where there is none the value is handed back. Changes of globals are
    /// those from now on in either case.
    pub fn set(&mut self, name: &str, value: Value) -> Result<(), Value>
        requires unmarked { stood_of self.old ≡ unmarked }
        ensures found { is_ok result ≡ is_some (stored name.now (globals_of self.old)) }
        ensures ok { (s : StoryTree) → OnOk result (config_of s self.new ≡ with_globals (store name.now value (globals_of self.old)) (config_of s self.old)) }
        ensures err { (s : StoryTree) → OnErr result (config_of s self.new ≡ config_of s self.old) }
        ensures handed_back { IfErr result (λ handed_back. handed_back ≡ value) }
        ensures start { start_of self.new ≡ globals_of self.new }
        ensures aside { aside_in self.new ≡ aside_in self.old }
        ensures mark { stood_of self.new ≡ stood_of self.old }
    {
        self.shared.globals.replace(name, value)
    }

    /// Ends the mark, and changes nothing else. Takes no memory.
    pub fn forget(&mut self)
        ensures config { (s : StoryTree) → config_of s self.new ≡ config_of s self.old }
        ensures globals { globals_of self.new ≡ globals_of self.old }
        ensures start { start_of self.new ≡ start_of self.old }
        ensures aside { aside_in self.new ≡ aside_in self.old }
        ensures mark { stood_of self.new ≡ unmarked }
        ensures room { room_in self.old ≤ room_in self.new }
    {
        self.forget_own();
        self.flow.threads.forget();
        self.flow.stack.forget();
        self.flow.choices.forget();
        self.shared.globals.forget();
        self.shared.counts.forget();
        self.output.forget();
    }

    /// As a running command begins: the mark of a safe stop is cleared, and changes of globals are those from now on; no mark to go
    /// back to stands any more. Takes no memory (docs/RUNNING.md, "Runs").
    pub fn begin(&mut self)
        ensures begun { (s : StoryTree) → config_of s self.new ≡ begun (config_of s self.old) }
        ensures globals { globals_of self.new ≡ globals_of self.old }
        ensures start { start_of self.new ≡ globals_of self.old }
        ensures aside { aside_in self.new ≡ aside_in self.old }
        ensures mark { stood_of self.new ≡ unmarked }
    {
        self.flow.safe = false;
        self.forget();
        self.shared.globals.begin();
    }

    /// As a running command ends, once its text was taken: no mark of the text is left, and no frame has the number of an Enter.
    /// There may be no mark to go back to. Takes no memory (docs/RUNNING.md, "Runs").
    #[tactic(auto, unfolding(ink_model::specs::Run::Configuration::settled))]
    pub fn settle(&mut self)
        requires unmarked { stood_of self.old ≡ unmarked }
        ensures settled { (s : StoryTree) → config_of s self.new ≡ settled (config_of s self.old) }
        ensures globals { globals_of self.new ≡ globals_of self.old }
        ensures start { start_of self.new ≡ start_of self.old }
        ensures aside { aside_in self.new ≡ aside_in self.old }
        ensures mark { stood_of self.new ≡ unmarked }
    {
        self.flow.threads.clear_numbers();
        self.flow.choices.clear_numbers();
        self.output.clear();
    }

    /// Whether flow has stopped at a loose end (docs/RUNNING.md, "Stops"). Takes no memory.
    pub fn is_loose(&self) -> bool
        ensures { (s : StoryTree) → result ≡ is_loose (config_of s self.now) }
    {
        !self.can_go_on() && self.flow.choices.len() == 0 && !self.flow.safe
    }
}
