//! Opening a story: running its declarations, and keeping the globals (docs/RUNNING.md, "Opening").

ghost use Rattle.std.specs.Prelude.{◌≡◌, [], Ok, IfOk, IfErr, false, option_map};
ghost use Rattle.ink_model.specs.Run.Configuration.{fresh_at, start, with_globals};
ghost use Rattle.ink_model.specs.Run.Flows.{one_flow};
ghost use Rattle.ink_model.specs.Host.Bindings.{nothing_bound};
ghost use Rattle.ink_model.specs.Run.Opening.{declarations, opening};
ghost use Rattle.ink_model.specs.Run.Place.{landed};
ghost use Rattle.ink_model.specs.Story.Tree.{StoryTree};
ghost use Rattle.ink_check.specs.Standing.{story_tree};
ghost use Rattle.ink_step.specs.Runs.{RunsToStop};
ghost use Rattle.ink_tree.specs.Nodes.{place_of};

use crate::machine::Machine;
use ink_check::Story;
use ink_effects::Shared;
use ink_flows::{Aside, Flow};
use ink_host::{Desk, Nobody};
use ink_model::Fault;
use ink_out::Output;
use ink_trail::{Trail, Undo};
use ink_tree::Spot;
use ink_vars::{Counts, Globals, Turn};
use std::alloc::Global;

/// Declarations that could not be run: why, and the globals as they stood before the step that faulted.
#[derive(Drop)]
pub struct Unopened {
    pub fault: Fault,
    pub globals: Globals,
}

impl Machine {
    ghost use Rattle.ink_step.specs.Marks.{stood_of, unmarked};
    ghost use Rattle.ink_step.specs.Steps.{FailsToOpen};
    ghost use Rattle.ink_step.specs.Standing.{aside_in, config_of, globals_of, start_of};

    /// A machine at the story's start, with the globals that the story declares, and one flow. The fault is that of the declarations, or
    /// `OutOfMemory`. A story without declarations needs no memory. No mark stands in the machine.
    pub fn open(alloc: Global, story: &Story) -> Result<Machine, Unopened>
        ensures ok { let s = story_tree story.now in IfOk result (λ m. opening s ≡ Ok (config_of s m)) }
        ensures aside { IfOk result (λ m. aside_in m ≡ one_flow) }
        ensures mark { IfOk result (λ m. stood_of m ≡ unmarked) }
        ensures err { IfErr result (λ e. FailsToOpen (story_tree story.now) e.fault e.globals.rows) }
    {
        Machine::open_with_room(alloc, story, 0)
    }

    /// The same, with room made at once for so many globals, where memory allows. Memory that is refused to that room is no fault.
    pub fn open_with_room(alloc: Global, story: &Story, room: usize) -> Result<Machine, Unopened>
        ensures ok { let s = story_tree story.now in IfOk result (λ m. opening s ≡ Ok (config_of s m)) }
        ensures aside { IfOk result (λ m. aside_in m ≡ one_flow) }
        ensures mark { IfOk result (λ m. stood_of m ≡ unmarked) }
        ensures err { IfErr result (λ e. FailsToOpen (story_tree story.now) e.fault e.globals.rows) }
    {
        let Some(place) = first_declaration(story) else {
            return Ok(Machine::at_start(alloc, story, Globals::new(alloc)));
        };
        let mut machine = Machine::fresh(alloc, place, undeclared(alloc, room));
        let outcome = machine.run_alone(alloc, story);
        let globals = machine.into_globals();
        match outcome {
            Ok(()) => Ok(Machine::at_start(alloc, story, globals)),
            Err(fault) => Err(Unopened { fault, globals }),
        }
    }

    /// Steps to the stop, with nothing bound, where no mark stands.
    fn run_alone(&mut self, alloc: Global, story: &Story) -> Result<(), Fault>
        requires unmarked { stood_of self.old ≡ unmarked }
        ensures runs { let s = story_tree story.now in RunsToStop s nothing_bound false false (config_of s self.old) [] (config_of s self.new) result }
        ensures mark { stood_of self.new ≡ stood_of self.old }
    {
        let mut desk: Desk<Nobody, Nobody, Nobody> = Desk::new(alloc);
        let outcome = self.run(story, &mut desk);
        let _objects = desk.close();
        outcome
    }

    /// A machine at the story's start with these globals and one flow, where no mark stands. Takes no memory.
    #[tactic(auto, unfolding(ink_model::specs::Run::Configuration::start, ink_model::specs::Run::Configuration::fresh_at))]
    pub fn at_start(alloc: Global, story: &Story, globals: Globals) -> Machine
        ensures at_start { let s = story_tree story.now in config_of s result ≡ start s globals.rows }
        ensures globals { globals_of result ≡ globals.rows }
        ensures start { start_of result ≡ globals.start }
        ensures aside { aside_in result ≡ one_flow }
        ensures mark { stood_of result ≡ unmarked }
    {
        Machine::fresh(alloc, story.tree().start(), globals)
    }

    /// A machine at a place with these globals, where nothing has happened yet and no mark stands. Takes no memory.
    #[tactic(auto, unfolding(ink_model::specs::Run::Configuration::fresh_at, crate::specs::Marks::own_stood, ink_trail::specs::Undo::stood_at))]
    fn fresh(alloc: Global, place: Spot, mut globals: Globals) -> Machine
        ensures fresh { (s : StoryTree) → config_of s result ≡ with_globals globals.rows (fresh_at (place_of s place)) }
        ensures globals { globals_of result ≡ globals.rows }
        ensures start { start_of result ≡ globals.start }
        ensures aside { aside_in result ≡ one_flow }
        ensures mark { stood_of result ≡ unmarked }
    {
        globals.forget();
        Machine {
            flow: Flow::new(alloc, Some(place)),
            aside: Aside::new(alloc),
            shared: Shared {
                globals,
                counts: Counts::new(alloc),
                turn: Turn::first(),
            },
            output: Output::new(alloc),
            trail: Trail::new(alloc),
            alloc,
        }
    }
}

// No globals yet, with room for so many where memory allows. No room takes no memory.
fn undeclared(alloc: Global, room: usize) -> Globals
    ensures { result.rows ≡ [] }
{
    if room == 0 {
        return Globals::new(alloc);
    }
    match Globals::with_room(alloc, room) {
        Ok(globals) => globals,
        Err(_) => Globals::new(alloc),
    }
}

/// Where flow lands to declare the globals, none where the story declares none.
fn first_declaration(story: &Story) -> Option<Spot>
    ensures { let s = story_tree story.now in option_map (place_of s) result ≡ option_map (landed s) (declarations s) }
{
    let tree = story.tree();
    let holder = tree.knot("global decl")?;
    Some(tree.land(Spot {
        holder,
        index: None,
    }))
}
