//! The player.

ghost use Rattle.std.specs.Prelude.{◌≡◌, ◌⊎◌, List, [], ◌∷◌, None, Some, true, is_some, Ok, Err, IfOk, IfErr, IfSome, OnOk, OnErr};
ghost use Rattle.ink_host.specs.Desk.{Resting, at, put, without};
ghost use Rattle.ink_host.specs.Telling.{rests};
ghost use Rattle.ink_model.specs.Protocol.Answer.{Acts, Breaks, Tells, reply_of, reply_of_events, reply_of_halt, reply_of_landing, reply_of_value, reply_of_visits};
ghost use Rattle.ink_model.specs.Run.Configuration.{Configuration, with_globals};
ghost use Rattle.ink_model.specs.Host.Bindings as host;
ghost use Rattle.ink_model.specs.Run.Opening.{opening, opened};
ghost use Rattle.ink_model.specs.Run.Flows.{Game, current_name};
ghost use Rattle.ink_model.specs.Protocol.FlowCommands.{DropsFlow, GoesToFlow, TellsFlows};
ghost use Rattle.ink_model.specs.Save.Reads.{Stands as GameStands};
ghost use Rattle.ink_model.specs.Protocol.Session.{BeginsAnew, Continue, Through, Set, Get, Load, Restart, Save, TellsOrKeeps, reply_told, settable};
ghost use Rattle.ink_model.specs.Protocol.State.{Ready, is_running, fault_in, globals_of};
ghost use Rattle.ink_model.specs.Variables.Store.{store, stored};
ghost use Rattle.ink_model.specs.Host.Told.{told};
ghost use Rattle.ink_model.specs.Protocol.Turns.{Choose, ShowsChoices};
ghost use Rattle.ink_model.specs.declared.host.Event.{Event as Happening};
ghost use Rattle.ink_model.specs.declared.host.Given.{Given as Gift};
ghost use Rattle.ink_sound.specs.Kept.{ConditionFits, StateFits};
ghost use Rattle.ink_protocol.specs.Plain.{IsPlain};
ghost use Rattle.ink_protocol.specs.Replies.{IsTextOf, reply_of_json, reply_of_text};
ghost use Rattle.ink_player.specs.Extents.{GoesOn};
ghost use Rattle.ink_player.specs.Standing.{CommandStopsAtRefusal, DeliveredByRun, DeliveredOnce, anew, bindings, desk_of, fault_told, state_of, story_of, told_from};
ghost use Rattle.ink_step.specs.Marks.{stood_of, unmarked};
ghost use Rattle.ink_step.specs.Standing.{config_of, game_of};
ghost use Rattle.serde_json.specs.Data.{Data};
ghost use Rattle.serde_json.specs.View.{view};
ghost use Rattle.serde_json.specs.Written.{compact_text};

use crate::saving::{loaded, loaded_text, saved, saved_text, story_fits};
use ink_check::Story;
use ink_commands::{
    drop_flow, go_to_flow, jump, reopened, tell_between, tell_changed, tell_one, visits_by,
};
use ink_host::{Bound, Desk, PureFn, TurnFn, Watcher};
use ink_look::{Extent, run_to};
use ink_model::{
    Event, Fault, Given, Halt, MAX_TEXT, Passage, Refusal, Seq, Shown, Text, Value, value_given,
};
use ink_step::{Machine, Unopened};
use serde_json::Value as Json;
use std::alloc::{AllocError, Global};
use std::error::Error;
use std::fmt;
use std::marker::Model;

/// A story that runs: where it stands, and the desk of the host's objects. Each call returns the events of that call, and none waits
/// in the player. Its game can always be saved, unless a fault broke it: where it stands is sound and at rest (docs/SAVES.md).
pub struct Player<P, F, O> {
    story: Story,
    desk: Desk<P, F, O>,
    machine: Machine,
    broken: Option<Fault>,
    alloc: Global,
}

impl<P: Drop, F: Drop, O: Drop> Drop for Player<P, F, O> {
    fn drop(self) {
        let Player {
            story: _,
            desk: _,
            machine: _,
            broken: _,
            alloc: _,
        } = self;
    }
}

/// Its name alone, whatever the objects on its desk are.
impl<P, F, O> fmt::Debug for Player<P, F, O> {
    fn fmt<W: fmt::Write>(&self, f: &mut fmt::Formatter<W>) -> fmt::Result {
        f.debug_struct("Player").finish_non_exhaustive()
    }
}

impl<P, F, O> Model for Player<P, F, O> {
    ghost use Rattle.std.specs.Coded.{codes};
    ghost use Rattle.ink_check.specs.Standing.{story_tree};
    ghost use Rattle.ink_check.specs.contracts.story.Story as story_row;
    ghost use Rattle.ink_step.specs.contracts.machine.Machine as machine_row;
    ghost use Rattle.ink_player.specs.Standing.{PlayerView, Stands};

    ghost Value = { PlayerView P F O };

    ghost coded = { Prim.hlevel (codes, story_row.the_row.coded, machine_row.the_row.coded) };

    ghost view = { λ p. record { story = p.story; desk = p.desk; machine = p.machine; broken = p.broken } };

    ghost invariant = { λ p. Stands (story_tree p.story) p.desk.events p.broken p.machine };
}

/// A story that could not be opened. Story and desk are handed back.
#[derive(Drop)]
pub struct OpenFault<P, F, O> {
    pub fault: Fault,
    pub story: Story,
    pub desk: Desk<P, F, O>,
}

/// `story fault: ` and the fault.
impl<P, F, O> fmt::Display for OpenFault<P, F, O> {
    ghost use Rattle.ink_player.specs.Printed.{start_text};

    ghost output = { λ end. Some (start_text end.fault) };

    fn fmt<W: fmt::Write>(&self, f: &mut fmt::Formatter<W>) -> fmt::Result {
        write!(f, "story fault: {}", self.fault)
    }
}

/// The fault alone, whatever the objects on the desk are.
impl<P, F, O> fmt::Debug for OpenFault<P, F, O> {
    fn fmt<W: fmt::Write>(&self, f: &mut fmt::Formatter<W>) -> fmt::Result {
        f.debug_struct("OpenFault")
            .field("fault", &self.fault)
            .finish_non_exhaustive()
    }
}

impl<P: Drop, F: Drop, O: Drop> Error for OpenFault<P, F, O> {}

impl<P: PureFn, F: TurnFn, O: Watcher> Player<P, F, O> {
    ghost use Rattle.ink_check.specs.Standing.{story_tree};
    ghost use Rattle.ink_commands.specs.Paths.{JumpsTo};
    ghost use Rattle.ink_commands.specs.Visits.{TellsVisits};
    ghost use Rattle.ink_model.specs.Variables.Store.{Values};
    ghost use Rattle.ink_step.specs.Steps.{FailsToOpen};
    ghost use Rattle.ink_model.specs.Save.Reads.{Reads};
    ghost use Rattle.ink_player.specs.Loading.{LoadsText, TextReads, TextReadsAsState};
    ghost use Rattle.ink_player.specs.Saving.{IsOldSave, LoadsAs, ReadsAsState};

    /// Opens a story at its start, with the globals that it declares (docs/RUNNING.md, "Opening"). No object is
    /// called or told; events that are left on the desk go, and stamps begin at 0. The fault is that of the declarations, or
    /// `OutOfMemory` where they run to a step that asks for memory; story and desk are handed back with it as they were.
    pub fn open(
        alloc: Global,
        story: Story,
        desk: Desk<P, F, O>,
    ) -> Result<Player<P, F, O>, OpenFault<P, F, O>>
        ensures story { IfOk result (λ p. story_of p ≡ story_tree story) }
        ensures state { IfOk result (λ p. (c : Configuration) × (opening (story_tree story) ≡ Ok c) × (state_of p ≡ opened c)) }
        ensures desk { IfOk result (λ p. desk_of p ≡ anew desk) }
        ensures fault { IfErr result (λ e. (globals : Values) × FailsToOpen (story_tree story) e.fault globals) }
        ensures kept_story { IfErr result (λ e. e.story ≡ story) }
        ensures kept_desk { IfErr result (λ e. e.desk ≡ desk) }
    {
        // No effect at run time: a proof reads from it that the story has what the laws of saves ask of one.
        story_fits(&story);
        match Machine::open(alloc, &story) {
            Ok(machine) => {
                let mut desk = desk;
                desk.start_anew();
                Ok(Player {
                    story,
                    desk,
                    machine,
                    broken: None,
                    alloc,
                })
            }
            Err(Unopened { fault, globals: _ }) => Err(OpenFault { fault, story, desk }),
        }
    }

    /// Whether flow can go on: no fault has broken the player, and flow has not stopped. Takes no memory.
    pub fn can_continue(&self) -> bool
        ensures { result ≡ is_running (state_of self.now).condition }
    {
        self.broken.is_none() && self.machine.can_go_on()
    }

    /// Runs one line, and answers its passage (docs/RUNNING.md, "Lines"): up to its newline, once it is sure to stand, or up to the
    /// stop. What lies past the newline is left for the next command: nothing that was found there is kept, and no turn function
    /// was called there.
    ///
    /// Refused: `Broken` after a fault, `CannotContinue` where flow has stopped. Nothing has changed then.
    ///
    /// Faults, which break the player: that of a step that faulted with no newline open; `OutOfSteps` after 1,000,000 steps without
    /// one; `OutOfMemory` where memory was refused to a step, for what came of its call, to a look past a newline at a step that calls
    /// no turn function and writes no text of more than white, for the passage, for telling, or to a watcher. In the last case the line
    /// stands, and all other watchers are told.
    ///
    /// What happened with the objects of the host is among the answer's events, also after a fault. A fault of a step, of the passage
    /// or of room for telling tells no watcher (docs/HOST.md).
    pub fn continue_line(&mut self) -> Result<Passage, Halt>
        ensures does { (es : List Happening) × Continue (story_of self.old) (bindings P.meaning (desk_of self.old)) es (state_of self.old) (reply_of result) (state_of self.new)
            × DeliveredByRun F.log O.state (told_from (desk_of self.old) (state_of self.old) (globals_of (state_of self.new).condition)) (desk_of self.old) es (reply_of result) (desk_of self.new) }
        ensures refusals { CommandStopsAtRefusal F.refusals (desk_of self.old) (desk_of self.new) (reply_of result) }
        ensures rest { Resting (rests O.state) (desk_of self.old).watchers → Resting (rests O.state) (desk_of self.new).watchers }
        ensures story { story_of self.new ≡ story_of self.old }
    {
        self.go_on(Extent::Line)
    }

    /// Runs to the stop, and answers the passage.
    ///
    /// Refused: `Broken` after a fault, `CannotContinue` where flow has stopped. Nothing has changed then.
    ///
    /// Faults, which break the player: that of the step that faulted; `OutOfSteps` after 1,000,000 steps; `OutOfMemory` where memory
    /// was refused to a step, for what came of its call, for the passage, for telling, or to a watcher. In the last case the run
    /// stands, and all other watchers are told.
    ///
    /// What happened with the objects of the host is among the answer's events, also after a fault. A fault of a step, of the passage
    /// or of room for telling tells no watcher (docs/HOST.md).
    pub fn through(&mut self) -> Result<Passage, Halt>
        ensures does { (es : List Happening) × Through (story_of self.old) (bindings P.meaning (desk_of self.old)) es (state_of self.old) (reply_of result) (state_of self.new)
            × DeliveredByRun F.log O.state (told_from (desk_of self.old) (state_of self.old) (globals_of (state_of self.new).condition)) (desk_of self.old) es (reply_of result) (desk_of self.new) }
        ensures refusals { CommandStopsAtRefusal F.refusals (desk_of self.old) (desk_of self.new) (reply_of result) }
        ensures rest { Resting (rests O.state) (desk_of self.old).watchers → Resting (rests O.state) (desk_of self.new).watchers }
        ensures story { story_of self.new ≡ story_of self.old }
    {
        self.go_on(Extent::Stop)
    }

    /// Goes on as far as is asked, and answers the passage.
    pub(crate) fn go_on(&mut self, extent: Extent) -> Result<Passage, Halt>
        ensures does { (es : List Happening) × GoesOn extent (story_of self.old) (bindings P.meaning (desk_of self.old)) es (state_of self.old) (reply_of result) (state_of self.new)
            × DeliveredByRun F.log O.state (told_from (desk_of self.old) (state_of self.old) (globals_of (state_of self.new).condition)) (desk_of self.old) es (reply_of result) (desk_of self.new) }
        ensures refusals { CommandStopsAtRefusal F.refusals (desk_of self.old) (desk_of self.new) (reply_of result) }
        ensures rest { Resting (rests O.state) (desk_of self.old).watchers → Resting (rests O.state) (desk_of self.new).watchers }
        ensures story { story_of self.new ≡ story_of self.old }
    {
        if let Some(fault) = self.broken {
            return Err(Halt::Refused(Refusal::Broken(fault)));
        }
        if !self.machine.can_go_on() {
            return Err(Halt::Refused(Refusal::CannotContinue));
        }
        let passage = match run_to(
            self.alloc,
            extent,
            &mut self.machine,
            &self.story,
            &mut self.desk,
        ) {
            Ok(passage) => passage,
            Err(fault) => return Err(break_by(&mut self.desk, &mut self.broken, fault)),
        };
        // The one round of this command: each watched global with another value than at its start is told once.
        match tell_changed(&mut self.desk, &self.machine) {
            Ok(all) => end_run(&mut self.desk, &mut self.broken, passage, all),
            Err(AllocError) => Err(break_by(&mut self.desk, &mut self.broken, Fault::OutOfMemory)),
        }
    }

    /// Takes the memory of a passage that has been shown, for the text and the tags of a later one: a game that plays line by line
    /// need ask for none then (docs/SPEED.md). Nothing else changes. Takes no memory.
    pub fn reuse(&mut self, passage: Passage)
        ensures same { self.new ≡ self.old }
    {
        let Passage {
            text,
            tags,
            choices: _,
            events: _,
            more: _,
            loose: _,
        } = passage;
        self.machine.reuse(text, tags)
    }

    /// Gives a global a value, and tells its watcher if the value is a new one (docs/HOST.md, "Telling"). Refused with `Broken`
    /// after a fault, with `BadValue` for void and for a text over its limit, with `NoSuchVariable` where there is no such global,
    /// and with `OutOfMemory` where memory for telling was refused; nothing has changed then. Where the watcher finds no memory
    /// the global has its value, and the player is broken by the fault `OutOfMemory`.
    pub fn set(&mut self, name: &str, value: Given) -> Result<Seq<Event>, Halt>
        ensures does { (es : List Happening) × Set (bindings P.meaning (desk_of self.old)) es name.now (Some value) (state_of self.old) (reply_of_events result) (state_of self.new)
            × DeliveredOnce F.log O.state (told_from (desk_of self.old) (state_of self.old) ((name.now, host.value_given value) ∷ [])) (desk_of self.old) es (reply_of_events result) (desk_of self.new) }
        ensures functions { (desk_of self.new).functions ≡ (desk_of self.old).functions }
        ensures rest { Resting (rests O.state) (desk_of self.old).watchers → Resting (rests O.state) (desk_of self.new).watchers }
        ensures story { story_of self.new ≡ story_of self.old }
    {
        if let Some(cause) = self.broken {
            return Err(Halt::Refused(Refusal::Broken(cause)));
        }
        if !is_settable(&value) {
            return Err(Halt::Refused(Refusal::BadValue));
        }
        if !self.machine.globals().contains(name) {
            return Err(Halt::Refused(Refusal::NoSuchVariable));
        }
        self.store(name, value_given(value))
    }

    /// Gives a global that is there a value, once its watcher is told where that is another one.
    fn store(&mut self, name: &str, value: Value) -> Result<Seq<Event>, Halt>
        requires unbroken { self.old.broken ≡ None }
        requires there { let c = config_of (story_of self.old) self.old.machine in is_some (stored name.now c.shared.globals) ≡ true }
        requires given { (g : Gift) × (settable g ≡ true) × (value ≡ host.value_given g) }
        ensures does { let c = config_of (story_of self.old) self.old.machine in let h = bindings P.meaning (desk_of self.old) in
            (es : List Happening) × TellsOrKeeps (told h.watches c.shared.globals ((name.now, value) ∷ [])) (Ready (with_globals (store name.now value c.shared.globals) c)) es (state_of self.old) (reply_of_events result) (state_of self.new)
            × DeliveredOnce F.log O.state (told h.watches c.shared.globals ((name.now, value) ∷ [])) (desk_of self.old) es (reply_of_events result) (desk_of self.new) }
        ensures functions { (desk_of self.new).functions ≡ (desk_of self.old).functions }
        ensures rest { Resting (rests O.state) (desk_of self.old).watchers → Resting (rests O.state) (desk_of self.new).watchers }
        ensures story { story_of self.new ≡ story_of self.old }
    {
        let Ok(all) = tell_one(self.alloc, &mut self.desk, &self.machine, name, &value) else {
            return Err(Halt::Refused(Refusal::OutOfMemory));
        };
        let _stored = self.machine.set(name, value);
        end_telling(&mut self.desk, &mut self.broken, all)
    }

    /// A global's value. Of a broken player it is the one from before the step that faulted, or from behind the newline where a look
    /// past it was refused memory; after `OutOfMemory` at a command's end, or of a watcher, the one that the command left. Takes no
    /// memory: a text, a target, a tag or a pointer's name has one owner more. Refused with `NoSuchVariable` where there is no such
    /// global, and with `OutOfMemory` where what it shares has as many owners already as can be counted.
    pub fn get(&self, name: &str) -> Result<Value, Refusal>
        ensures { Get name.now (state_of self.now) (reply_of_value result) (state_of self.now) }
    {
        let Some(value) = self.machine.globals().get(name) else {
            return Err(Refusal::NoSuchVariable);
        };
        match value.clone_in(self.alloc) {
            Ok(copy) => Ok(copy),
            Err(_) => Err(Refusal::OutOfMemory),
        }
    }

    /// How often the container at a path was visited (docs/PROTOCOL.md, "Command lines"). Refused with `Broken` after a fault;
    /// with `NoSuchPath` where the text is no path, or a relative one, or where it leads to nothing whose visits are counted; and
    /// with `OutOfMemory` where memory for the path was refused.
    pub fn visits(&self, path: &str) -> Result<i32, Refusal>
        ensures { TellsVisits (story_of self.now) path.now (state_of self.now) (reply_of_visits result) (state_of self.now) }
    {
        match self.broken {
            Some(fault) => Err(Refusal::Broken(fault)),
            None => visits_by(self.alloc, &self.story, &self.machine, path),
        }
    }

    /// The choices that are there to choose, in their order; none while flow has not stopped. Refused with `Broken` after a fault,
    /// and with `OutOfMemory` where memory for them was refused; an empty list takes no memory.
    pub fn choices(&self) -> Result<Seq<Shown>, Refusal>
        ensures { ShowsChoices (state_of self.now) result }
    {
        if let Some(fault) = self.broken {
            return Err(Refusal::Broken(fault));
        }
        match self.machine.choices() {
            Ok(choices) => Ok(choices),
            Err(_) => Err(Refusal::OutOfMemory),
        }
    }

    /// Takes the choice with this number among those that `choices` shows, from 0: flow goes on where it leads, in the next turn
    /// (docs/RUNNING.md, "Choosing and jumping"). Refused with `Broken` after a fault; with `NotAChoice` where flow has not stopped
    /// or there is no such choice; and with `OutOfMemory` where memory was refused, which is asked for only where a container is
    /// entered for the first time. Nothing has changed then.
    pub fn choose(&mut self, number: u32) -> Result<(), Refusal>
        ensures does { Choose (story_of self.old) number (state_of self.old) (reply_of_landing result) (state_of self.new) }
        ensures story { story_of self.new ≡ story_of self.old }
        ensures desk { desk_of self.new ≡ desk_of self.old }
    {
        if let Some(cause) = self.broken {
            return Err(Refusal::Broken(cause));
        }
        self.machine.choose(&self.story, number as usize)
    }

    /// Ends all threads and choices, and lands where a path leads, in the next turn (docs/RUNNING.md, "Choosing and jumping").
    /// Refused with `Broken` after a fault; with `NoSuchPath` where the text is no path, or a relative one, or where it leads to
    /// nothing; and with `OutOfMemory` where memory was refused, for the path or for a container that is entered for the first time.
    /// Nothing has changed then.
    pub fn jump(&mut self, path: &str) -> Result<(), Refusal>
        ensures does { JumpsTo (story_of self.old) path.now (state_of self.old) (reply_of_landing result) (state_of self.new) }
        ensures story { story_of self.new ≡ story_of self.old }
        ensures desk { desk_of self.new ≡ desk_of self.old }
    {
        jump(
            self.alloc,
            &mut self.machine,
            &self.story,
            self.broken,
            path,
        )
    }

    /// Where the story stands, as a JSON value, which has no float (docs/SAVES.md). No other value loads as this game, except its
    /// layout 1 if there is only one flow. Refused with `Broken` after a fault, and with `OutOfMemory` where memory was refused.
    pub fn save(&self) -> Result<Json, Refusal>
        ensures does { Save (state_of self.now) (reply_of_json result) (state_of self.now) }
        ensures plain { IfOk result IsPlain }
        ensures reads { IfOk result (λ json. ReadsAsState (story_of self.now) (view json) (state_of self.now)) }
        ensures only { IfOk result (λ json. (j : Data) → ReadsAsState (story_of self.now) j (state_of self.now) → (j ≡ view json) ⊎ IsOldSave j (state_of self.now)) }
        ensures sound { StateFits (story_of self.now) (state_of self.now) }
    {
        match self.broken {
            Some(cause) => Err(Refusal::Broken(cause)),
            None => saved(self.alloc, &self.story, &self.machine),
        }
    }

    /// The compact text of what `save` gives, made without that value, and read back as it: `load_text` of it leads to the very game
    /// in which the player stands, or to a refused request for memory. Refused as `save` is.
    pub fn save_text(&self) -> Result<Text, Refusal>
        ensures does { (j : Data) × IsTextOf j result × Save (state_of self.now) (reply_of_text j result) (state_of self.now) }
        ensures reads { IfOk result (λ text. (j : Data) × (text ≡ compact_text j) × ReadsAsState (story_of self.now) j (state_of self.now)) }
        ensures reads_back { IfOk result (λ text. TextReadsAsState (story_of self.now) text (state_of self.now)) }
        ensures only { IfOk result (λ text. (j : Data) → ReadsAsState (story_of self.now) j (state_of self.now) → (text ≡ compact_text j) ⊎ IsOldSave j (state_of self.now)) }
        ensures sound { StateFits (story_of self.now) (state_of self.now) }
    {
        match self.broken {
            Some(why) => Err(Refusal::Broken(why)),
            None => saved_text(self.alloc, &self.story, &self.machine),
        }
    }

    /// Goes on where a save of the story stands, with its flows and no others (docs/SAVES.md); a broken player too. Watchers are told
    /// of each global that has another value than before, or was not there (docs/HOST.md, "Telling"). A value that `save` gave for
    /// this story always loads, if there is memory; `save` then gives the same value.
    ///
    /// Refused: `BadSave` where the value spells nothing that fits the story; `OutOfMemory` where memory was refused, which is asked
    /// for only where something of the value is kept. Nothing has changed then. Where a watcher finds no memory the save is loaded,
    /// all others are told, and the player is broken by the fault `OutOfMemory`.
    pub fn load(&mut self, json: &Json) -> Result<Seq<Event>, Halt>
        ensures does { (es : List Happening) × Load (story_of self.old) (bindings P.meaning (desk_of self.old)) es (Some (view json.now)) (state_of self.old) (reply_of_events result) (state_of self.new)
            × DeliveredOnce F.log O.state (told_from (desk_of self.old) (state_of self.old) (globals_of (state_of self.new).condition)) (desk_of self.old) es (reply_of_events result) (desk_of self.new) }
        ensures functions { (desk_of self.new).functions ≡ (desk_of self.old).functions }
        ensures rest { Resting (rests O.state) (desk_of self.old).watchers → Resting (rests O.state) (desk_of self.new).watchers }
        ensures story { story_of self.new ≡ story_of self.old }
        ensures stands { IfOk result (λ events. ReadsAsState (story_of self.new) (view json.now) (state_of self.new)) }
        ensures reads { (g : Game) → Reads (story_of self.old) (view json.now) g → LoadsAs g (reply_of_events result) (state_of self.new) }
    {
        match loaded(self.alloc, &self.story, json) {
            Ok(found) => self.begin_anew(found),
            Err(refusal) => Err(Halt::Refused(refusal)),
        }
    }

    /// Does what `load` does with the JSON value that a text spells, such as one of `save_text`. Refused as `load` is; also with
    /// `BadSave` where the text is no JSON, and with `OutOfMemory` where memory was refused to read one that is not empty; nothing has
    /// changed then.
    #[inline(never)]
    pub fn load_text(&mut self, text: &str) -> Result<Seq<Event>, Halt>
        ensures does { (es : List Happening) × LoadsText (story_of self.old) (bindings P.meaning (desk_of self.old)) es text.now (state_of self.old) (reply_of_events result) (state_of self.new)
            × DeliveredOnce F.log O.state (told_from (desk_of self.old) (state_of self.old) (globals_of (state_of self.new).condition)) (desk_of self.old) es (reply_of_events result) (desk_of self.new) }
        ensures functions { (desk_of self.new).functions ≡ (desk_of self.old).functions }
        ensures rest { Resting (rests O.state) (desk_of self.old).watchers → Resting (rests O.state) (desk_of self.new).watchers }
        ensures story { story_of self.new ≡ story_of self.old }
        ensures stands { IfOk result (λ events. TextReadsAsState (story_of self.new) text.now (state_of self.new)) }
        ensures reads { (g : Game) → TextReads (story_of self.old) text.now g → LoadsAs g (reply_of_events result) (state_of self.new) }
    {
        match loaded_text(self.alloc, &self.story, text) {
            Ok(spelled) => self.begin_anew(spelled),
            Err(cause) => Err(Halt::Refused(cause)),
        }
    }

    /// Begins anew, as the story was opened, with one flow; a broken player too. Watchers are told of each global that has another
    /// value than before, or was not there (docs/HOST.md, "Telling"). The declarations do not fault, since they did not when the
    /// story was opened.
    ///
    /// Refused with `OutOfMemory` alone, where they run to a step that asks for memory, or memory for telling was refused; nothing
    /// has changed then. Where a watcher finds no memory the story has begun anew, all others are told, and the player is broken by
    /// the fault `OutOfMemory`.
    #[inline(never)]
    pub fn restart(&mut self) -> Result<Seq<Event>, Halt>
        ensures does { (es : List Happening) × Restart (story_of self.old) (bindings P.meaning (desk_of self.old)) es (state_of self.old) (reply_of_events result) (state_of self.new)
            × DeliveredOnce F.log O.state (told_from (desk_of self.old) (state_of self.old) (globals_of (state_of self.new).condition)) (desk_of self.old) es (reply_of_events result) (desk_of self.new) }
        ensures functions { (desk_of self.new).functions ≡ (desk_of self.old).functions }
        ensures rest { Resting (rests O.state) (desk_of self.old).watchers → Resting (rests O.state) (desk_of self.new).watchers }
        ensures story { story_of self.new ≡ story_of self.old }
    {
        match reopened(self.alloc, &self.story, self.machine.globals().len()) {
            Ok(machine) => self.begin_anew(machine),
            Err(reason) => Err(Halt::Refused(reason)),
        }
    }

    /// Begins anew with a machine that was opened or loaded, once the watchers are told of what has another value in it.
    fn begin_anew(&mut self, machine: Machine) -> Result<Seq<Event>, Halt>
        requires fits { let s = story_of self.old in GameStands s (game_of s machine) }
        requires unmarked { stood_of machine ≡ unmarked }
        ensures does { let s = story_of self.old in let was = config_of s self.old.machine in let c = config_of s machine in let h = bindings P.meaning (desk_of self.old) in
            (es : List Happening) × BeginsAnew (told h.watches was.shared.globals c.shared.globals) (game_of s machine) es (state_of self.old) (reply_of_events result) (state_of self.new)
            × DeliveredOnce F.log O.state (told_from (desk_of self.old) (state_of self.old) (globals_of (state_of self.new).condition)) (desk_of self.old) es (reply_of_events result) (desk_of self.new) }
        ensures functions { (desk_of self.new).functions ≡ (desk_of self.old).functions }
        ensures rest { Resting (rests O.state) (desk_of self.old).watchers → Resting (rests O.state) (desk_of self.new).watchers }
        ensures story { story_of self.new ≡ story_of self.old }
    {
        let Ok(all) = tell_between(self.alloc, &mut self.desk, &self.machine, &machine) else {
            return Err(Halt::Refused(Refusal::OutOfMemory));
        };
        self.machine = machine;
        self.broken = None;
        end_telling(&mut self.desk, &mut self.broken, all)
    }

    /// Goes to the flow of a name, and makes it at the story's start where there is none (docs/RUNNING.md, "Flows"): the current one is
    /// left as it is, and globals, counts and the turn are those of all. Refused with `Broken` after a fault, with `BadValue` where
    /// the name is empty, has a space or a newline, or is over a text's limit, with `TooManyFlows` where one would be made and 100
    /// are there, and with `OutOfMemory` where memory for a new one was refused; nothing has changed then.
    #[inline(never)]
    pub fn flow(&mut self, name: &str) -> Result<(), Refusal>
        ensures does { GoesToFlow (story_of self.old) name.now (state_of self.old) (reply_of_landing result) (state_of self.new) }
        ensures story { story_of self.new ≡ story_of self.old }
        ensures desk { desk_of self.new ≡ desk_of self.old }
    {
        go_to_flow(&mut self.machine, &self.story, self.broken, name)
    }

    /// Takes the flow of a name away; all others stay as they are. Where it is the current one, the first becomes that. Takes no
    /// memory. Refused with `Broken` after a fault, with `NoSuchFlow` where there is none of that name, and with `DefaultFlow` where
    /// it is the first; nothing has changed then.
    #[inline(never)]
    pub fn drop_flow(&mut self, name: &str) -> Result<(), Refusal>
        ensures does { DropsFlow (story_of self.old) name.now (state_of self.old) (reply_of_landing result) (state_of self.new) }
        ensures story { story_of self.new ≡ story_of self.old }
        ensures desk { desk_of self.new ≡ desk_of self.old }
    {
        drop_flow(&mut self.machine, self.broken, name)
    }

    /// The name of the current flow; of a broken player, as it was when the fault came. Takes no memory.
    pub fn flow_name(&self) -> &str
        ensures { result.now ≡ current_name (state_of self.now).aside }
    {
        self.machine.flow_name()
    }

    /// The names of all flows, in order of making; of a broken player, as they were when the fault came. Refused with `OutOfMemory`
    /// alone.
    pub fn flows(&self) -> Result<Seq<Text>, Refusal>
        ensures { TellsFlows (state_of self.now) result }
    {
        match self.machine.flows() {
            Ok(names) => Ok(names),
            Err(AllocError) => Err(Refusal::OutOfMemory),
        }
    }

    /// Binds a pure function to a name, and hands back what was bound to it before, a pure function or a turn function. Memory is
    /// asked for only where nothing was; where it is refused the given function comes back, and nothing has changed.
    pub fn bind_pure(&mut self, name: &str, function: P) -> Result<Option<Bound<P, F>>, P>
        ensures old { IfOk result (λ old. old ≡ at name.now (desk_of self.old).functions) }
        ensures kept { OnOk result (desk_of self.new ≡ record (desk_of self.old) { functions = put name.now (Bound.Pure function) (desk_of self.old).functions }) }
        ensures back { IfErr result (λ back. back ≡ function) }
        ensures err { OnErr result (desk_of self.new ≡ desk_of self.old) }
        ensures memory { OnErr result (at name.now (desk_of self.old).functions ≡ None) }
        ensures state { state_of self.new ≡ state_of self.old }
        ensures story { story_of self.new ≡ story_of self.old }
    {
        self.desk.bind_pure(name, function)
    }

    /// Binds a turn function to a name, and hands back what was bound to it before, a pure function or a turn function. Memory is
    /// asked for only where nothing was; where it is refused the given function comes back, and nothing has changed.
    pub fn bind_turn(&mut self, name: &str, function: F) -> Result<Option<Bound<P, F>>, F>
        ensures old { IfOk result (λ old. old ≡ at name.now (desk_of self.old).functions) }
        ensures kept { OnOk result (desk_of self.new ≡ record (desk_of self.old) { functions = put name.now (Bound.Turn function) (desk_of self.old).functions }) }
        ensures back { IfErr result (λ back. back ≡ function) }
        ensures err { OnErr result (desk_of self.new ≡ desk_of self.old) }
        ensures memory { OnErr result (at name.now (desk_of self.old).functions ≡ None) }
        ensures state { state_of self.new ≡ state_of self.old }
        ensures story { story_of self.new ≡ story_of self.old }
    {
        self.desk.bind_turn(name, function)
    }

    /// Takes away the function that is bound to a name, and hands it back; none where nothing is. Takes no memory.
    pub fn unbind(&mut self, name: &str) -> Option<Bound<P, F>>
        ensures old { result ≡ at name.now (desk_of self.old).functions }
        ensures desk { desk_of self.new ≡ record (desk_of self.old) { functions = without name.now (desk_of self.old).functions } }
        ensures state { state_of self.new ≡ state_of self.old }
        ensures story { story_of self.new ≡ story_of self.old }
    {
        self.desk.unbind(name)
    }

    /// Binds a watcher to the name of a global, whether that is there or not, and hands back the watcher that was bound to it before.
    /// Memory is asked for only where none was; where it is refused the given watcher comes back, and nothing has changed.
    pub fn watch(&mut self, name: &str, watcher: O) -> Result<Option<O>, O>
        ensures old { IfOk result (λ old. old ≡ at name.now (desk_of self.old).watchers) }
        ensures old_rest { Resting (rests O.state) (desk_of self.old).watchers → IfOk result (λ old. IfSome old (λ w. rests O.state w ≡ true)) }
        ensures kept { OnOk result (desk_of self.new ≡ record (desk_of self.old) { watchers = put name.now watcher (desk_of self.old).watchers }) }
        ensures back { IfErr result (λ back. back ≡ watcher) }
        ensures err { OnErr result (desk_of self.new ≡ desk_of self.old) }
        ensures memory { OnErr result (at name.now (desk_of self.old).watchers ≡ None) }
        ensures rest { rests O.state watcher ≡ true → Resting (rests O.state) (desk_of self.old).watchers → Resting (rests O.state) (desk_of self.new).watchers }
        ensures state { state_of self.new ≡ state_of self.old }
        ensures story { story_of self.new ≡ story_of self.old }
    {
        self.desk.watch(name, watcher)
    }

    /// Takes away the watcher that is bound to a name, and hands it back; none where there is none. Takes no memory.
    pub fn unwatch(&mut self, name: &str) -> Option<O>
        ensures old { result ≡ at name.now (desk_of self.old).watchers }
        ensures old_rest { Resting (rests O.state) (desk_of self.old).watchers → IfSome result (λ w. rests O.state w ≡ true) }
        ensures desk { desk_of self.new ≡ record (desk_of self.old) { watchers = without name.now (desk_of self.old).watchers } }
        ensures rest { Resting (rests O.state) (desk_of self.old).watchers → Resting (rests O.state) (desk_of self.new).watchers }
        ensures state { state_of self.new ≡ state_of self.old }
        ensures story { story_of self.new ≡ story_of self.old }
    {
        self.desk.unwatch(name)
    }

    /// The desk, lent: between commands a host looks at what it has bound. Takes no memory.
    pub fn desk(&self) -> &Desk<P, F, O>
        ensures { result.now ≡ desk_of self.now }
    {
        &self.desk
    }

    /// The fault by which the player is broken, until a load or a restart; none where it is not broken. Takes no memory.
    pub fn fault(&self) -> Option<Fault>
        ensures { result ≡ fault_in (state_of self.now).condition }
    {
        self.broken
    }

    /// No effect at run time. A proof reads from it that no event waits on the desk between calls.
    pub(crate) fn has_no_events(&self)
        ensures { (desk_of self.now).events ≡ [] }
    {
        let _desk = &self.desk;
    }

    /// Ends the player and hands its desk back, with no event on it. Takes no memory.
    pub fn close(self) -> Desk<P, F, O>
        ensures desk { result ≡ desk_of self }
        ensures taken { result.events ≡ [] }
    {
        let Player {
            story: _,
            desk,
            machine: _,
            broken: _,
            alloc: _,
        } = self;
        desk
    }
}

/// The passage of a run, with what happened on the way to it. Where not all watchers found memory the player is broken.
fn end_run<P, F, O>(
    desk: &mut Desk<P, F, O>,
    broken: &mut Option<Fault>,
    passage: Passage,
    all: bool,
) -> Result<Passage, Halt>
    ensures reply { reply_of result ≡ reply_told all (Tells (record passage { events = desk.old.events })) desk.old.events }
    ensures desk { desk.new ≡ record desk.old { events = [] } }
    ensures broken { broken.new ≡ fault_told all broken.old }
{
    if !all {
        return Err(break_by(desk, broken, Fault::OutOfMemory));
    }
    let mut told = passage;
    told.events = desk.take_events();
    Ok(told)
}

/// What happened at a command that runs nothing. Where not all watchers found memory the player is broken.
fn end_telling<P, F, O>(
    desk: &mut Desk<P, F, O>,
    broken: &mut Option<Fault>,
    all: bool,
) -> Result<Seq<Event>, Halt>
    ensures reply { reply_of_events result ≡ reply_told all (Acts desk.old.events) desk.old.events }
    ensures desk { desk.new ≡ record desk.old { events = [] } }
    ensures broken { broken.new ≡ fault_told all broken.old }
{
    if !all {
        return Err(break_by(desk, broken, Fault::OutOfMemory));
    }
    Ok(desk.take_events())
}

/// A fault breaks the player; the events so far are told with it.
fn break_by<P, F, O>(desk: &mut Desk<P, F, O>, broken: &mut Option<Fault>, fault: Fault) -> Halt
    ensures reply { reply_of_halt result ≡ Breaks fault desk.old.events }
    ensures desk { desk.new ≡ record desk.old { events = [] } }
    ensures broken { broken.new ≡ Some fault }
{
    *broken = Some(fault);
    Halt::Fault {
        fault,
        events: desk.take_events(),
    }
}

/// Whether a value may be set: it is no void, and no text over its limit; an integer has 32 bits by its type.
fn is_settable(value: &Given) -> bool
    ensures { result ≡ settable value.now }
{
    match value {
        Given::Int(number) => {
            // No effect at run time: a proof reads from it that the number has 32 bits.
            let _number = *number;
            true
        }
        Given::Bool(_) => true,
        Given::Text(text) => text.get().as_str().len() <= MAX_TEXT,
        Given::Void => false,
    }
}
