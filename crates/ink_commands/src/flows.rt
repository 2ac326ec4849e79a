//! Going to flows, and taking them away (docs/RUNNING.md, "Flows").

ghost use Rattle.std.specs.Prelude.{◌≡◌, ℕ};
ghost use Rattle.ink_check.specs.Standing.{story_tree};
ghost use Rattle.ink_commands.specs.States.{state_in};
ghost use Rattle.ink_model.specs.Protocol.Answer.{reply_of_landing};
ghost use Rattle.ink_model.specs.Protocol.FlowCommands.{DropsFlow, GoesToFlow};
ghost use Rattle.ink_model.specs.Run.Flows as rules;
ghost use Rattle.ink_model.specs.Story.Tree.{StoryTree};
ghost use Rattle.ink_step.specs.Marks.{stood_of, unmarked};
ghost use Rattle.ink_step.specs.Standing.{game_of};

use ink_check::Story;
use ink_model::{Fault, MAX_FLOWS, Refusal};
use ink_step::{DEFAULT_FLOW, Machine, is_flow_name};

/// Goes to the flow of a name, and makes it at the story's start where there is none. Refused with `Broken` where a fault broke the
/// player; with `BadValue` where the name is empty, has a space or a newline, or is over a text's limit; with `TooManyFlows` where
/// one would be made and 100 are there; and with `OutOfMemory` where memory for a new one was refused. The game has not changed then.
pub fn go_to_flow(
    machine: &mut Machine,
    story: &Story,
    broken: Option<Fault>,
    name: &str,
) -> Result<(), Refusal>
    requires unmarked { stood_of machine.old ≡ unmarked }
    ensures does { let s = story_tree story.now in (n : ℕ) → GoesToFlow s name.now (state_in s broken machine.old n) (reply_of_landing result) (state_in s broken machine.new n) }
    ensures mark { stood_of machine.new ≡ unmarked }
{
    if let Some(fault) = broken {
        return Err(Refusal::Broken(fault));
    }
    if !is_flow_name(name) {
        return Err(Refusal::BadValue);
    }
    if !has_room(machine, name) {
        return Err(Refusal::TooManyFlows);
    }
    let Ok(()) = machine.flow(story, name) else {
        return Err(Refusal::OutOfMemory);
    };
    Ok(())
}

/// Takes the flow of a name away. Takes no memory. Refused with `Broken` where a fault broke the player, with `NoSuchFlow` where
/// there is none of that name, and with `DefaultFlow` where it is the first; the game has not changed then.
pub fn drop_flow(machine: &mut Machine, broken: Option<Fault>, name: &str) -> Result<(), Refusal>
    requires unmarked { stood_of machine.old ≡ unmarked }
    ensures does { (s : StoryTree) (n : ℕ) → DropsFlow s name.now (state_in s broken machine.old n) (reply_of_landing result) (state_in s broken machine.new n) }
    ensures mark { stood_of machine.new ≡ unmarked }
{
    if let Some(fault) = broken {
        return Err(Refusal::Broken(fault));
    }
    if !machine.has_flow(name) {
        return Err(Refusal::NoSuchFlow);
    }
    if name == DEFAULT_FLOW {
        return Err(Refusal::DefaultFlow);
    }
    machine.drop_flow(name);
    Ok(())
}

// Whether there is a flow of this name, or one more may be made.
fn has_room(machine: &Machine, name: &str) -> bool
    ensures { (s : StoryTree) → result ≡ rules.has_room name.now (game_of s machine.now).aside }
{
    machine.has_flow(name) || machine.flow_count() < MAX_FLOWS
}
