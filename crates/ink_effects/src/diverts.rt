//! Diverts (docs/RUNNING.md, "Diverts").

ghost use Rattle.ink_value.specs.Undo.{stack_spare, stack_stood};
ghost use Rattle.std.specs.Prelude.{◌≡◌, ℕ, Bool, true, false, MatchOption, Option, Some, None, option_map, ◌≤◌, ◌+◌};
ghost use Rattle.ink_check.specs.Names.{variable_number};
ghost use Rattle.ink_check.specs.Standing.{story_tree};
ghost use Rattle.ink_model.specs.Story.Acceptance.{lands_to, written_target};
ghost use Rattle.ink_model.specs.Text.Page.{Page};
ghost use Rattle.ink_model.specs.Run.Step.Calls.{call};
ghost use Rattle.ink_model.specs.Run.Step.Diverts as rules;
ghost use Rattle.ink_model.specs.Run.Step.Diverts.{condition, divert, leaving_fields};
ghost use Rattle.ink_model.specs.Story.Tree.{at};
ghost use Rattle.ink_model.specs.Variables.Store.{Values};
ghost use Rattle.ink_model.specs.Variables.Access.{read};
ghost use Rattle.ink_model.specs.declared.value.Value.TheVariants.{Target};
ghost use Rattle.ink_stack.specs.Calls.{frame_kind};
ghost use Rattle.ink_stack.specs.declared.frame.CallKind.{CallKind};
ghost use Rattle.ink_effects.specs.Performs.{Performs, calling, diverting, fields, landing_of, leading, led_as};
ghost use Rattle.ink_effects.specs.Standing.{Rest, seen_by};
ghost use Rattle.ink_tree.specs.Nodes.{node_place, place_of};

use crate::operands::{drop_top, top};
use crate::transfer::{Landing, Transfer};
use ink_check::{Story, ends_in_index};
use ink_model::{Destination, Fault, Path, Value};
use ink_stack::Threads;
use ink_tree::{NodeId, Spot};
use ink_value::{EvalStack, is_true};
use ink_vars::{Globals, look};

const ROOT: NodeId = NodeId { number: 0 };

/// A divert that tells by a transfer where flow lands, with the faults of `wanted_landing`.
#[inline(never)]
pub(crate) fn perform_divert(
    story: &Story,
    here: Spot,
    to: &Destination,
    conditional: bool,
    stack: &mut EvalStack,
    globals: &Globals,
    threads: &Threads<Spot>,
    transfer: &mut Transfer<'_>,
) -> Result<(), Fault>
    requires on { transfer.old ≡ Transfer.Next }
    requires path { let s = story_tree story.now in written_target s (place_of s here) ≡ lands_to s (place_of s here) to.now }
    requires room { 1 ≤ stack_spare stack.old }
    ensures effect { let s = story_tree story.now in (evaluating : Bool) (fresh : Option ℕ) (page : Page) (rest : Rest)
        → Performs s false (divert s (place_of s here) (seen_by s threads.now.threads rest) to.now conditional (fields evaluating fresh stack.old.items page globals.now.rows)) (fields evaluating fresh stack.new.items page globals.now.rows) (leading result transfer.new) }
    ensures mark { stack_stood stack.new ≡ stack_stood stack.old }
{
    match wanted_landing(story, here, to, conditional, stack, globals, threads) {
        Ok(Some(landing)) => {
            *transfer = Transfer::Land(landing);
            Ok(())
        }
        Ok(None) => Ok(()),
        Err(fault) => Err(fault),
    }
}

/// Where a divert or a call leads flow, with the faults of `landing_to`. A condition is popped and looked at before all else;
/// where it is false flow goes on, and none is given.
#[inline(always)]
pub fn wanted_landing(
    story: &Story,
    here: Spot,
    to: &Destination,
    conditional: bool,
    stack: &mut EvalStack,
    globals: &Globals,
    threads: &Threads<Spot>,
) -> Result<Option<Landing>, Fault>
    requires path { let s = story_tree story.now in written_target s (place_of s here) ≡ lands_to s (place_of s here) to.now }
    requires room { 1 ≤ stack_spare stack.old }
    ensures divert { let s = story_tree story.now in (evaluating : Bool) (fresh : Option ℕ) (page : Page) (rest : Rest)
        → Performs s false (divert s (place_of s here) (seen_by s threads.now.threads rest) to.now conditional (fields evaluating fresh stack.old.items page globals.now.rows)) (fields evaluating fresh stack.new.items page globals.now.rows) (diverting result) }
    ensures call { let s = story_tree story.now in (kind : CallKind) (evaluating : Bool) (fresh : Option ℕ) (page : Page) (rest : Rest)
        → Performs s false (call (frame_kind kind) s (place_of s here) (seen_by s threads.now.threads rest) to.now conditional (fields evaluating fresh stack.old.items page globals.now.rows)) (fields evaluating fresh stack.new.items page globals.now.rows) (calling kind result) }
    ensures mark { stack_stood stack.new ≡ stack_stood stack.old }
{
    match is_wanted(conditional, stack) {
        Ok(true) => match landing_to(story, here, to, globals, threads) {
            Ok(landing) => Ok(Some(landing)),
            Err(fault) => Err(fault),
        },
        Ok(false) => Ok(None),
        Err(fault) => Err(fault),
    }
}

/// Where a divert or a call leads: by a written path, or by what a variable is read as. `BadTarget` where that is nowhere, and
/// before that `BadPointer` where the variable holds a pointer that leads nowhere.
#[inline(always)]
pub(crate) fn landing_to(
    story: &Story,
    here: Spot,
    to: &Destination,
    globals: &Globals,
    threads: &Threads<Spot>,
) -> Result<Landing, Fault>
    requires { let s = story_tree story.now in written_target s (place_of s here) ≡ lands_to s (place_of s here) to.now }
    ensures { let s = story_tree story.now in (rest : Rest)
        → led_as s result ≡ rules.led_to s (place_of s here) (seen_by s threads.now.threads rest) to.now globals.now.rows }
{
    match to {
        Destination::Path(_) => match written_landing(story, here) {
            Some(place) => Ok(entering(place)),
            None => Err(Fault::BadTarget),
        },
        Destination::Variable(name) => landing_in(story, here, globals, threads, name.as_str()),
    }
}

/// Whether a content that may be conditional is performed: a condition is popped and looked at. `StackEmpty` where there is
/// none, `BadOperands` where it is no truth.
#[inline(always)]
pub(crate) fn is_wanted(conditional: bool, stack: &mut EvalStack) -> Result<bool, Fault>
    requires room { 1 ≤ stack_spare stack.old }
    ensures wanted { (evaluating : Bool) (fresh : Option ℕ) (page : Page) (globals : Values)
        → leaving_fields (fields evaluating fresh stack.new.items page globals) result ≡ condition conditional (fields evaluating fresh stack.old.items page globals) }
    ensures mark { stack_stood stack.new ≡ stack_stood stack.old }
    ensures spare { stack_spare stack.old ≤ stack_spare stack.new + 1 }
{
    if !conditional {
        return Ok(true);
    }
    let Some(condition) = top(stack) else {
        return Err(Fault::StackEmpty);
    };
    let wanted = is_true(condition);
    drop_top(stack);
    wanted
}

/// The landing of a written path, which enters containers around.
#[inline(always)]
pub(crate) fn entering(place: Spot) -> Landing
    ensures { result ≡ record { place = place; enters = true } }
{
    Landing {
        place,
        enters: true,
    }
}

// Where the target leads that a variable is read as. `BadPointer` where the pointer that it holds leads nowhere; `BadTarget` where it
// is no target, or the target leads nowhere.
#[inline(never)]
fn landing_in(
    story: &Story,
    here: Spot,
    globals: &Globals,
    threads: &Threads<Spot>,
    name: &str,
) -> Result<Landing, Fault>
    ensures { let s = story_tree story.now in led_as s result ≡ rules.led_by s (read globals.now.rows threads.now.threads.thread name.now) }
{
    match look(globals, threads, name, number_of(story, here)) {
        Ok(Some(value)) => landing_by(story, value).ok_or(Fault::BadTarget),
        Ok(None) => Err(Fault::BadTarget),
        Err(fault) => Err(fault),
    }
}

/// Where a value leads that was read from a variable, or popped: a target to the very place that it names, none where that is
/// nowhere; another value leads nowhere.
#[inline(always)]
pub(crate) fn landing_by(story: &Story, value: &Value) -> Option<Landing>
    ensures { let s = story_tree story.now in option_map (landing_of s) result ≡ rules.landing_by s value.now }
{
    match value {
        Value::Target(path) => landing_on(story, path.get()),
        _ => None,
    }
}

/// Where a target leads: to the very place that its path names. It enters containers around only where that ends in an index.
#[inline(always)]
pub(crate) fn landing_on(story: &Story, path: &Path) -> Option<Landing>
    ensures { let s = story_tree story.now in option_map (landing_of s) result ≡ rules.landing_by s (Target path.now) }
{
    let place = story.tree().resolve(ROOT, path)?;
    Some(Landing {
        place,
        enters: ends_in_index(path.parts.as_slice()),
    })
}

/// The number of the variable that the content at a place reads or assigns, or declares as a global. A global is found by it
/// without a hash, and is the same whatever it is.
#[inline(always)]
pub fn number_of(story: &Story, here: Spot) -> Option<usize>
    ensures { let s = story_tree story.now in result ≡ variable_number s (place_of s here) }
{
    story.variable(node_at(story, here)?)
}

/// Where the written path of the content at a place leads.
#[inline(always)]
pub(crate) fn written_landing(story: &Story, here: Spot) -> Option<Spot>
    ensures { let s = story_tree story.now in option_map (place_of s) result ≡ written_target s (place_of s here) }
{
    story.target(node_at(story, here)?)
}

/// The content at a place, by number; none where nothing stands there. Most places are contents themselves.
#[inline(always)]
fn node_at(story: &Story, here: Spot) -> Option<NodeId>
    ensures { let s = story_tree story.now in MatchOption result (at s (place_of s here) ≡ None) (λ node. node_place s node ≡ place_of s here) }
{
    match here.index {
        None => Some(here.holder),
        Some(_) => story.tree().node(here),
    }
}
