//! Calls, tunnels and the returns of tunnels (docs/FRAMES.md).

ghost use Rattle.ink_value.specs.Undo.{stack_spare, stack_stood};
ghost use Rattle.std.specs.Prelude.{◌≡◌, ℕ, Bool, false, Option, ◌≤◌};
ghost use Rattle.ink_check.specs.Standing.{story_tree};
ghost use Rattle.ink_model.specs.Story.Acceptance.{lands_to, written_target};
ghost use Rattle.ink_model.specs.Text.Page.{Page};
ghost use Rattle.ink_model.specs.Run.Step.Calls.{call, return_landing, return_tunnel};
ghost use Rattle.ink_model.specs.Variables.Store.{Values};
ghost use Rattle.ink_stack.specs.Calls.{frame_kind};
ghost use Rattle.ink_effects.specs.Performs.{Performs, fields, leading, led_back_as, returning};
ghost use Rattle.ink_effects.specs.Standing.{Rest, seen_by};
ghost use Rattle.ink_tree.specs.Nodes.{place_of};

use crate::diverts::{landing_on, wanted_landing};
use crate::operands::{drop_top, top};
use crate::transfer::{Landing, Transfer};
use ink_check::Story;
use ink_model::{Destination, Fault, FrameKind, Value};
use ink_stack::{CallKind, Threads};
use ink_tree::Spot;
use ink_value::EvalStack;
use ink_vars::Globals;

/// A call or a tunnel that tells by a transfer where flow lands, in a frame of this kind, with the faults of `wanted_landing`.
#[inline(never)]
pub(crate) fn call(
    story: &Story,
    here: Spot,
    kind: CallKind,
    to: &Destination,
    conditional: bool,
    stack: &mut EvalStack,
    globals: &Globals,
    threads: &Threads<Spot>,
    transfer: &mut Transfer<'_>,
) -> Result<(), Fault>
    requires on { transfer.old ≡ Transfer.Next }
    requires path { let s = story_tree story.now in written_target s (place_of s here) ≡ lands_to s (place_of s here) to.now }
    requires room { 1 ≤ stack_spare stack.old }
    ensures effect { let s = story_tree story.now in (evaluating : Bool) (fresh : Option ℕ) (page : Page) (rest : Rest)
        → Performs s false (call (frame_kind kind) s (place_of s here) (seen_by s threads.now.threads rest) to.now conditional (fields evaluating fresh stack.old.items page globals.now.rows)) (fields evaluating fresh stack.new.items page globals.now.rows) (leading result transfer.new) }
    ensures mark { stack_stood stack.new ≡ stack_stood stack.old }
{
    match wanted_landing(story, here, to, conditional, stack, globals, threads) {
        Ok(Some(landing)) => {
            *transfer = Transfer::Call(kind, landing);
            Ok(())
        }
        Ok(None) => Ok(()),
        Err(fault) => Err(fault),
    }
}

/// The return of a tunnel that tells by a transfer where flow goes back to, with the faults of `tunnel_landing`.
#[inline(never)]
pub(crate) fn return_tunnel(
    story: &Story,
    stack: &mut EvalStack,
    transfer: &mut Transfer<'_>,
) -> Result<(), Fault>
    requires room { 1 ≤ stack_spare stack.old }
    ensures effect { let s = story_tree story.now in (evaluating : Bool) (fresh : Option ℕ) (page : Page) (globals : Values)
        → Performs s false (return_tunnel s (fields evaluating fresh stack.old.items page globals)) (fields evaluating fresh stack.new.items page globals) (leading result transfer.new) }
    ensures mark { stack_stood stack.new ≡ stack_stood stack.old }
{
    let landing = tunnel_landing(story, stack)?;
    *transfer = Transfer::Return(FrameKind::Tunnel, landing);
    Ok(())
}

/// Where a tunnel goes back to by what is popped: void leads to after its call, and none is given, a target to the very place that
/// it names; `return_frame` of ink_moves then pops its frame and goes there. `StackEmpty` where nothing is there to be popped,
/// `BadPop` for another value, `BadTarget` for a target that leads nowhere.
#[inline(always)]
pub fn tunnel_landing(story: &Story, stack: &mut EvalStack) -> Result<Option<Landing>, Fault>
    requires room { 1 ≤ stack_spare stack.old }
    ensures effect { let s = story_tree story.now in (evaluating : Bool) (fresh : Option ℕ) (page : Page) (globals : Values)
        → Performs s false (return_tunnel s (fields evaluating fresh stack.old.items page globals)) (fields evaluating fresh stack.new.items page globals) (returning result) }
    ensures mark { stack_stood stack.new ≡ stack_stood stack.old }
{
    let Some(value) = top(stack) else {
        return Err(Fault::StackEmpty);
    };
    let landing = returned_to(story, value)?;
    drop_top(stack);
    Ok(landing)
}

/// Where a tunnel that is given a value goes back to: void leads to after its call, a target to the very place that it names, which
/// `landing_on` takes as it is. `BadPop` for another value, `BadTarget` for a target that leads nowhere. The result is that of the
/// definition, with spots for places (`led_back_as`).
fn returned_to(story: &Story, value: &Value) -> Result<Option<Landing>, Fault>
    ensures { let s = story_tree story.now in led_back_as s result ≡ return_landing s value.now }
{
    match value {
        Value::Void => Ok(None),
        Value::Target(path) => match landing_on(story, path.get()) {
            Some(landing) => Ok(Some(landing)),
            None => Err(Fault::BadTarget),
        },
        _ => Err(Fault::BadPop),
    }
}
