//! Control content (docs/RUNNING.md, "Steps").

ghost use Rattle.ink_out.specs.Undo.{output_stood};
ghost use Rattle.ink_stack.specs.Undo.{threads_spare};
ghost use Rattle.ink_value.specs.Undo.{stack_spare, stack_stood};
ghost use Rattle.std.specs.Prelude.{◌≡◌, ◌≤◌, ◌+◌};
ghost use Rattle.ink_check.specs.Standing.{story_tree};
ghost use Rattle.ink_model.specs.Flow.Frames.{fresh_depth, mode_in, on_top};
ghost use Rattle.ink_model.specs.Memory.Refusals.{control_asks};
ghost use Rattle.ink_model.specs.Run.Step.{control_effect};
ghost use Rattle.ink_model.specs.Variables.Store.{Values};
ghost use Rattle.ink_effects.specs.Flows.{KeepsMarks, fields_of_flow, seen_in};
ghost use Rattle.ink_effects.specs.Performs.{Performs, fields, leading};
ghost use Rattle.ink_tree.specs.Nodes.{place_of};

use crate::calls::return_tunnel;
use crate::choices::push_choice_count;
use crate::counts::{push_read_count, push_turn, push_turns, push_visit};
use crate::evaluation::{begin_eval, duplicate, end_eval, pop};
use crate::sections::{begin_string, begin_tag, end_string, end_tag};
use crate::shared::Shared;
use crate::text::output_top;
use crate::transfer::{Transfer, after_text};
use ink_check::Story;
use ink_flows::Flow;
use ink_model::{Control, Fault, FrameKind};
use ink_out::Output;
use ink_tree::Spot;
use std::alloc::Global;

/// Performs a control content. Flow goes on, but for content that sets where it goes.
#[inline(always)]
pub(crate) fn perform_control(
    alloc: Global,
    story: &Story,
    here: Spot,
    control: Control,
    flow: &mut Flow,
    output: &mut Output,
    shared: &Shared,
    transfer: &mut Transfer<'_>,
) -> Result<(), Fault>
    requires on { transfer.old ≡ Transfer.Next }
    requires stack_room { 1 ≤ stack_spare flow.old.stack }
    requires room { 1 ≤ threads_spare flow.old.threads }
    ensures effect { let s = story_tree story.now in let p = place_of s here in let seen = seen_in s flow.old shared.now in (globals : Values) → let f = fields_of_flow flow.old output.old.page globals in
        Performs s (control_asks s p seen control f) (control_effect s p seen control f) (fields_of_flow flow.new output.new.page globals) (leading result transfer.new) }
    ensures same { flow.new ≡ record flow.old { threads = flow.new.threads; stack = flow.new.stack } }
    ensures threads { flow.new.threads.threads ≡ on_top (mode_in flow.new.threads.threads.thread.frame.evaluating) flow.old.threads.threads }
    ensures marks { KeepsMarks flow.old flow.new }
    ensures output_mark { output_stood output.new ≡ output_stood output.old }
    ensures spare { threads_spare flow.old.threads ≤ threads_spare flow.new.threads + 1 }
{
    let mut evaluating = flow.threads.is_evaluating();
    let outcome = perform_in_mode(
        alloc,
        story,
        here,
        control,
        flow,
        output,
        shared,
        &mut evaluating,
        transfer,
    );
    flow.threads.set_mode(evaluating);
    outcome
}

// The same where the mode of the top frame is changed apart from it.
#[inline(always)]
fn perform_in_mode(
    alloc: Global,
    story: &Story,
    here: Spot,
    control: Control,
    flow: &mut Flow,
    output: &mut Output,
    shared: &Shared,
    evaluating: &mut bool,
    transfer: &mut Transfer<'_>,
) -> Result<(), Fault>
    requires on { transfer.old ≡ Transfer.Next }
    requires stack_room { 1 ≤ stack_spare flow.old.stack }
    ensures effect { let s = story_tree story.now in let p = place_of s here in let seen = seen_in s flow.old shared.now in let fresh = fresh_depth flow.old.threads.threads.thread.frame in (globals : Values) → let f = fields evaluating.old fresh flow.old.stack.items output.old.page globals in
        Performs s (control_asks s p seen control f) (control_effect s p seen control f) (fields evaluating.new fresh flow.new.stack.items output.new.page globals) (leading result transfer.new) }
    ensures same { flow.new ≡ record flow.old { stack = flow.new.stack } }
    ensures stack_mark { stack_stood flow.new.stack ≡ stack_stood flow.old.stack }
    ensures output_mark { output_stood output.new ≡ output_stood output.old }
{
    match control {
        Control::BeginEval => begin_eval(evaluating),
        Control::EndEval => end_eval(evaluating),
        Control::Out => after_text(
            transfer,
            output_top(&mut flow.stack, output, flow.threads.fresh_depth()),
        ),
        Control::Pop => pop(&mut flow.stack),
        Control::Duplicate => duplicate(alloc, &mut flow.stack),
        Control::Nop => Ok(()),
        Control::BeginString => begin_string(output, evaluating),
        Control::EndString => end_string(&mut flow.stack, output, evaluating),
        Control::BeginTag => begin_tag(&mut flow.stack, output),
        Control::EndTag => end_tag(&mut flow.stack, output),
        Control::Done => {
            *transfer = Transfer::Done;
            Ok(())
        }
        Control::End => {
            *transfer = Transfer::End;
            Ok(())
        }
        Control::Return => {
            *transfer = Transfer::Return(FrameKind::Function, None);
            Ok(())
        }
        Control::ReturnTunnel => return_tunnel(story, &mut flow.stack, transfer),
        Control::Thread => {
            *transfer = Transfer::Fork;
            Ok(())
        }
        Control::Turn => push_turn(&mut flow.stack, shared.turn),
        Control::Turns => push_turns(story, &shared.counts, &mut flow.stack, shared.turn),
        Control::ReadCount => push_read_count(story, &shared.counts, &mut flow.stack),
        Control::Visit => push_visit(story, here, &shared.counts, &mut flow.stack),
        Control::ChoiceCount => push_choice_count(&mut flow.stack, &flow.choices),
    }
}
