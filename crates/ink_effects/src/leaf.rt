//! Content that holds no other and calls nothing (docs/RUNNING.md, "Steps").

ghost use Rattle.ink_out.specs.Undo.{output_stood};
ghost use Rattle.ink_stack.specs.Undo.{threads_spare};
ghost use Rattle.ink_value.specs.Undo.{stack_spare};
ghost use Rattle.std.specs.Prelude.{◌≡◌, ◌≤◌, ◌+◌, Some, OnOk, length};
ghost use Rattle.ink_check.specs.Standing.{story_tree};
ghost use Rattle.ink_model.specs.Story.Tree.{at, leaf};
ghost use Rattle.ink_effects.specs.Flows.{KeepsMarks, fields_of_flow, leaf_asks_in, leaf_effect_in};
ghost use Rattle.ink_effects.specs.Performs.{KeepsThreads, KeepsChoices, Performs, leading};
ghost use Rattle.ink_tree.specs.Nodes.{place_of};

use crate::calls::call;
use crate::choices::offer;
use crate::control::perform_control;
use crate::counts::push_count;
use crate::diverts::{number_of, perform_divert};
use crate::evaluation::{operate, push_target, push_value};
use crate::sections::write_tag;
use crate::shared::Shared;
use crate::text::{write_glue, write_newline, write_text};
use crate::transfer::{Transfer, after_text};
use crate::variables::{assign, declare, push_pointer, push_variable};
use ink_check::Story;
use ink_flows::Flow;
use ink_model::{Fault, Leaf, Scope, Value};
use ink_out::Output;
use ink_stack::CallKind;
use ink_tree::Spot;
use std::alloc::Global;

/// Performs a content on what it may change. Flow goes on, but for content that sets where it goes. A call of an external function
/// is performed apart.
///
/// The faults are those of the content's own rule, and `OutOfMemory` for a refused request for memory. What flow and the output
/// hold after a fault is not said, but for whether stops are safe, and for the marks, which stand as they did.
#[inline(always)]
pub fn perform_leaf<'a>(
    alloc: Global,
    story: &Story,
    here: Spot,
    content: &'a Leaf,
    flow: &mut Flow,
    output: &mut Output,
    shared: &Shared,
    transfer: &mut Transfer<'a>,
) -> Result<(), Fault>
    requires on { transfer.old ≡ Transfer.Next }
    requires stands { let s = story_tree story.now in at s (place_of s here) ≡ Some (leaf content.now) }
    requires stack_room { length flow.old.stack.items + 2 ≤ stack_spare flow.old.stack }
    requires room { 1 ≤ threads_spare flow.old.threads }
    ensures effect { let s = story_tree story.now in let page = output.old.page in
        Performs s (leaf_asks_in s here content.now flow.old page shared.now) (leaf_effect_in s here content.now flow.old page shared.now) (fields_of_flow flow.new output.new.page shared.now.globals.rows) (leading result transfer.new) }
    ensures threads { let s = story_tree story.now in
        OnOk result (KeepsThreads s (leaf_effect_in s here content.now flow.old output.old.page shared.now) flow.old.threads.threads flow.new.threads.threads) }
    ensures choices { let s = story_tree story.now in
        OnOk result (KeepsChoices s (leaf_effect_in s here content.now flow.old output.old.page shared.now) flow.old.choices.items flow.new.choices.items) }
    ensures safe { flow.new.safe ≡ flow.old.safe }
    ensures marks { KeepsMarks flow.old flow.new }
    ensures output_mark { output_stood output.new ≡ output_stood output.old }
    ensures spare { threads_spare flow.old.threads ≤ threads_spare flow.new.threads + 1 }
{
    let evaluating = flow.threads.is_evaluating();
    match content {
        Leaf::Text(text) => after_text(
            transfer,
            write_text(
                &mut flow.stack,
                output,
                evaluating,
                flow.threads.fresh_depth(),
                text,
            ),
        ),
        Leaf::Newline => write_newline(
            alloc,
            &mut flow.stack,
            output,
            evaluating,
            flow.threads.fresh_depth(),
        ),
        Leaf::Glue => write_glue(output, evaluating),
        Leaf::Tag(text) => write_tag(&mut flow.stack, output, text.as_str()),
        Leaf::Int(number) => push_value(&mut flow.stack, evaluating, Value::Int(*number)),
        Leaf::Bool(truth) => push_value(&mut flow.stack, evaluating, Value::Bool(*truth)),
        Leaf::Void => push_value(&mut flow.stack, evaluating, Value::Void),
        Leaf::Target(text) => push_target(story, here, &mut flow.stack, evaluating, text),
        Leaf::Control(control) => perform_control(
            alloc, story, here, *control, flow, output, shared, transfer,
        ),
        Leaf::Op(operator) => operate(alloc, &mut flow.stack, *operator),
        Leaf::Divert { to, conditional } => perform_divert(
            story,
            here,
            to,
            *conditional,
            &mut flow.stack,
            &shared.globals,
            &flow.threads,
            transfer,
        ),
        Leaf::Declare(name) => declare(
            &mut flow.stack,
            &shared.globals,
            &mut flow.threads,
            Scope::Global,
            name,
            number_of(story, here),
            transfer,
        ),
        Leaf::DeclareTemp(name) => declare(
            &mut flow.stack,
            &shared.globals,
            &mut flow.threads,
            Scope::Temporary,
            name,
            None,
            transfer,
        ),
        Leaf::Assign(name) | Leaf::AssignTemp(name) => assign(
            &mut flow.stack,
            &shared.globals,
            &mut flow.threads,
            name,
            number_of(story, here),
            transfer,
        ),
        Leaf::Variable(name) => push_variable(
            alloc,
            &mut flow.stack,
            &shared.globals,
            &flow.threads,
            name,
            number_of(story, here),
        ),
        Leaf::Pointer(name, frame) => push_pointer(
            &mut flow.stack,
            &flow.threads,
            evaluating,
            name,
            *frame,
        ),
        Leaf::Count(path) => push_count(story, here, &shared.counts, &mut flow.stack, path),
        Leaf::Call { to, conditional } => call(
            story,
            here,
            CallKind::Function,
            to,
            *conditional,
            &mut flow.stack,
            &shared.globals,
            &flow.threads,
            transfer,
        ),
        Leaf::Tunnel { to, conditional } => call(
            story,
            here,
            CallKind::Tunnel,
            to,
            *conditional,
            &mut flow.stack,
            &shared.globals,
            &flow.threads,
            transfer,
        ),
        Leaf::Choice { target, flags } => {
            // The choice keeps a copy of the thread.
            flow.threads.share_frames();
            offer(
                alloc,
                story,
                here,
                *flags,
                &mut flow.stack,
                &shared.counts,
                &flow.threads,
                &mut flow.choices,
                target,
            )
        }
        Leaf::External { .. } => Ok(()),
    }
}
