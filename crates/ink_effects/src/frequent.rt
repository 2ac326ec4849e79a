//! Content of the most frequent kinds after which flow goes on (docs/RUNNING.md, "Evaluation"; docs/TEXT.md).

ghost use Rattle.ink_out.specs.Undo.{output_stood};
ghost use Rattle.ink_stack.specs.Undo.{threads_spare};
ghost use Rattle.ink_value.specs.Undo.{stack_spare};
ghost use Rattle.std.specs.Prelude.{◌≡◌, ◌≤◌, ◌+◌, IfSome, length};
ghost use Rattle.ink_check.specs.Standing.{story_tree};
ghost use Rattle.ink_effects.specs.Flows.{KeepsMarks, fields_of_flow, leaf_asks_in, leaf_effect_in};
ghost use Rattle.ink_effects.specs.Frequents.{leaf_of};
ghost use Rattle.ink_effects.specs.Performs.{Performs, moving};
ghost use Rattle.ink_model.specs.Flow.Frames.{mode_in, on_top};

use crate::diverts::number_of;
use crate::evaluation::{begin_eval, end_eval, operate, pop, push_value};
use crate::sections::{begin_string, begin_tag, end_string, end_tag};
use crate::shared::Shared;
use crate::text::write_newline;
use crate::variables::push_variable;
use ink_check::Story;
use ink_flows::Flow;
use ink_model::{Control, Fault, Leaf, Op, Shared as Sharing, Text, Value};
use ink_out::Output;
use ink_tree::Spot;
use std::alloc::Global;

/// Content of a kind that most content is of. Flow goes on after it, and it changes the evaluation stack, the mode and the text
/// alone.
#[derive(Clone, Copy)]
pub enum Frequent<'a> {
    Newline,
    Int(i32),
    Void,
    Op(Op),
    Variable(&'a Sharing<Text>),
    BeginEval,
    EndEval,
    Pop,
    Nop,
    BeginString,
    EndString,
    BeginTag,
    EndTag,
}

/// The content, where it is of such a kind.
#[inline(always)]
pub fn frequent_kind(content: &Leaf) -> Option<Frequent<'_>>
    ensures { IfSome result (λ frequent. content.now ≡ leaf_of frequent) }
{
    match content {
        Leaf::Newline => Some(Frequent::Newline),
        Leaf::Int(number) => Some(Frequent::Int(*number)),
        Leaf::Void => Some(Frequent::Void),
        Leaf::Op(operator) => Some(Frequent::Op(*operator)),
        Leaf::Variable(name) => Some(Frequent::Variable(name)),
        Leaf::Control(Control::BeginEval) => Some(Frequent::BeginEval),
        Leaf::Control(Control::EndEval) => Some(Frequent::EndEval),
        Leaf::Control(Control::Pop) => Some(Frequent::Pop),
        Leaf::Control(Control::Nop) => Some(Frequent::Nop),
        Leaf::Control(Control::BeginString) => Some(Frequent::BeginString),
        Leaf::Control(Control::EndString) => Some(Frequent::EndString),
        Leaf::Control(Control::BeginTag) => Some(Frequent::BeginTag),
        Leaf::Control(Control::EndTag) => Some(Frequent::EndTag),
        _ => None,
    }
}

/// Performs such content as `perform_leaf` does, with its faults.
#[inline(always)]
pub fn perform_frequent(
    alloc: Global,
    story: &Story,
    here: Spot,
    content: Frequent<'_>,
    flow: &mut Flow,
    output: &mut Output,
    shared: &Shared,
) -> Result<(), Fault>
    requires stack_room { length flow.old.stack.items + 2 ≤ stack_spare flow.old.stack }
    requires room { 1 ≤ threads_spare flow.old.threads }
    ensures effect { let s = story_tree story.now in let l = leaf_of content.entry in let page = output.old.page in
        Performs s (leaf_asks_in s here l flow.old page shared.now) (leaf_effect_in s here l flow.old page shared.now) (fields_of_flow flow.new output.new.page shared.now.globals.rows) (moving result) }
    ensures threads { flow.new.threads.threads ≡ on_top (mode_in flow.new.threads.threads.thread.frame.evaluating) flow.old.threads.threads }
    ensures same { flow.new ≡ record flow.old { threads = flow.new.threads; stack = flow.new.stack } }
    ensures marks { KeepsMarks flow.old flow.new }
    ensures output_mark { output_stood output.new ≡ output_stood output.old }
    ensures spare { threads_spare flow.old.threads ≤ threads_spare flow.new.threads + 1 }
{
    let mut evaluating = flow.threads.is_evaluating();
    match content {
        Frequent::Newline => write_newline(
            alloc,
            &mut flow.stack,
            output,
            evaluating,
            flow.threads.fresh_depth(),
        ),
        Frequent::Int(number) => push_value(&mut flow.stack, evaluating, Value::Int(number)),
        Frequent::Void => push_value(&mut flow.stack, evaluating, Value::Void),
        Frequent::Op(operator) => operate(alloc, &mut flow.stack, operator),
        Frequent::Variable(name) => push_variable(
            alloc,
            &mut flow.stack,
            &shared.globals,
            &flow.threads,
            name,
            number_of(story, here),
        ),
        Frequent::BeginEval => {
            let outcome = begin_eval(&mut evaluating);
            flow.threads.set_mode(evaluating);
            outcome
        }
        Frequent::EndEval => {
            let outcome = end_eval(&mut evaluating);
            flow.threads.set_mode(evaluating);
            outcome
        }
        Frequent::Pop => pop(&mut flow.stack),
        Frequent::Nop => Ok(()),
        Frequent::BeginString => {
            let outcome = begin_string(output, &mut evaluating);
            flow.threads.set_mode(evaluating);
            outcome
        }
        Frequent::EndString => {
            let outcome = end_string(&mut flow.stack, output, &mut evaluating);
            flow.threads.set_mode(evaluating);
            outcome
        }
        Frequent::BeginTag => begin_tag(&mut flow.stack, output),
        Frequent::EndTag => end_tag(&mut flow.stack, output),
    }
}
