//! What a choice point makes (docs/CHOICES.md, "What is made").

ghost use Rattle.std.specs.Prelude.{◌≡◌, ◌⊎◌, ◌-◌, ◌+◌, ◌≤◌, length, nat_lt, true, reverse, IfOk, OnErr, OnOk};
ghost use Rattle.ink_choice.specs.Operands.{operands_of};
ghost use Rattle.ink_choice.specs.Outcomes.{AddsMade, Makes, MakesWith};
ghost use Rattle.ink_choice.specs.Undo.{choices_back, choices_spare, choices_stood};
ghost use Rattle.ink_model.specs.Choices.Making as rules;
ghost use Rattle.ink_model.specs.Choices.Making.{choice_tags, has_any};
ghost use Rattle.ink_trail.specs.Undo.{TrailsOrKeeps, with_pair};
ghost use Rattle.ink_value.specs.Undo.{stack_back, stack_spare, stack_stood};

use crate::choice::Choice;
use crate::choices::Choices;
use crate::operands::{
    Operands, find_operands, is_tag, pop_all, pop_ready, push_tags, ready_to_pop,
};
use crate::texts::joined;
use crate::undo::ChoicePair;
use ink_model::choice_flags::{is_invisible_default, is_once_only};
use ink_model::{Fault, Seq, Shared, Text};
use ink_stack::Threads;
use ink_value::EvalStack;
use std::alloc::{AllocError, Global};

/// What a choice point of these flags makes: it pops the condition, the choice-only text and the start text, each text with the
/// tags directly below it, where its flags have them. No choice is made where the condition is false, nor where the choice is
/// offered once only and the container that its path leads to was visited; then all is popped all the same. A choice keeps a copy
/// of the thread that runs.
///
/// `StackEmpty` where a value is missing; `BadOperands` for a condition that is neither true nor false, and for a value that is no
/// text in the place of one, in the order in which they are popped; `TooDeep` where the text of a choice that is made is longer
/// than a text may be; `OutOfMemory` for a refused request for memory. One is made for a choice with a text that is not empty, with
/// tags, or in a thread with temporaries or more than one frame, and while the stack has a mark for room to note what is popped.
/// Each value that is popped is a change of a cell of the stack. On an error nothing has changed.
#[inline(always)]
pub fn make<P: Copy>(
    alloc: Global,
    flags: u8,
    target: P,
    stack: &mut EvalStack,
    visited: bool,
    threads: &Threads<P>,
) -> Result<Option<Choice<P>>, Fault>
    ensures made { Makes (nat_lt (stack_spare stack.old) (length stack.old.items)) (rules.make flags target visited threads.now.threads.thread stack.old.items) stack.old.items stack.new.items result }
    ensures trail { TrailsOrKeeps stack_back (length stack.old.items - length stack.new.items) stack.old.items stack.old.trail stack.new.items stack.new.trail result }
    ensures stood { stack_stood stack.new ≡ stack_stood stack.old }
    ensures spare { stack_spare stack.old ≤ stack_spare stack.new + length stack.old.items }
{
    let operands = match find_operands(stack, flags) {
        Ok(operands) => operands,
        Err(fault) => return Err(fault),
    };
    let count = operands.end;
    if !is_offered(flags, visited, operands.condition) {
        return match pop_all(stack, count) {
            Ok(()) => Ok(None),
            Err(_) => Err(Fault::OutOfMemory),
        };
    }
    match choice_of(alloc, flags, target, stack, threads, &operands) {
        Ok(choice) => match pop_all(stack, count) {
            Ok(()) => Ok(Some(choice)),
            Err(_) => Err(Fault::OutOfMemory),
        },
        Err(fault) => Err(fault),
    }
}

/// The same, and what is made is added behind the other choices, where it is built: it is not handed up first. A choice point calls
/// this, and nothing here calls `make`. `TooDeep` also where there are 1,000 choices; `OutOfMemory` also where the choice's place
/// behind the others is refused. A choice that is added is a change of a cell of the choices. On an error nothing has changed,
/// neither of the stack nor of the choices.
#[inline(always)]
pub fn add_made<P: Copy>(
    alloc: Global,
    flags: u8,
    target: P,
    stack: &mut EvalStack,
    visited: bool,
    threads: &Threads<P>,
    choices: &mut Choices<P>,
) -> Result<(), Fault>
    ensures made { AddsMade (nat_lt (stack_spare stack.old) (length stack.old.items)) (rules.make flags target visited threads.now.threads.thread stack.old.items) stack.old.items stack.new.items choices.old.items choices.new.items result }
    ensures trail { TrailsOrKeeps stack_back (length stack.old.items - length stack.new.items) stack.old.items stack.old.trail stack.new.items stack.new.trail result }
    ensures stood { stack_stood stack.new ≡ stack_stood stack.old }
    ensures spare { stack_spare stack.old ≤ stack_spare stack.new + length stack.old.items }
    ensures choices_trail { TrailsOrKeeps choices_back 1 choices.old.items choices.old.trail choices.new.items choices.new.trail result }
    ensures choices_pair { OnOk result ((choices.new.trail.undo ≡ choices.old.trail.undo) ⊎ (choices.new.trail.undo ≡ with_pair ChoicePair.Added 1 choices.old.trail.undo)) }
    ensures choices_stood { choices_stood choices.new ≡ choices_stood choices.old }
    ensures choices_spare { choices_spare choices.old ≤ choices_spare choices.new + 1 }
{
    let operands = match find_operands(stack, flags) {
        Ok(operands) => operands,
        Err(fault) => return Err(fault),
    };
    let count = operands.end;
    if !is_offered(flags, visited, operands.condition) {
        let Ok(_) = pop_all(stack, count) else {
            return Err(Fault::OutOfMemory);
        };
        return Ok(());
    }
    let empty = choices.empty_text();
    let text = match joined(empty, operands.start.text, operands.choice_only.text) {
        Ok(text) => text,
        Err(fault) => return Err(fault),
    };
    let Ok(tags) = tags_of(alloc, stack, &operands) else {
        return Err(Fault::OutOfMemory);
    };
    let Ok(there) = ready_to_pop(stack, count) else {
        return Err(Fault::OutOfMemory);
    };
    if let Err(fault) = choices.add_forked(
        text,
        tags,
        target,
        is_invisible_default(flags),
        threads,
    ) {
        return Err(fault);
    }
    pop_ready(stack, there);
    Ok(())
}

// Whether a choice is made.
fn is_offered(flags: u8, visited: bool, condition: bool) -> bool
    ensures { result ≡ rules.is_offered flags visited condition }
{
    condition && !(is_once_only(flags) && visited)
}

// The choice of what was found. `TooDeep` where its text is longer than a text may be, before memory is asked for.
#[inline(always)]
fn choice_of<P: Copy>(
    alloc: Global,
    flags: u8,
    target: P,
    stack: &EvalStack,
    threads: &Threads<P>,
    operands: &Operands<'_>,
) -> Result<Choice<P>, Fault>
    ensures { let choice = rules.choice flags target threads.now.threads.thread (operands_of (reverse stack.now.items) operands.now) in
        MakesWith choice.text (rules.choice_asks choice) choice result }
{
    let empty = String::new(alloc);
    match joined(empty, operands.start.text, operands.choice_only.text) {
        Ok(text) => {
            let Ok(tags) = tags_of(alloc, stack, operands) else {
                return Err(Fault::OutOfMemory);
            };
            let Ok(thread) = threads.fork() else {
                return Err(Fault::OutOfMemory);
            };
            let hidden = is_invisible_default(flags);
            Ok(Choice {
                text,
                tags,
                target,
                hidden,
                thread,
            })
        }
        Err(fault) => Err(fault),
    }
}

// The tags of both texts, the start's first. The one error is a refused request for memory, which is made only where there is a
// tag.
fn tags_of(
    alloc: Global,
    stack: &EvalStack,
    operands: &Operands<'_>,
) -> Result<Seq<Shared<Text>>, AllocError>
    ensures ok { IfOk result (λ tags. tags ≡ choice_tags (operands_of (reverse stack.now.items) operands.now)) }
    ensures memory { OnErr result (has_any (choice_tags (operands_of (reverse stack.now.items) operands.now)) ≡ true) }
{
    if !is_tag(stack, operands.choice_only.tags) && !is_tag(stack, operands.start.tags) {
        return Ok(Seq::new(alloc));
    }
    let mut tags = Vec::new(alloc);
    push_tags(&mut tags, stack, operands.choice_only.tags)?;
    push_tags(&mut tags, stack, operands.start.tags)?;
    tags.reverse();
    Ok(Seq::from_vec(tags))
}
