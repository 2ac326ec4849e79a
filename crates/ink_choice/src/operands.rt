//! What a choice point is to pop, found on the stack before anything is popped (docs/CHOICES.md, "What is popped").

ghost use Rattle.std.specs.Prelude.{◌≡◌, ◌≢◌, ◌<◌, ◌≤◌, ◌+◌, ◌-◌, ◌^◌, length, [], ◌∷◌, ◌++◌, Ok, Err, drop, reverse, IfOk, IfSome, MatchOption, MatchResult, OnOk, OnErr};
ghost use Rattle.std.specs.Bool.{OnFalse};
ghost use Rattle.ink_choice.specs.Operands.{operands_of, words_of};
ghost use Rattle.ink_model.specs.Choices.Making as rules;
ghost use Rattle.ink_model.specs.Choices.Making.{tags_first};
ghost use Rattle.ink_trail.specs.Undo.{KeepsTrail, Trails, TrailsOrKeeps};
ghost use Rattle.ink_value.specs.Undo.{stack_back, stack_spare, stack_stood};

use ink_model::choice_flags::{has_choice_only_text, has_start_text, is_conditional};
use ink_model::{Fault, Shared, Text, Value};
use ink_trail::Undo;
use ink_value::{EvalStack, is_true};
use std::alloc::AllocError;

/// A text on the stack, and the depth from which on its tags lie below it.
#[derive(Clone, Copy)]
pub(crate) struct Words<'s> {
    pub(crate) text: &'s str,
    pub(crate) tags: usize,
}

/// Whether the condition is true, the two texts, and how many values all of it is.
#[derive(Clone, Copy)]
pub(crate) struct Operands<'s> {
    pub(crate) condition: bool,
    pub(crate) start: Words<'s>,
    pub(crate) choice_only: Words<'s>,
    pub(crate) end: usize,
}

/// What a choice point of these flags pops. `StackEmpty` where a value is missing; `BadOperands` for a condition that is neither
/// true nor false, and for what stands in the place of a text and is none. Takes no memory.
pub(crate) fn find_operands<'s>(stack: &'s EvalStack, flags: u8) -> Result<Operands<'s>, Fault>
    ensures { let vs = reverse stack.now.items in
        MatchResult result (λ found. rules.operands flags vs ≡ Ok (operands_of vs found)) (λ f. rules.operands flags vs ≡ Err f) }
{
    let (condition, depth) = find_condition(stack, is_conditional(flags))?;
    let (choice_only, depth) = find_words(stack, has_choice_only_text(flags), depth)?;
    let (start, end) = find_words(stack, has_start_text(flags), depth)?;
    Ok(Operands {
        condition,
        start,
        choice_only,
        end,
    })
}

// Whether the condition is true, where there is to be one, and the depth after it.
fn find_condition(stack: &EvalStack, wanted: bool) -> Result<(bool, usize), Fault>
    ensures { let vs = reverse stack.now.items in
        MatchResult result (λ found. rules.pop_condition wanted vs ≡ Ok (found.0, drop found.1 vs)) (λ f. rules.pop_condition wanted vs ≡ Err f) }
{
    if !wanted {
        return Ok((true, 0));
    }
    match value_at(stack, 0) {
        Some(value) => match is_true(value) {
            Ok(truth) => Ok((truth, 1)),
            Err(fault) => Err(fault),
        },
        None => Err(Fault::StackEmpty),
    }
}

// The text at a depth with its tags, where there is to be one, and the depth after it.
fn find_words<'s>(
    stack: &'s EvalStack,
    wanted: bool,
    depth: usize,
) -> Result<(Words<'s>, usize), Fault>
    ensures { let vs = reverse stack.now.items in
        MatchResult result (λ found. rules.pop_any_words wanted (drop depth vs) ≡ Ok (words_of vs found.0, drop found.1 vs)) (λ f. rules.pop_any_words wanted (drop depth vs) ≡ Err f) }
{
    if !wanted {
        return Ok((
            Words {
                text: "",
                tags: stack.len(),
            },
            depth,
        ));
    }
    match value_at(stack, depth) {
        Some(Value::Text(text)) => {
            let tags = depth + 1;
            let text = text.as_str();
            Ok((Words { text, tags }, tags_end(stack, tags)))
        }
        Some(_) => Err(Fault::BadOperands),
        None => Err(Fault::StackEmpty),
    }
}

// The depth after the tags that lie from a depth on.
fn tags_end(stack: &EvalStack, from: usize) -> usize
    ensures { let vs = reverse stack.now.items in rules.after_tags (drop from vs) ≡ drop result vs }
{
    for depth in from..stack.len() {
        match value_at(stack, depth) {
            Some(Value::Tag(_)) => {}
            _ => return depth,
        }
    }
    from.max(stack.len())
}

/// Adds the tags that lie from a depth on, the nearest first. The one error is a refused request for memory, which is made
/// only where there is a tag.
pub(crate) fn push_tags(
    tags: &mut Vec<Shared<Text>>,
    stack: &EvalStack,
    from: usize,
) -> Result<(), AllocError>
    ensures ok { OnOk result (tags.new.items ≡ tags.old.items ++ tags_first (drop from (reverse stack.now.items))) }
    ensures memory { OnErr result (tags_first (drop from (reverse stack.now.items)) ≢ []) }
{
    for depth in from..stack.len() {
        match value_at(stack, depth) {
            Some(Value::Tag(tag)) => {
                let tag = tag.share()?;
                tags.push(tag)?;
            }
            _ => return Ok(()),
        }
    }
    Ok(())
}

/// Whether a tag lies at a depth.
#[inline(always)]
pub(crate) fn is_tag(stack: &EvalStack, depth: usize) -> bool
    ensures { OnFalse result (tags_first (drop depth (reverse stack.now.items)) ≡ []) }
{
    match value_at(stack, depth) {
        Some(Value::Tag(_)) => true,
        _ => false,
    }
}

// The value at a depth, none where there is none so deep.
fn value_at<'s>(stack: &'s EvalStack, depth: usize) -> Option<&'s Value>
    ensures value { let vs = reverse stack.now.items in MatchOption result (drop depth vs ≡ []) (λ v. drop depth vs ≡ v.now ∷ drop (depth + 1) vs) }
    ensures within { IfSome result (λ v. depth + 1 < 2 ^ 64) }
{
    if depth >= stack.len() {
        return None;
    }
    match stack.peek(depth) {
        Ok(value) => Some(value),
        Err(_) => None,
    }
}

/// Pops as many values, or all where there are not so many, each of which is a change of a cell. Room for the changes is made
/// before. The one error is a refused request for memory while a mark stands, and leaves all as it was.
pub(crate) fn pop_all(stack: &mut EvalStack, count: usize) -> Result<(), AllocError>
    ensures ok { OnOk result (reverse stack.new.items ≡ drop count (reverse stack.old.items)) }
    ensures memory { OnErr result (stack_spare stack.old < length stack.old.items) }
    ensures trail { TrailsOrKeeps stack_back (length stack.old.items - length stack.new.items) stack.old.items stack.old.trail stack.new.items stack.new.trail result }
    ensures stood { stack_stood stack.new ≡ stack_stood stack.old }
    ensures spare { stack_spare stack.old ≤ stack_spare stack.new + length stack.old.items }
{
    let there = ready_to_pop(stack, count)?;
    pop_ready(stack, there);
    Ok(())
}

/// Makes room to pop as many values, or all where there are not so many, and answers how many these are. The one error is a refused
/// request for memory while a mark stands, and leaves all as it was.
#[inline(always)]
pub(crate) fn ready_to_pop(stack: &mut EvalStack, count: usize) -> Result<usize, AllocError>
    ensures items { stack.new.items ≡ stack.old.items }
    ensures kept { KeepsTrail stack.old.trail stack.new.trail }
    ensures there { IfOk result (λ there. there ≤ length stack.old.items) }
    ensures room { IfOk result (λ there. there ≤ stack_spare stack.new) }
    ensures all { IfOk result (λ there. drop there (reverse stack.old.items) ≡ drop count (reverse stack.old.items)) }
    ensures memory { OnErr result (stack_spare stack.old < length stack.old.items) }
    ensures stood { stack_stood stack.new ≡ stack_stood stack.old }
    ensures spare { stack_spare stack.old ≤ stack_spare stack.new }
{
    let there = count.min(stack.len());
    stack.ready(there)?;
    Ok(there)
}

/// Pops so many values, for which there is room.
#[inline(always)]
pub(crate) fn pop_ready(stack: &mut EvalStack, count: usize)
    requires there { count ≤ length stack.old.items }
    requires room { count ≤ stack_spare stack.old }
    ensures items { reverse stack.new.items ≡ drop count (reverse stack.old.items) }
    ensures count { count ≡ length stack.old.items - length stack.new.items }
    ensures trail { Trails stack_back count stack.old.items stack.old.trail stack.new.items stack.new.trail }
    ensures stood { stack_stood stack.new ≡ stack_stood stack.old }
    ensures spare { stack_spare stack.old ≤ stack_spare stack.new + count }
{
    stack.drop_top(count);
}
