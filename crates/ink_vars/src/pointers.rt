//! What names and pointers lead to.

ghost use Rattle.std.specs.Prelude.{◌≡◌, IfSome, option_map};
ghost use Rattle.ink_model.specs.Flow.Threads.{frame_count};
ghost use Rattle.ink_model.specs.Variables.Access as rules;

use crate::globals::Globals;
use ink_model::{Shared, Text, Value};
use ink_stack::Threads;

/// The value of a name alone, which may have a number: that of the global, or else that of the top frame's temporary.
#[inline(always)]
pub(crate) fn named<'a, P: Copy>(
    globals: &'a Globals,
    threads: &'a Threads<P>,
    name: &str,
    number: Option<usize>,
) -> Option<&'a Value>
    ensures { option_map (λ value. value.now) result ≡ rules.named globals.now.rows threads.now.threads.thread name.now }
{
    match globals.get_at(name, number) {
        Some(value) => Some(value),
        None => threads.temp(threads.top().frames(), name),
    }
}

/// What a frame has by a name: its value, and the index of the global, where it is one.
#[derive(Clone, Copy)]
pub(crate) struct Found<'a> {
    pub value: Option<&'a Value>,
    pub index: Option<usize>,
}

/// The value of a name in the frame of a number, which is 0 for the globals.
#[inline(always)]
pub(crate) fn held<'a, P: Copy>(
    globals: &'a Globals,
    threads: &'a Threads<P>,
    frame: i32,
    name: &str,
) -> Found<'a>
    ensures { option_map (λ value. value.now) result.value ≡ rules.held globals.now.rows threads.now.threads.thread frame name.now }
{
    match usize::try_from(frame) {
        Ok(0) => match globals.find(name) {
            Some((index, value)) => Found {
                value: Some(value),
                index: Some(index),
            },
            None => Found {
                value: None,
                index: None,
            },
        },
        Ok(number) => Found {
            value: threads.temp(number, name),
            index: None,
        },
        Err(_) => Found {
            value: None,
            index: None,
        },
    }
}

/// Whether there is the global that a pointer leads to, or the frame.
pub(crate) fn stands<P: Copy>(
    globals: &Globals,
    threads: &Threads<P>,
    frame: i32,
    name: &str,
) -> bool
    ensures { result ≡ rules.stands globals.now.rows threads.now.threads.thread frame name.now }
{
    match usize::try_from(frame) {
        Ok(0) => globals.contains(name),
        Ok(number) => number <= threads.top().frames(),
        Err(_) => false,
    }
}

/// The last pointer of a chain: the number of a frame and a name, and what the frame has by it.
#[derive(Clone, Copy)]
pub(crate) struct ChainEnd<'a> {
    pub frame: i32,
    pub name: &'a Shared<Text>,
    pub found: Found<'a>,
}

/// The last pointer of the chain that begins with this one; none where it has more pointers than there are frames, and one
/// more. Takes no memory.
#[inline(always)]
pub(crate) fn chain_end<'a, P: Copy>(
    globals: &'a Globals,
    threads: &'a Threads<P>,
    frame: i32,
    name: &'a Shared<Text>,
) -> Option<ChainEnd<'a>>
    ensures end { option_map (λ e. (e.frame, e.name.now)) result ≡ rules.chain_end globals.now.rows threads.now.threads.thread frame name.now }
    ensures value { IfSome result (λ e. option_map (λ value. value.now) e.found.value ≡ rules.held globals.now.rows threads.now.threads.thread e.frame e.name.now) }
{
    let found = held(globals, threads, frame, name.as_str());
    match found.value {
        Some(Value::Pointer(next, to)) => chain_further(globals, threads, *next, to),
        _ => Some(ChainEnd { frame, name, found }),
    }
}

// The same of a pointer to which one led already. Few chains go so far.
#[inline(never)]
fn chain_further<'a, P: Copy>(
    globals: &'a Globals,
    threads: &'a Threads<P>,
    frame: i32,
    name: &'a Shared<Text>,
) -> Option<ChainEnd<'a>>
    ensures end { let thread = threads.now.threads.thread in
        option_map (λ e. (e.frame, e.name.now)) result ≡ rules.last_pointer globals.now.rows thread (frame_count thread) frame name.now }
    ensures value { IfSome result (λ e. option_map (λ value. value.now) e.found.value ≡ rules.held globals.now.rows threads.now.threads.thread e.frame e.name.now) }
{
    let mut frame = frame;
    let mut name = name;
    let mut left = threads.top().frames();
    while left > 0 {
        left -= 1;
        let found = held(globals, threads, frame, name.as_str());
        match found.value {
            Some(Value::Pointer(next, to)) => {
                frame = *next;
                name = to;
            }
            _ => return Some(ChainEnd { frame, name, found }),
        }
    }
    None
}
