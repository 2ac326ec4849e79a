//! Parts of a machine by themselves. A question is the name of a part, calls, `|` and more calls: those before `|` are made of the
//! part and of a twin, then a mark is started, the others are made of the part, and it goes back. The answer is what `back` and
//! `writes` answer, as `3 of 4`, and that the part is as the twin; or the fault that a call behind the mark met, or the first
//! difference.
//!
//! - `threads`: `go:PLACE`, `put:PLACE`, `mode:EVALUATING`, `number:NUMBER`, `text:DEPTH`, which ends freshness, `call:DEPTH`,
//!   `tunnel:DEPTH`, `return:DEPTH`, `leave:DEPTH`, `fork`, `drop`, `temp:FRAME:NAME=VALUE`, `own:FRAME:NAME=VALUE`, which is
//!   the same of a name that can be shared, `alone`, by which a copy of the top thread becomes the only one, and `reset`
//! - `globals`: `NAME=VALUE`, and `room:COUNT`, which gives up those that are there for none with room for so many
//! - `counts`: `visit:CONTAINER:FLAGS` at its start, and `again:CONTAINER`, which puts back what is known of it
//! - `choices`: `add:TEXT`, `take:NUMBER` and `clear`

use crate::shown::{compare, show_choices, show_counts, show_globals, show_threads};
use ink_choice::{Choice, Choices};
use ink_model::{Fault, FrameKind, Seq, Shared, Text};
use ink_stack::{CallKind, Threads};
use ink_trail::Undo;
use ink_tree::{NodeId, Spot};
use ink_vars::{Counts, Globals, Turn};
use inkcases::{NoAnswer, Report, decoded, first_word, number, value_of};
use std::alloc::{AllocError, Global};

/// One of each part.
#[derive(Drop)]
struct Parts {
    threads: Threads<Spot>,
    globals: Globals,
    counts: Counts,
    choices: Choices<Spot>,
}

/// The answer to a question.
pub(crate) fn answer(said: &mut Report, question: &str) -> Result<(), NoAnswer> {
    let mut parts = Parts::new(said.alloc());
    let mut twin = Parts::new(said.alloc());
    answer_with(said, &mut parts, &mut twin, question)
}

fn answer_with(
    said: &mut Report,
    parts: &mut Parts,
    twin: &mut Parts,
    question: &str,
) -> Result<(), NoAnswer> {
    let alloc = said.alloc();
    let (part, calls) = first_word(question);
    let (before, behind) = calls.split_once('|').unwrap_or((calls, ""));
    parts.make_calls(alloc, part, before)?;
    twin.make_calls(alloc, part, before)?;
    parts.mark();
    let made = parts.make_calls(alloc, part, behind);
    let writes = parts.writes();
    let count = parts.back();
    compare(said, "back", &parts.shown(alloc), &twin.shown(alloc));
    if said.is_empty() {
        made?;
        said.show(count);
        said.number(" of ", writes);
        said.put(": alike");
    }
    Ok(())
}

/// The place of a container.
fn place(number: usize) -> Spot {
    Spot {
        holder: NodeId { number },
        index: None,
    }
}

impl Parts {
    fn new(alloc: Global) -> Parts {
        Parts {
            threads: Threads::new(alloc, Some(place(0))),
            globals: Globals::new(alloc),
            counts: Counts::new(alloc),
            choices: Choices::new(alloc),
        }
    }

    /// Makes calls of a part, each by its word and what stands behind `:`.
    fn make_calls(&mut self, alloc: Global, part: &str, calls: &str) -> Result<(), NoAnswer> {
        for call in calls.split_whitespace() {
            let (word, rest) = call.split_once(':').unwrap_or((call, ""));
            match part {
                "threads" => call_threads(alloc, &mut self.threads, word, rest)?,
                "globals" => call_globals(alloc, &mut self.globals, call)?,
                "counts" => call_counts(&mut self.counts, word, rest)?,
                "choices" => call_choices(alloc, &mut self.choices, word, rest)?,
                _ => return Err(NoAnswer::NoQuestion),
            }
        }
        Ok(())
    }

    fn mark(&mut self) {
        self.threads.mark();
        self.globals.mark();
        self.counts.mark();
        self.choices.mark();
    }

    /// How many changes were counted.
    fn writes(&self) -> u64 {
        let globals = self.threads.writes().saturating_add(self.globals.writes());
        let counts = globals.saturating_add(self.counts.writes());
        counts.saturating_add(self.choices.writes())
    }

    /// Goes back, and says how many changes were noted.
    fn back(&mut self) -> u64 {
        let globals = self.threads.back().saturating_add(self.globals.back());
        let counts = globals.saturating_add(self.counts.back());
        counts.saturating_add(self.choices.back())
    }

    fn shown(&self, alloc: Global) -> Report {
        let mut said = Report::new(alloc);
        show_threads(&mut said, &self.threads);
        show_globals(&mut said, &self.globals);
        show_counts(&mut said, &self.counts);
        show_choices(&mut said, &self.choices);
        said
    }
}

// ---- threads

fn call_threads(
    alloc: Global,
    threads: &mut Threads<Spot>,
    word: &str,
    rest: &str,
) -> Result<(), NoAnswer> {
    match word {
        "temp" | "own" => set_temp(alloc, threads, word == "own", rest),
        "mode" => set_mode(threads, rest == "true"),
        "fork" | "drop" | "alone" | "reset" => call_thread(threads, word),
        _ => call_at(threads, word, number(rest)?),
    }
}

/// Calls of whole threads.
fn call_thread(threads: &mut Threads<Spot>, word: &str) -> Result<(), NoAnswer> {
    threads.ready(1)?;
    match word {
        "fork" => threads.push_thread()?,
        "alone" => {
            let copy = threads.fork()?;
            threads.replace(copy);
        }
        "reset" => threads.reset(),
        _ => {
            let _is_dropped = threads.pop_thread();
        }
    }
    Ok(())
}

/// Calls with a number.
fn call_at(threads: &mut Threads<Spot>, word: &str, number: usize) -> Result<(), NoAnswer> {
    match word {
        "go" | "put" | "number" => move_to(threads, word, number),
        "call" => Ok(threads.push_frame(CallKind::Function, number)?),
        "tunnel" => Ok(threads.push_frame(CallKind::Tunnel, number)?),
        "return" => pop_frame(threads, FrameKind::Function, number),
        "leave" => pop_frame(threads, FrameKind::Tunnel, number),
        "text" => Ok(end_freshness(threads, number)?),
        _ => Err(NoAnswer::NoQuestion),
    }
}

fn move_to(threads: &mut Threads<Spot>, word: &str, number: usize) -> Result<(), NoAnswer> {
    threads.ready(2)?;
    match word {
        "go" => threads.go(Some(place(number))),
        "put" => threads.put(Some(place(number))),
        _ => threads.set_number(number as u64),
    }
    Ok(())
}

fn pop_frame(threads: &mut Threads<Spot>, kind: FrameKind, depth: usize) -> Result<(), NoAnswer> {
    threads.ready(2)?;
    Ok(threads.pop_frame(kind, depth)?)
}

fn end_freshness(threads: &mut Threads<Spot>, depth: usize) -> Result<(), AllocError> {
    let frames = threads.top().frames();
    threads.ready(frames)?;
    threads.end_freshness(depth);
    Ok(())
}

fn set_mode(threads: &mut Threads<Spot>, evaluating: bool) -> Result<(), NoAnswer> {
    threads.ready(1)?;
    threads.set_mode(evaluating);
    Ok(())
}

/// Sets a temporary of a frame that is there: `FRAME:NAME=VALUE`; its name may be shared.
fn set_temp(
    alloc: Global,
    threads: &mut Threads<Spot>,
    is_shared: bool,
    rest: &str,
) -> Result<(), NoAnswer> {
    let (frame, row) = rest.split_once(':').unwrap_or((rest, ""));
    let (name, value) = row.split_once('=').unwrap_or((row, ""));
    let frame = number::<usize>(frame)?;
    if frame == 0 || frame > threads.top().frames() {
        return Err(NoAnswer::NoQuestion);
    }
    let value = value_of(alloc, value)?;
    if is_shared {
        let name = Shared::new(alloc, Text::from_str(alloc, name)?)?;
        return Ok(threads.set_shared_temp(frame, &name, value)?);
    }
    Ok(threads.set_temp(frame, name, value)?)
}

// ---- globals and counts

fn call_globals(alloc: Global, globals: &mut Globals, call: &str) -> Result<(), NoAnswer> {
    match call.strip_prefix("room:") {
        Some(count) => {
            *globals = Globals::with_room(alloc, number(count)?)?;
            Ok(())
        }
        None => put_global(alloc, globals, call),
    }
}

fn put_global(alloc: Global, globals: &mut Globals, call: &str) -> Result<(), NoAnswer> {
    let (name, value) = call.split_once('=').unwrap_or((call, ""));
    let value = value_of(alloc, value)?;
    Ok(globals.put(name, None, value)?)
}

fn call_counts(counts: &mut Counts, word: &str, rest: &str) -> Result<(), NoAnswer> {
    let (node, flags) = rest.split_once(':').unwrap_or((rest, "0"));
    let node = number::<usize>(node)?;
    match word {
        "visit" => Ok(counts.visit(node, number(flags)?, true, Turn::first().next())?),
        "again" => restore(counts, node),
        _ => Err(NoAnswer::NoQuestion),
    }
}

fn restore(counts: &mut Counts, node: usize) -> Result<(), NoAnswer> {
    counts.ready(2)?;
    let noted = counts.noted(node);
    counts.restore(node, noted);
    Ok(())
}

// ---- choices

fn call_choices(
    alloc: Global,
    choices: &mut Choices<Spot>,
    word: &str,
    rest: &str,
) -> Result<(), NoAnswer> {
    match word {
        "add" => add(alloc, choices, rest),
        "take" => take(choices, number(rest)?),
        "clear" => clear(choices),
        _ => Err(NoAnswer::NoQuestion),
    }
}

fn add(alloc: Global, choices: &mut Choices<Spot>, text: &str) -> Result<(), NoAnswer> {
    let choice = choice_of(alloc, text)?;
    Ok(choices.add(choice)?)
}

fn choice_of(alloc: Global, text: &str) -> Result<Choice<Spot>, Fault> {
    Ok(Choice {
        text: Text::from_string(decoded(alloc, text)?),
        tags: Seq::new(alloc),
        target: place(1),
        hidden: text.is_empty(),
        thread: Threads::new(alloc, Some(place(0))).fork()?,
    })
}

fn take(choices: &mut Choices<Spot>, number: usize) -> Result<(), NoAnswer> {
    let _taken = choices.take(number)?;
    Ok(())
}

fn clear(choices: &mut Choices<Spot>) -> Result<(), NoAnswer> {
    choices.ready(1)?;
    choices.clear();
    Ok(())
}
