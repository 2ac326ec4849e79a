//! All that a machine has, as its public calls tell it: a line for each thread, each choice, the stack, the globals, the counts
//! and the text.

use ink_choice::{Choice, Choices};
use ink_model::{Shared, Text, Value};
use ink_out::Output;
use ink_stack::{Frame, Thread, Threads};
use ink_step::{Machine, Parts};
use ink_tree::Spot;
use ink_vars::{Counts, Globals};
use inkcases::Report;

/// Writes all that a machine has.
pub(crate) fn show_machine(said: &mut Report, machine: &Machine) {
    let Parts {
        flow,
        shared,
        output,
        ..
    } = machine.parts();
    show_threads(said, &flow.threads);
    show_stack(said, flow.stack.as_slice());
    show_choices(said, &flow.choices);
    said.flag("safe\n", flow.safe);
    show_globals(said, &shared.globals);
    show_counts(said, &shared.counts);
    said.number("turn ", u64::from(shared.turn.number()));
    said.put("\n");
    show_output(said, output);
}

// ---- where flow is

/// The threads, the one that runs last, with the number of its top frame's mark.
pub(crate) fn show_threads(said: &mut Report, threads: &Threads<Spot>) {
    for thread in threads.below() {
        show_thread(said, thread);
    }
    let top = threads.top();
    match top.below(said.alloc()) {
        Ok(below) => show_frames(said, below.as_slice(), top.top(), top.previous()),
        Err(_) => said.refuse(),
    }
    said.put("number ");
    show_number(said, top.number());
    said.put("\n");
}

fn show_thread(said: &mut Report, thread: &Thread<Spot>) {
    match thread.below(said.alloc()) {
        Ok(below) => show_frames(said, below.as_slice(), thread.top(), thread.previous()),
        Err(_) => said.refuse(),
    }
}

/// The frames of a thread, the top one last.
fn show_frames(
    said: &mut Report,
    below: &[Frame<Spot>],
    top: &Frame<Spot>,
    previous: Option<Spot>,
) {
    said.put("thread from");
    show_spot(said, previous);
    for frame in below {
        show_frame(said, frame);
    }
    show_frame(said, top);
    said.put("\n");
}

/// What a frame is for and where it is; whether it evaluates, and is fresh; how many sections were open; its temporaries.
fn show_frame(said: &mut Report, frame: &Frame<Spot>) {
    said.put(", ");
    said.debug(frame.kind());
    said.put(" at");
    show_spot(said, frame.place());
    said.flag(" evaluating", frame.is_evaluating());
    said.flag(" fresh", frame.is_fresh());
    said.number(" in ", frame.depth() as u64);
    for row in frame.temps() {
        show_named(said, row.0.as_str(), &row.1);
    }
}

fn show_stack(said: &mut Report, values: &[Value]) {
    said.put("stack");
    for value in values {
        said.put(" ");
        said.value(value);
    }
    said.put("\n");
}

/// The choices, each with the thread in which it was offered.
pub(crate) fn show_choices(said: &mut Report, choices: &Choices<Spot>) {
    for choice in choices.as_slice() {
        show_choice(said, choice);
    }
}

fn show_choice(said: &mut Report, choice: &Choice<Spot>) {
    said.text("choice ^", &choice.text);
    show_tags(said, choice.tags.as_slice());
    said.flag(" hidden", choice.hidden);
    said.put(" to");
    show_spot(said, Some(choice.target));
    said.put(" ");
    show_thread(said, &choice.thread);
}

// ---- what all flows share

/// The globals in their order, and the numbers of those that have another value than when the command began.
pub(crate) fn show_globals(said: &mut Report, globals: &Globals) {
    said.put("globals");
    for number in 0..globals.len() {
        if let Some((name, value)) = globals.pair(number) {
            show_named(said, name, value);
        }
    }
    said.put(", changed");
    match globals.changed(said.alloc(), |_name| true) {
        Ok(changed) => show_numbers(said, changed.as_slice()),
        Err(_) => said.refuse(),
    }
    said.put("\n");
}

fn show_numbers(said: &mut Report, numbers: &[usize]) {
    for number in numbers {
        said.number(" ", *number as u64);
    }
}

pub(crate) fn show_counts(said: &mut Report, counts: &Counts) {
    show_slots(said, "visits", counts.visits());
    show_slots(said, "turns", counts.turns());
}

/// The containers that have a count, by their numbers.
fn show_slots(said: &mut Report, word: &str, slots: &[Option<u32>]) {
    said.put(word);
    for (number, slot) in slots.iter().enumerate() {
        if let Some(count) = slot {
            said.number(" ", number as u64);
            said.number(":", u64::from(*count));
        }
    }
    said.put("\n");
}

// ---- the text

/// What is shown of the marks so far, and what is known of each of them; how many sections are open, and of which kind.
fn show_output(said: &mut Report, output: &Output) {
    said.put("text ^");
    match output.text() {
        Ok(text) => said.encode(text.as_str()),
        Err(_) => said.refuse(),
    }
    match output.tags() {
        Ok(tags) => show_tags(said, tags.as_slice()),
        Err(_) => said.refuse(),
    }
    said.number(" marks ", output.len() as u64);
    for index in 0..output.len() {
        said.put(mark(output, index));
    }
    said.number(" open ", output.depth() as u64);
    said.flag(" string", output.is_string());
    said.flag(" tag_in_string", output.is_tag_in_string());
    said.flag(" in_string", output.in_string());
    said.flag(" ends_line", output.ends_line());
    said.put(" newline ");
    said.number_or(output.open_newline(), "none");
}

/// `n` for a newline that is shown, and else `t` where a text or a tag is to come at it or behind it.
fn mark(output: &Output, index: usize) -> &'static str {
    if output.is_shown(index) {
        return "n";
    }
    if output.more_from(index) { "t" } else { "." }
}

// ---- words

fn show_tags(said: &mut Report, tags: &[Shared<Text>]) {
    for tag in tags {
        said.text(" #", tag.get());
    }
}

fn show_named(said: &mut Report, name: &str, value: &Value) {
    said.put(" ");
    said.encode(name);
    said.put("=");
    said.value(value);
}

fn show_number(said: &mut Report, number: Option<u64>) {
    match number {
        Some(number) => said.show(number),
        None => said.put("none"),
    }
}

/// A place by the number of what holds it, and its index there.
fn show_spot(said: &mut Report, spot: Option<Spot>) {
    let Some(Spot { holder, index }) = spot else {
        return said.put(" nowhere");
    };
    said.number(" ", holder.number as u64);
    if let Some(index) = index {
        said.number(".", u64::from(index));
    }
}

// ---- differences

/// Writes the first lines of two texts that are not the same, if no others are written yet.
pub(crate) fn compare(found: &mut Report, what: &str, came: &Report, wanted: &Report) {
    found.note_of(came);
    found.note_of(wanted);
    if came.as_str() != wanted.as_str() && found.is_empty() {
        let (came, wanted) = first_other(came.as_str(), wanted.as_str());
        found.put(what);
        found.put(": ");
        found.put(came);
        found.put(" for ");
        found.put(wanted);
    }
}

/// The first lines of two texts that are not the same.
fn first_other<'t>(came: &'t str, wanted: &'t str) -> (&'t str, &'t str) {
    let mut others = wanted.lines();
    for line in came.lines() {
        let other = others.next().unwrap_or("");
        if line != other {
            return (line, other);
        }
    }
    ("", others.next().unwrap_or(""))
}
