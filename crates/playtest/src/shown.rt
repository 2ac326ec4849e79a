//! What a player tells: passages, events, and what its objects noted. Events stand behind an answer.

use crate::objects::{Constant, Script, Witness};
use ink_model::{Event, Fault, Given, Halt, Passage, Refusal, Seq, Shared, Text, Value};
use ink_player::Bound;
use inkcases::{NoAnswer, Report};

/// A text, with its tags behind it.
pub(crate) fn show_text(said: &mut Report, text: &Text, tags: &[Shared<Text>]) {
    said.text("^", text);
    for tag in tags {
        said.text(" #", tag.get());
    }
}

pub(crate) fn show_passage(
    said: &mut Report,
    outcome: &Result<Passage, Halt>,
    shortly: bool,
) -> Result<(), NoAnswer> {
    match outcome {
        Ok(passage) => {
            show_text(said, &passage.text, passage.tags.as_slice());
            said.flag(" more", passage.more);
            said.flag(" loose", passage.loose);
            show_events(said, passage.events.as_slice());
        }
        Err(halt) => show_halt(said, halt, shortly),
    }
    Ok(())
}

pub(crate) fn show_done(
    said: &mut Report,
    outcome: &Result<Seq<Event>, Halt>,
    shortly: bool,
) -> Result<(), NoAnswer> {
    match outcome {
        Ok(events) => {
            said.put("done");
            show_events(said, events.as_slice());
        }
        Err(halt) => show_halt(said, halt, shortly),
    }
    Ok(())
}

/// A refusal, or a fault with its events. Want of memory is no answer, but for a call that may come short of it.
fn show_halt(said: &mut Report, halt: &Halt, shortly: bool) {
    match halt {
        Halt::Fault { fault, events } => show_fault(said, *fault, events.as_slice(), shortly),
        Halt::Refused(refusal) => show_refusal(said, *refusal, shortly),
    }
}

fn show_fault(said: &mut Report, fault: Fault, events: &[Event], shortly: bool) {
    if fault == Fault::OutOfMemory && !shortly {
        return said.refuse();
    }
    said.put(fault.name());
    show_events(said, events);
}

fn show_refusal(said: &mut Report, refusal: Refusal, shortly: bool) {
    match NoAnswer::from(refusal) {
        NoAnswer::OutOfMemory if shortly => said.put(Fault::OutOfMemory.name()),
        why => said.halt(why),
    }
}

fn show_events(said: &mut Report, events: &[Event]) {
    for event in events {
        show_event(said, event);
    }
}

fn show_event(said: &mut Report, event: &Event) {
    match event {
        Event::Call {
            name,
            arguments,
            gave,
            stamp,
        } => {
            said.text(" ", name);
            show_call(said, arguments.as_slice(), gave.as_ref(), *stamp);
        }
        Event::Saw { name, stamp, value } => show_sight(said, name.as_str(), value, *stamp),
    }
}

/// The arguments of a call, and what it gave, or that it was refused.
fn show_call(said: &mut Report, arguments: &[Value], gave: Option<&Given>, stamp: u64) {
    said.put("(");
    for (index, argument) in arguments.iter().enumerate() {
        said.flag(",", index > 0);
        said.value(argument);
    }
    match gave {
        Some(given) => {
            said.put(")=");
            said.given(given);
        }
        None => said.put(")!"),
    }
    said.number("@", stamp);
}

fn show_sight(said: &mut Report, name: &str, value: &Value, stamp: u64) {
    said.put(" ");
    said.encode(name);
    said.put(":");
    said.value(value);
    said.number("@", stamp);
}

// ---- objects

pub(crate) fn show_function(
    said: &mut Report,
    function: &Option<Bound<Constant, Script>>,
) -> Result<(), NoAnswer> {
    match function {
        None => said.put("nothing"),
        Some(Bound::Pure(_)) => said.put("pure"),
        Some(Bound::Turn(script)) => show_script(said, script),
    }
    Ok(())
}

fn show_script(said: &mut Report, script: &Script) {
    said.put("turn");
    for called in script.noted.calls() {
        said.put(" ");
        show_call(
            said,
            called.arguments.as_slice(),
            called.gave.as_ref(),
            called.stamp,
        );
    }
}

pub(crate) fn show_watcher(said: &mut Report, watcher: &Option<Witness>) -> Result<(), NoAnswer> {
    match watcher {
        None => said.put("nothing"),
        Some(witness) => show_witness(said, witness),
    }
    Ok(())
}

fn show_witness(said: &mut Report, witness: &Witness) {
    said.put("watcher");
    for seen in witness.noted.seen() {
        show_sight(said, seen.name.as_str(), &seen.value, seen.stamp);
    }
}
