//! What is shown of a player's answers. The error is `Write` exactly where the sink failed in the call, or took no byte; the one
//! other error is `OutOfMemory`.

ghost use Rattle.std.specs.Prelude.{◌≡◌, ◌++◌, [], ◌∷◌, IfErr, IfOk, OnOk, string_bytes};
ghost use Rattle.std.specs.Io.KnownBytes.{Appends};
ghost use Rattle.ink_page.specs.Page.{choice_page};
ghost use Rattle.ink_page.specs.Showing.{FailsToShow, choices_shown, event_shown, events_shown, passage_shown, said, value_shown, value_words};
ghost use Rattle.ink_protocol.specs.Ends.{Reports, writes_fail};

use crate::page::{Look, choice_page, line_page};
use ink_model::{Event, Passage, Shown, Value};
use ink_protocol::{RunFault, Sink, write_answer};
use std::alloc::{AllocError, Global};

/// Shows words in lines of their own.
pub fn say<T: Sink>(alloc: Global, look: Look, sink: &mut T, words: &str) -> Result<(), RunFault>
    ensures shows { OnOk result (Appends (T.contents sink.old) (T.contents sink.new) (said look words.now)) }
    ensures sink { Reports (writes_fail result) (T.failures sink.old) (T.failures sink.new) (T.name sink.old) (T.name sink.new) }
    ensures fault { IfErr result FailsToShow }
{
    write_page(sink, line_page(alloc, look, words, &[])?)
}

/// Shows a line of the story, with what was told to watchers on the way to it. A line with nothing to show is left out.
pub fn show_passage<T: Sink>(
    alloc: Global,
    look: Look,
    sink: &mut T,
    passage: &Passage,
) -> Result<(), RunFault>
    ensures shows { OnOk result (Appends (T.contents sink.old) (T.contents sink.new) (passage_shown look passage.now)) }
    ensures sink { Reports (writes_fail result) (T.failures sink.old) (T.failures sink.new) (T.name sink.old) (T.name sink.new) }
    ensures fault { IfErr result FailsToShow }
{
    let page = line_page(alloc, look, passage.text.as_str(), passage.tags.as_slice())?;
    if !page.is_empty() {
        write_page(sink, page)?;
    }
    show_events(alloc, look, sink, passage.events.as_slice())
}

/// Shows the globals that watchers were told, each in a line of its own.
pub fn show_events<T: Sink>(
    alloc: Global,
    look: Look,
    sink: &mut T,
    events: &[Event],
) -> Result<(), RunFault>
    ensures shows { OnOk result (Appends (T.contents sink.old) (T.contents sink.new) (events_shown look events.now)) }
    ensures sink { Reports (writes_fail result) (T.failures sink.old) (T.failures sink.new) (T.name sink.old) (T.name sink.new) }
    ensures fault { IfErr result FailsToShow }
{
    for event in events {
        show_event(alloc, look, sink, event)?;
    }
    Ok(())
}

// Shows what a watcher was told.
fn show_event<T: Sink>(
    alloc: Global,
    look: Look,
    sink: &mut T,
    event: &Event,
) -> Result<(), RunFault>
    ensures shows { OnOk result (Appends (T.contents sink.old) (T.contents sink.new) (event_shown look event.now)) }
    ensures sink { Reports (writes_fail result) (T.failures sink.old) (T.failures sink.new) (T.name sink.old) (T.name sink.new) }
    ensures fault { IfErr result FailsToShow }
{
    match event {
        Event::Call { .. } => Ok(()),
        Event::Saw { name, value, .. } => show_value(alloc, look, sink, name.as_str(), value),
    }
}

/// Shows what a variable is.
pub fn show_value<T: Sink>(
    alloc: Global,
    look: Look,
    sink: &mut T,
    name: &str,
    value: &Value,
) -> Result<(), RunFault>
    ensures shows { OnOk result (Appends (T.contents sink.old) (T.contents sink.new) (value_shown look name.now value.now)) }
    ensures sink { Reports (writes_fail result) (T.failures sink.old) (T.failures sink.new) (T.name sink.old) (T.name sink.new) }
    ensures fault { IfErr result FailsToShow }
{
    let line = value_line(alloc, name, value)?;
    say(alloc, look, sink, line.as_str())
}

// A variable and its value.
fn value_line(alloc: Global, name: &str, value: &Value) -> Result<String, AllocError>
    ensures { IfOk result (λ line. string_bytes line ≡ value_words name.now value.now) }
{
    match value {
        Value::Int(number) => format!(in alloc; "[{name} = {number}]"),
        Value::Bool(truth) => format!(in alloc; "[{name} = {truth}]"),
        Value::Text(text) | Value::Tag(text) => format!(in alloc; "[{name} = {}]", text.as_str()),
        Value::Target(_) | Value::Pointer(..) => format!(in alloc;
            "[{name} = a place in the story]"
        ),
        Value::Void => format!(in alloc; "[{name} = nothing]"),
    }
}

/// Shows choices by their numbers, from 1, behind an empty line.
pub fn show_choices<T: Sink>(
    alloc: Global,
    look: Look,
    sink: &mut T,
    choices: &[Shown],
) -> Result<(), RunFault>
    ensures shows { OnOk result (Appends (T.contents sink.old) (T.contents sink.new) (choices_shown look choices.now)) }
    ensures sink { Reports (writes_fail result) (T.failures sink.old) (T.failures sink.new) (T.name sink.old) (T.name sink.new) }
    ensures fault { IfErr result FailsToShow }
{
    write_answer(sink, b"\n")?;
    let mut number = 1u32;
    for choice in choices {
        show_choice(alloc, look, sink, number, choice)?;
        number = number.saturating_add(1);
    }
    Ok(())
}

// Shows a choice by its number.
fn show_choice<T: Sink>(
    alloc: Global,
    look: Look,
    sink: &mut T,
    number: u32,
    choice: &Shown,
) -> Result<(), RunFault>
    ensures shows { OnOk result (Appends (T.contents sink.old) (T.contents sink.new) (choice_page look number choice.now ++ 10 ∷ [])) }
    ensures sink { Reports (writes_fail result) (T.failures sink.old) (T.failures sink.new) (T.name sink.old) (T.name sink.new) }
    ensures fault { IfErr result FailsToShow }
{
    write_page(sink, choice_page(alloc, look, number, choice)?)
}

// Writes a page and its newline.
fn write_page<T: Sink>(sink: &mut T, page: String) -> Result<(), RunFault>
    ensures shows { OnOk result (Appends (T.contents sink.old) (T.contents sink.new) (string_bytes page ++ 10 ∷ [])) }
    ensures sink { Reports (writes_fail result) (T.failures sink.old) (T.failures sink.new) (T.name sink.old) (T.name sink.new) }
    ensures fault { IfErr result FailsToShow }
{
    let mut page = page;
    page.push('\n')?;
    write_answer(sink, page.as_bytes())
}
