//! Events as answers tell them (docs/PROTOCOL.md, "Answers").

ghost use Rattle.std.specs.Prelude.{◌≡◌, ◌++◌, OnOk, codes, decimal, false, map};
ghost use Rattle.serde_json.specs.Written.{compact_text, items_text};
ghost use Rattle.ink_model.specs.Host.Bindings.{value_given};
ghost use Rattle.ink_model.specs.Host.Events.{call_data, event_data, items_of};
ghost use Rattle.ink_model.specs.Protocol.ValueJson.{value_data};
ghost use Rattle.ink_protocol.specs.Answers.{outcome_text};

use crate::answer::{
    append, print_all, print_integer, print_string, print_value, put_between, put_comma,
};
use ink_model::{Event, Given, Value};
use std::alloc::{AllocError, Global};

/// Events, with commas between them and the bracket behind the last, behind what is written already.
pub(crate) fn print_events(
    alloc: Global,
    line: &mut Vec<u8>,
    events: &[Event],
) -> Result<(), AllocError>
    ensures { OnOk result (line.new.items ≡ line.old.items ++ items_text false (items_of (map event_data events.now))) }
{
    let mut follows = false;
    for event in events {
        put_comma(line, follows)?;
        print_event(alloc, line, event)?;
        follows = true;
    }
    line.push(b']')?;
    Ok(())
}

// An event, behind what is written already.
fn print_event(alloc: Global, line: &mut Vec<u8>, event: &Event) -> Result<(), AllocError>
    ensures { OnOk result (line.new.items ≡ line.old.items ++ compact_text (event_data event.now)) }
{
    match event {
        Event::Call {
            name,
            arguments,
            gave,
            stamp,
        } => print_call(
            alloc,
            line,
            name.as_str(),
            arguments.as_slice(),
            gave,
            *stamp,
        ),
        Event::Saw { name, stamp, value } => print_saw(alloc, line, name.as_str(), *stamp, value),
    }
}

// A call of a turn function, and what came of it.
fn print_call(
    alloc: Global,
    line: &mut Vec<u8>,
    name: &str,
    arguments: &[Value],
    gave: &Option<Given>,
    stamp: u64,
) -> Result<(), AllocError>
    ensures { OnOk result (line.new.items ≡ line.old.items ++ compact_text (call_data name.now arguments.now gave.now stamp)) }
{
    append(line, "{\"args\":[")?;
    print_all(alloc, line, arguments)?;
    append(line, ",\"call\":")?;
    print_string(alloc, line, name)?;
    print_outcome(alloc, line, gave)?;
    print_stamp(line, stamp, "}")
}

// The member that tells what a call gave, or that it was refused.
fn print_outcome(alloc: Global, line: &mut Vec<u8>, gave: &Option<Given>) -> Result<(), AllocError>
    ensures { OnOk result (line.new.items ≡ line.old.items ++ outcome_text gave.now) }
{
    match gave {
        Some(given) => print_gave(alloc, line, given),
        None => append(line, ",\"refused\":true"),
    }
}

fn print_gave(alloc: Global, line: &mut Vec<u8>, given: &Given) -> Result<(), AllocError>
    ensures { OnOk result (line.new.items ≡ line.old.items ++ (codes ",\"gave\":" ++ compact_text (value_data (value_given given.now)))) }
{
    append(line, ",\"gave\":")?;
    print_given(alloc, line, given)
}

fn print_given(alloc: Global, line: &mut Vec<u8>, given: &Given) -> Result<(), AllocError>
    ensures { OnOk result (line.new.items ≡ line.old.items ++ compact_text (value_data (value_given given.now))) }
{
    match given {
        Given::Int(number) => print_integer(line, *number),
        Given::Bool(true) => append(line, "true"),
        Given::Bool(false) => append(line, "false"),
        Given::Text(text) => print_string(alloc, line, text.as_str()),
        Given::Void => append(line, "null"),
    }
}

// The member with an event's stamp, and what follows it.
fn print_stamp(line: &mut Vec<u8>, stamp: u64, end: &str) -> Result<(), AllocError>
    ensures { OnOk result (line.new.items ≡ line.old.items ++ (codes ",\"stamp\":" ++ (decimal stamp ++ end.now))) }
{
    let mut digits = itoa::Buffer::new();
    put_between(line, ",\"stamp\":", digits.format(stamp), end)
}

// A change that a watcher saw.
fn print_saw(
    alloc: Global,
    line: &mut Vec<u8>,
    name: &str,
    stamp: u64,
    value: &Value,
) -> Result<(), AllocError>
    ensures { OnOk result (line.new.items ≡ line.old.items ++ compact_text (event_data (Event.Saw name.now stamp value.now))) }
{
    append(line, "{\"saw\":")?;
    print_string(alloc, line, name)?;
    print_stamp(line, stamp, ",\"value\":")?;
    print_value(alloc, line, value)?;
    append(line, "}")
}
