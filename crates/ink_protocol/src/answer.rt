//! Answers as they are written (docs/PROTOCOL.md, "Answers").

ghost use Rattle.std.specs.Fmt.{signed_decimal};
ghost use Rattle.std.specs.Prelude.{◌≡◌, [], ◌∷◌, ◌++◌, OnOk, IfOk, IfNone, IfSome, true, false, map, codes};
ghost use Rattle.json.specs.Print.{escape, print};
ghost use Rattle.json.specs.Token as tokens;
ghost use Rattle.serde_json.specs.Data.{Data, string};
ghost use Rattle.serde_json.specs.Written.{comma_if, compact_text, items_text};
ghost use Rattle.ink_model.specs.Protocol.Answer.{answer, answer_asks, reply_data, reply_of_events, reply_of_halt, Acts, Breaks, Saves, Shows, Tells, items_of, shown_data};
ghost use Rattle.ink_model.specs.Protocol.ValueJson.{value_data};
ghost use Rattle.ink_protocol.specs.Answers.{choices_front, flags_text, loud_middle, passage_line, quiet_middle, values_text};
ghost use Rattle.ink_protocol.specs.Replies.{HasTextOf, reply_by};
ghost use Rattle.ink_tokens.specs.Tokens.{Added, data_tokens};

use crate::events::print_events;
use crate::fixed::{done_text, fault_text, refusal_text, truth_text, void_text};
use crate::plain::is_plain;
use ink_model::{Event, Fault, Halt, Passage, Refusal, Seq, Shared, Shown, Text, Value};
use ink_tokens::{put, write_value};
use json::{Token, Writer};
use std::alloc::{AllocError, Global};
use std::mem;

/// What a command's call returned, a passage aside, or its refusal where none was made.
pub enum Outcome {
    Halted(Halt),
    Events(Result<Seq<Event>, Halt>),
    Value(Result<Value, Refusal>),
    Visits(Result<i32, Refusal>),
    Landing(Result<(), Refusal>),
    Saved(Result<Text, Refusal>),
    Refused(Refusal),
}

/// Written out, so that wherever one is let go that is one call, and a proof there does not go through what was returned.
impl Drop for Outcome {
    #[inline(always)]
    fn drop(self) {
        match self {
            Outcome::Halted(_) => {}
            Outcome::Events(_) => {}
            Outcome::Value(_) => {}
            Outcome::Visits(_) | Outcome::Landing(_) | Outcome::Refused(_) => {}
            Outcome::Saved(_) => {}
        }
    }
}

/// The line that is written of a refusal, of a truth value or void, and of what was done or faulted and tells no event, its newline
/// at the end; none of any other outcome. Takes no memory.
pub fn fixed_answer(outcome: &Outcome) -> Option<&'static str>
    ensures text { (saved : Data) → IfSome result (λ text. text.now ≡ answer (reply_by saved outcome.now)) }
    ensures none { (saved : Data) → IfNone result (answer_asks (reply_by saved outcome.now) ≡ true) }
{
    match outcome {
        Outcome::Halted(halt) => halted_answer(halt),
        Outcome::Events(events) => done_answer(events),
        Outcome::Value(Ok(value)) => shown_answer(value),
        Outcome::Landing(Ok(())) => Some(done_text()),
        Outcome::Value(Err(refusal))
        | Outcome::Visits(Err(refusal))
        | Outcome::Landing(Err(refusal))
        | Outcome::Saved(Err(refusal))
        | Outcome::Refused(refusal) => Some(refusal_text(*refusal)),
        Outcome::Visits(Ok(_)) | Outcome::Saved(Ok(_)) => None,
    }
}

fn done_answer(events: &Result<Seq<Event>, Halt>) -> Option<&'static str>
    ensures text { IfSome result (λ text. text.now ≡ answer (reply_of_events events.now)) }
    ensures none { IfNone result (answer_asks (reply_of_events events.now) ≡ true) }
{
    match events {
        Ok(events) => untold_answer(events.as_slice()),
        Err(halt) => halted_answer(halt),
    }
}

// The line where nothing happened.
fn untold_answer(events: &[Event]) -> Option<&'static str>
    ensures text { IfSome result (λ text. text.now ≡ answer (Acts events.now)) }
    ensures none { IfNone result (answer_asks (Acts events.now) ≡ true) }
{
    match events {
        [] => Some(done_text()),
        [..] => None,
    }
}

// The line of a truth value or void.
fn shown_answer(value: &Value) -> Option<&'static str>
    ensures text { IfSome result (λ text. text.now ≡ answer (Shows value.now)) }
    ensures none { IfNone result (answer_asks (Shows value.now) ≡ true) }
{
    match value {
        Value::Bool(truth) => Some(truth_text(*truth)),
        Value::Void => Some(void_text()),
        _ => None,
    }
}

// The line of a refusal, or of a fault before which nothing happened.
fn halted_answer(halt: &Halt) -> Option<&'static str>
    ensures text { IfSome result (λ text. text.now ≡ answer (reply_of_halt halt.now)) }
    ensures none { IfNone result (answer_asks (reply_of_halt halt.now) ≡ true) }
{
    match halt {
        Halt::Refused(refusal) => Some(refusal_text(*refusal)),
        Halt::Fault { fault, events } => faulted_answer(*fault, events.as_slice()),
    }
}

fn faulted_answer(fault: Fault, events: &[Event]) -> Option<&'static str>
    ensures text { IfSome result (λ text. text.now ≡ answer (Breaks fault events.now)) }
    ensures none { IfNone result (answer_asks (Breaks fault events.now) ≡ true) }
{
    match events {
        [] => Some(fault_text(fault)),
        [..] => None,
    }
}

/// A passage that a running command returned, as the line that is written, its newline at the end, in a buffer that is emptied first.
/// The one error is a refused request for memory.
pub fn passage_text(
    alloc: Global,
    buffer: &mut Vec<u8>,
    passage: &Passage,
) -> Result<(), AllocError>
    ensures { OnOk result (buffer.new.items ≡ answer (Tells passage.now)) }
{
    buffer.clear();
    match middle_of(passage) {
        Some(middle) => put_quiet(alloc, buffer, passage, middle),
        None => put_loud(alloc, buffer, passage),
    }
}

/// What a command's call returned, as the line that is written, its newline at the end, in a buffer that is emptied first. The one
/// error is a refused request for memory.
#[inline(always)]
pub fn answer_text(alloc: Global, buffer: &mut Vec<u8>, outcome: Outcome) -> Result<(), AllocError>
    ensures { (saved : Data) → HasTextOf saved outcome → OnOk result (buffer.new.items ≡ answer (reply_by saved outcome)) }
{
    buffer.clear();
    // A number is what `get` tells most often.
    if let Outcome::Value(Ok(Value::Int(number))) = &outcome {
        return put_number(buffer, "{\"value\":", *number);
    }
    put_replied(alloc, buffer, &outcome)
}

// An answer that tells a number, without the writer of JSON.
fn put_number(line: &mut Vec<u8>, front: &str, number: i32) -> Result<(), AllocError>
    requires { line.old.items ≡ [] }
    ensures { OnOk result (line.new.items ≡ front.now ++ (signed_decimal number ++ codes "}\n")) }
{
    let mut digits = itoa::Buffer::new();
    put_between(line, front, digits.format(number), "}\n")
}

/// A text between two others, behind what is written already.
#[inline(always)]
pub(crate) fn put_between(
    line: &mut Vec<u8>,
    front: &str,
    text: &str,
    end: &str,
) -> Result<(), AllocError>
    ensures { OnOk result (line.new.items ≡ line.old.items ++ (front.now ++ (text.now ++ end.now))) }
{
    append(line, front)?;
    append(line, text)?;
    append(line, end)
}

/// A text, behind what is written already.
#[inline(always)]
pub(crate) fn append(line: &mut Vec<u8>, text: &str) -> Result<(), AllocError>
    ensures { OnOk result (line.new.items ≡ line.old.items ++ text.now) }
{
    line.extend_from_slice(text.as_bytes())
}

// What stands between the choices of a passage and its text, if it has no events and no tags.
fn middle_of(passage: &Passage) -> Option<&'static str>
    ensures { IfSome result (λ middle. answer (Tells passage.now) ≡ passage_line passage.now middle.now) }
{
    if has_none(passage.events.as_slice()) && has_none(passage.tags.as_slice()) {
        return Some(quiet_middle(passage.loose, passage.more));
    }
    None
}

fn has_none<T>(items: &[T]) -> bool
    ensures { result ≡ true → items.now ≡ [] }
{
    match items {
        [] => true,
        [..] => false,
    }
}

fn quiet_middle(loose: bool, more: bool) -> &'static str
    ensures { result.now ≡ quiet_middle loose more }
{
    if loose {
        if more {
            ",\"events\":[],\"loose\":true,\"more\":true,\"tags\":[],\"text\":"
        } else {
            ",\"events\":[],\"loose\":true,\"more\":false,\"tags\":[],\"text\":"
        }
    } else if more {
        ",\"events\":[],\"loose\":false,\"more\":true,\"tags\":[],\"text\":"
    } else {
        ",\"events\":[],\"loose\":false,\"more\":false,\"tags\":[],\"text\":"
    }
}

// The answer that tells such a passage, with the writer of JSON for its choices alone, and for a text that has to be escaped.
fn put_quiet(
    alloc: Global,
    line: &mut Vec<u8>,
    passage: &Passage,
    middle: &str,
) -> Result<(), AllocError>
    requires { line.old.items ≡ [] }
    ensures { OnOk result (line.new.items ≡ passage_line passage.now middle.now) }
{
    put_choices(alloc, line, passage.choices.as_slice())?;
    append(line, middle)?;
    close_text(alloc, line, passage.text.as_str())
}

// The front of an answer that tells a passage, with its choices.
fn put_choices(alloc: Global, line: &mut Vec<u8>, choices: &[Shown]) -> Result<(), AllocError>
    requires { line.old.items ≡ [] }
    ensures { OnOk result (line.new.items ≡ choices_front choices.now) }
{
    if has_none(choices) {
        return append(line, "{\"choices\":[]");
    }
    append(line, "{\"choices\":[")?;
    put_shown_all(alloc, line, choices)
}

// Choices, with commas between them and the bracket behind the last, behind what is written already.
fn put_shown_all(alloc: Global, line: &mut Vec<u8>, choices: &[Shown]) -> Result<(), AllocError>
    ensures { OnOk result (line.new.items ≡ line.old.items ++ items_text false (items_of (map shown_data choices.now))) }
{
    let mut later = false;
    for choice in choices {
        put_comma(line, later)?;
        put_shown(alloc, line, choice)?;
        later = true;
    }
    line.push(b']')?;
    Ok(())
}

/// A comma, where something stands before.
pub(crate) fn put_comma(line: &mut Vec<u8>, later: bool) -> Result<(), AllocError>
    ensures { OnOk result (line.new.items ≡ line.old.items ++ comma_if later) }
{
    if later {
        line.push(b',')?;
    }
    Ok(())
}

// A choice, behind what is written already. One without tags whose text stands in JSON as it is needs no writer of JSON.
fn put_shown(alloc: Global, line: &mut Vec<u8>, choice: &Shown) -> Result<(), AllocError>
    ensures { OnOk result (line.new.items ≡ line.old.items ++ compact_text (shown_data choice.now)) }
{
    let text = choice.text.as_str();
    if has_none(choice.tags.as_slice()) && is_plain(text.as_bytes()) {
        return put_plain_choice(line, text);
    }
    shown_behind(alloc, line, choice)
}

// The same of a choice of this text alone.
fn put_plain_choice(line: &mut Vec<u8>, text: &str) -> Result<(), AllocError>
    requires { escape text.now ≡ text.now }
    ensures { OnOk result (line.new.items ≡ line.old.items ++ compact_text (shown_data (record { tags = []; text = text.now }))) }
{
    put_between(line, "{\"tags\":[],\"text\":\"", text, "\"}")
}

// The same of any choice.
#[inline(never)]
fn shown_behind(alloc: Global, line: &mut Vec<u8>, choice: &Shown) -> Result<(), AllocError>
    ensures { OnOk result (line.new.items ≡ line.old.items ++ compact_text (shown_data choice.now)) }
{
    append(line, "{\"tags\":[")?;
    print_texts(alloc, line, choice.tags.as_slice())?;
    append(line, ",\"text\":")?;
    print_string(alloc, line, choice.text.as_str())?;
    append(line, "}")
}

// Texts, with commas between them and the bracket behind the last, behind what is written already.
fn print_texts(alloc: Global, line: &mut Vec<u8>, texts: &[Shared<Text>]) -> Result<(), AllocError>
    ensures { OnOk result (line.new.items ≡ line.old.items ++ items_text false (items_of (map string texts.now))) }
{
    let mut begun = false;
    for text in texts {
        put_comma(line, begun)?;
        print_string(alloc, line, text.as_str())?;
        begun = true;
    }
    line.push(b']')?;
    Ok(())
}

// A writer of JSON that has taken what is written already, and writes behind it.
fn writer_behind(alloc: Global, line: &mut Vec<u8>) -> Writer
    ensures before { result.before ≡ line.old.items }
    ensures tokens { result.tokens ≡ [] }
{
    Writer::new(mem::replace(line, Vec::new(alloc)))
}

// A string, and what closes the answer, behind what is written already. A string that ends in a newline, as each line of a story
// does, has its front written alone.
fn close_text(alloc: Global, line: &mut Vec<u8>, text: &str) -> Result<(), AllocError>
    ensures { OnOk result (line.new.items ≡ line.old.items ++ (compact_text (string text.now) ++ codes "}\n")) }
{
    match text.strip_suffix("\n") {
        Some(front) => close_line(alloc, line, front),
        None => close_string(alloc, line, text),
    }
}

// The same of a string and a newline.
fn close_line(alloc: Global, line: &mut Vec<u8>, front: &str) -> Result<(), AllocError>
    ensures { OnOk result (line.new.items ≡ line.old.items ++ (compact_text (string (front.now ++ codes "\n")) ++ codes "}\n")) }
{
    if is_plain(front.as_bytes()) {
        return close_plain(line, front);
    }
    close_escaped(alloc, line, front)
}

// The same of a string that stands in JSON as it is, and a newline.
fn close_plain(line: &mut Vec<u8>, front: &str) -> Result<(), AllocError>
    requires { escape front.now ≡ front.now }
    ensures { OnOk result (line.new.items ≡ line.old.items ++ (compact_text (string (front.now ++ codes "\n")) ++ codes "}\n")) }
{
    line.push(b'"')?;
    append(line, front)?;
    append(line, "\\n\"}\n")
}

// The same of any string and a newline: the newline stands in the place of the quote behind the string.
#[inline(never)]
fn close_escaped(alloc: Global, line: &mut Vec<u8>, front: &str) -> Result<(), AllocError>
    ensures { OnOk result (line.new.items ≡ line.old.items ++ (compact_text (string (front.now ++ codes "\n")) ++ codes "}\n")) }
{
    string_behind(alloc, line, front)?;
    line.truncate(line.len() - 1);
    append(line, "\\n\"}\n")
}

#[inline(never)]
fn close_string(alloc: Global, line: &mut Vec<u8>, text: &str) -> Result<(), AllocError>
    ensures { OnOk result (line.new.items ≡ line.old.items ++ (compact_text (string text.now) ++ codes "}\n")) }
{
    string_behind(alloc, line, text)?;
    append(line, "}\n")
}

// The text of a string, behind what is written already.
fn string_behind(alloc: Global, line: &mut Vec<u8>, text: &str) -> Result<(), AllocError>
    ensures { OnOk result (line.new.items ≡ line.old.items ++ compact_text (string text.now)) }
{
    let mut out = writer_behind(alloc, line);
    put_string(&mut out, text)?;
    *line = out.into_inner();
    Ok(())
}

// The answer that tells any passage.
#[inline(never)]
fn put_loud(alloc: Global, line: &mut Vec<u8>, passage: &Passage) -> Result<(), AllocError>
    requires { line.old.items ≡ [] }
    ensures { OnOk result (line.new.items ≡ answer (Tells passage.now)) }
{
    put_choices(alloc, line, passage.choices.as_slice())?;
    put_middle(alloc, line, passage)?;
    let text = passage.text.as_str();
    close_text(alloc, line, text)
}

// What stands between the choices of any passage and its text, behind what is written already.
fn put_middle(alloc: Global, line: &mut Vec<u8>, passage: &Passage) -> Result<(), AllocError>
    ensures { OnOk result (line.new.items ≡ line.old.items ++ loud_middle passage.now) }
{
    append(line, ",\"events\":[")?;
    print_events(alloc, line, passage.events.as_slice())?;
    append(line, flags_text(passage.loose, passage.more))?;
    print_texts(alloc, line, passage.tags.as_slice())?;
    append(line, ",\"text\":")
}

// What stands between the events of a passage and its tags.
fn flags_text(loose: bool, more: bool) -> &'static str
    ensures { result.now ≡ flags_text loose more }
{
    if loose {
        if more {
            ",\"loose\":true,\"more\":true,\"tags\":["
        } else {
            ",\"loose\":true,\"more\":false,\"tags\":["
        }
    } else if more {
        ",\"loose\":false,\"more\":true,\"tags\":["
    } else {
        ",\"loose\":false,\"more\":false,\"tags\":["
    }
}

// What a writer has written, and a newline.
fn end_line(line: &mut Vec<u8>, out: Writer) -> Result<(), AllocError>
    ensures { OnOk result (line.new.items ≡ (out.before ++ print out.tokens) ++ codes "\n") }
{
    *line = out.into_inner();
    append(line, "\n")
}

// Any other answer. Out of the way of a number.
#[inline(never)]
fn put_replied(alloc: Global, line: &mut Vec<u8>, outcome: &Outcome) -> Result<(), AllocError>
    requires { line.old.items ≡ [] }
    ensures { (saved : Data) → HasTextOf saved outcome.now → OnOk result (line.new.items ≡ answer (reply_by saved outcome.now)) }
{
    match outcome {
        Outcome::Events(Ok(events)) => put_acts(alloc, line, events.as_slice()),
        Outcome::Value(Ok(value)) => put_told_value(alloc, line, value),
        Outcome::Visits(Ok(visits)) => put_number(line, "{\"visits\":", *visits),
        Outcome::Landing(Ok(())) => append(line, done_text()),
        Outcome::Saved(Ok(text)) => put_saved(line, text.as_str()),
        Outcome::Halted(halt) | Outcome::Events(Err(halt)) => put_halt(alloc, line, halt),
        Outcome::Value(Err(refusal))
        | Outcome::Visits(Err(refusal))
        | Outcome::Landing(Err(refusal))
        | Outcome::Saved(Err(refusal))
        | Outcome::Refused(refusal) => append(line, refusal_text(*refusal)),
    }
}

// The answer that tells what happened.
fn put_acts(alloc: Global, line: &mut Vec<u8>, events: &[Event]) -> Result<(), AllocError>
    requires { line.old.items ≡ [] }
    ensures { OnOk result (line.new.items ≡ answer (Acts events.now)) }
{
    append(line, "{\"events\":[")?;
    print_events(alloc, line, events)?;
    append(line, "}\n")
}

// The answer that shows a value.
fn put_told_value(alloc: Global, line: &mut Vec<u8>, value: &Value) -> Result<(), AllocError>
    requires { line.old.items ≡ [] }
    ensures { OnOk result (line.new.items ≡ answer (Shows value.now)) }
{
    let mut out = writer_behind(alloc, line);
    write_shown(alloc, &mut out, value)?;
    end_line(line, out)
}

// The answer of a refusal, or of a fault.
fn put_halt(alloc: Global, line: &mut Vec<u8>, halt: &Halt) -> Result<(), AllocError>
    requires { line.old.items ≡ [] }
    ensures { OnOk result (line.new.items ≡ answer (reply_of_halt halt.now)) }
{
    match halt {
        Halt::Refused(refusal) => append(line, refusal_text(*refusal)),
        Halt::Fault { fault, events } => put_fault(alloc, line, *fault, events.as_slice()),
    }
}

fn put_fault(
    alloc: Global,
    line: &mut Vec<u8>,
    fault: Fault,
    events: &[Event],
) -> Result<(), AllocError>
    requires { line.old.items ≡ [] }
    ensures { OnOk result (line.new.items ≡ answer (Breaks fault events.now)) }
{
    append(line, "{\"events\":[")?;
    print_events(alloc, line, events)?;
    append(line, ",\"fault\":")?;
    print_string(alloc, line, fault.name())?;
    append(line, "}\n")
}

// The answer that has a save.
fn put_saved(line: &mut Vec<u8>, text: &str) -> Result<(), AllocError>
    requires { line.old.items ≡ [] }
    ensures { (saved : Data) → text.now ≡ compact_text saved → OnOk result (line.new.items ≡ answer (Saves saved)) }
{
    put_between(line, "{\"saved\":", text, "}\n")
}

/// The room that is asked for at first for the text of values.
const VALUES_ROOM: usize = 64;

/// Values as the JSON array that answers tell them as (docs/PROTOCOL.md, "Answers"). The one error is a refused request for
/// memory.
pub fn print_values(alloc: Global, values: &[Value]) -> Result<Vec<u8>, AllocError>
    ensures { IfOk result (λ text. text.items ≡ values_text values.now) }
{
    let mut text = Vec::with_capacity(alloc, VALUES_ROOM)?;
    text.push(b'[')?;
    print_all(alloc, &mut text, values)?;
    Ok(text)
}

/// Values, with commas between them and the bracket behind the last, behind what is written already.
pub(crate) fn print_all(
    alloc: Global,
    line: &mut Vec<u8>,
    values: &[Value],
) -> Result<(), AllocError>
    ensures { OnOk result (line.new.items ≡ line.old.items ++ items_text false (items_of (map value_data values.now))) }
{
    let mut follows = false;
    for value in values {
        put_comma(line, follows)?;
        print_value(alloc, line, value)?;
        follows = true;
    }
    line.push(b']')?;
    Ok(())
}

/// A value, behind what is written already. An integer, a truth value and a plain text need no writer of JSON.
pub(crate) fn print_value(
    alloc: Global,
    line: &mut Vec<u8>,
    value: &Value,
) -> Result<(), AllocError>
    ensures { OnOk result (line.new.items ≡ line.old.items ++ compact_text (value_data value.now)) }
{
    match value {
        Value::Int(number) => print_integer(line, *number),
        Value::Bool(true) => append(line, "true"),
        Value::Bool(false) => append(line, "false"),
        Value::Text(text) => print_string(alloc, line, text.as_str()),
        _ => value_behind(alloc, line, value),
    }
}

/// An integer, behind what is written already.
pub(crate) fn print_integer(line: &mut Vec<u8>, number: i32) -> Result<(), AllocError>
    ensures { OnOk result (line.new.items ≡ line.old.items ++ signed_decimal number) }
{
    let mut digits = itoa::Buffer::new();
    append(line, digits.format(number))
}

/// A string, behind what is written already.
pub(crate) fn print_string(alloc: Global, line: &mut Vec<u8>, text: &str) -> Result<(), AllocError>
    ensures { OnOk result (line.new.items ≡ line.old.items ++ compact_text (string text.now)) }
{
    if is_plain(text.as_bytes()) {
        return print_plain(line, text);
    }
    string_behind(alloc, line, text)
}

// The same of a string that stands in JSON as it is.
fn print_plain(line: &mut Vec<u8>, text: &str) -> Result<(), AllocError>
    requires { escape text.now ≡ text.now }
    ensures { OnOk result (line.new.items ≡ line.old.items ++ compact_text (string text.now)) }
{
    put_between(line, "\"", text, "\"")
}

// Any value, behind what is written already.
#[inline(never)]
fn value_behind(alloc: Global, line: &mut Vec<u8>, value: &Value) -> Result<(), AllocError>
    ensures { OnOk result (line.new.items ≡ line.old.items ++ compact_text (value_data value.now)) }
{
    let mut out = writer_behind(alloc, line);
    write_value(alloc, &mut out, value)?;
    *line = out.into_inner();
    Ok(())
}

// ---- parts of answers

// What begins an object.
#[inline(always)]
fn begin(out: &mut Writer) -> Result<(), AllocError>
    ensures { OnOk result (Added out.old out.new (tokens.begin_object ∷ [])) }
{
    put(out, Token::BeginObject)
}

// What ends an object.
#[inline(always)]
fn end(out: &mut Writer) -> Result<(), AllocError>
    ensures { OnOk result (Added out.old out.new (tokens.end_object ∷ [])) }
{
    put(out, Token::EndObject)
}

// The name of a member.
#[inline(always)]
fn put_key(out: &mut Writer, name: &str) -> Result<(), AllocError>
    ensures { OnOk result (Added out.old out.new (tokens.key name.now ∷ [])) }
{
    put(out, Token::Key(name))
}

// A string.
#[inline(always)]
fn put_string(out: &mut Writer, text: &str) -> Result<(), AllocError>
    ensures { OnOk result (Added out.old out.new (tokens.string text.now ∷ [])) }
{
    put(out, Token::String(text))
}

// The member with a value.
fn put_value(alloc: Global, out: &mut Writer, value: &Value) -> Result<(), AllocError>
    ensures { OnOk result (Added out.old out.new (tokens.key (codes "value") ∷ data_tokens (value_data value.now))) }
{
    put_key(out, "value")?;
    write_value(alloc, out, value)
}

fn write_shown(alloc: Global, out: &mut Writer, value: &Value) -> Result<(), AllocError>
    ensures { OnOk result (Added out.old out.new (data_tokens (reply_data (Shows value.now)))) }
{
    begin(out)?;
    put_value(alloc, out, value)?;
    end(out)
}
