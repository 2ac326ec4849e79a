//! Calls of the output, and what they leave.

use ink_model::{Fault, Shared, Text, Value};
use ink_out::Output;
use ink_trail::Undo;
use inkcases::{NoAnswer, Report, number, text_of, value_of};
use std::fmt::Display;

/// Makes the calls of a row. The answer is what they leave: `.TEXT .TAGS`, whether the line ends, how many strings and tags
/// are open, and the index of the open newline; or the call that answers otherwise than the row says.
///
/// `t:TEXT` and `v:VALUE` write, `f:TEXT` and `w:VALUE` in a fresh function; `n` and `N` are newlines, `N` in a fresh
/// function; `g` is glue; `e` and `l` begin and end a function, `l:NUMBER` one that the mark of this number begins; `s` and
/// `#` open a string and a tag, `/s` and `/#` close one, `#:TEXT` is a tag that is given whole; `c` clears; `mark` starts a mark,
/// `back` goes back to it and answers how many changes were noted, `forget` ends it; `shown:INDEX`, `more:INDEX`, `len`, `depth`,
/// `newline`, `ends` and `writes` ask; `hand` hands the line out and gives its memory back. Behind `=` stands what the call answers, else it may be anything but a fault.
pub(crate) fn answer(said: &mut Report, row: &str) -> Result<(), NoAnswer> {
    let mut output = Output::new(said.alloc());
    answer_calls(said, &mut output, row)
}

fn answer_calls(said: &mut Report, output: &mut Output, row: &str) -> Result<(), NoAnswer> {
    for call in row.split_whitespace() {
        if !goes_on(said, output, call)? {
            return Ok(());
        }
    }
    show_left(said, output);
    Ok(())
}

/// Makes a call, and says whether it answers what is wanted. Another answer is written.
fn goes_on(said: &mut Report, output: &mut Output, call: &str) -> Result<bool, NoAnswer> {
    let mut came = Report::new(said.alloc());
    let Some((call, wanted)) = call.split_once('=') else {
        make_call(&mut came, output, call)?;
        said.note_of(&came);
        return Ok(true);
    };
    let outcome = make_call(&mut came, output, call);
    came.end(outcome);
    if came.as_str() == wanted && !came.is_refused() {
        return Ok(true);
    }
    said.put(call);
    said.put("=");
    said.add(&came);
    Ok(false)
}

fn make_call(came: &mut Report, output: &mut Output, call: &str) -> Result<(), NoAnswer> {
    let Some((word, rest)) = call.split_once(':') else {
        return make_plain_call(came, output, call);
    };
    match word {
        "t" => write_text(came, output, rest, false),
        "f" => write_text(came, output, rest, true),
        "v" => write_value(came, output, rest, false),
        "w" => write_value(came, output, rest, true),
        "#" => write_tag(came, output, rest),
        _ => make_call_at(came, output, word, number(rest)?),
    }
}

fn write_text(
    came: &mut Report,
    output: &mut Output,
    word: &str,
    fresh: bool,
) -> Result<(), NoAnswer> {
    let text = Value::Text(text_of(came.alloc(), word)?);
    came.show(output.write(&text, fresh)?);
    Ok(())
}

fn write_value(
    came: &mut Report,
    output: &mut Output,
    word: &str,
    fresh: bool,
) -> Result<(), NoAnswer> {
    let value = value_of(came.alloc(), word)?;
    came.show(output.write(&value, fresh)?);
    Ok(())
}

fn write_tag(came: &mut Report, output: &mut Output, word: &str) -> Result<(), NoAnswer> {
    let text = text_of(came.alloc(), word)?;
    hand(came, output.tag(text.as_str())?)
}

fn make_call_at(
    came: &mut Report,
    output: &mut Output,
    word: &str,
    number: usize,
) -> Result<(), NoAnswer> {
    match word {
        "shown" => tell(came, output.is_shown(number)),
        "more" => tell(came, output.more_from(number)),
        "l" => leave(came, output, number as u64),
        _ => Err(NoAnswer::NoQuestion),
    }
}

fn leave(came: &mut Report, output: &mut Output, number: u64) -> Result<(), NoAnswer> {
    output.leave(Some(number))?;
    came.put("ok");
    Ok(())
}

fn hand(came: &mut Report, tag: Option<Shared<Text>>) -> Result<(), NoAnswer> {
    match tag {
        Some(text) => came.encode(text.as_str()),
        None => came.put("none"),
    }
    Ok(())
}

fn make_plain_call(came: &mut Report, output: &mut Output, call: &str) -> Result<(), NoAnswer> {
    match change(output, call) {
        Some(outcome) => {
            outcome?;
            came.put("ok");
            Ok(())
        }
        None => ask(came, output, call),
    }
}

/// What comes of a call that answers nothing.
fn change(output: &mut Output, call: &str) -> Option<Result<(), Fault>> {
    match call {
        "n" => Some(output.newline(false)),
        "N" => Some(output.newline(true)),
        "g" => Some(output.glue()),
        "l" => Some(output.leave(None)),
        "s" => Some(output.open_string()),
        "#" => Some(output.open_tag()),
        "c" => Some(clear(output)),
        "mark" | "forget" => Some(set_mark(output, call == "mark")),
        _ => None,
    }
}

fn clear(output: &mut Output) -> Result<(), Fault> {
    output.ready(2)?;
    output.clear();
    Ok(())
}

fn set_mark(output: &mut Output, is_set: bool) -> Result<(), Fault> {
    if is_set {
        output.mark();
    } else {
        output.forget();
    }
    Ok(())
}

fn ask(came: &mut Report, output: &mut Output, call: &str) -> Result<(), NoAnswer> {
    match call {
        "e" => enter(came, output),
        "/s" => close_string(came, output),
        "/#" => hand(came, output.close_tag()?),
        "hand" => hand_line(came, output),
        "back" => tell(came, output.back()),
        "writes" => tell(came, output.writes()),
        "len" => tell(came, output.len()),
        "depth" => tell(came, output.depth()),
        "ends" => tell(came, ending(output)),
        "newline" => tell_newline(came, output),
        _ => Err(NoAnswer::NoQuestion),
    }
}

fn tell<D: Display + Drop>(came: &mut Report, answer: D) -> Result<(), NoAnswer> {
    came.show(answer);
    Ok(())
}

fn enter(came: &mut Report, output: &mut Output) -> Result<(), NoAnswer> {
    tell(came, output.enter()?)
}

fn close_string(came: &mut Report, output: &mut Output) -> Result<(), NoAnswer> {
    let text = output.close_string()?;
    came.encode(text.as_str());
    Ok(())
}

/// The text and the tags of the line, whose memory is used again.
fn hand_line(came: &mut Report, output: &mut Output) -> Result<(), NoAnswer> {
    let text = output.hand_text()?;
    let tags = output.hand_tags()?;
    came.encode(text.as_str());
    show_tags(came, tags.as_slice());
    output.reuse(text, tags);
    Ok(())
}

fn tell_newline(came: &mut Report, output: &Output) -> Result<(), NoAnswer> {
    came.number_or(output.open_newline(), "-");
    Ok(())
}

fn ending(output: &Output) -> &'static str {
    if output.ends_line() { "yes" } else { "no" }
}

// ---- what is left

fn show_left(said: &mut Report, output: &Output) {
    said.put(".");
    match output.text() {
        Ok(text) => said.encode(text.as_str()),
        Err(_) => said.refuse(),
    }
    said.put(" .");
    match output.tags() {
        Ok(tags) => show_tags(said, tags.as_slice()),
        Err(_) => said.refuse(),
    }
    said.put(" ");
    said.put(ending(output));
    said.number(" ", output.depth() as u64);
    said.put(" ");
    said.number_or(output.open_newline(), "-");
}

/// The tags, each behind a `#`.
fn show_tags(said: &mut Report, tags: &[Shared<Text>]) {
    for tag in tags {
        said.text("#", tag.get());
    }
}
