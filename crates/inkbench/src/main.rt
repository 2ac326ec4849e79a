//! Work to be timed: bench/bench.py runs this program and takes the time. `json` parses what standard input holds, `story`
//! reads and checks it; `marks COUNT ROUNDS` writes so many marks and shows them, so many times, and `asked` asks after each
//! mark whether the line ends; `strings` and `tags` open, write and close so many; `functions COUNT LINES` begins, writes and
//! ends so many on each of so many lines. `print ROUNDS` makes the text of the JSON value on standard input so many times, and
//! `parse ROUNDS` the value. It exits with 0 where the work was done.
#![tactic(auto)]

use ink_check::check;
use ink_json::read_story;
use ink_model::{Fault, Shared, Text, Value};
use ink_out::Output;
use ink_trail::Undo;
use serde_json::Value as Json;
use std::alloc::{AllocError, Global};
use std::io::Read;
use std::process::ExitCode;
use std::rt::Env;
use std::{env, io};

fn main(rt: HostRuntime) -> ExitCode {
    let Ok(words) = words(&rt) else {
        return ExitCode::FAILURE;
    };
    let alloc = rt.alloc();
    let mut reader = rt.reader();
    let done = match word(&words, 1) {
        "json" => json_in(alloc, &mut reader).is_some(),
        "story" => accepts(alloc, &mut reader),
        "marks" => repeats(alloc, &words, Work::Marks),
        "asked" => repeats(alloc, &words, Work::Asked),
        "strings" => repeats(alloc, &words, Work::Strings),
        "tags" => repeats(alloc, &words, Work::Tags),
        "functions" => writes_functions(alloc, number(&words, 2), number(&words, 3)).is_ok(),
        "print" => prints(alloc, &mut reader, number(&words, 2)),
        "parse" => parses_often(alloc, &mut reader, number(&words, 2)),
        _ => true,
    };
    if done {
        ExitCode::SUCCESS
    } else {
        ExitCode::FAILURE
    }
}

fn words<R: Env + Alloc>(rt: &R) -> io::Result<Vec<String<R::A>, R::A>> {
    let words = env::args(rt)?.collect(rt.alloc())?;
    Ok(words)
}

fn word<'w>(words: &'w Vec<String>, at: usize) -> &'w str {
    match words.get(at) {
        Some(word) => word.as_str(),
        None => "",
    }
}

fn number(words: &Vec<String>, at: usize) -> u32 {
    word(words, at).parse::<u32>().unwrap_or(0)
}

/// The JSON value that the input is.
fn json_in<R: Read>(alloc: Global, reader: &mut R) -> Option<Json> {
    let bytes = bytes_in(alloc, reader)?;
    let text = str::from_utf8(&bytes).ok()?;
    Json::from_str(alloc, text).ok()
}

/// The bytes of the input.
fn bytes_in<R: Read>(alloc: Global, reader: &mut R) -> Option<Vec<u8>> {
    let mut bytes = Vec::new(alloc);
    match reader.read_to_end(&mut bytes) {
        Ok(_) => Some(bytes),
        Err(_) => None,
    }
}

/// Reads the input as a story, and checks its paths.
fn accepts<R: Read>(alloc: Global, reader: &mut R) -> bool {
    let Some(bytes) = bytes_in(alloc, reader) else {
        return false;
    };
    match read_story(alloc, &bytes) {
        Ok(raw) => check(alloc, raw).is_ok(),
        Err(_) => false,
    }
}

/// What is written, so many of each.
#[derive(Clone, Copy)]
enum Work {
    Marks,
    Asked,
    Strings,
    Tags,
}

/// Does work as often as the words say, and answers whether something came of it each time.
fn repeats(alloc: Global, words: &Vec<String>, work: Work) -> bool {
    let count = number(words, 2);
    for _round in 0..number(words, 3) {
        let done = match work {
            Work::Marks => writes(alloc, count, false),
            Work::Asked => writes(alloc, count, true),
            Work::Strings => writes_strings(alloc, count),
            Work::Tags => writes_tags(alloc, count),
        };
        match done {
            Ok(0) | Err(_) => return false,
            Ok(_) => {}
        }
    }
    true
}

/// Writes texts, newlines and glue, and shows them. Answers the bytes of the text, and how often the line ended.
fn writes(alloc: Global, count: u32, asks: bool) -> Result<usize, Fault> {
    let mut output = Output::new(alloc);
    let value = Value::Text(shared(alloc, "word")?);
    let mut ends: usize = 0;
    for mark in 0..count {
        match mark % 4 {
            0 | 1 => {
                output.write(&value, false)?;
            }
            2 => output.newline(false)?,
            _ => output.glue()?,
        }
        if asks && output.ends_line() {
            ends = ends.wrapping_add(1);
        }
    }
    let text = output.text()?;
    Ok(text.as_str().len().wrapping_add(ends))
}

/// Writes strings, and closes each. Answers the bytes of their texts.
fn writes_strings(alloc: Global, count: u32) -> Result<usize, Fault> {
    let mut output = Output::new(alloc);
    let value = Value::Text(shared(alloc, "a word or two")?);
    let mut bytes: usize = 0;
    for _string in 0..count {
        output.open_string()?;
        output.write(&value, false)?;
        bytes = bytes.wrapping_add(output.close_string()?.get().as_str().len());
    }
    Ok(bytes)
}

/// Writes tags, and closes each. Answers how many the line has.
fn writes_tags(alloc: Global, count: u32) -> Result<usize, Fault> {
    let mut output = Output::new(alloc);
    let value = Value::Text(shared(alloc, "a word or two")?);
    for _tag in 0..count {
        output.open_tag()?;
        output.write(&value, false)?;
        let _ = output.close_tag()?;
    }
    Ok(output.tags()?.as_slice().len())
}

/// Begins functions, writes a text in each and ends it, line after line.
fn writes_functions(alloc: Global, count: u32, lines: u32) -> Result<(), Fault> {
    let mut output = Output::new(alloc);
    let value = Value::Text(shared(alloc, "word")?);
    for _line in 0..lines {
        for _function in 0..count {
            let number = output.enter()?;
            output.write(&value, false)?;
            output.leave(Some(number))?;
        }
        output.ready(2)?;
        output.clear();
    }
    Ok(())
}

fn shared(alloc: Global, text: &str) -> Result<Shared<Text>, AllocError> {
    Shared::new(alloc, Text::from_str(alloc, text)?)
}

// ---- JSON

/// Makes the text of a JSON value.
fn prints<R: Read>(alloc: Global, reader: &mut R, rounds: u32) -> bool {
    let Some(json) = json_in(alloc, reader) else {
        return false;
    };
    for _round in 0..rounds {
        if !is_printed(alloc, &json) {
            return false;
        }
    }
    true
}

fn is_printed(alloc: Global, json: &Json) -> bool {
    match json.to_vec(alloc) {
        Ok(text) => !text.is_empty(),
        Err(_) => false,
    }
}

/// Makes a JSON value of a text.
fn parses_often<R: Read>(alloc: Global, reader: &mut R, rounds: u32) -> bool {
    let Some(bytes) = bytes_in(alloc, reader) else {
        return false;
    };
    for _round in 0..rounds {
        if !is_json(alloc, &bytes) {
            return false;
        }
    }
    true
}

fn is_json(alloc: Global, bytes: &[u8]) -> bool {
    match str::from_utf8(bytes) {
        Ok(text) => Json::from_str(alloc, text).is_ok(),
        Err(_) => false,
    }
}
