//! The program's words: the story's file, what is bound to names, and which globals are watched (docs/PROGRAM.md).

use crate::objects::Row;
use clap::{Arg, ArgAction, ArgMatches, Command};
use ink_model::{Given, Shared, Text};
use serde_json::{Map, Number, Value};
use std::alloc::{AllocError, AllocFailed, Global};

/// The words are no words of the program, or there was no memory for them.
#[derive(Clone, Copy)]
pub struct WordsRefused;

impl From<AllocError> for WordsRefused {
    fn from(_error: AllocError) -> WordsRefused {
        WordsRefused
    }
}

impl<T: Drop> From<AllocFailed<T>> for WordsRefused {
    fn from(_failed: AllocFailed<T>) -> WordsRefused {
        WordsRefused
    }
}

/// What a word binds to a name, or which global it watches.
#[derive(Drop)]
pub(crate) enum PlayOption<'a> {
    Answers { name: &'a str, answers: Vec<Given> },
    Table { name: &'a str, rows: Vec<Row> },
    Watch { name: &'a str },
}

/// What the words of a program with this name may be. The one error is a refused request for memory.
pub fn command<'a>(alloc: Global, name: &'a str) -> Result<Command<'a>, AllocError> {
    Command::new(alloc, name)
        .disable_help_flag(true)
        .arg(Arg::new(alloc, "STORY"))?
        .arg(repeated(alloc, "answer"))?
        .arg(repeated(alloc, "table"))?
        .arg(repeated(alloc, "watch"))
}

// An option that may come more than once.
fn repeated<'a>(alloc: Global, name: &'a str) -> Arg<'a> {
    Arg::new(alloc, name).long(name).action(ArgAction::Append)
}

/// The options among the words. The one error is words that are none: a missing `=`, an empty name, or other JSON than the
/// option takes; or no memory for them.
pub(crate) fn read_options<'a>(
    alloc: Global,
    matches: &ArgMatches<'a>,
) -> Result<Vec<PlayOption<'a>>, WordsRefused> {
    let mut options = Vec::new(alloc);
    read_scripts(alloc, matches, &mut options)?;
    read_tables(alloc, matches, &mut options)?;
    read_watched(matches, &mut options)?;
    Ok(options)
}

// The options that give answers in order.
fn read_scripts<'a>(
    alloc: Global,
    matches: &ArgMatches<'a>,
    options: &mut Vec<PlayOption<'a>>,
) -> Result<(), WordsRefused> {
    for word in matches.get_strs("answer").unwrap_or(&[]) {
        let (name, json) = named(word)?;
        let answers = read_answers(alloc, json)?;
        options.push(PlayOption::Answers { name, answers })?;
    }
    Ok(())
}

// The options that give tables.
fn read_tables<'a>(
    alloc: Global,
    matches: &ArgMatches<'a>,
    options: &mut Vec<PlayOption<'a>>,
) -> Result<(), WordsRefused> {
    for word in matches.get_strs("table").unwrap_or(&[]) {
        let (name, json) = named(word)?;
        let rows = read_rows(alloc, json)?;
        options.push(PlayOption::Table { name, rows })?;
    }
    Ok(())
}

// The options that watch a global.
fn read_watched<'a>(
    matches: &ArgMatches<'a>,
    options: &mut Vec<PlayOption<'a>>,
) -> Result<(), WordsRefused> {
    for word in matches.get_strs("watch").unwrap_or(&[]) {
        let name = filled(word)?;
        options.push(PlayOption::Watch { name })?;
    }
    Ok(())
}

// The name, up to the first `=`, and the JSON behind it.
fn named(word: &str) -> Result<(&str, &str), WordsRefused> {
    let Some((name, json)) = word.split_once('=') else {
        return Err(WordsRefused);
    };
    Ok((filled(name)?, json))
}

fn filled(name: &str) -> Result<&str, WordsRefused> {
    if name.is_empty() {
        return Err(WordsRefused);
    }
    Ok(name)
}

// The answers of an array, in order.
fn read_answers(alloc: Global, json: &str) -> Result<Vec<Given>, WordsRefused> {
    match read_json(alloc, json)? {
        Value::Array(items) => answers_of(alloc, items),
        _ => Err(WordsRefused),
    }
}

fn answers_of(alloc: Global, items: Vec<Value>) -> Result<Vec<Given>, WordsRefused> {
    let mut answers = Vec::new(alloc);
    for item in items {
        answers.push(given_of(alloc, item)?)?;
    }
    Ok(answers)
}

// The rows of an object: an answer for each text of arguments.
fn read_rows(alloc: Global, json: &str) -> Result<Vec<Row>, WordsRefused> {
    match read_json(alloc, json)? {
        Value::Object(members) => rows_of(alloc, members),
        _ => Err(WordsRefused),
    }
}

fn rows_of(alloc: Global, members: Map<String, Value>) -> Result<Vec<Row>, WordsRefused> {
    let mut rows = Vec::new(alloc);
    for (arguments, value) in members {
        let answer = given_of(alloc, value)?;
        rows.push(Row {
            arguments: Text::from_string(arguments),
            answer,
        })?;
    }
    Ok(rows)
}

fn read_json(alloc: Global, text: &str) -> Result<Value, WordsRefused> {
    match Value::from_str(alloc, text) {
        Ok(value) => Ok(value),
        Err(_) => Err(WordsRefused),
    }
}

// An answer: an integer of 32 bits, a boolean, a text, or null for void.
fn given_of(alloc: Global, value: Value) -> Result<Given, WordsRefused> {
    match value {
        Value::Null => Ok(Given::Void),
        Value::Bool(truth) => Ok(Given::Bool(truth)),
        Value::Number(number) => small_integer(number),
        Value::String(text) => Ok(Given::Text(Shared::new(alloc, Text::from_string(text))?)),
        Value::Array(_) | Value::Object(_) => Err(WordsRefused),
    }
}

fn small_integer(number: Number) -> Result<Given, WordsRefused> {
    let Some(integer) = number.as_i128() else {
        return Err(WordsRefused);
    };
    match i32::try_from(integer) {
        Ok(integer) => Ok(Given::Int(integer)),
        Err(_) => Err(WordsRefused),
    }
}
