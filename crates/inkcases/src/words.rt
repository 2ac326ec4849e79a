//! How texts, values and places are written in tables. In a text `_` is a space, `~` a tab and `|` a newline. A value is a
//! number, `true`, `false`, `void`, `^TEXT`, `->PATH`, `&NAME:FRAME` or `#TEXT`. A place is its parts joined by dots, or
//! `root`.

use crate::answer::NoAnswer;
use ink_model::{Given, Part, Shared, Text, Value};
use ink_path::read_path;
use std::alloc::{AllocError, Global};
use std::str::FromStr;

/// A word of a question, and what stands behind it.
pub fn first_word(question: &str) -> (&str, &str) {
    question.split_once(' ').unwrap_or((question, ""))
}

/// A text of a table.
pub fn decoded(alloc: Global, word: &str) -> Result<String, AllocError> {
    let mut text = String::new(alloc);
    for character in word.chars() {
        text.push(match character {
            '_' => ' ',
            '~' => '\t',
            '|' => '\n',
            other => other,
        })?;
    }
    Ok(text)
}

/// A value of a table.
pub fn value_of(alloc: Global, word: &str) -> Result<Value, NoAnswer> {
    if let Some(text) = word.strip_prefix('^') {
        return Ok(Value::Text(text_of(alloc, text)?));
    }
    if let Some(text) = word.strip_prefix('#') {
        return Ok(Value::Tag(text_of(alloc, text)?));
    }
    if let Some(path) = word.strip_prefix("->") {
        return Ok(Value::Target(Shared::new(alloc, read_path(alloc, path)?)?));
    }
    if let Some(pointer) = word.strip_prefix('&') {
        return pointer_of(alloc, pointer);
    }
    plain_value(word)
}

/// The text that a word spells.
pub fn text_of(alloc: Global, word: &str) -> Result<Shared<Text>, AllocError> {
    Ok(Shared::new(alloc, Text::from_string(decoded(alloc, word)?))?)
}

fn pointer_of(alloc: Global, pointer: &str) -> Result<Value, NoAnswer> {
    let (name, frame) = pointer.split_once(':').unwrap_or((pointer, ""));
    let frame = number(frame)?;
    let name = Shared::new(alloc, Text::from_str(alloc, name)?)?;
    Ok(Value::Pointer(frame, name))
}

fn plain_value(word: &str) -> Result<Value, NoAnswer> {
    match word {
        "true" => Ok(Value::Bool(true)),
        "false" => Ok(Value::Bool(false)),
        "void" => Ok(Value::Void),
        digits => Ok(Value::Int(number(digits)?)),
    }
}

/// A number of a table.
pub fn number<N: FromStr>(digits: &str) -> Result<N, NoAnswer>
where
    N::Err: Drop,
{
    match digits.parse::<N>() {
        Ok(number) => Ok(number),
        Err(_) => Err(NoAnswer::NoQuestion),
    }
}

/// What a host gives.
pub fn given_of(value: Value) -> Result<Given, NoAnswer> {
    Given::from_value(value).ok_or(NoAnswer::NoQuestion)
}

/// The parts of a place of a table.
pub fn parts_of(alloc: Global, place: &str) -> Result<Vec<Part>, AllocError> {
    let mut parts = Vec::new(alloc);
    if place != "root" {
        for part in place.split('.') {
            parts.push(part_of(alloc, part)?)?;
        }
    }
    Ok(parts)
}

/// A part of a place of a table.
pub fn part_of(alloc: Global, part: &str) -> Result<Part, AllocError> {
    match part.parse::<u32>() {
        Ok(index) => Ok(Part::Index(index)),
        Err(_) => Ok(Part::Name(Text::from_str(alloc, part)?)),
    }
}
