//! Reports: texts that are written piece by piece.

use crate::answer::NoAnswer;
use ink_model::{Given, Part, Path, ReadRefusal, Refusal, Text, Value};
use ink_path::print_path;
use std::alloc::{AllocError, Global};
use std::fmt::{Debug, Display};

/// A text that is written piece by piece. It keeps in mind whether memory was refused, so that no piece has an error of its own.
#[derive(Drop)]
pub struct Report {
    alloc: Global,
    text: String,
    is_refused: bool,
}

impl Report {
    /// With nothing in it.
    pub fn new(alloc: Global) -> Report {
        Report {
            alloc,
            text: String::new(alloc),
            is_refused: false,
        }
    }

    /// Where its memory is from.
    pub fn alloc(&self) -> Global {
        self.alloc
    }

    /// What is written so far.
    pub fn as_str(&self) -> &str {
        self.text.as_str()
    }

    /// Whether nothing is written.
    pub fn is_empty(&self) -> bool {
        self.text.is_empty()
    }

    /// Whether memory was refused.
    pub fn is_refused(&self) -> bool {
        self.is_refused
    }

    /// Keeps in mind that memory was refused, if it was.
    pub fn note(&mut self, outcome: Result<(), AllocError>) {
        self.is_refused = self.is_refused || outcome.is_err();
    }

    /// Keeps in mind that memory was refused.
    pub fn refuse(&mut self) {
        self.is_refused = true;
    }

    /// Writes a text.
    pub fn put(&mut self, text: &str) {
        let outcome = self.text.push_str(text);
        self.note(outcome);
    }

    /// Writes what another report has, which may be that memory was refused.
    pub fn add(&mut self, other: &Report) {
        self.put(other.text.as_str());
        self.note_of(other);
    }

    /// Keeps in mind that memory was refused to another report, if it was.
    pub fn note_of(&mut self, other: &Report) {
        self.is_refused = self.is_refused || other.is_refused;
    }

    /// Writes a text behind what stands there, a space between.
    pub fn append(&mut self, text: &str) {
        if !self.text.is_empty() {
            self.put(" ");
        }
        self.put(text);
    }

    /// Writes a number, a name of something, or what else prints itself.
    pub fn show<D: Display + Drop>(&mut self, item: D) {
        let outcome = write!(self.text, "{item}");
        self.note(outcome);
    }

    /// Writes a word and a space in front of a number.
    pub fn number(&mut self, word: &str, number: u64) {
        self.put(word);
        self.show(number);
    }

    /// Writes a word where something is so.
    pub fn flag(&mut self, word: &str, is_so: bool) {
        if is_so {
            self.put(word);
        }
    }

    /// Writes a text as a table has it.
    pub fn encode(&mut self, text: &str) {
        for character in text.chars() {
            let outcome = self.text.push(match character {
                ' ' => '_',
                '\t' => '~',
                '\n' => '|',
                other => other,
            });
            self.note(outcome);
        }
    }

    /// Writes a number of a list's item, or a word where there is none.
    pub fn number_or(&mut self, number: Option<usize>, none: &str) {
        match number {
            Some(number) => self.show(number),
            None => self.put(none),
        }
    }

    /// Writes why there is no answer: a fault, a refusal or a cause by its name.
    pub fn halt(&mut self, why: NoAnswer) {
        match why {
            NoAnswer::OutOfMemory => self.refuse(),
            NoAnswer::Fault(fault) => self.put(fault.name()),
            NoAnswer::Unread(cause) => self.show(cause),
            NoAnswer::Refused(refusal) => self.refusal(refusal),
            NoAnswer::NoQuestion => self.put("no question"),
        }
    }

    fn refusal(&mut self, refusal: Refusal) {
        match refusal {
            Refusal::Broken(fault) => {
                self.put("Broken by ");
                self.put(fault.name());
            }
            refusal => self.put(refusal.name()),
        }
    }

    /// Ends an answer. Where there is none, the cause stands in its place.
    pub fn end(&mut self, outcome: Result<(), NoAnswer>) {
        if let Err(why) = outcome {
            self.text.clear();
            self.halt(why);
        }
    }

    /// Writes what `{:?}` makes of an item.
    pub fn debug<D: Debug + Drop>(&mut self, item: D) {
        let outcome = write!(self.text, "{item:?}");
        self.note(outcome);
    }

    // ---- as tables have it

    /// Writes a value.
    pub fn value(&mut self, value: &Value) {
        match value {
            Value::Int(number) => self.show(*number),
            Value::Bool(truth) => self.show(*truth),
            Value::Void => self.put("void"),
            Value::Text(text) => self.text("^", text.get()),
            Value::Tag(text) => self.text("#", text.get()),
            Value::Pointer(frame, name) => self.pointer(*frame, name.get()),
            Value::Target(path) => self.target(path.get()),
        }
    }

    /// Writes what a host gave.
    pub fn given(&mut self, given: &Given) {
        match given {
            Given::Int(number) => self.show(*number),
            Given::Bool(truth) => self.show(*truth),
            Given::Void => self.put("void"),
            Given::Text(text) => self.text("^", text.get()),
        }
    }

    /// Writes a text behind its mark.
    pub fn text(&mut self, mark: &str, text: &Text) {
        self.put(mark);
        self.encode(text.as_str());
    }

    fn pointer(&mut self, frame: i32, name: &Text) {
        self.put("&");
        self.put(name.as_str());
        self.put(":");
        self.show(frame);
    }

    fn target(&mut self, path: &Path) {
        self.put("->");
        self.path(path);
    }

    /// Writes a path as stories have it.
    pub fn path(&mut self, path: &Path) {
        match print_path(self.alloc, path) {
            Ok(text) => self.put(text.as_str()),
            Err(_) => self.refuse(),
        }
    }

    /// Writes a place.
    pub fn place(&mut self, parts: &[Part]) {
        if parts.is_empty() {
            self.put("root");
        }
        for (index, part) in parts.iter().enumerate() {
            self.flag(".", index > 0);
            self.part(part);
        }
    }

    /// Writes a part of a place.
    pub fn part(&mut self, part: &Part) {
        match part {
            Part::Index(index) => self.show(*index),
            Part::Name(name) => self.put(name.as_str()),
        }
    }

    /// Writes why a story is refused: the cause, and the place where that is not the root.
    pub fn unread(&mut self, refusal: &ReadRefusal) {
        self.halt(NoAnswer::from_cause(refusal.cause));
        let parts = refusal.place.parts();
        if !parts.is_empty() {
            self.put(" ");
            self.place(parts);
        }
    }
}
