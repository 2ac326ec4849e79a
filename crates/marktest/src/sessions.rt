//! Sessions: a story, the functions that it calls, and what is done where flow has stopped.

use crate::objects::{Constant, Script};
use ink_check::{Story, check, ends_in_index};
use ink_host::{Desk, Nobody};
use ink_json::read_story;
use ink_tree::{NodeId, Spot, Tree, read_path};
use inkcases::{NoAnswer, expanded, first_word, given_of, number, value_of};
use std::alloc::Global;

/// A desk with the functions of tables.
pub(crate) type TestDesk = Desk<Constant, Script, Nobody>;

/// What is done where flow has stopped.
#[derive(Clone, Copy)]
pub(crate) enum Command {
    Choose(usize),
    Jump(Spot),
}

/// A story, the question about it, and what is done at its stops, one after another.
#[derive(Drop)]
pub(crate) struct Session<'q> {
    pub story: Story,
    question: &'q str,
    commands: Vec<Command>,
}

impl<'q> Session<'q> {
    /// Reads a story and a question.
    pub(crate) fn read(
        alloc: Global,
        story: &str,
        question: &'q str,
    ) -> Result<Session<'q>, NoAnswer> {
        let mut session = Session {
            story: accepted(alloc, story)?,
            question,
            commands: Vec::new(alloc),
        };
        session.read_commands(alloc)?;
        Ok(session)
    }

    fn read_commands(&mut self, alloc: Global) -> Result<(), NoAnswer> {
        let question = self.question;
        for words in question.split("; ") {
            if let Some(command) = command_of(alloc, self.story.tree(), words)? {
                self.commands.push(command)?;
            }
        }
        Ok(())
    }

    /// Binds functions that nobody has called yet.
    pub(crate) fn bind(&self, alloc: Global, desk: &mut TestDesk) -> Result<(), NoAnswer> {
        for words in self.question.split("; ") {
            let (word, rest) = first_word(words);
            let (name, gifts) = first_word(rest);
            match word {
                "turn" => bind_turn(alloc, desk, name, gifts)?,
                "pure" => bind_pure(alloc, desk, name, gifts)?,
                _ => {}
            }
        }
        Ok(())
    }

    /// What is done at the stop of a number.
    pub(crate) fn command(&self, number: usize) -> Option<Command> {
        self.commands.get(number).copied()
    }
}

fn accepted(alloc: Global, story: &str) -> Result<Story, NoAnswer> {
    let story = expanded(alloc, story)?;
    let raw = read_story(alloc, story.as_slice())?;
    Ok(check(alloc, raw)?)
}

/// What words say to do at a stop, none where they bind a function or begin the run.
fn command_of(alloc: Global, tree: &Tree, words: &str) -> Result<Option<Command>, NoAnswer> {
    let (word, rest) = first_word(words);
    match word {
        "run" | "turn" | "pure" => Ok(None),
        "choose" => Ok(Some(Command::Choose(number(rest)?))),
        "jump" => Ok(Some(Command::Jump(landing(alloc, tree, rest)?))),
        _ => Err(NoAnswer::NoQuestion),
    }
}

/// Where a jump lands.
fn landing(alloc: Global, tree: &Tree, path: &str) -> Result<Spot, NoAnswer> {
    let path = read_path(alloc, path)?;
    match tree.resolve(NodeId { number: 0 }, &path) {
        Some(spot) if ends_in_index(path.parts.as_slice()) => Ok(spot),
        Some(spot) => Ok(tree.land(spot)),
        None => Err(NoAnswer::NoQuestion),
    }
}

fn bind_turn(alloc: Global, desk: &mut TestDesk, name: &str, words: &str) -> Result<(), NoAnswer> {
    let mut gifts = Vec::new(alloc);
    for word in words.split_whitespace() {
        gifts.push(given_of(value_of(alloc, word)?)?)?;
    }
    match desk.bind_turn(name, Script::new(alloc, gifts)) {
        Ok(_) => Ok(()),
        Err(_) => Err(NoAnswer::OutOfMemory),
    }
}

fn bind_pure(alloc: Global, desk: &mut TestDesk, name: &str, word: &str) -> Result<(), NoAnswer> {
    let gift = given_of(value_of(alloc, word)?)?;
    match desk.bind_pure(name, Constant::new(alloc, gift)) {
        Ok(_) => Ok(()),
        Err(_) => Err(NoAnswer::OutOfMemory),
    }
}
