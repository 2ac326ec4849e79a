//! Runs tables of cases through the public calls of the libraries below the player. Without words it reads its own tables, with
//! words the files that they name. The beginning of a file's name tells what kind of cases it has (docs/TABLES.md).
//!
//! It prints each case that fails, and last `N cases, M failed`, with the number of cases that found no memory where there
//! are any. The status is 0 where none failed.
#![tactic(auto)]

mod operators;
mod output;
mod paths;
mod reading;
mod stories;

use inkcases::{
    NoAnswer, Questions, Report, Table, Tables, Tally, ask_lines, ask_stories, run_tables,
};
use std::alloc::Global;
use std::process::ExitCode;

/// The tables that are read where none are named.
const TABLES: [&str; 8] = [
    "operators.txt",
    "operators_large.txt",
    "output.txt",
    "output_large.txt",
    "paths.txt",
    "reading.txt",
    "stories.txt",
    "stories_large.txt",
];

/// What kind of cases a table has.
#[derive(Clone, Copy, Drop)]
enum Kind {
    Operators,
    Output,
    Paths,
    Reading,
    Stories,
}

/// How the names of files begin, and the kinds that this tells.
const KINDS: [(&str, Kind); 5] = [
    ("operators", Kind::Operators),
    ("output", Kind::Output),
    ("paths", Kind::Paths),
    ("reading", Kind::Reading),
    ("stories", Kind::Stories),
];

impl Tables for Kind {
    fn of_name(name: &str) -> Option<Kind> {
        for (beginning, kind) in KINDS {
            if name.starts_with(beginning) {
                return Some(kind);
            }
        }
        None
    }

    fn run(&self, rt: &impl Print, alloc: Global, table: Table<'_>, tally: &mut Tally) {
        let mut kind = *self;
        match self {
            Kind::Stories => ask_stories(rt, alloc, &mut kind, table, tally),
            _ => ask_lines(rt, alloc, &mut kind, table, tally),
        }
    }
}

impl Questions for Kind {
    fn answer(&mut self, said: &mut Report, story: &str, question: &str) -> Result<(), NoAnswer> {
        match self {
            Kind::Operators => operators::answer(said, question),
            Kind::Output => output::answer(said, question),
            Kind::Paths => paths::answer(said, question),
            Kind::Reading => reading::answer(said, question),
            Kind::Stories => stories::answer(said, story, question),
        }
    }
}

fn main(rt: HostRuntime) -> ExitCode {
    run_tables::<Kind>(&rt, rt.alloc(), &TABLES)
}
