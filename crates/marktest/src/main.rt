//! Runs tables of marks: whether machines, and their parts by themselves, go back to where they stood. Without words it reads its own tables, with words the files
//! that they name (docs/TABLES.md).
//!
//! It prints each case that fails, and last `N cases, M failed`, with the number of cases that found no memory where there
//! are any. The status is 0 where none failed.
#![tactic(auto)]

mod marks;
mod objects;
mod parts;
mod plays;
mod sessions;
mod shown;

use inkcases::{
    NoAnswer, Questions, Report, Table, Tables, Tally, ask_lines, ask_stories, run_tables,
};
use std::alloc::Global;
use std::process::ExitCode;

/// The tables that are read where none are named.
const TABLES: [&str; 3] = ["marks.txt", "marks_random.txt", "parts.txt"];

/// What kind of cases a table has.
#[derive(Clone, Copy, Drop)]
enum Kind {
    Marks,
    Parts,
}

impl Tables for Kind {
    fn of_name(name: &str) -> Option<Kind> {
        if name.starts_with("marks") {
            Some(Kind::Marks)
        } else if name.starts_with("parts") {
            Some(Kind::Parts)
        } else {
            None
        }
    }

    fn run(&self, rt: &impl Print, alloc: Global, table: Table<'_>, tally: &mut Tally) {
        let mut kind = *self;
        match self {
            Kind::Marks => ask_stories(rt, alloc, &mut kind, table, tally),
            Kind::Parts => ask_lines(rt, alloc, &mut kind, table, tally),
        }
    }
}

impl Questions for Kind {
    fn answer(&mut self, said: &mut Report, story: &str, question: &str) -> Result<(), NoAnswer> {
        match self {
            Kind::Marks => marks::answer(said, story, question),
            Kind::Parts => parts::answer(said, question),
        }
    }
}

fn main(rt: HostRuntime) -> ExitCode {
    run_tables::<Kind>(&rt, rt.alloc(), &TABLES)
}
