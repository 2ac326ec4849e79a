//! Runs tables of stories, each asked by the calls of `Tree` and `Story` and by a slow twin of them. Without words it reads its own
//! tables, with words the files that they name (docs/TABLES.md).
//!
//! It prints each case that fails, and last `N cases, M failed`, with the number of cases that found no memory where there
//! are any. The status is 0 where none failed.
#![tactic(auto)]

mod alike;
mod spelling;
mod twin;
mod twins;
mod walks;
mod written;

use inkcases::{NoAnswer, Questions, Report, Table, Tables, Tally, ask_lines, run_tables};
use std::alloc::Global;
use std::process::ExitCode;

/// The tables that are read where none are named.
const TABLES: [&str; 4] = [
    "twins.txt",
    "twins_edges.txt",
    "twins_large.txt",
    "twins_random.txt",
];

/// The one kind of tables: a line is a story.
#[derive(Clone, Copy, Drop)]
struct Stories;

impl Tables for Stories {
    fn of_name(name: &str) -> Option<Stories> {
        if name.starts_with("twins") {
            Some(Stories)
        } else {
            None
        }
    }

    fn run(&self, rt: &impl Print, alloc: Global, table: Table<'_>, tally: &mut Tally) {
        ask_lines(rt, alloc, &mut Stories, table, tally);
    }
}

impl Questions for Stories {
    fn answer(&mut self, said: &mut Report, _story: &str, question: &str) -> Result<(), NoAnswer> {
        twins::answer(said, question)
    }
}

fn main(rt: HostRuntime) -> ExitCode {
    run_tables::<Stories>(&rt, rt.alloc(), &TABLES)
}
