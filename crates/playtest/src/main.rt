//! Runs tables of cases through a player: its calls, its objects in boxes, and whole sessions. Without words it reads its own
//! tables, with words the files that they name. The beginning of a file's name tells what kind of cases it has (docs/TABLES.md).
//!
//! It prints each case that fails, and last `N cases, M failed`, with the number of cases that found no memory where there
//! are any. The status is 0 where none failed.
#![tactic(auto)]

mod bindings;
mod boxes;
mod looked;
mod objects;
mod players;
mod plays;
mod sessions;
mod shown;
mod streams;

use inkcases::{NoAnswer, Questions, Report, Table, Tables, Tally, ask_lines, run_tables};
use players::run_players;
use sessions::run_sessions;
use std::alloc::Global;
use std::process::ExitCode;

/// The tables that are read where none are named.
const TABLES: [&str; 33] = [
    "boxes.txt",
    "players.txt",
    "players_flows.txt",
    "players_large.txt",
    "players_lines.txt",
    "players_objects.txt",
    "players_objects_large.txt",
    "players_saves.txt",
    "players_short.txt",
    "sessions.txt",
    "sessions_calls.txt",
    "sessions_calls_large.txt",
    "sessions_choices.txt",
    "sessions_choices_large.txt",
    "sessions_counts.txt",
    "sessions_counts_large.txt",
    "sessions_cut.txt",
    "sessions_edges_flow.txt",
    "sessions_edges_limits.txt",
    "sessions_edges_more.txt",
    "sessions_edges_reading.txt",
    "sessions_edges_saves.txt",
    "sessions_edges_values.txt",
    "sessions_flows.txt",
    "sessions_games.txt",
    "sessions_large.txt",
    "sessions_limits.txt",
    "sessions_lines.txt",
    "sessions_lines_large.txt",
    "sessions_refused.txt",
    "sessions_saves.txt",
    "sessions_saves_old.txt",
    "sessions_variables.txt",
];

/// What kind of cases a table has.
#[derive(Clone, Copy, Drop)]
enum Kind {
    Boxes,
    Players,
    Sessions,
}

/// How the names of files begin, and the kinds that this tells.
const KINDS: [(&str, Kind); 3] = [
    ("boxes", Kind::Boxes),
    ("players", Kind::Players),
    ("sessions", Kind::Sessions),
];

impl Tables for Kind {
    fn of_name(name: &str) -> Option<Kind> {
        for (beginning, kind) in &KINDS {
            if name.starts_with(*beginning) {
                return Some(*kind);
            }
        }
        None
    }

    fn run(&self, rt: &impl Print, alloc: Global, table: Table<'_>, tally: &mut Tally) {
        match self {
            Kind::Boxes => ask_lines(rt, alloc, &mut InBoxes, table, tally),
            Kind::Players => run_players(rt, alloc, table, tally),
            Kind::Sessions => run_sessions(rt, alloc, table, tally),
        }
    }
}

/// Answers questions about objects in boxes.
#[derive(Drop)]
struct InBoxes;

impl Questions for InBoxes {
    fn answer(&mut self, said: &mut Report, _story: &str, question: &str) -> Result<(), NoAnswer> {
        boxes::answer(said, question)
    }
}

fn main(rt: HostRuntime) -> ExitCode {
    run_tables::<Kind>(&rt, rt.alloc(), &TABLES)
}
