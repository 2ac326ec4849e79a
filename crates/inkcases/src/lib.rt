//! Tables of cases, for the programs that run them (docs/TABLES.md): their files and lines, how texts and values stand in
//! them, and how many of them hold.
#![tactic(auto)]

mod answer;
mod content;
mod expansion;
mod lines;
mod report;
mod table;
mod tally;
mod words;

pub use answer::NoAnswer;
pub use content::{show_content, show_leaf};
pub use expansion::{expand, expanded};
pub use lines::{Questions, ask_below, ask_lines, ask_stories, first_line, is_comment};
pub use report::Report;
pub use table::{Table, Tables, run_tables};
pub use tally::Tally;
pub use words::{decoded, first_word, given_of, number, part_of, parts_of, text_of, value_of};
