//! The words that a program is started with: what they bind to names, which globals they watch (docs/PROGRAM.md), and the story's
//! file.
#![tactic(auto)]

mod binding;
mod objects;
mod options;
mod simple;
mod start;

pub use binding::{PlayDesk, bind_words, read_words};
pub use objects::{Row, Script, Table};
pub use options::{WordsRefused, command};
pub use start::{read_story_file, words};
