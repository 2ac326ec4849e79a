//! A reading of a story: what a reader types goes to a player, and what the player answers is shown (docs/READER.md). Nothing here
//! knows of files.
#![tactic(auto)]

mod lines;
mod moves;
mod past;
mod reader;
mod saving;
mod session;
mod shelf;
mod telling;
mod turns;
mod whereabouts;

pub use lines::Lines;
pub use reader::Reader;
pub use shelf::{NotKept, Shelf};
pub use whereabouts::saves_tell_places;
