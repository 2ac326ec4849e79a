//! Saved games as plain data: what a JSON value spells, whatever the story is (docs/SAVES.md).
#![tactic(auto)]

mod choice;
mod flow;
mod frame;
mod game;
mod layout;
mod members;
mod pair;
mod place;
mod plain;
mod rows;
mod saved;
mod spelled;
mod temps;
mod thread;
mod value;

pub use choice::SavedChoice;
pub use flow::{NamedFlow, SavedFlow};
pub use frame::SavedFrame;
pub use game::SavedGame;
pub use layout::{SavedLayout, read_saved};
pub use rows::{SavedPart, SavedPlace};
pub use saved::{Saved, SavedShared};
pub use spelled::Spelled;
pub use temps::SavedTemps;
pub use thread::{SavedThread, SavedThreads};
pub use value::SavedValue;
