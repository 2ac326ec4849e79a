//! The text being written: sections of marks, what they show, and their tags (docs/TEXT.md).
#![tactic(auto)]

mod cleaning;
mod cutting;
mod enters;
mod joining;
mod kept;
mod lent;
mod opened;
mod output;
mod part;
mod pile;
mod rooms;
mod section;
mod spares;
mod state;
mod tags;
mod tracker;
mod undo;
mod walk;

pub use output::Output;
