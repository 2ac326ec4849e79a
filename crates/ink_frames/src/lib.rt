//! The frames of a thread and their temporaries (docs/FRAMES.md).
#![tactic(auto)]

mod frame;
mod frames;
mod listing;
mod lowest;
mod saving;
mod spare;
mod temp_rows;
mod temps;

pub use frame::Frame;
pub use frames::Frames;
pub use spare::Spare;
pub use temps::{TempName, Temps};
