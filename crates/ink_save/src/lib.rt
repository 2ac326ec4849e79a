//! Saves: machines as JSON values, and back (docs/SAVES.md).
#![tactic(auto)]

mod loading;
mod saving;
mod texts;

pub use loading::{SaveRefusal, read};
pub use saving::{write, write_text};
pub use texts::read_text;
