//! Paths as they are spelled: reading and printing them (docs/STORY_FORMAT.md, "Paths").
#![tactic(auto)]

mod components;
mod path;

pub use components::{Component, Components};
pub use path::{print_path, read_path};
