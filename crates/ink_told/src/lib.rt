//! What watchers are to be told of globals.
#![tactic(auto)]

mod told;

pub use told::{told_between, told_one, told_since};
