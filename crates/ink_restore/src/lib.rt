//! What a save spells, made again in a story (docs/SAVES.md). It knows no machine.
#![tactic(auto)]

mod building;
mod collecting;
mod counting;
mod fitting;
mod flowing;
mod framing;
mod offering;
mod restoring;
mod threading;

pub use building::Built;
pub use collecting::{build_choices, build_globals, build_stack};
pub use counting::{Counted, build_counts};
pub use restoring::{Restored, SharedParts, restore};
