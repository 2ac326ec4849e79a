//! What a story has beside its flows.

use ink_vars::{Counts, Globals, Turn};

/// What all flows of a story share.
#[derive(Drop)]
pub struct Shared {
    pub globals: Globals,
    pub counts: Counts,
    pub turn: Turn,
}
