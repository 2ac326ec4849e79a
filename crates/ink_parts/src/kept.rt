//! What a save keeps of a game.

use ink_flows::{Aside, Flow};
use ink_vars::{Globals, Turn};

/// What a save keeps of a game, lent: the current flow, the flows that stand aside, and what all share. Visits and turns are by
/// the numbers of containers.
#[derive(Clone, Copy)]
pub struct Kept<'a> {
    pub flow: &'a Flow,
    pub aside: &'a Aside,
    pub globals: &'a Globals,
    pub turn: Turn,
    pub turns: &'a [Option<u32>],
    pub visits: &'a [Option<u32>],
}
