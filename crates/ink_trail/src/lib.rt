//! Trails: what cells held before they were changed, so that the changes since a mark can be put back.
#![tactic(auto)]

mod trail;
mod undo;

pub use trail::Trail;
pub use undo::Undo;
