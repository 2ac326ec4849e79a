//! What commands that run nothing do to a machine: where a host's paths lead, visits, jumps, flows; and what watchers are told.
#![tactic(auto)]

mod flows;
mod jumping;
mod opening;
mod path;
mod telling;
mod visits;

pub use flows::{drop_flow, go_to_flow};
pub use jumping::jump;
pub use opening::reopened;
pub use telling::{tell_between, tell_changed, tell_one};
pub use visits::visits_by;
