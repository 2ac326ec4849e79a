//! The machine that runs a story forward.
#![tactic(auto)]

mod choosing;
mod flows;
mod machine;
mod marking;
mod opening;
mod own;
mod parts;
mod running;
mod saying;
mod step;
mod told;
mod visits;

pub use ink_effects::Shared;
pub use ink_flows::{Aside, DEFAULT_FLOW, Flow, is_flow_name};
pub use ink_moves::StepEnd;
pub use machine::Machine;
pub use opening::Unopened;
pub use own::OwnPair;
pub use parts::{Fields, Parts};
