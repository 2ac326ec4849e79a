//! Flows: what each has of its own, and all by name (docs/RUNNING.md, "Flows").
#![tactic(auto)]

mod aside;
mod flow;
mod rows;

pub use aside::{Aside, DEFAULT_FLOW, is_flow_name};
pub use flow::Flow;
