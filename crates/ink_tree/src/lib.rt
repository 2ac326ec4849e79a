//! The story tree: nodes, paths, and the order of content.
#![tactic(auto)]

mod around;
mod children;
mod content;
mod entry;
mod gap;
mod leading;
mod link;
mod linking;
mod lookup;
mod moving;
mod names;
mod naming;
mod resolving;
mod spot;
mod tree;
mod upward;

pub use ink_path::{print_path, read_path};
pub use leading::Lead;
pub use spot::{NodeId, Spot};
pub use tree::Tree;
pub use upward::Upward;
