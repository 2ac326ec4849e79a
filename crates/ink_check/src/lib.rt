//! Which stories are accepted.
#![tactic(auto)]

mod checking;
mod forms;
mod leading;
mod link;
mod links;
mod names;
mod story;

pub use checking::check;
pub use leading::ends_in_index;
pub use story::Story;
