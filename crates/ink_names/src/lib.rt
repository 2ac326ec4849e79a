//! Names, each once, that are found at slots or by order, and compared (docs/VARIABLES.md).
#![tactic(auto)]

mod hints;
mod names;
mod same;

pub use names::Names;
pub use same::same_name;
