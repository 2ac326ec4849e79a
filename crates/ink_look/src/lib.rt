//! Running commands: how far a story is run, what is said on the way, and the passages that they answer (docs/RUNNING.md, "Runs",
//! "Lines").
#![tactic(auto)]

mod ahead;
mod lines;
mod looking;
mod passages;
mod running;
mod said;

pub use lines::{LineEnd, line};
pub use passages::{Extent, run_to};
pub use running::through;
pub use said::Said;
