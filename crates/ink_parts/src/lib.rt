//! The parts of saved games, as JSON values and as their text (docs/SAVES.md). It knows no machine.
#![tactic(auto)]

mod choices;
mod counts;
mod flows;
mod frames;
mod globals;
mod kept;
mod lists;
mod members;
mod placed;
mod printing;
mod saving;
mod writing;
mod written;

pub use kept::Kept;
pub use printing::print;
pub use saving::write;
