//! Choices of a running story: what a choice point makes, and the list of what is offered (docs/CHOICES.md).
#![tactic(auto)]

mod choice;
mod choices;
mod making;
mod operands;
mod saving;
mod texts;
mod undo;

pub use choice::Choice;
pub use choices::Choices;
pub use making::{add_made, make};
pub use undo::ChoicePair;
