//! Values of a running story: what operators make of them, their truth and their printed text, and the evaluation stack
//! (docs/VALUES.md).
#![tactic(auto)]

mod numbers;
mod operate;
mod printing;
mod same;
mod saving;
mod stack;
mod targets;
mod texts;
mod truth;
mod undo;

pub use operate::apply;
pub use printing::printed;
pub use same::same_value;
pub use stack::EvalStack;
pub use truth::is_true;
pub use undo::StackPair;
