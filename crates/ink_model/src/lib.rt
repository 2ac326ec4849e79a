//! The plain types of compiled ink stories. The definitions of the rules stand in `specs/`.
#![tactic(auto)]

pub mod choice_flags;
mod content;
mod fault;
pub mod flags;
mod frame;
mod host;
mod limits;
mod mark;
mod operator;
mod passage;
mod place;
mod scope;
mod seq;
mod shared;
mod text;
mod value;
mod version;

pub use content::{Container, Content, Control, Destination, Leaf};
pub use fault::{Cause, Failure, Fault, Halt, ReadRefusal, Refusal};
pub use frame::FrameKind;
pub use host::{Change, Event, Given, HostFault, value_given};
pub use limits::{
    MAX_CHOICES, MAX_COUNT, MAX_FLOWS, MAX_FRAMES, MAX_INPUT, MAX_LINE, MAX_MARKS, MAX_NESTING,
    MAX_SECTIONS, MAX_STACK, MAX_STEPS, MAX_STORY, MAX_TEXT, MAX_THREADS,
};
pub use mark::Mark;
pub use operator::Op;
pub use passage::{Passage, Shown};
pub use place::{Part, Path, Place};
pub use scope::Scope;
pub use seq::Seq;
pub use shared::Shared;
pub use text::Text;
pub use value::Value;
pub use version::InkVersion;
