//! Where flow is: threads of frames (docs/FRAMES.md).
#![tactic(auto)]

mod fork;
mod frame;
mod running;
mod saving;
mod thread;
mod threads;
mod undo;

pub use fork::Fork;
pub use frame::CallKind;
pub use ink_frames::Frame;
pub use running::Running;
pub use thread::Thread;
pub use threads::Threads;
pub use undo::ThreadsPair;
