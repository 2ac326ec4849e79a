//! The player of a story, and the session over command lines. Begin with `open_story`, which makes a `Player`: `continue_line` and
//! `choose` play it (docs/HOST.md). `serve` and `serve_story` play command lines (docs/PROTOCOL.md).
#![tactic(auto)]

mod end;
mod player;
mod playing;
mod saving;
mod session;

pub use end::{PlayEnd, PlayFault};
pub use ink_check::{Story, check};
pub use ink_host::{
    Bound, Called, Desk, FnKind, HostDesk, Nobody, Observer, OpenCall, PureBox, PureFn, Recorder,
    Seen, TellFault, TurnBox, TurnFn, Watcher, WatcherBox, copied_values,
};
pub use ink_json::{RawStory, read_story};
pub use ink_model::{
    Cause, Change, Event, Fault, Given, Halt, HostFault, MAX_STORY, MAX_TEXT, Part, Passage, Path,
    Place, ReadRefusal, Refusal, Seq, Shared, Shown, Text, Value,
};
pub use ink_path::print_path;
pub use ink_protocol::{Counting, ReadFailed, RunFault, Sink, Source, WriteFailed, print_values};
pub use ink_value::same_value;
pub use player::{OpenFault, Player};
pub use playing::{open_story, play, serve_story, serve_to_end};
pub use session::{run, serve};
