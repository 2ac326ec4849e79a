//! What a running command answers.

use crate::host::Event;
use crate::seq::Seq;
use crate::shared::Shared;
use crate::text::Text;

/// A choice as it is shown.
#[derive(Debug, Drop)]
pub struct Shown {
    pub text: Text,
    pub tags: Seq<Shared<Text>>,
}

/// What a running command shows, in the order of the story.
#[derive(Debug, Drop)]
pub struct Passage {
    pub text: Text,
    pub tags: Seq<Shared<Text>>,
    /// The choices behind the text; none while the story can go on.
    pub choices: Seq<Shown>,
    /// What happened with the host's objects on the way.
    pub events: Seq<Event>,
    /// Whether the story can go on.
    pub more: bool,
    /// Whether the content ran out without an end: neither `-> END` nor `-> DONE` was met, and no choice of any kind is left.
    pub loose: bool,
}
