//! Marks, of which the text of a passage is made.

use crate::shared::Shared;
use crate::text::Text;

/// What a step leaves in the text that is being written.
#[derive(Drop)]
pub enum Mark {
    Text(Shared<Text>),
    Blank(Shared<Text>),
    Newline,
    Glue,
    Tag(Shared<Text>),
    Enter(u64),
    Leave(Option<u64>),
}
