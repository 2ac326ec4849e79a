//! The limits of stories, runs and inputs (docs/STORY_FORMAT.md, docs/RUNNING.md, docs/PROTOCOL.md).

/// Bytes of a story.
pub const MAX_STORY: usize = 16_777_216;

/// Containers around one another, the root among them.
pub const MAX_NESTING: usize = 120;

/// Bytes of a text: of a value, a tag, or the name of a flow.
pub const MAX_TEXT: usize = 1_048_576;

/// Values on the evaluation stack.
pub const MAX_STACK: usize = 10_000;

/// Marks of a line.
pub const MAX_MARKS: usize = 100_000;

/// Strings and tags that are open on a line.
pub const MAX_SECTIONS: usize = 1_000;

/// Frames of a thread.
pub const MAX_FRAMES: usize = 1_000;

/// Threads.
pub const MAX_THREADS: usize = 100;

/// Choices that are offered, the invisible ones among them.
pub const MAX_CHOICES: usize = 1_000;

/// Flows of a player.
pub const MAX_FLOWS: usize = 100;

/// Steps of a command.
pub const MAX_STEPS: u32 = 1_000_000;

/// Bytes of a command line, without its newline.
pub const MAX_LINE: usize = 1_048_576;

/// Bytes of an input, its newlines and the story counted.
pub const MAX_INPUT: usize = 67_108_864;

/// The most that a count of visits and the turn number come to, where they stay.
pub const MAX_COUNT: u32 = 2_147_483_647;
