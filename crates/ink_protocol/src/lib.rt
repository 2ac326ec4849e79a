//! Command lines, answers, and the reading and writing of lines (docs/PROTOCOL.md). Nothing here knows of a story or runs one. A host
//! needs `Source`, `Sink`, `Counting` and `RunFault`, and finds them in ink_player, too.
#![tactic(auto)]

mod answer;
mod command;
mod counting;
mod events;
mod fault;
mod fixed;
mod given;
mod input;
mod lines;
mod output;
mod parse;
mod plain;
mod word;

pub use answer::{Outcome, answer_text, fixed_answer, passage_text, print_values};
pub use command::{LineCommand, read_command};
pub use counting::{Counting, Lent};
pub use fault::RunFault;
pub use input::{Ahead, ReadFailed, Source};
pub use lines::{Line, next_line};
pub use output::{Sink, WriteFailed, write_answer};
pub use word::{after, choice_number};
