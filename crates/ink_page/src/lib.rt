//! What a reader types, what is shown to a reader, and what a story asks its reader (docs/READER.md). Nothing here knows of a player.
#![tactic(auto)]

mod asked;
mod given;
mod page;
mod piece;
mod question;
mod sentences;
mod sheet;
mod showing;
mod typed;

pub use asked::{Asked, Turn, ask_for_the_rest};
pub use given::read_given;
pub use page::{Look, choice_page, line_page};
pub use piece::piece_at;
pub use sentences::{cause_words, fault_words, refusal_words};
pub use sheet::Sheet;
pub use showing::{say, show_choices, show_events, show_passage, show_value};
pub use typed::{Typed, read_typed};
