//! Reading a compiled story: from JSON to raw content.
#![tactic(auto)]

mod container;
mod descent;
mod error;
mod heads;
mod kept;
mod key;
mod last;
mod leaf;
mod limits;
mod names;
mod node;
mod nodes;
mod object;
mod options;
mod own;
mod reading;
mod readings;
mod story;
mod texts;
mod word;

pub use key::{Key, compare_parts, key_of, part_of};
pub use node::Node;
pub use nodes::Nodes;
pub use reading::read_story;
pub use story::RawStory;
