//! Texts of JSON as flat tapes of their tokens, and JSON values that are read where they stand.
#![tactic(auto)]

mod element;
mod marks;
mod number;
mod ordered;
mod shape;
mod tape;
pub mod value;

pub use marks::Marks;
pub use number::Number;
pub use ordered::{Ordered, OrderedItems, OrderedMembers};
pub use shape::{Json, Kind, Lent};
pub use tape::{Parsed, Tape};
