//! JSON as tokens that are written one behind another, with no value in between.
#![tactic(auto)]

mod tokens;
mod values;

pub use tokens::{put, put_flag, put_integer, put_natural, put_number, put_text};
pub use values::write_value;
