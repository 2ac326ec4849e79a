//! How pages look in the terminal that the program runs in.

use ink_page::Look;
use std::env::{self, VarError};
use std::rt::Env;

/// Columns where nothing says how many there are.
const COLUMNS: u16 = 80;

/// How pages look: as wide as COLUMNS says, and dimmed tags where the terminal knows them and NO_COLOR does not forbid them.
pub(crate) fn look<R: Env + Alloc>(rt: &R, tags: bool) -> Look {
    Look {
        columns: columns(rt),
        tags,
        dims: dims(rt),
    }
}

fn columns<R: Env + Alloc>(rt: &R) -> u16 {
    match env::var(rt, "COLUMNS") {
        Ok(columns) => width(columns.as_str()),
        Err(_) => COLUMNS,
    }
}

fn width(columns: &str) -> u16 {
    match columns.parse::<u16>() {
        Ok(columns) if columns > 0 => columns,
        _ => COLUMNS,
    }
}

fn dims<R: Env + Alloc>(rt: &R) -> bool {
    !forbids_colour(rt) && knows_codes(rt)
}

// Whether NO_COLOR is set, and not to the empty text.
fn forbids_colour<R: Env + Alloc>(rt: &R) -> bool {
    match env::var(rt, "NO_COLOR") {
        Ok(value) => !value.is_empty(),
        Err(VarError::NotPresent) => false,
        Err(VarError::NotUnicode | VarError::OutOfMemory) => true,
    }
}

fn knows_codes<R: Env + Alloc>(rt: &R) -> bool {
    match env::var(rt, "TERM") {
        Ok(term) => !term.is_empty() && term.as_str() != "dumb",
        Err(_) => false,
    }
}
