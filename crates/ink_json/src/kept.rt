//! What is kept of a content.

ghost use Rattle.std.specs.Prelude.{◌≡◌, option_map};
ghost use Rattle.ink_json.specs.Kept.{part_at};
ghost use Rattle.ink_json.specs.Order.{key_part};

use crate::key::Key;
use ink_model::{Content, Text};

/// The number of the first name among the parts that lead to contents: indexes are below.
pub(crate) const FIRST_NAME: u32 = 0x8000_0000;

/// The number that stands for no part.
pub(crate) const NO_PART: u32 = 0xffff_ffff;

/// What is kept of a content in few bytes: the content by itself, the number of the content around it, and the number of the part
/// that leads to it from there.
#[derive(Drop)]
pub(crate) struct Kept {
    pub(crate) content: Content,
    pub(crate) holder: u32,
    pub(crate) last: u32,
}

/// The part of a number.
#[inline(always)]
pub(crate) fn part_of_code<'s>(code: u32, names: &'s [Text]) -> Option<Key<'s>>
    ensures { option_map key_part result ≡ part_at names.now code }
{
    if code < FIRST_NAME {
        return Some(Key::Index(code));
    }
    if code == NO_PART {
        return None;
    }
    match names.get((code - FIRST_NAME) as usize) {
        Some(name) => Some(Key::Name(name.as_str())),
        None => Some(Key::Name("")),
    }
}
