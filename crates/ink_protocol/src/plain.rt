//! Bytes that stand in a JSON string as they are: no quote, no backslash, and no control character.

ghost use Rattle.std.specs.Prelude.{◌≡◌, ◌+◌, ◌≤◌, length};
ghost use Rattle.std.specs.Bool.{OnTrue};
ghost use Rattle.json.specs.Print.{escape};
ghost use Rattle.json.specs.Written.{PlainBetween};

use std::simd::prelude::*;

/// Whether these bytes stand in a JSON string as they are.
pub(crate) fn is_plain(bytes: &[u8]) -> bool
    ensures { OnTrue result (escape bytes.now ≡ bytes.now) }
{
    if bytes.len() < 16 {
        are_few_plain(bytes)
    } else {
        are_many_plain(bytes)
    }
}

// A few, one after another.
fn are_few_plain(bytes: &[u8]) -> bool
    ensures { OnTrue result (PlainBetween bytes.now 0 (length bytes.now)) }
{
    for &byte in bytes {
        if byte == b'"' || byte == b'\\' || byte < b' ' {
            return false;
        }
    }
    true
}

// Sixteen at a time; of the last sixteen some may have been seen before.
fn are_many_plain(bytes: &[u8]) -> bool
    requires { 16 ≤ length bytes.now }
    ensures { OnTrue result (PlainBetween bytes.now 0 (length bytes.now)) }
{
    let mut at = 0;
    while bytes.len() - at > 16 {
        if !are_plain_from(bytes, at) {
            return false;
        }
        at += 16;
    }
    are_plain_from(bytes, bytes.len() - 16)
}

// Sixteen from a place on.
fn are_plain_from(bytes: &[u8], at: usize) -> bool
    requires { at + 16 ≤ length bytes.now }
    ensures { OnTrue result (PlainBetween bytes.now at (at + 16)) }
{
    let lanes = u8x16::from_slice(&bytes[at..]);
    let marked = lanes.simd_eq(u8x16::splat(b'"'))
        | lanes.simd_eq(u8x16::splat(b'\\'))
        | lanes.simd_lt(u8x16::splat(b' '));
    marked.to_bitmask() == 0
}
