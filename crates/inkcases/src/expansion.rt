//! Long texts in short: `⟦N TEXT⟧` stands for TEXT so many times, where `№` is the number of each time, from 0 on, and
//! `⟦xHH⟧` for the byte with these two digits.

use std::alloc::{AllocError, Global};

/// A text with each form of it in full.
pub fn expanded(alloc: Global, text: &str) -> Result<Vec<u8>, AllocError> {
    let mut bytes = Vec::new(alloc);
    expand(alloc, &mut bytes, text)?;
    Ok(bytes)
}

/// Writes a text behind what is there, each form of it in full.
pub fn expand(alloc: Global, into: &mut Vec<u8>, text: &str) -> Result<(), AllocError> {
    let mut pieces = text.split('⟦');
    if let Some(first) = pieces.next() {
        into.extend_from_slice(first.as_bytes())?;
    }
    for piece in pieces {
        let (form, rest) = piece.split_once('⟧').unwrap_or((piece, ""));
        expand_form(alloc, into, form)?;
        into.extend_from_slice(rest.as_bytes())?;
    }
    Ok(())
}

fn expand_form(alloc: Global, into: &mut Vec<u8>, form: &str) -> Result<(), AllocError> {
    let Some((count, text)) = form.split_once(' ') else {
        return into.extend_from_slice(&[byte_of(form)]);
    };
    let count = count.parse::<usize>().unwrap_or(0);
    if text.contains('№') {
        return numbered(alloc, into, text, count);
    }
    for _ in 0..count {
        into.extend_from_slice(text.as_bytes())?;
    }
    Ok(())
}

/// A text so many times, with the number of each.
fn numbered(alloc: Global, into: &mut Vec<u8>, text: &str, count: usize) -> Result<(), AllocError> {
    for number in 0..count {
        let number = format!(in alloc; "{number}")?;
        push_numbered(into, text, number.as_str())?;
    }
    Ok(())
}

/// A text with a number at each `№`.
fn push_numbered(into: &mut Vec<u8>, text: &str, number: &str) -> Result<(), AllocError> {
    let mut pieces = text.split('№');
    if let Some(first) = pieces.next() {
        into.extend_from_slice(first.as_bytes())?;
    }
    for piece in pieces {
        into.extend_from_slice(number.as_bytes())?;
        into.extend_from_slice(piece.as_bytes())?;
    }
    Ok(())
}

fn byte_of(form: &str) -> u8 {
    match form.strip_prefix('x') {
        Some(digits) => u8::from_str_radix(digits, 16).unwrap_or(0),
        None => 0,
    }
}
