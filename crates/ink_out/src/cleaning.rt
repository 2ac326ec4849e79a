//! The text that is shown, as it is or cleaned (docs/TEXT.md, "Cleaning").

ghost use Rattle.std.specs.Prelude.{◌≡◌, ◌≤◌, ◌<◌, ◌+◌, ℕ, List, [], ◌∷◌, ◌++◌, Bool, true, false, get_or, length, not, take, IfOk, IfSome, IsTrue, OnOk, string_bytes};
ghost use Rattle.std.specs.List.{prefix_len};
ghost use Rattle.std.specs.Str.{IsCharBoundary};
ghost use Rattle.ink_model.specs.Text.Bytes.{is_white};
ghost use Rattle.ink_model.specs.Text.Clean.{clean};
ghost use Rattle.ink_out.specs.Cleaning.{AreWords, Holds, cleaned_on, shown_as, space};

use crate::cutting::has_words;
use ink_model::Text;
use std::alloc::{AllocError, Global};

/// A text, cleaned, in this room where it is enough. The one error is a refused request for memory.
pub(crate) fn cleaned(alloc: Global, room: String, text: &str) -> Result<Text, AllocError>
    requires { string_bytes room ≡ [] }
    ensures { IfOk result (λ cleaned. cleaned ≡ clean text.now) }
{
    let room = room_in(alloc, room, text.len().min(MOST_ROOM))?;
    let mut shown = Shown::new(room, true);
    shown.push_str(text)?;
    Ok(shown.into_text())
}

/// A text of so many bytes at the most asks for memory once. A longer one grows by doubling, since cleaning may leave little of it.
pub(crate) const MOST_ROOM: usize = 4_096;

/// This room, where it is enough for so many bytes, and else one of just that size. The one error is a refused request for memory.
#[inline(always)]
pub(crate) fn room_in(alloc: Global, room: String, len: usize) -> Result<String, AllocError>
    requires { string_bytes room ≡ [] }
    ensures { IfOk result (λ room. string_bytes room ≡ []) }
{
    if len <= room.capacity() {
        return Ok(room);
    }
    drop(room);
    String::with_capacity(alloc, len)
}

/// What stands on a line before a character.
#[derive(Clone, Copy)]
pub(crate) enum Before {
    Nothing,
    Word,
    Gap,
}

/// A text that is made by pieces; where it is cleaned, with what stands on its last line.
#[derive(Drop)]
pub(crate) struct Shown {
    text: String,
    before: Option<Before>,
}

impl Shown {
    /// No text yet, in this room for it.
    #[inline(always)]
    pub(crate) fn new(room: String, cleans: bool) -> Shown
        requires { string_bytes room ≡ [] }
        ensures { Holds cleans result [] }
    {
        let before = if cleans { Some(Before::Nothing) } else { None };
        Shown { text: room, before }
    }

    /// Adds a piece. The one error is a refused request for memory.
    #[inline(always)]
    pub(crate) fn push_str(&mut self, piece: &str) -> Result<(), AllocError>
        ensures { OnOk result ((cleans : Bool) (written : List ℕ) → Holds cleans self.old written → Holds cleans self.new (written ++ piece.now)) }
    {
        match self.before {
            Some(before) => {
                let before = push_cleaned(&mut self.text, before, piece)?;
                self.before = Some(before);
                Ok(())
            }
            None => self.text.push_str(piece),
        }
    }

    /// The text.
    pub(crate) fn into_text(self) -> Text
        ensures { (cleans : Bool) (written : List ℕ) → Holds cleans self written → result ≡ shown_as cleans written }
    {
        Text::from_string(self.text)
    }
}

/// Adds a piece with one space between any two words of a line, and answers what stands on its last line. Words that have one
/// space between them already are added at once. The one error is a refused request for memory.
#[inline(always)]
fn push_cleaned(text: &mut String, mut before: Before, piece: &str) -> Result<Before, AllocError>
    ensures { IfOk result (λ after. (more : List ℕ) → string_bytes text.new ++ cleaned_on after more ≡ string_bytes text.old ++ cleaned_on before (piece.now ++ more)) }
{
    let mut rest = piece;
    while !rest.is_empty() {
        let len = words_len(rest.as_bytes());
        if len > 0 {
            let (words, after) = rest.split_at(len);
            push_words(text, before, words)?;
            before = Before::Word;
            rest = after;
        } else {
            before = push_white(text, before, rest.as_bytes()[0])?;
            rest = &rest[1..];
        }
    }
    Ok(before)
}

/// Adds words, and in front of them the space that a gap leaves. The one error is a refused request for memory.
#[inline(always)]
fn push_words(text: &mut String, before: Before, words: &str) -> Result<(), AllocError>
    ensures { OnOk result (string_bytes text.new ≡ string_bytes text.old ++ space before ++ words.now) }
{
    if let Before::Gap = before {
        text.push_str(" ")?;
    }
    text.push_str(words)
}

/// Goes past a blank or a newline, which is added. The one error is a refused request for memory.
#[inline(always)]
fn push_white(text: &mut String, before: Before, byte: u8) -> Result<Before, AllocError>
    requires { IsTrue (is_white byte) }
    ensures { IfOk result (λ after. (more : List ℕ) → string_bytes text.new ++ cleaned_on after more ≡ string_bytes text.old ++ cleaned_on before (byte ∷ more)) }
{
    if byte == b'\n' {
        text.push_str("\n")?;
        return Ok(Before::Nothing);
    }
    match before {
        Before::Nothing => Ok(Before::Nothing),
        Before::Word => Ok(Before::Gap),
        Before::Gap => Ok(Before::Gap),
    }
}

/// How many bytes a text begins with that are words with one space between any two of them, which cleaning leaves as they are.
#[inline(always)]
fn words_len(text: &[u8]) -> usize
    ensures words { AreWords text.now result }
    ensures none { result ≡ 0 → prefix_len (λ byte. not (is_white byte)) text.now ≡ 0 }
{
    let mut len = word_len(text);
    if len == 0 {
        return 0;
    }
    let mut at = len;
    'words: while at < text.len() {
        let byte = text[at];
        if !is_white(byte) {
            len = at + 1;
        } else if byte != b' ' || at > len {
            return len;
        }
        at += 1;
    }
    len
}

/// Whether a text is such words and no more, or nothing at all: cleaning leaves it as it is.
#[inline(always)]
pub(crate) fn is_clean(text: &str) -> bool
    ensures { result ≡ true → clean text.now ≡ text.now }
{
    words_len(text.as_bytes()) == text.len()
}

/// How many bytes cleaning leaves of a text, where it takes away none but blanks at the end.
#[inline(always)]
pub(crate) fn clean_len(text: &str) -> Option<usize>
    ensures clean { IfSome result (λ len. clean text.now ≡ take len text.now) }
    ensures cut { IfSome result (λ len. IsCharBoundary text.now len) }
{
    let bytes = text.as_bytes();
    let len = words_len(bytes);
    if has_words(&bytes[len..]) {
        return None;
    }
    Some(len)
}

/// How many bytes a text begins with that are no blank and no newline.
#[inline(always)]
fn word_len(text: &[u8]) -> usize
    ensures { result ≡ prefix_len (λ byte. not (is_white byte)) text.now }
{
    let mut at = 0;
    while at < text.len() {
        if is_white(text[at]) {
            return at;
        }
        at += 1;
    }
    at
}

#[inline(always)]
fn is_white(byte: u8) -> bool
    ensures { result ≡ is_white byte }
{
    byte <= b' ' && (byte == b' ' || byte == b'\t' || byte == b'\n')
}
