//! Cutting a written text into marks (docs/TEXT.md, "Cutting").

ghost use Rattle.std.specs.Prelude.{◌≡◌, ◌≢◌, ◌<◌, ◌≤◌, ◌-◌, [], ◌∷◌, ◌++◌, ◌||◌, ◌&&◌, drop, length, map, not, take, IfOk, OnOk, IfSome, is_some, slice_index};
ghost use Rattle.std.specs.List.{list_any, prefix_len, suffix_len};
ghost use Rattle.std.specs.Str.{IsCharBoundary};
ghost use Rattle.ink_model.specs.Text.Mark.{cut, cut_end, piece};
ghost use Rattle.ink_model.specs.Text.Output.{is_text};
ghost use Rattle.ink_model.specs.Text.Bytes.{has_newline, is_blank, is_newline, is_white, leading, trailing, trimmed, without};
ghost use Rattle.ink_model.specs.declared.mark.Mark.{Mark};
ghost use Rattle.ink_out.specs.Cutting.{is_newline_mark, is_space, piece_mark};

use crate::kept::{Form, Kept, Words};
use crate::part::Part;
use ink_model::{Shared, Text};
use smallvec::SmallVec;
use std::alloc::{AllocError, Global};

/// Spaces and tabs, or these and newlines.
#[derive(Clone, Copy)]
enum Space {
    Blank,
    White,
}

impl Space {
    #[inline(always)]
    fn has(self, byte: u8) -> bool
        ensures { result ≡ is_space self byte }
    {
        match self {
            Space::Blank => is_blank(byte),
            Space::White => is_blank(byte) || byte == b'\n',
        }
    }
}

/// What a written text is cut into: pieces, and newlines at its ends. A piece is a text of its own, or a part of the text.
pub(crate) enum Piece {
    Text(Shared<Text>),
    Part(Part),
    Blank(Shared<Text>),
    BlankPart(Part),
    Newline,
}

/// Written out, so that wherever a piece is let go that is one call, and a proof there does not go through its forms.
impl Drop for Piece {
    #[inline(always)]
    fn drop(self) {
        match self {
            Piece::Text(_) => {}
            Piece::Part(_) => {}
            Piece::Blank(_) => {}
            Piece::BlankPart(_) => {}
            Piece::Newline => {}
        }
    }
}

/// The pieces of a text: a piece, a newline, a piece, a newline and a piece at the most, which take no memory.
pub(crate) type Pieces = SmallVec<Piece, 5>;

/// What an empty place among pieces holds.
impl Default for Piece {
    fn default() -> Self {
        Piece::Newline
    }
}

impl Piece {
    /// The piece of a text that has bytes, and no newlines at their ends. The one error is a count of owners that is full.
    #[inline(always)]
    pub(crate) fn whole(text: &Shared<Text>) -> Result<Piece, AllocError>
        ensures { text.now ≢ [] → IfOk result (λ one. piece_mark one ∷ [] ≡ piece text.now) }
    {
        let shared = text.share()?;
        if has_words(text.as_str().as_bytes()) {
            Ok(Piece::Text(shared))
        } else {
            Ok(Piece::Blank(shared))
        }
    }

    /// The piece of such a text that is a part of a longer one, which is not copied. The one error is a count of owners that is
    /// full, or, for a text over 4 GiB, a refused request for memory.
    fn part(alloc: Global, text: &Shared<Text>, from: usize, to: usize) -> Result<Piece, AllocError>
        requires order { from ≤ to }
        requires from { IsCharBoundary text.now from }
        requires to { IsCharBoundary text.now to }
        ensures { take (to - from) (drop from text.now) ≢ [] → IfOk result (λ one. piece_mark one ∷ [] ≡ piece (take (to - from) (drop from text.now))) }
    {
        let Some(part) = Part::of(text, from, to)? else {
            return Piece::copied(alloc, &text.as_str()[from..to]);
        };
        if has_words(part.as_str().as_bytes()) {
            Ok(Piece::Part(part))
        } else {
            Ok(Piece::BlankPart(part))
        }
    }

    // The same of a text that is copied. The one error is a refused request for memory.
    #[cold]
    #[inline(never)]
    fn copied(alloc: Global, text: &str) -> Result<Piece, AllocError>
        ensures { text.now ≢ [] → IfOk result (λ one. piece_mark one ∷ [] ≡ piece text.now) }
    {
        let copy = Shared::new(alloc, Text::from_str(alloc, text)?)?;
        Piece::whole(&copy)
    }

    /// Whether it is a text, and no blanks or newline.
    #[inline(always)]
    pub(crate) fn is_text(&self) -> bool
        ensures { result ≡ is_text (piece_mark self.now) }
    {
        matches!(self, Piece::Text(_) | Piece::Part(_))
    }

    /// Whether it is let through, which a newline is not where the top frame is a `fresh` function.
    #[inline(always)]
    pub(crate) fn is_let_through(&self, fresh: bool) -> bool
        ensures { result ≡ not (fresh && is_newline_mark (piece_mark self.now)) }
    {
        !(fresh && matches!(self, Piece::Newline))
    }

    /// Whether the function is still fresh behind it.
    #[inline(always)]
    pub(crate) fn leaves_fresh(&self, fresh: bool) -> bool
        ensures { result ≡ (fresh && not (is_text (piece_mark self.now))) }
    {
        fresh && !self.is_text()
    }

    /// The mark that it leaves.
    #[inline(always)]
    pub(crate) fn into_mark(self) -> Kept
        ensures { result ≡ piece_mark self }
    {
        let form = match self {
            Piece::Text(text) => Form::Text(Words::Text(text)),
            Piece::Part(part) => Form::Part(part),
            Piece::Blank(text) => Form::Blank(text),
            Piece::BlankPart(part) => Form::BlankPart(part),
            Piece::Newline => Form::Newline,
        };
        Kept { form }
    }
}

/// Whether the white at one of a text's ends holds a newline, so that the text is more than one piece.
#[inline(always)]
pub(crate) fn is_cut(text: &str) -> bool
    requires { 0 < length text.now }
    ensures { result ≡ (has_newline (leading is_white text.now) || has_newline (trailing is_white text.now)) }
{
    let bytes = text.as_bytes();
    let first = bytes[0];
    let last = bytes[bytes.len() - 1];
    if !Space::White.has(first) && !Space::White.has(last) {
        return false;
    }
    split_start(text).is_some() || split_end(text).is_some()
}

/// The pieces of a written text (docs/TEXT.md, "Cutting"). The one error is a refused request for memory, or a count of owners that
/// is full.
pub(crate) fn cut_text(alloc: Global, text: &Shared<Text>) -> Result<Pieces, AllocError>
    ensures { IfOk result (λ pieces. map piece_mark pieces.items ≡ cut text.now) }
{
    let mut pieces = SmallVec::new(alloc);
    push_cut(alloc, &mut pieces, text)?;
    Ok(pieces)
}

/// Adds the pieces of a written text. The one error is as above.
fn push_cut(alloc: Global, pieces: &mut Pieces, text: &Shared<Text>) -> Result<(), AllocError>
    ensures { OnOk result (map piece_mark pieces.new.items ≡ map piece_mark pieces.old.items ++ cut text.now) }
{
    match split_start(text.as_str()) {
        Some((before, after)) => {
            push_line(alloc, pieces, text, 0, before)?;
            push_end(alloc, pieces, text, after)
        }
        None => push_end(alloc, pieces, text, 0),
    }
}

/// Adds the pieces of what follows a white beginning. The one error is as above.
fn push_end(
    alloc: Global,
    pieces: &mut Pieces,
    text: &Shared<Text>,
    from: usize,
) -> Result<(), AllocError>
    requires { IsCharBoundary text.now from }
    ensures { OnOk result (map piece_mark pieces.new.items ≡ map piece_mark pieces.old.items ++ cut_end (drop from text.now)) }
{
    let end = text.as_str().len();
    match split_end(&text.as_str()[from..]) {
        Some((before, after)) => {
            push_line(alloc, pieces, text, from, from + before)?;
            push_piece(alloc, pieces, text, from + after, end)
        }
        None => push_piece(alloc, pieces, text, from, end),
    }
}

/// Adds a piece, and a newline. The one error is as above.
fn push_line(
    alloc: Global,
    pieces: &mut Pieces,
    text: &Shared<Text>,
    from: usize,
    to: usize,
) -> Result<(), AllocError>
    requires order { from ≤ to }
    requires from { IsCharBoundary text.now from }
    requires to { IsCharBoundary text.now to }
    ensures { OnOk result (map piece_mark pieces.new.items ≡ map piece_mark pieces.old.items ++ (piece (take (to - from) (drop from text.now)) ++ Mark.Newline ∷ [])) }
{
    push_piece(alloc, pieces, text, from, to)?;
    pieces.push(Piece::Newline)?;
    Ok(())
}

/// Adds a piece, if it is not empty. The one error is as above.
fn push_piece(
    alloc: Global,
    pieces: &mut Pieces,
    text: &Shared<Text>,
    from: usize,
    to: usize,
) -> Result<(), AllocError>
    requires order { from ≤ to }
    requires from { IsCharBoundary text.now from }
    requires to { IsCharBoundary text.now to }
    ensures { OnOk result (map piece_mark pieces.new.items ≡ map piece_mark pieces.old.items ++ piece (take (to - from) (drop from text.now))) }
{
    if text.as_str()[from..to].is_empty() {
        return Ok(());
    }
    pieces.push(Piece::part(alloc, text, from, to)?)?;
    Ok(())
}

/// Where a text begins with white that holds a newline: where the first newline there stands, and where what follows the last
/// begins.
fn split_start(text: &str) -> Option<(usize, usize)>
    ensures found { is_some result ≡ has_newline (leading is_white text.now) }
    ensures before { IfSome result (λ at. take at.0 text.now ≡ leading is_blank text.now) }
    ensures after { IfSome result (λ at. drop at.1 text.now ≡ trailing is_blank (leading is_white text.now) ++ without is_white text.now) }
    ensures edges { IfSome result (λ at. IsCharBoundary text.now at.0 × IsCharBoundary text.now at.1) }
{
    let first = leading(text, Space::Blank);
    if !is_newline_at(text, first) {
        return None;
    }
    let white = leading(text, Space::White);
    let after = white - trailing(&text[..white], Space::Blank);
    Some((first, after))
}

/// Where a text ends with white that holds a newline: where the first newline there stands, and where what follows the last begins.
fn split_end(text: &str) -> Option<(usize, usize)>
    ensures found { is_some result ≡ has_newline (trailing is_white text.now) }
    ensures before { IfSome result (λ at. take at.0 text.now ≡ trimmed is_white text.now ++ leading is_blank (trailing is_white text.now)) }
    ensures after { IfSome result (λ at. drop at.1 text.now ≡ trailing is_blank text.now) }
    ensures edges { IfSome result (λ at. IsCharBoundary text.now at.0 × IsCharBoundary text.now at.1) }
{
    let after = text.len() - trailing(text, Space::Blank);
    if after == 0 || !is_newline_at(text, after - 1) {
        return None;
    }
    let white = text.len() - trailing(text, Space::White);
    let first = white + leading(&text[white..], Space::Blank);
    Some((first, after))
}

/// How many bytes of a kind a text begins with.
fn leading(text: &str, space: Space) -> usize
    ensures { result ≡ prefix_len (is_space space) text.now }
{
    let bytes = text.as_bytes();
    let mut len = 0;
    while len < bytes.len() {
        if !space.has(bytes[len]) {
            return len;
        }
        len += 1;
    }
    len
}

/// How many bytes of a kind a text ends with.
fn trailing(text: &str, space: Space) -> usize
    ensures { result ≡ suffix_len (is_space space) text.now }
{
    let bytes = text.as_bytes();
    let mut start = bytes.len();
    while start > 0 {
        if !space.has(bytes[start - 1]) {
            return bytes.len() - start;
        }
        start -= 1;
    }
    bytes.len()
}

/// Whether some byte of a text is no blank.
#[inline(always)]
pub(crate) fn has_words(text: &[u8]) -> bool
    ensures { result ≡ list_any (λ byte. not (is_blank byte)) text.now }
{
    for byte in text {
        if !is_blank(*byte) {
            return true;
        }
    }
    false
}

/// Whether a newline stands at a place in a text.
fn is_newline_at(text: &str, at: usize) -> bool
    ensures { result ≡ is_newline (slice_index text.now at) }
{
    at < text.len() && text.as_bytes()[at] == b'\n'
}

/// A space or a tab.
#[inline(always)]
fn is_blank(byte: u8) -> bool
    ensures { result ≡ is_blank byte }
{
    byte == b' ' || byte == b'\t'
}
