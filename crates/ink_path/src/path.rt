//! Paths as they are written (docs/STORY_FORMAT.md, "Paths").

ghost use Rattle.std.specs.Prelude.{◌≡◌, ◌≢◌, ◌⊎◌, ◌<◌, length, None, Some, IsSome, is_some, true, [], ◌∷◌, ◌++◌, decimal, map, IfOk, IfErr, OnErr, OnOk, string_bytes};
ghost use Rattle.std.specs.List.{list_all};
ghost use Rattle.ink_model.specs.Text.Bytes.{joined, pieces, is_digit, is_dot};
ghost use Rattle.ink_model.specs.Story.Grammar.{here};
ghost use Rattle.ink_model.specs.Story.Path as rules;
ghost use Rattle.ink_model.specs.declared.fault.Cause.TheVariants.{BadPath, OutOfMemory};
ghost use Rattle.ink_model.specs.declared.place.Part.{Part as Component};
ghost use Rattle.ink_path.specs.Components.{behind_dot, is_relative};
ghost use Rattle.ink_path.specs.Laws.{ReadsBack, dot_before, index_of};

use ink_model::{Cause, Part, Path, ReadRefusal, Seq, Text};
use std::alloc::{AllocError, Global};

// The largest index.
const MAX_INDEX: u32 = 2_147_483_647;

/// Reads a path (docs/STORY_FORMAT.md, "Paths").
///
/// `BadPath` for a text that is none, at the root, which takes no memory; `OutOfMemory` at the root where memory for a path
/// was refused.
pub fn read_path(alloc: Global, text: &str) -> Result<Path, ReadRefusal>
    ensures ok { IfOk result (λ path. rules.read_path text.now ≡ Some path) }
    ensures err { IfErr result (λ refusal. ((refusal ≡ here OutOfMemory) × IsSome (rules.read_path text.now)) ⊎ ((refusal ≡ here BadPath) × (rules.read_path text.now ≡ None))) }
{
    if !is_path(text) {
        return Err(ReadRefusal::at_root(alloc, Cause::BadPath));
    }
    match path_of(alloc, text) {
        Ok(path) => Ok(path),
        Err(_) => Err(ReadRefusal::at_root(alloc, Cause::OutOfMemory)),
    }
}

/// Writes a path as it is spelled: its components joined by dots, and a dot in front of a relative one. A path that was
/// read reads the same from what is written. The one error is a refused request for memory, which an empty text never makes.
pub fn print_path(alloc: Global, path: &Path) -> Result<Text, AllocError>
    ensures text { IfOk result (λ text. text ≡ rules.path_text path.now) }
    ensures memory { OnErr result (rules.path_text path.now ≢ []) }
    ensures reads_back { ReadsBack path.now }
{
    let mut text = String::new(alloc);
    if path.relative {
        text.push('.')?;
    }
    push_parts(alloc, &mut text, path.parts.as_slice())?;
    Ok(Text::from_string(text))
}

/// A dot in front makes a path relative; behind it stand the components.
#[tactic(auto, unfolding(ink_model::specs::Story::Path::read_path))]
pub(crate) fn undotted(text: &str) -> (bool, &str)
    ensures path { rules.read_path text.now ≡ rules.path_with result.0 result.1.now }
    ensures relative { result.0 ≡ is_relative text.now }
    ensures rest { result.1.now ≡ behind_dot text.now }
{
    match text.strip_prefix('.') {
        Some(rest) => (true, rest),
        None => (false, text),
    }
}

// ---- whether a text is a path

fn is_path(text: &str) -> bool
    ensures { result ≡ is_some (rules.read_path text.now) }
{
    let (_, components) = undotted(text);
    are_components(components)
}

// Whether there is a component before each dot and after the last.
fn are_components(text: &str) -> bool
    ensures { result ≡ is_some (rules.components (pieces is_dot text.now)) }
{
    let mut rest = text;
    while let Some((first, others)) = rest.split_once('.') {
        if !is_component(first) {
            return false;
        }
        rest = others;
    }
    is_component(rest)
}

// Digits are an index, where it is not too large, and all else that is not empty is a name.
fn is_component(text: &str) -> bool
    ensures { result ≡ is_some (rules.component text.now) }
{
    if text.is_empty() {
        return false;
    }
    !is_number(text) || index_of(text).is_some()
}

pub(crate) fn is_number(text: &str) -> bool
    ensures { result ≡ list_all is_digit text.now }
{
    text.as_bytes().iter().all(|byte| is_digit(*byte))
}

fn is_digit(byte: u8) -> bool
    ensures { result ≡ is_digit byte }
{
    b'0' <= byte && byte <= b'9'
}

/// The index that digits are; none where it is too large.
pub(crate) fn index_of(digits: &str) -> Option<u32>
    requires filled { 0 < length digits.now }
    requires digits { list_all is_digit digits.now ≡ true }
    ensures { result ≡ index_of digits.now }
{
    match digits.parse::<u32>() {
        Ok(index) if index <= MAX_INDEX => Some(index),
        _ => None,
    }
}

// ---- reading

// The path that a text is.
fn path_of(alloc: Global, text: &str) -> Result<Path, AllocError>
    requires { is_some (rules.read_path text.now) ≡ true }
    ensures { IfOk result (λ path. Some path ≡ rules.read_path text.now) }
{
    let (relative, rest) = undotted(text);
    let parts = components(alloc, rest)?;
    Ok(Path { relative, parts })
}

// The components between the dots, in order.
fn components(alloc: Global, text: &str) -> Result<Seq<Part>, AllocError>
    requires { is_some (rules.components (pieces is_dot text.now)) ≡ true }
    ensures { IfOk result (λ parts. Some parts ≡ rules.components (pieces is_dot text.now)) }
{
    let mut parts = Vec::new(alloc);
    let mut rest = text;
    while let Some((first, others)) = rest.split_once('.') {
        push_component(alloc, &mut parts, first)?;
        rest = others;
    }
    push_component(alloc, &mut parts, rest)?;
    Ok(Seq::from_vec(parts))
}

// The component that a text is, behind others.
#[inline(always)]
fn push_component(alloc: Global, parts: &mut Vec<Part>, text: &str) -> Result<(), AllocError>
    requires { is_some (rules.component text.now) ≡ true }
    ensures { OnOk result ((part : Component) × (Some part ≡ rules.component text.now) × (parts.new.items ≡ parts.old.items ++ part ∷ [])) }
{
    parts.push(component(alloc, text)?)?;
    Ok(())
}

// The component that a text is.
fn component(alloc: Global, text: &str) -> Result<Part, AllocError>
    requires { is_some (rules.component text.now) ≡ true }
    ensures { IfOk result (λ part. Some part ≡ rules.component text.now) }
{
    if is_number(text) {
        Ok(Part::Index(index_of(text).unwrap()))
    } else {
        Ok(Part::Name(Text::from_str(alloc, text)?))
    }
}

// ---- writing

// The components, joined by dots. The one error is a refused request for memory, which is never made where nothing is written.
fn push_parts(alloc: Global, text: &mut String, parts: &[Part]) -> Result<(), AllocError>
    ensures text { OnOk result (string_bytes text.new ≡ string_bytes text.old ++ joined 46 (map rules.part_text parts.now)) }
    ensures memory { OnErr result (joined 46 (map rules.part_text parts.now) ≢ []) }
{
    for (index, part) in parts.iter().enumerate() {
        push_dot(text, index)?;
        push_part(alloc, text, part)?;
    }
    Ok(())
}

// The dot in front of a component, which the first has not.
fn push_dot(text: &mut String, index: usize) -> Result<(), AllocError>
    ensures text { OnOk result (string_bytes text.new ≡ string_bytes text.old ++ dot_before index) }
    ensures memory { OnErr result (0 < index) }
{
    if index > 0 {
        text.push('.')?;
    }
    Ok(())
}

fn push_part(alloc: Global, text: &mut String, part: &Part) -> Result<(), AllocError>
    ensures text { OnOk result (string_bytes text.new ≡ string_bytes text.old ++ rules.part_text part.now) }
    ensures memory { OnErr result (rules.part_text part.now ≢ []) }
{
    match part {
        Part::Index(index) => push_index(alloc, text, *index),
        Part::Name(name) => text.push_str(name.as_str()),
    }
}

// The digits of an index.
fn push_index(alloc: Global, text: &mut String, index: u32) -> Result<(), AllocError>
    ensures text { OnOk result (string_bytes text.new ≡ string_bytes text.old ++ decimal index) }
    ensures memory { OnErr result (decimal index ≢ []) }
{
    let digits = index.to_string(alloc)?;
    text.push_str(digits.as_str())
}
