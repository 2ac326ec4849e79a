//! The text of a choice (docs/CHOICES.md, "The text").

ghost use Rattle.std.specs.Prelude.{◌≡◌, ◌++◌, [], string_bytes, string_len};
ghost use Rattle.std.specs.List.{prefix_len, suffix_len};
ghost use Rattle.ink_model.specs.Text.Bytes.{is_blank, trimmed, without};
ghost use Rattle.ink_model.specs.Choices.Making.{has_any, trimmed_text};
ghost use Rattle.ink_choice.specs.Outcomes.{MakesWith};

use ink_model::{Fault, MAX_TEXT, Text};

/// Both texts as one, without the blanks at its ends, written into an empty one. `TooDeep` where that is longer than a text may be;
/// `OutOfMemory` for a refused request for memory, which an empty text never makes.
pub(crate) fn joined(empty: String, start: &str, choice_only: &str) -> Result<Text, Fault>
    requires bytes { string_bytes empty ≡ [] }
    requires len { string_len empty ≡ 0 }
    ensures { let text = trimmed_text (start.now ++ choice_only.now) in MakesWith text (has_any text) text result }
{
    let (start, choice_only) = trim_both(start, choice_only);
    let len = start.len() + choice_only.len();
    if len > MAX_TEXT {
        return Err(Fault::TooDeep);
    }
    let mut text = empty;
    text.reserve(len)?;
    text.push_str(start)?;
    text.push_str(choice_only)?;
    Ok(Text::from_string(text))
}

/// Two texts without the blanks at the ends of both together.
fn trim_both<'t>(start: &'t str, choice_only: &'t str) -> (&'t str, &'t str)
    ensures { result.0.now ++ result.1.now ≡ trimmed_text (start.now ++ choice_only.now) }
{
    let start = trim_start(start);
    let choice_only = if start.is_empty() {
        trim_start(choice_only)
    } else {
        choice_only
    };
    let choice_only = trim_end(choice_only);
    let start = if choice_only.is_empty() {
        trim_end(start)
    } else {
        start
    };
    (start, choice_only)
}

/// A text without the blanks that it begins with.
fn trim_start(text: &str) -> &str
    ensures { result.now ≡ without is_blank text.now }
{
    let blanks = leading(text);
    &text[blanks..]
}

/// A text without the blanks that it ends with.
fn trim_end(text: &str) -> &str
    ensures { result.now ≡ trimmed is_blank text.now }
{
    let end = text.len() - trailing(text);
    &text[..end]
}

/// How many blanks a text begins with.
fn leading(text: &str) -> usize
    ensures { result ≡ prefix_len is_blank text.now }
{
    text.as_bytes()
        .iter()
        .take_while(|byte| is_blank(**byte))
        .count()
}

/// How many blanks a text ends with.
fn trailing(text: &str) -> usize
    ensures { result ≡ suffix_len is_blank text.now }
{
    text.as_bytes()
        .iter()
        .rev()
        .take_while(|byte| is_blank(**byte))
        .count()
}

/// A space or a tab.
fn is_blank(byte: u8) -> bool
    ensures { result ≡ is_blank byte }
{
    byte == b' ' || byte == b'\t'
}
