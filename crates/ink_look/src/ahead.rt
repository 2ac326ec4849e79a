//! What the next step writes, before it is taken (docs/RUNNING.md, "Lines").

ghost use Rattle.std.specs.Prelude.{◌≡◌, not, option_map};
ghost use Rattle.std.specs.List.{list_any};
ghost use Rattle.ink_check.specs.Standing.{story_tree};
ghost use Rattle.ink_model.specs.Run.Ahead as rules;
ghost use Rattle.ink_model.specs.Text.Bytes.{is_white};
ghost use Rattle.ink_step.specs.Parts.{config_of_parts};

use ink_check::Story;
use ink_model::Leaf;
use ink_step::Parts;

/// Whether flow is at a text of more than white, which the next step writes into the line: outside evaluation, and with no string
/// or tag open.
#[inline(always)]
pub(crate) fn writes_words(parts: Parts<'_>, story: &Story) -> bool
    ensures { let s = story_tree story.now in result ≡ rules.writes_words s (config_of_parts s parts.entry) }
{
    if parts.flow.threads.is_evaluating() || parts.output.depth() > 0 {
        return false;
    }
    match parts.flow.threads.place() {
        Some(place) => is_worded(story.tree().leaf_at(place)),
        None => false,
    }
}

/// Whether a content is a text of more than white.
#[inline(always)]
fn is_worded(content: Option<&Leaf>) -> bool
    ensures { result ≡ rules.is_worded (option_map (λ l. l.now) content.entry) }
{
    match content {
        Some(Leaf::Text(text)) => has_words(text.as_str().as_bytes()),
        _ => false,
    }
}

/// Some byte is no space, tab or newline.
#[inline(never)]
fn has_words(bytes: &[u8]) -> bool
    ensures { result ≡ list_any (λ byte. not (is_white byte)) bytes.now }
{
    bytes
        .iter()
        .any(|byte| !matches!(*byte, b' ' | b'\t' | b'\n'))
}
