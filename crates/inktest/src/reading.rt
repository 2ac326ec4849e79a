//! Reading: the forms of content, and stories that are refused, and some at the limits that are not.

use ink_check::check;
use ink_json::read_story;
use ink_model::choice_flags::{
    has_choice_only_text, has_start_text, is_conditional, is_invisible_default, is_once_only,
};
use ink_model::flags::{counts_at_start, counts_visits, notes_turns};
use ink_model::{Part, ReadRefusal};
use inkcases::{NoAnswer, Report, first_word, number, show_content};

/// `form CONTENT` is answered by what the content is read as, alone in the root's list, and `older CONTENT` by what it is read
/// as in a story of version 20. The others are answered by `read`, or
/// by the refusal and its place, if that is not the root: `story STORY`; `marked STORY`, with a byte order mark in front;
/// `element CONTENT`, in a list; and `root CONTAINER`, which is checked too and `accepted`. `flags NUMBER` is answered by what
/// the flags of a container say, and `choice NUMBER` by those of a choice.
pub(crate) fn answer(said: &mut Report, question: &str) -> Result<(), NoAnswer> {
    let (word, rest) = first_word(question);
    match word {
        "form" => show_form(said, 21, rest),
        "older" => show_form(said, 20, rest),
        "story" => read(said, "", rest, ""),
        "marked" => read(said, "\u{feff}", rest, ""),
        // What stands behind the content is unsupported.
        "element" => read(
            said,
            "{\"inkVersion\":21,\"root\":[[\"^\",",
            rest,
            ",\"POW\",null],null]}",
        ),
        "root" => accept(said, rest),
        "flags" => show_flags(said, number(rest)?),
        "choice" => show_choice_flags(said, number(rest)?),
        _ => Err(NoAnswer::NoQuestion),
    }
}

fn show_flags(said: &mut Report, flags: u8) -> Result<(), NoAnswer> {
    show_word(said, counts_visits(flags), "visits");
    show_word(said, notes_turns(flags), "turns");
    show_word(said, counts_at_start(flags), "start");
    Ok(())
}

fn show_choice_flags(said: &mut Report, flags: u8) -> Result<(), NoAnswer> {
    show_word(said, is_conditional(flags), "condition");
    show_word(said, has_start_text(flags), "start");
    show_word(said, has_choice_only_text(flags), "only");
    show_word(said, is_invisible_default(flags), "default");
    show_word(said, is_once_only(flags), "once");
    Ok(())
}

/// Writes the word of what is so.
fn show_word(said: &mut Report, is_so: bool, word: &str) {
    if is_so {
        said.append(word);
    }
}

/// Reads a story that has a text between two others.
fn read(said: &mut Report, front: &str, text: &str, back: &str) -> Result<(), NoAnswer> {
    let story = format!(in said.alloc(); "{front}{text}{back}")?;
    let outcome = read_story(said.alloc(), story.as_bytes());
    show_outcome(said, &outcome, "read");
    Ok(())
}

fn accept(said: &mut Report, root: &str) -> Result<(), NoAnswer> {
    let story = format!(in said.alloc(); "{{\"inkVersion\":21,\"root\":{root}}}")?;
    let raw = read_story(said.alloc(), story.as_bytes())?;
    let outcome = check(said.alloc(), raw);
    show_outcome(said, &outcome, "accepted");
    Ok(())
}

/// Writes a word, or why a story is refused.
fn show_outcome<S>(said: &mut Report, outcome: &Result<S, ReadRefusal>, word: &str) {
    match outcome {
        Ok(_) => said.put(word),
        Err(refusal) => said.unread(refusal),
    }
}

fn show_form(said: &mut Report, version: u32, form: &str) -> Result<(), NoAnswer> {
    let story = format!(in said.alloc(); "{{\"inkVersion\":{version},\"root\":[{form},null]}}")?;
    let raw = read_story(said.alloc(), story.as_bytes())?;
    show_content(said, raw.at(&[Part::Index(0)]));
    Ok(())
}
