//! Lines of texts alone, whose texts are joined before they are cleaned (docs/TEXT.md, "Cleaning").

ghost use Rattle.std.specs.Prelude.{◌≡◌, ◌≢◌, [], ◌∷◌, ◌++◌, true, string_bytes, IfOk, IfSome, OnOk};
ghost use Rattle.std.specs.List.{list_all};
ghost use Rattle.ink_model.specs.Text.Clean.{clean};
ghost use Rattle.ink_model.specs.Text.Output.{is_text};
ghost use Rattle.ink_model.specs.declared.mark.Mark.TheVariants as kinds;
ghost use Rattle.ink_out.specs.Joined.{texts_of};

use crate::cleaning::{MOST_ROOM, Shown, clean_len, room_in};
use crate::kept::{Form, Kept};
use ink_model::Text;
use itoa::Buffer;
use std::alloc::{AllocError, Global};

/// The marks in front of the newline of a line that has texts alone, and how many bytes these texts have at the most.
/// None where that is more than is asked for at once.
pub(crate) fn texts_of_line(marks: &[Kept]) -> Option<(&[Kept], usize)>
    ensures { IfSome result (λ line. (marks.now ≡ line.0.now ++ kinds.Newline ∷ []) × ((line.0.now ≢ []) × (list_all is_text line.0.now ≡ true))) }
{
    let (last, texts) = marks.split_last()?;
    if texts.is_empty() || !is_newline(last) {
        return None;
    }
    let len = texts_len(texts)?;
    if len > MOST_ROOM {
        return None;
    }
    Some((texts, len))
}

/// Texts of so many bytes at the most, with a newline behind them, cleaned, in this room where it is enough. The one error is a
/// refused request for memory, which is made once.
pub(crate) fn joined(
    alloc: Global,
    room: String,
    texts: &[Kept],
    most: usize,
) -> Result<Text, AllocError>
    requires { string_bytes room ≡ [] }
    ensures { IfOk result (λ line. line ≡ clean (texts_of texts.now ++ 10 ∷ [])) }
{
    let mut line = room_in(alloc, room, most.saturating_add(1))?;
    push_texts(&mut line, texts)?;
    match clean_len(line.as_str()) {
        Some(len) => {
            line.truncate(len);
            line.push_str("\n")?;
            Ok(Text::from_string(line))
        }
        None => {
            line.clear();
            cleaned_line(line, texts)
        }
    }
}

/// Adds texts. The one error is a refused request for memory.
#[inline(always)]
fn push_texts(line: &mut String, texts: &[Kept]) -> Result<(), AllocError>
    ensures { OnOk result (string_bytes line.new ≡ string_bytes line.old ++ texts_of texts.now) }
{
    let mut digits = Buffer::new();
    for mark in texts {
        match &mark.form {
            Form::Text(words) => line.push_str(words.as_str(&mut digits))?,
            Form::Part(part) => line.push_str(part.as_str())?,
            _ => {}
        }
    }
    Ok(())
}

/// Texts with a newline behind them, cleaned in this room. The one error is a refused request for memory.
#[inline(never)]
fn cleaned_line(room: String, texts: &[Kept]) -> Result<Text, AllocError>
    requires { string_bytes room ≡ [] }
    ensures { IfOk result (λ line. line ≡ clean (texts_of texts.now ++ 10 ∷ [])) }
{
    let mut shown = Shown::new(room, true);
    let mut digits = Buffer::new();
    for mark in texts {
        match &mark.form {
            Form::Text(words) => shown.push_str(words.as_str(&mut digits))?,
            Form::Part(part) => shown.push_str(part.as_str())?,
            _ => {}
        }
    }
    shown.push_str("\n")?;
    Ok(shown.into_text())
}

/// How many bytes these marks have at the most, where all are texts.
fn texts_len(marks: &[Kept]) -> Option<usize>
    ensures { IfSome result (λ len. list_all is_text marks.now ≡ true) }
{
    let mut len: usize = 0;
    for mark in marks {
        match &mark.form {
            Form::Text(words) => len = len.saturating_add(words.most_len()),
            Form::Part(part) => len = len.saturating_add(part.as_str().len()),
            _ => return None,
        }
    }
    Some(len)
}

#[inline(always)]
pub(crate) fn is_newline(mark: &Kept) -> bool
    ensures { result ≡ true → mark.now ≡ kinds.Newline }
{
    matches!(&mark.form, Form::Newline)
}
