//! The tags among marks (docs/TEXT.md).

ghost use Rattle.std.specs.Prelude.{◌≡◌, [], IfOk, IsOk};
ghost use Rattle.ink_model.specs.Text.Mark.{tags};

use crate::kept::{Form, Kept};
use ink_model::{Seq, Shared, Text};
use std::alloc::AllocError;

/// The tags among marks, in order, in this room for them. The one error is a refused request for memory, which is never made where
/// there are none.
pub(crate) fn tag_texts(
    room: Vec<Shared<Text>>,
    marks: &[Kept],
) -> Result<Seq<Shared<Text>>, AllocError>
    requires { room.items ≡ [] }
    ensures tags { IfOk result (λ texts. texts ≡ tags marks.now) }
    ensures none { tags marks.now ≡ [] → IsOk result }
{
    let mut texts = room;
    for mark in marks {
        if let Form::Tag(text) = &mark.form {
            texts.push(text.share()?)?;
        }
    }
    Ok(Seq::from_vec(texts))
}
