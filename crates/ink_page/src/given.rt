//! What a reader answers where a story asks (docs/READER.md, "Questions").

ghost use Rattle.std.specs.Prelude.{◌≡◌, IfOk, OnErr};
ghost use Rattle.std.specs.Str.{trim};
ghost use Rattle.ink_page.specs.Given.{Answers, IsText};

use ink_model::Given;
use std::alloc::{AllocError, Global};

/// The value that a line answers: a number of 32 bits, true or false, and else the text. Blanks around it say nothing. The one
/// error is a refused request for memory, which is made only for a text.
pub fn read_given(alloc: Global, line: &str) -> Result<Given, AllocError>
    ensures answers { IfOk result (Answers line.now) }
    ensures memory { OnErr result (IsText (trim line.now)) }
{
    let text = line.trim();
    if text == "true" {
        return Ok(Given::Bool(true));
    }
    if text == "false" {
        return Ok(Given::Bool(false));
    }
    match text.parse::<i32>() {
        Ok(number) => Ok(Given::Int(number)),
        Err(_) => Given::text(alloc, text),
    }
}
