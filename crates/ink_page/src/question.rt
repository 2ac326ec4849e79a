//! What is shown where a function asks the reader: its name and its arguments.

ghost use Rattle.std.specs.Prelude.{◌≡◌, ◌++◌, [], IfOk, OnOk, string_bytes};
ghost use Rattle.json.specs.Print.{print};
ghost use Rattle.serde_json.specs.Written.{comma_if, compact_text};
ghost use Rattle.ink_model.specs.Protocol.ValueJson.{value_data};
ghost use Rattle.ink_page.specs.Lines.{IsPage};
ghost use Rattle.ink_page.specs.Question.{listed, question_page};

use crate::page::{Look, line_page};
use ink_model::Value;
use ink_tokens::write_value;
use json::Writer;
use std::alloc::{AllocError, Global};

/// A call as it is asked: the function's name, and its arguments in parentheses.
pub(crate) fn question(
    alloc: Global,
    look: Look,
    name: &str,
    arguments: &[Value],
) -> Result<String, AllocError>
    ensures words { IfOk result (λ page. string_bytes page ≡ question_page look name.now arguments.now) }
    ensures lines { IfOk result (λ page. IsPage look.dims look.columns 0 (string_bytes page)) }
{
    let mut text = String::from_str(alloc, name)?;
    text.push_str("(")?;
    put_values(alloc, &mut text, arguments)?;
    text.push_str(")")?;
    line_page(alloc, look, text.as_str(), &[])
}

// Values as JSON with commas between them, behind what is written already.
fn put_values(alloc: Global, text: &mut String, values: &[Value]) -> Result<(), AllocError>
    ensures { OnOk result (string_bytes text.new ≡ string_bytes text.old ++ listed values.now) }
{
    let mut follows = false;
    for value in values {
        put_comma(text, follows)?;
        put_value(alloc, text, value)?;
        follows = true;
    }
    Ok(())
}

// The comma before a value, where another stands before it.
fn put_comma(text: &mut String, follows: bool) -> Result<(), AllocError>
    ensures { OnOk result (string_bytes text.new ≡ string_bytes text.old ++ comma_if follows) }
{
    if follows {
        text.push_str(",")?;
    }
    Ok(())
}

// A value as JSON, behind what is written already.
fn put_value(alloc: Global, text: &mut String, value: &Value) -> Result<(), AllocError>
    ensures { OnOk result (string_bytes text.new ≡ string_bytes text.old ++ compact_text (value_data value.now)) }
{
    let mut out = Writer::new(Vec::new(alloc));
    write_value(alloc, &mut out, value)?;
    text.push_str(printed(out).as_str())
}

// What was written.
fn printed(out: Writer) -> String
    requires { out.before ≡ [] }
    ensures { string_bytes result ≡ print out.tokens }
{
    match String::from_utf8(out.into_inner()) {
        Ok(text) => text,
        Err(_) => unreachable!(),
    }
}
