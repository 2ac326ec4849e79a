//! Values.

ghost use Rattle.std.specs.Prelude.{◌≡◌, [], ◌∷◌, OnOk, codes};
ghost use Rattle.json.specs.Token as tokens;
ghost use Rattle.serde_json.specs.Data.{number};
ghost use Rattle.serde_json.specs.Find.{of_integer};
ghost use Rattle.ink_model.specs.Protocol.ValueJson.{value_data};
ghost use Rattle.ink_model.specs.declared.value.Value.TheVariants as variants;
ghost use Rattle.ink_tokens.specs.Tokens.{Added, data_tokens};

use crate::tokens::{put, put_integer, put_text};
use ink_model::{Path, Text, Value};
use ink_path::print_path;
use json::{Token, Writer};
use std::alloc::{AllocError, Global};

/// A value. The one error is a refused request for memory.
pub fn write_value(alloc: Global, out: &mut Writer, value: &Value) -> Result<(), AllocError>
    ensures { OnOk result (Added out.old out.new (data_tokens (value_data value.now))) }
{
    match value {
        Value::Int(number) => put_integer(out, *number),
        Value::Bool(truth) => put(out, Token::Bool(*truth)),
        Value::Text(text) => put(out, Token::String(text.get().as_str())),
        Value::Target(path) => write_target(alloc, out, path.get()),
        Value::Pointer(frame, name) => write_pointer(out, *frame, name.get()),
        Value::Void => put(out, Token::Null),
        Value::Tag(text) => put_object(out, "tag", text.get().as_str()),
    }
}

fn write_target(alloc: Global, out: &mut Writer, path: &Path) -> Result<(), AllocError>
    ensures { OnOk result (Added out.old out.new (data_tokens (value_data (variants.Target path.now)))) }
{
    let text = print_path(alloc, path)?;
    put_object(out, "->", text.as_str())
}

fn write_pointer(out: &mut Writer, frame: i32, name: &Text) -> Result<(), AllocError>
    ensures { OnOk result (Added out.old out.new (data_tokens (value_data (variants.Pointer frame name.now)))) }
{
    put(out, Token::BeginObject)?;
    put_frame(out, frame)?;
    put_text(out, "var", name.as_str())?;
    put(out, Token::EndObject)
}

// The member with a pointer's frame.
#[inline(always)]
fn put_frame(out: &mut Writer, frame: i32) -> Result<(), AllocError>
    ensures { OnOk result (Added out.old out.new (tokens.key (codes "ci") ∷ data_tokens (number (of_integer frame)))) }
{
    put(out, Token::Key("ci"))?;
    put_integer(out, frame)
}

// An object that has one member, which is a text.
#[inline(always)]
fn put_object(out: &mut Writer, name: &str, text: &str) -> Result<(), AllocError>
    ensures { OnOk result (Added out.old out.new (tokens.begin_object ∷ tokens.key name.now ∷ tokens.string text.now ∷ tokens.end_object ∷ [])) }
{
    put(out, Token::BeginObject)?;
    put_text(out, name, text)?;
    put(out, Token::EndObject)
}
