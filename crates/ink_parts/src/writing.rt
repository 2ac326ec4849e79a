//! Plain things as JSON values, and as their text.

ghost use Rattle.std.specs.Prelude.{◌≡◌, IfOk};
ghost use Rattle.serde_json.specs.Data.{member, no_members, object, string};
ghost use Rattle.serde_json.specs.View.{view};
ghost use Rattle.ink_model.specs.Protocol.ValueJson.{value_data};
ghost use Rattle.ink_model.specs.Save.Spelling.{kind_data};
ghost use Rattle.ink_model.specs.declared.value.Value.TheVariants.{Pointer, Target};

use crate::members::add_text;
use crate::written::Written;
use ink_model::{FrameKind, Path, Shared, Text, Value};
use ink_path::print_path;
use ink_tokens::{put, write_value};
use ink_tree::Tree;
use json::{Token, Writer};
use serde_json::{Map, Number, Value as Json, put as put_entry};
use std::alloc::{AllocError, Global};

/// A text. The one error is a refused request for memory.
pub(crate) fn write_text(alloc: Global, text: &str) -> Result<Json, AllocError>
    ensures { IfOk result (λ json. view json ≡ string text.now) }
{
    Ok(Json::String(String::from_str(alloc, text)?))
}

impl Written for Shared<Text> {
    ghost spelling = { λ s text. string text };

    fn write(&self, alloc: Global, _tree: &Tree) -> Result<Json, AllocError> {
        write_text(alloc, self.as_str())
    }

    fn put(&self, _alloc: Global, _tree: &Tree, out: &mut Writer) -> Result<(), AllocError> {
        put(out, Token::String(self.as_str()))
    }
}

impl Written for FrameKind {
    ghost spelling = { λ s kind. kind_data kind };

    fn write(&self, alloc: Global, _tree: &Tree) -> Result<Json, AllocError> {
        write_text(alloc, word_of(*self))
    }

    fn put(&self, _alloc: Global, _tree: &Tree, out: &mut Writer) -> Result<(), AllocError> {
        put(out, Token::String(word_of(*self)))
    }
}

// The word for what a frame was pushed for.
fn word_of(kind: FrameKind) -> &'static str
    ensures { string result.now ≡ kind_data kind }
{
    match kind {
        FrameKind::Base => "base",
        FrameKind::Function => "function",
        FrameKind::Tunnel => "tunnel",
    }
}

impl Written for Value {
    ghost spelling = { λ s value. value_data value };

    fn write(&self, alloc: Global, _tree: &Tree) -> Result<Json, AllocError> {
        match self {
            Value::Int(number) => Ok(Json::Number(Number::from(*number))),
            Value::Bool(truth) => Ok(Json::Bool(*truth)),
            Value::Text(text) => write_text(alloc, text.as_str()),
            Value::Target(path) => write_target(alloc, path.get()),
            Value::Pointer(frame, name) => write_pointer(alloc, *frame, name.as_str()),
            Value::Void => Ok(Json::Null),
            Value::Tag(text) => write_member(alloc, "tag", text.as_str()),
        }
    }

    fn put(&self, alloc: Global, _tree: &Tree, out: &mut Writer) -> Result<(), AllocError> {
        write_value(alloc, out, self)
    }
}

// A target. The one error is a refused request for memory.
fn write_target(alloc: Global, path: &Path) -> Result<Json, AllocError>
    ensures { IfOk result (λ json. view json ≡ value_data (Target path.now)) }
{
    let text = print_path(alloc, path)?;
    write_member(alloc, "->", text.as_str())
}

// An object that has one member, a text. The one error is a refused request for memory.
fn write_member(alloc: Global, name: &str, text: &str) -> Result<Json, AllocError>
    ensures { IfOk result (λ json. view json ≡ object (member name.now (string text.now) no_members)) }
{
    let mut members = Map::new(alloc);
    add_text(alloc, &mut members, name, text)?;
    Ok(Json::Object(members))
}

// A pointer: the number of a frame, and a name. The one error is a refused request for memory.
fn write_pointer(alloc: Global, frame: i32, name: &str) -> Result<Json, AllocError>
    ensures { IfOk result (λ json. view json ≡ value_data (Pointer frame name.now)) }
{
    let mut members = Map::new(alloc);
    add_text(alloc, &mut members, "var", name)?;
    put_entry(&mut members, alloc, "ci", Json::Number(Number::from(frame)))?;
    Ok(Json::Object(members))
}
