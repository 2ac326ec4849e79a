//! Values.

ghost use Rattle.json_tape.specs.Number.{num};
ghost use Rattle.std.specs.Prelude.{◌≡◌, IfOk, IfSome, OnErr, is_some, option_map, true};
ghost use Rattle.ink_model.specs.Story.Path as rules;
ghost use Rattle.ink_model.specs.Save.Asks.{object_asks, path_asks, pointer_asks, tag_asks, target_asks, value_asks};
ghost use Rattle.ink_model.specs.Save.Unspelled.{number_integer, path_in, pointer_in, tag_in, target_in, value_of};
ghost use Rattle.ink_model.specs.declared.value.Value.TheVariants.{Int};
ghost use Rattle.ink_spelling.specs.Readings.{IsRead, ReadsSame, path_of, value_by};

use crate::members::{alone, next_named, next_spelled};
use crate::plain::{shared_text, small_integer};
use crate::spelled::Spelled;
use ink_model::{Cause, Path, Shared, Text, Value};
use ink_path::{print_path, read_path};
use json_tape::{Json, Kind, Number};
use std::alloc::{AllocError, Global};
use std::marker::Model;

/// A value as it is spelled: a target's path is read from its text. A contract sees the value.
#[derive(Drop)]
pub struct SavedValue {
    value: Value,
}

impl Model for SavedValue {
    ghost use Rattle.ink_model.specs.declared.value.Value as model;
    ghost use Rattle.ink_spelling.specs.Readings.{IsRead};

    ghost Value = { model.Value };

    ghost view = { λ v. v.value };

    ghost invariant = { λ v. IsRead v.value };
}

impl SavedValue {
    /// The value.
    pub fn get(&self) -> &Value
        ensures value { result.now ≡ self.now }
        ensures read { IsRead self.now }
    {
        &self.value
    }
}

impl Spelled for SavedValue {
    ghost spelled = { λ j. value_of j };

    ghost asks = { λ j. value_asks j };

    fn read<J: Json>(alloc: Global, json: J) -> Result<Option<SavedValue>, AllocError> {
        match read_value::<J>(alloc, json)? {
            Some(value) => Ok(Some(SavedValue { value })),
            None => Ok(None),
        }
    }
}

// The value that a JSON value spells. The one error is a refused request for memory.
fn read_value<J: Json>(alloc: Global, json: J) -> Result<Option<Value>, AllocError>
    ensures value { IfOk result (λ value. value ≡ value_of (J.spells json)) }
    ensures read { IfOk result (λ value. IfSome value IsRead) }
    ensures memory { OnErr result (value_asks (J.spells json) ≡ true) }
{
    match json.kind() {
        Kind::Null => Ok(Some(Value::Void)),
        Kind::Bool(truth) => Ok(Some(Value::Bool(truth))),
        Kind::Number(number) => Ok(whole(number)),
        Kind::String(text) => Ok(Some(Value::Text(shared_text(alloc, text)?))),
        Kind::Array(_) => Ok(None),
        Kind::Object(members) => read_members::<J>(alloc, members),
    }
}

// The integer that a number is.
fn whole(number: Number) -> Option<Value>
    ensures value { result ≡ option_map (λ z. Int z) (number_integer (num number)) }
    ensures read { IfSome result IsRead }
{
    match small_integer(number) {
        Some(integer) => Some(Value::Int(integer)),
        None => None,
    }
}

// The value that an object spells: a target, a pointer or a tag. The one error is a refused request for memory.
fn read_members<J: Json>(alloc: Global, members: J::Members) -> Result<Option<Value>, AllocError>
    ensures value { IfOk result (λ value. value ≡ value_by (J.members members)) }
    ensures read { IfOk result (λ value. IfSome value IsRead) }
    ensures memory { OnErr result (object_asks (J.members members) ≡ true) }
{
    if let Some(target) = read_target::<J>(alloc, J::again(&members))? {
        return Ok(Some(target));
    }
    if let Some(pointer) = read_pointer::<J>(alloc, J::again(&members))? {
        return Ok(Some(pointer));
    }
    read_tag::<J>(alloc, members)
}

fn read_target<J: Json>(alloc: Global, members: J::Members) -> Result<Option<Value>, AllocError>
    ensures value { IfOk result (λ target. target ≡ target_in (J.members members)) }
    ensures read { IfOk result (λ target. IfSome target IsRead) }
    ensures memory { OnErr result (target_asks (J.members members) ≡ true) }
{
    let mut rest = members;
    let Some(json) = next_named::<J>(&mut rest, "->") else {
        return Ok(None);
    };
    let Some(path) = read_spelled::<J>(alloc, json)? else {
        return Ok(None);
    };
    Ok(alone::<J, _>(&mut rest, Value::Target(path)))
}

fn read_pointer<J: Json>(alloc: Global, members: J::Members) -> Result<Option<Value>, AllocError>
    ensures value { IfOk result (λ pointer. pointer ≡ pointer_in (J.members members)) }
    ensures read { IfOk result (λ pointer. IfSome pointer IsRead) }
    ensures memory { OnErr result (pointer_asks (J.members members) ≡ true) }
{
    let mut rest = members;
    let Some(frame) = next_spelled::<J, i32>(alloc, &mut rest, "ci")? else {
        return Ok(None);
    };
    let Some(name) = next_spelled::<J, Shared<Text>>(alloc, &mut rest, "var")? else {
        return Ok(None);
    };
    Ok(alone::<J, _>(&mut rest, Value::Pointer(frame, name)))
}

fn read_tag<J: Json>(alloc: Global, members: J::Members) -> Result<Option<Value>, AllocError>
    ensures value { IfOk result (λ tag. tag ≡ tag_in (J.members members)) }
    ensures read { IfOk result (λ tag. IfSome tag IsRead) }
    ensures memory { OnErr result (tag_asks (J.members members) ≡ true) }
{
    let mut rest = members;
    let Some(text) = next_spelled::<J, Shared<Text>>(alloc, &mut rest, "tag")? else {
        return Ok(None);
    };
    Ok(alone::<J, _>(&mut rest, Value::Tag(text)))
}

// The path that a JSON value spells as paths are printed. The one error is a refused request for memory.
fn read_spelled<J: Json>(alloc: Global, json: J) -> Result<Option<Shared<Path>>, AllocError>
    ensures path { IfOk result (λ path. path ≡ path_in (J.spells json)) }
    ensures read { IfOk result (λ path. IfSome path ReadsSame) }
    ensures memory { OnErr result (path_asks (J.spells json) ≡ true) }
{
    match json.kind() {
        Kind::String(text) => shared_path(alloc, text),
        Kind::Null | Kind::Bool(_) | Kind::Number(_) | Kind::Array(_) | Kind::Object(_) => {
            Ok(None)
        }
    }
}

fn shared_path(alloc: Global, text: &str) -> Result<Option<Shared<Path>>, AllocError>
    ensures path { IfOk result (λ path. path ≡ path_of text.now) }
    ensures read { IfOk result (λ path. IfSome path ReadsSame) }
    ensures memory { OnErr result (is_some (rules.read_path text.now) ≡ true) }
{
    match spelled_path(alloc, text)? {
        Some(path) => Ok(Some(Shared::new(alloc, path)?)),
        None => Ok(None),
    }
}

// The path that a text spells as paths are printed. The one error is a refused request for memory.
fn spelled_path(alloc: Global, text: &str) -> Result<Option<Path>, AllocError>
    ensures path { IfOk result (λ path. path ≡ path_of text.now) }
    ensures read { IfOk result (λ path. IfSome path ReadsSame) }
    ensures memory { OnErr result (is_some (rules.read_path text.now) ≡ true) }
{
    let Some(path) = any_path(alloc, text)? else {
        return Ok(None);
    };
    let printed = print_path(alloc, &path)?;
    if printed.as_str() == text {
        Ok(Some(path))
    } else {
        Ok(None)
    }
}

// The path that a text is, however it is spelled. The one error is a refused request for memory.
fn any_path(alloc: Global, text: &str) -> Result<Option<Path>, AllocError>
    ensures path { IfOk result (λ path. path ≡ rules.read_path text.now) }
    ensures memory { OnErr result (is_some (rules.read_path text.now) ≡ true) }
{
    match read_path(alloc, text) {
        Ok(path) => Ok(Some(path)),
        Err(refusal) => match refusal.cause {
            Cause::OutOfMemory => Err(AllocError),
            _ => Ok(None),
        },
    }
}
