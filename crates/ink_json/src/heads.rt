//! The heads of an object, which say what it is.

ghost use Rattle.std.specs.Prelude.{◌++◌};
ghost use Rattle.json_tape.specs.Value.{json_data};
ghost use Rattle.ink_model.specs.Story.Leaves.{by_head, jump_readings, value_readings, store_readings};
ghost use Rattle.ink_json.specs.Heads.{Counts, Adds, reading};

use crate::object::Object;
use crate::readings::Jump;
use ink_model::Scope;
use json_tape::value::Value;

/// The key that says what an object is.
#[derive(Clone, Copy)]
pub(crate) enum Head {
    Jump(Jump),
    External,
    Choice,
    Target,
    Pointer,
    Variable,
    Count,
    Tag,
    Store(Scope),
}

/// The heads that were found in an object; where it is one, with its value.
#[derive(Drop)]
pub(crate) enum Found<'t, 'a> {
    Nothing,
    One(Head, Value<'t, 'a>),
    Several,
}

/// The heads of an object.
pub(crate) fn heads<'t, 'a>(object: &Object<'_, 't, 'a>) -> Found<'t, 'a>
    ensures { Counts result (json_data object.now) (jump_readings (json_data object.now) ++ (value_readings (json_data object.now) ++ store_readings (json_data object.now))) }
{
    let found = Found::Nothing;
    let found = add_jumps(found, object);
    let found = add_values(found, object);
    add_stores(found, object)
}

#[tactic(auto, unfolding(ink_model::specs::Story::Leaves::jump_readings))]
fn add_jumps<'t, 'a>(found: Found<'t, 'a>, object: &Object<'_, 't, 'a>) -> Found<'t, 'a>
    ensures { Adds jump_readings found.entry (json_data object.now) result }
{
    let found = add(found, object, "->", Head::Jump(Jump::Divert));
    let found = add(found, object, "f()", Head::Jump(Jump::Call));
    let found = add(found, object, "->t->", Head::Jump(Jump::Tunnel));
    let found = add(found, object, "x()", Head::External);
    add(found, object, "*", Head::Choice)
}

#[tactic(auto, unfolding(ink_model::specs::Story::Leaves::value_readings))]
fn add_values<'t, 'a>(found: Found<'t, 'a>, object: &Object<'_, 't, 'a>) -> Found<'t, 'a>
    ensures { Adds value_readings found.entry (json_data object.now) result }
{
    let found = add(found, object, "^->", Head::Target);
    let found = add(found, object, "^var", Head::Pointer);
    let found = add(found, object, "VAR?", Head::Variable);
    let found = add(found, object, "CNT?", Head::Count);
    add(found, object, "#", Head::Tag)
}

#[tactic(auto, unfolding(ink_model::specs::Story::Leaves::store_readings))]
fn add_stores<'t, 'a>(found: Found<'t, 'a>, object: &Object<'_, 't, 'a>) -> Found<'t, 'a>
    ensures { Adds store_readings found.entry (json_data object.now) result }
{
    let found = add(found, object, "VAR=", Head::Store(Scope::Global));
    add(found, object, "temp=", Head::Store(Scope::Temporary))
}

/// The heads found before, and this one where the object has it.
#[inline(always)]
fn add<'t, 'a>(
    found: Found<'t, 'a>,
    object: &Object<'_, 't, 'a>,
    key: &str,
    head: Head,
) -> Found<'t, 'a>
    ensures { Adds (by_head key.now (reading head)) found.entry (json_data object.now) result }
{
    let Some(value) = object.get(key) else {
        return found;
    };
    match found {
        Found::Nothing => Found::One(head, value),
        Found::One(_, _) | Found::Several => Found::Several,
    }
}
