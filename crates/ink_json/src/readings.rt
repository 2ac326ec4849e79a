//! The leaf that an object is by a head, with the options of that.

ghost use Rattle.std.specs.Prelude.{◌≡◌, List, ℕ, if◌then◌else◌, IfOk};
ghost use Rattle.serde_json.specs.Find.{as_str};
ghost use Rattle.json_tape.specs.Value.{json_data};
ghost use Rattle.ink_model.specs.Story.Leaves.{read_jump, read_external, read_choice, plain_leaf, read_pointer, read_store, pointer_to, pointer_frame, tag_leaf};
ghost use Rattle.ink_model.specs.declared.content.Leaf.{Leaf};
ghost use Rattle.ink_json.specs.Heads.{jumps, declares, assigns};
ghost use Rattle.ink_json.specs.Reading.{Reads, placed};

use crate::error::{ReadFailure, refused};
use crate::limits::MOST;
use crate::object::Object;
use crate::options::{frame, is_on, whole_or};
use crate::texts::Texts;
use ink_model::{Cause, Destination, Leaf, MAX_TEXT, Scope, Shared, Text};
use json_tape::value::Value;
use std::alloc::Global;

/// The flags of a choice that gives none.
const DEFAULT_FLAGS: u64 = 16;

/// How a jump leads on.
#[derive(Clone, Copy)]
pub(crate) enum Jump {
    Divert,
    Call,
    Tunnel,
}

/// A jump, which may pop a condition.
pub(crate) fn read_jump(
    alloc: Global,
    texts: &mut Texts,
    object: &Object<'_, '_, '_>,
    head: &Value<'_, '_>,
    jump: Jump,
) -> Result<Leaf, ReadFailure>
    ensures { Reads (λ l. l) result (placed (read_jump (jumps jump) (json_data object.now) (json_data head.now))) }
{
    let (Some(target), Some(by_variable), Some(conditional)) = (
        head.as_str(),
        is_on(object.get("var")),
        is_on(object.get("c")),
    ) else {
        return Err(refused(alloc, Cause::Shape));
    };
    let target = texts.keep(target)?;
    let to = if by_variable {
        Destination::Variable(target)
    } else {
        Destination::Path(target)
    };
    Ok(jump_leaf(jump, to, conditional))
}

fn jump_leaf(jump: Jump, to: Destination, conditional: bool) -> Leaf
    ensures { result ≡ jumps jump to conditional }
{
    match jump {
        Jump::Divert => Leaf::Divert { to, conditional },
        Jump::Call => Leaf::Call { to, conditional },
        Jump::Tunnel => Leaf::Tunnel { to, conditional },
    }
}

/// A call of an external function.
pub(crate) fn read_external(
    alloc: Global,
    texts: &mut Texts,
    object: &Object<'_, '_, '_>,
    head: &Value<'_, '_>,
) -> Result<Leaf, ReadFailure>
    ensures { Reads (λ l. l) result (placed (read_external (json_data object.now) (json_data head.now))) }
{
    let (Some(name), Some(arguments), Some(conditional)) = (
        head.as_str(),
        whole_or(0, object.get("exArgs")),
        is_on(object.get("c")),
    ) else {
        return Err(refused(alloc, Cause::Shape));
    };
    if arguments as i128 > MOST {
        return Err(refused(alloc, Cause::Limit));
    }
    Ok(Leaf::External {
        name: texts.keep(name)?,
        arguments: arguments as u32,
        conditional,
    })
}

pub(crate) fn read_choice(
    alloc: Global,
    texts: &mut Texts,
    object: &Object<'_, '_, '_>,
    head: &Value<'_, '_>,
) -> Result<Leaf, ReadFailure>
    ensures { Reads (λ l. l) result (placed (read_choice (json_data object.now) (json_data head.now))) }
{
    match (head.as_str(), whole_or(DEFAULT_FLAGS, object.get("flg"))) {
        (Some(target), Some(flags)) if flags < 32 => Ok(Leaf::Choice {
            target: texts.keep(target)?,
            flags: flags as u8,
        }),
        _ => Err(refused(alloc, Cause::Shape)),
    }
}

/// A pointer to a variable. Frames are -1, 0 and above.
pub(crate) fn read_pointer(
    alloc: Global,
    texts: &mut Texts,
    object: &Object<'_, '_, '_>,
    head: &Value<'_, '_>,
) -> Result<Leaf, ReadFailure>
    ensures { Reads (λ l. l) result (placed (read_pointer (json_data object.now) (json_data head.now))) }
{
    match (head.as_str(), frame(object.get("ci"))) {
        (Some(name), Some(frame)) => point(alloc, texts, name, frame),
        _ => Err(refused(alloc, Cause::Shape)),
    }
}

fn point(alloc: Global, texts: &mut Texts, name: &str, frame: i128) -> Result<Leaf, ReadFailure>
    ensures { Reads (λ l. l) result (placed (pointer_to name.now (pointer_frame frame))) }
{
    if frame < -1 {
        return Err(refused(alloc, Cause::Shape));
    }
    if frame > MOST {
        return Err(refused(alloc, Cause::Limit));
    }
    let name = texts.keep(name)?;
    Ok(Leaf::Pointer(name, frame as i32))
}

/// A variable stored to, which is declared, or assigned where it is there already.
pub(crate) fn read_store(
    alloc: Global,
    texts: &mut Texts,
    object: &Object<'_, '_, '_>,
    head: &Value<'_, '_>,
    scope: Scope,
) -> Result<Leaf, ReadFailure>
    ensures { Reads (λ l. l) result (placed (read_store (declares scope) (assigns scope) (json_data object.now) (json_data head.now))) }
{
    let (Some(name), Some(again)) = (head.as_str(), is_on(object.get("re"))) else {
        return Err(refused(alloc, Cause::Shape));
    };
    Ok(store_leaf(scope, again, texts.keep(name)?))
}

fn store_leaf(scope: Scope, again: bool, name: Shared<Text>) -> Leaf
    ensures { result ≡ (if again then assigns scope name else declares scope name) }
{
    match (scope, again) {
        (Scope::Global, false) => Leaf::Declare(name),
        (Scope::Global, true) => Leaf::Assign(name),
        (Scope::Temporary, false) => Leaf::DeclareTemp(name),
        (Scope::Temporary, true) => Leaf::AssignTemp(name),
    }
}

pub(crate) fn read_target(
    alloc: Global,
    texts: &mut Texts,
    head: &Value<'_, '_>,
) -> Result<Leaf, ReadFailure>
    ensures { Reads (λ l. l) result (placed (plain_leaf Leaf.Target (as_str (json_data head.now)))) }
{
    Ok(Leaf::Target(read_name(alloc, texts, head)?))
}

pub(crate) fn read_variable(
    alloc: Global,
    texts: &mut Texts,
    head: &Value<'_, '_>,
) -> Result<Leaf, ReadFailure>
    ensures { Reads (λ l. l) result (placed (plain_leaf Leaf.Variable (as_str (json_data head.now)))) }
{
    Ok(Leaf::Variable(read_name(alloc, texts, head)?))
}

pub(crate) fn read_count(
    alloc: Global,
    texts: &mut Texts,
    head: &Value<'_, '_>,
) -> Result<Leaf, ReadFailure>
    ensures { Reads (λ l. l) result (placed (plain_leaf Leaf.Count (as_str (json_data head.now)))) }
{
    Ok(Leaf::Count(read_name(alloc, texts, head)?))
}

/// A tag that is given whole.
pub(crate) fn read_tag(
    alloc: Global,
    texts: &mut Texts,
    head: &Value<'_, '_>,
) -> Result<Leaf, ReadFailure>
    ensures { Reads (λ l. l) result (placed (tag_leaf (as_str (json_data head.now)))) }
{
    match head.as_str() {
        Some(text) if text.len() <= MAX_TEXT => Ok(Leaf::Tag(texts.keep(text)?)),
        Some(_) => Err(refused(alloc, Cause::Limit)),
        None => Err(refused(alloc, Cause::Shape)),
    }
}

/// The name or the path that a head has for its value.
fn read_name(
    alloc: Global,
    texts: &mut Texts,
    head: &Value<'_, '_>,
) -> Result<Shared<Text>, ReadFailure>
    ensures { (make : List ℕ → Leaf) → Reads make result (placed (plain_leaf make (as_str (json_data head.now)))) }
{
    match head.as_str() {
        Some(name) => Ok(texts.keep(name)?),
        None => Err(refused(alloc, Cause::Shape)),
    }
}
