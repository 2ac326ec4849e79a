//! An object, and reading it as a leaf.

ghost use Rattle.std.specs.Prelude.{◌≡◌, option_map};
ghost use Rattle.serde_json.specs.Find.{get};
ghost use Rattle.json_tape.specs.Value.{json_data};
ghost use Rattle.ink_model.specs.Story.Leaves.{object_leaf, is_beyond};
ghost use Rattle.ink_json.specs.Reading.{Reads, placed};
ghost use Rattle.ink_json.specs.Heads.{reading};

use crate::error::{ReadFailure, refused};
use crate::heads::{Found, Head, heads};
use crate::readings::{
    read_choice, read_count, read_external, read_jump, read_pointer, read_store, read_tag,
    read_target, read_variable,
};
use crate::texts::Texts;
use ink_model::{Cause, InkVersion, Leaf};
use json_tape::Marks;
use json_tape::value::Value;
use std::alloc::Global;
use std::marker::Model;

/// An object, and which names its members may have. A contract sees the object.
#[derive(Drop)]
pub(crate) struct Object<'v, 't, 'a> {
    value: &'v Value<'t, 'a>,
    marks: Marks,
}

impl<'v, 't, 'a> Model for Object<'v, 't, 'a> {
    ghost use Rattle.serde_json.specs.Find.{get};
    ghost use Rattle.json_tape.specs.Marks.{AreMarked};
    ghost use Rattle.json_tape.specs.Value.{json_data};
    ghost use Rattle.json_tape.specs.declared.value.Value.{Value as Read};

    ghost Value = { Read };

    ghost view = { λ o. o.value.now };

    ghost invariant = { λ o. AreMarked o.marks (λ name. get name (json_data o.value.now)) };
}

impl<'v, 't, 'a> Object<'v, 't, 'a> {
    fn of(value: &'v Value<'t, 'a>) -> Object<'v, 't, 'a>
        ensures { result ≡ value.now }
    {
        Object {
            value,
            marks: value.marks(),
        }
    }

    /// The last member of this name.
    #[inline(always)]
    pub(crate) fn get(&self, name: &str) -> Option<Value<'t, 'a>>
        ensures { option_map json_data result ≡ get name.now (json_data self.now) }
    {
        if self.marks.may_have(name) {
            self.value.get(name)
        } else {
            None
        }
    }
}

/// The leaf that an object is in a version: it has exactly one head, and none of content that is not supported.
#[inline(never)]
#[tactic(auto, unfolding(ink_model::specs::Story::Leaves::object_leaf))]
pub(crate) fn read_object_leaf(
    alloc: Global,
    texts: &mut Texts,
    version: InkVersion,
    object: &Value<'_, '_>,
) -> Result<Leaf, ReadFailure>
    ensures { Reads (λ l. l) result (placed (object_leaf version (json_data object.now))) }
{
    let object = Object::of(object);
    if is_beyond(version, &object) {
        return Err(refused(alloc, Cause::Unsupported));
    }
    match heads(&object) {
        Found::One(head, value) => read_by(alloc, texts, head, &object, &value),
        Found::Nothing | Found::Several => Err(refused(alloc, Cause::Shape)),
    }
}

/// Whether an object has a head of content that is not supported in a version.
fn is_beyond(version: InkVersion, object: &Object<'_, '_, '_>) -> bool
    ensures { result ≡ is_beyond version (json_data object.now) }
{
    match version {
        InkVersion::V20 => object.get("list").is_some(),
        InkVersion::V21 => object.get("list").is_some() || object.get("#").is_some(),
    }
}

/// The leaf that an object is by this head, which has this value.
fn read_by(
    alloc: Global,
    texts: &mut Texts,
    head: Head,
    object: &Object<'_, '_, '_>,
    value: &Value<'_, '_>,
) -> Result<Leaf, ReadFailure>
    ensures { Reads (λ l. l) result (placed (reading head (json_data object.now) (json_data value.now))) }
{
    match head {
        Head::Jump(jump) => read_jump(alloc, texts, object, value, jump),
        Head::External => read_external(alloc, texts, object, value),
        Head::Choice => read_choice(alloc, texts, object, value),
        Head::Target => read_target(alloc, texts, value),
        Head::Pointer => read_pointer(alloc, texts, object, value),
        Head::Variable => read_variable(alloc, texts, value),
        Head::Count => read_count(alloc, texts, value),
        Head::Tag => read_tag(alloc, texts, value),
        Head::Store(scope) => read_store(alloc, texts, object, value, scope),
    }
}
