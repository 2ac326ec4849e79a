//! Reading content, into the list of a story's nodes.

ghost use Rattle.std.specs.Prelude.{◌≡◌, ◌+◌, ◌++◌, ◌≤◌, ◌<◌, ◌^◌, ℕ, List, [], length, IfOk, IfErr, OnOk, Some, Result, map, true, false};
ghost use Rattle.std.specs.Result.{result_unwrap_or};
ghost use Rattle.serde_json.specs.Data.{array as json_array, item};
ghost use Rattle.json_tape.specs.Size.{size, items_size, members_size};
ghost use Rattle.json_tape.specs.Value.{json_data, items_left, members_data};
ghost use Rattle.ink_model.specs.Story.Grammar.{content, content_of, tree_of, keyed_in, keyed_last, faults, faults_inside, faults_keyed, faults_by, keyed_by, first, leaf_faults, under, own_after};
ghost use Rattle.ink_model.specs.Story.Tree.{count, leaf};
ghost use Rattle.ink_model.specs.Story.View.{count_keys};
ghost use Rattle.ink_model.specs.declared.fault.Cause.{Cause as Reason};
ghost use Rattle.ink_model.specs.declared.content.Leaf.{Leaf as AnyLeaf};
ghost use Rattle.ink_model.specs.declared.place.Part.TheVariants.{Index, Name};
ghost use Rattle.ink_json.specs.Listing.{Lists, ListsByKey, nodes_from, nodes_inside};
ghost use Rattle.ink_json.specs.Reading.{Reads, IsFirst, Holds, faults_named, placed};
ghost use Rattle.ink_json.specs.Size.{FitsLimits};

use crate::error::{ReadFailure, at_index, at_name, refused};
use crate::last::Last;
use crate::leaf::{read_number, read_string, word_in};
use crate::names::Given;
use crate::nodes::Nodes;
use crate::object::read_object_leaf;
use crate::own::{copy_name, has_names, is_own, label_of, read_own};
use crate::texts::Texts;
use ink_model::{Cause, Content, InkVersion, Leaf, MAX_NESTING};
use json_tape::value::{Items, Kind, Value};
use std::alloc::Global;
use std::collections::BTreeMap;

/// What content is read in: a story of which version, and how deep.
#[derive(Clone, Copy)]
pub(crate) struct Context {
    pub version: InkVersion,
    pub nesting: usize,
}

impl Context {
    /// The context of what is in a container that is read in this one.
    fn inside(self) -> Context
        requires { self.nesting ≤ MAX_NESTING }
        ensures version { result.version ≡ self.version }
        ensures nesting { result.nesting ≡ self.nesting + 1 }
    {
        Context {
            version: self.version,
            nesting: self.nesting + 1,
        }
    }
}

/// Where content stands that is read: in which container and by which part, in which context, whether in a list or by a key, and
/// whether its name rules it out there.
#[derive(Drop)]
pub(crate) struct Position<'k> {
    pub holder: u32,
    pub last: Last<'k>,
    pub context: Context,
    pub listed: bool,
    pub misnamed: bool,
}

/// What was read of a list: how many contents stand there, the names given there, and the last element.
#[derive(Drop)]
struct Elements<'t, 'a> {
    width: u32,
    names: Given<'a>,
    last: Value<'t, 'a>,
}

/// How much is in a container: contents by index, and containers by key.
#[derive(Clone, Copy)]
struct Inside {
    width: u32,
    keys: u32,
}

/// Content in list position.
#[cycle(content)]
fn read_content(
    alloc: Global,
    texts: &mut Texts,
    nodes: &mut Nodes,
    value: &Value<'_, '_>,
    position: Position<'_>,
) -> Result<(), ReadFailure>
    requires fits { FitsLimits position.context.nesting (json_data value.now) }
    requires room { length nodes.old + size (json_data value.now) < 2 ^ 31 }
    ensures { Lists nodes.old nodes.new position.entry.holder position.entry.last result
        (content position.entry.context.version position.entry.context.nesting position.entry.misnamed position.entry.listed (json_data value.now)) }
{
    match value.kind() {
        Kind::Array(items) => read_container(alloc, texts, nodes, value, items, position),
        Kind::String(text) => list_leaf(alloc, nodes, position, read_string(alloc, texts, text)),
        Kind::Bool(truth) => list_leaf(alloc, nodes, position, Ok(Leaf::Bool(truth))),
        Kind::Number(number) => list_leaf(alloc, nodes, position, read_number(alloc, number)),
        Kind::Object => {
            let read = read_object_leaf(alloc, texts, position.context.version, value);
            list_leaf(alloc, nodes, position, read)
        }
        Kind::Null => Err(refused(alloc, Cause::Shape)),
    }
}

/// Content that holds no other, where it was read.
#[inline(always)]
fn list_leaf(
    alloc: Global,
    nodes: &mut Nodes,
    position: Position<'_>,
    read: Result<Leaf, ReadFailure>,
) -> Result<(), ReadFailure>
    requires room { length nodes.old + 1 < 2 ^ 31 }
    ensures { (leaf_or : Result AnyLeaf Reason) → Reads (λ l. l) read (placed leaf_or)
        → Lists nodes.old nodes.new position.entry.holder position.entry.last result
        (first (leaf_faults leaf_or) (leaf (result_unwrap_or leaf_or Leaf.Newline))) }
{
    let leaf = read?;
    nodes.push(alloc, position.holder, position.last, Content::Leaf(leaf))?;
    Ok(())
}

/// A container that has these items; one in list position has the name that it gives itself.
#[cycle(content)]
pub(crate) fn read_container(
    alloc: Global,
    texts: &mut Texts,
    nodes: &mut Nodes,
    array: &Value<'_, '_>,
    items: Items<'_, '_>,
    position: Position<'_>,
) -> Result<(), ReadFailure>
    requires nests { position.context.nesting ≤ MAX_NESTING + 1 }
    requires items { json_data array.now ≡ json_array (items_left items) }
    requires room { length nodes.old + items_size (items_left items) + 1 < 2 ^ 31 }
    ensures { Lists nodes.old nodes.new position.entry.holder position.entry.last result
        (content position.entry.context.version position.entry.context.nesting position.entry.misnamed position.entry.listed (json_data array.now)) }
{
    let Position {
        holder,
        last,
        context,
        listed,
        misnamed,
    } = position;
    if context.nesting > MAX_NESTING {
        return Err(refused(alloc, Cause::Limit));
    }
    let mut items = items;
    let Some(first) = items.next() else {
        return Err(refused(alloc, Cause::Shape));
    };
    let Some(own) = read_own(array, listed) else {
        return Err(refused(alloc, Cause::Shape));
    };
    if misnamed {
        return Err(refused(alloc, Cause::Shape));
    }
    let name = copy_name(texts, own.name)?;
    let number = nodes.len();
    nodes.open(alloc, holder, last, name, own.flags)?;
    let inside = read_inside(alloc, texts, nodes, number as u32, first, items, context)?;
    nodes.close(number, inside.width, inside.keys);
    Ok(())
}

/// What is in a container: its elements, and then its containers by key.
#[cycle(content)]
fn read_inside<'t, 'a>(
    alloc: Global,
    texts: &mut Texts,
    nodes: &mut Nodes,
    number: u32,
    first: Value<'t, 'a>,
    items: Items<'t, 'a>,
    context: Context,
) -> Result<Inside, ReadFailure>
    requires nests { context.nesting ≤ MAX_NESTING }
    requires room { length nodes.old + items_size (item (json_data first) (items_left items)) < 2 ^ 31 }
    ensures width { IfOk result (λ x. x.width ≡ count (content_of context.version (item (json_data first.entry) (items_left items.entry)))) }
    ensures keys { IfOk result (λ x. x.keys ≡ count_keys (keyed_in context.version (item (json_data first.entry) (items_left items.entry)))) }
    ensures nodes { OnOk result (nodes.new ≡ nodes.old ++ nodes_inside (length nodes.old) number
        (content_of context.version (item (json_data first.entry) (items_left items.entry))) (keyed_in context.version (item (json_data first.entry) (items_left items.entry)))) }
    ensures good { OnOk result (faults_inside context.version context.nesting 0 [] (item (json_data first.entry) (items_left items.entry)) ≡ []) }
    ensures err { IfErr result (λ e. IsFirst e (faults_inside context.version context.nesting 0 [] (item (json_data first.entry) (items_left items.entry)))) }
{
    let Elements { width, names, last } = read_elements(
        alloc, texts, nodes, number, first, items, context,
    )?;
    let keys = read_last(alloc, texts, nodes, number, &last, context, &names)?;
    Ok(Inside { width, keys })
}

/// The content that stands in a list, which is all elements but the last.
#[cycle(content)]
fn read_elements<'t, 'a>(
    alloc: Global,
    texts: &mut Texts,
    nodes: &mut Nodes,
    number: u32,
    first: Value<'t, 'a>,
    items: Items<'t, 'a>,
    context: Context,
) -> Result<Elements<'t, 'a>, ReadFailure>
    requires nests { context.nesting ≤ MAX_NESTING }
    requires room { length nodes.old + items_size (item (json_data first) (items_left items)) < 2 ^ 31 }
    ensures nodes { OnOk result (nodes.new ≡ nodes.old
        ++ nodes_from (length nodes.old) number 0 (content_of context.version (item (json_data first.entry) (items_left items.entry)))) }
    ensures width { IfOk result (λ x. x.width ≡ count (content_of context.version (item (json_data first.entry) (items_left items.entry)))) }
    ensures names { IfOk result (λ x. (taken : List (List ℕ)) × Holds x.names taken
        × (faults_inside context.version context.nesting 0 [] (item (json_data first.entry) (items_left items.entry)) ≡ faults_keyed context.version context.nesting taken (json_data x.last))) }
    ensures last { IfOk result (λ x. own_after (json_data first.entry) (items_left items.entry) ≡ json_data x.last) }
    ensures err { IfErr result (λ e. IsFirst e (faults_inside context.version context.nesting 0 [] (item (json_data first.entry) (items_left items.entry)))) }
{
    let inside = context.inside();
    let mut names = Given::none(alloc);
    let mut here = first;
    let mut left = items;
    let mut index = 0;
    while let Some(next) = left.next() {
        if let Some(leaf) = word_in(&here) {
            nodes.push(alloc, number, Last::index(index), Content::Leaf(leaf))?;
        } else {
            let misnamed = names.give(label_of(&here))?;
            read_element(alloc, texts, nodes, number, &here, index, inside, misnamed)?;
        }
        here = next;
        index += 1;
    }
    Ok(Elements {
        width: index,
        names,
        last: here,
    })
}

/// The content that stands at an index.
#[cycle(content)]
fn read_element(
    alloc: Global,
    texts: &mut Texts,
    nodes: &mut Nodes,
    number: u32,
    value: &Value<'_, '_>,
    index: u32,
    context: Context,
    misnamed: bool,
) -> Result<(), ReadFailure>
    requires fits { FitsLimits context.nesting (json_data value.now) }
    requires index { index < 2 ^ 31 }
    requires room { length nodes.old + size (json_data value.now) < 2 ^ 31 }
    ensures { Lists nodes.old nodes.new number (Some (Index index)) result
        (first (map (under (Index index)) (faults context.version context.nesting misnamed (json_data value.now))) (tree_of context.version true (json_data value.now))) }
{
    let position = Position {
        holder: number,
        last: Last::index(index),
        context,
        listed: true,
        misnamed,
    };
    match read_content(alloc, texts, nodes, value, position) {
        Ok(()) => Ok(()),
        Err(error) => Err(at_index(error, index)),
    }
}

/// The containers by key, which the last element gives; how many they are.
#[cycle(content)]
fn read_last<'a>(
    alloc: Global,
    texts: &mut Texts,
    nodes: &mut Nodes,
    number: u32,
    last: &Value<'_, 'a>,
    context: Context,
    names: &Given<'a>,
) -> Result<u32, ReadFailure>
    requires nests { context.nesting ≤ MAX_NESTING }
    requires room { length nodes.old + size (json_data last.now) < 2 ^ 31 }
    ensures { (taken : List (List ℕ)) → Holds names.now taken → ListsByKey nodes.old nodes.new number result
        (first (faults_keyed context.version context.nesting taken (json_data last.now)) (keyed_last context.version (json_data last.now))) }
{
    if !has_names(last) {
        return Ok(0);
    }
    let keys = last.members(alloc)?;
    read_keyed(alloc, texts, nodes, number, &keys, context, names)
}

/// The containers by key, in the order of the keys; how many they are.
#[cycle(content)]
fn read_keyed<'a>(
    alloc: Global,
    texts: &mut Texts,
    nodes: &mut Nodes,
    number: u32,
    keys: &BTreeMap<&'a str, Value<'_, 'a>>,
    context: Context,
    names: &Given<'a>,
) -> Result<u32, ReadFailure>
    requires nests { context.nesting ≤ MAX_NESTING }
    requires room { length nodes.old + members_size (members_data keys.now.entries) < 2 ^ 31 }
    ensures { (taken : List (List ℕ)) → Holds names.now taken → ListsByKey nodes.old nodes.new number result
        (first (faults_by context.version context.nesting taken (members_data keys.now.entries)) (keyed_by context.version (members_data keys.now.entries))) }
{
    let inside = context.inside();
    let mut count = 0;
    for (key, value) in keys.iter() {
        let name = *key;
        if !is_own(name) {
            let misnamed = names.has(name);
            read_named(alloc, texts, nodes, number, name, value, inside, misnamed)?;
            count += 1;
        }
    }
    Ok(count)
}

/// The container at a key.
#[cycle(content)]
fn read_named(
    alloc: Global,
    texts: &mut Texts,
    nodes: &mut Nodes,
    number: u32,
    key: &str,
    value: &Value<'_, '_>,
    context: Context,
    misnamed: bool,
) -> Result<(), ReadFailure>
    requires fits { FitsLimits context.nesting (json_data value.now) }
    requires room { length nodes.old + size (json_data value.now) < 2 ^ 31 }
    ensures { Lists nodes.old nodes.new number (Some (Name key.now)) result
        (first (map (under (Name key.now)) (faults_named context.version context.nesting misnamed (json_data value.now))) (tree_of context.version false (json_data value.now))) }
{
    let position = Position {
        holder: number,
        last: Last::name(key),
        context,
        listed: false,
        misnamed,
    };
    match read_only_container(alloc, texts, nodes, value, position) {
        Ok(()) => Ok(()),
        Err(error) => Err(at_name(alloc, error, key)),
    }
}

/// Content, which has to be a container.
#[cycle(content)]
fn read_only_container(
    alloc: Global,
    texts: &mut Texts,
    nodes: &mut Nodes,
    value: &Value<'_, '_>,
    position: Position<'_>,
) -> Result<(), ReadFailure>
    requires fits { FitsLimits position.context.nesting (json_data value.now) }
    requires room { length nodes.old + size (json_data value.now) < 2 ^ 31 }
    ensures { Lists nodes.old nodes.new position.entry.holder position.entry.last result
        (first (faults_named position.entry.context.version position.entry.context.nesting position.entry.misnamed (json_data value.now)) (tree_of position.entry.context.version position.entry.listed (json_data value.now))) }
{
    match value.kind() {
        Kind::Array(items) => read_container(alloc, texts, nodes, value, items, position),
        _ => Err(refused(alloc, Cause::Shape)),
    }
}
