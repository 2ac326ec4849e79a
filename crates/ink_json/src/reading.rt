//! Reading a story.

ghost use Rattle.std.specs.Prelude.{◌≡◌, ◌≤◌, ◌<◌, ◌^◌, true, length, IfOk, IfErr, Ok, Err, Some, None, codes, if◌then◌else◌};
ghost use Rattle.serde_json.specs.Find.{get};
ghost use Rattle.json_tape.specs.Size.{size};
ghost use Rattle.json_tape.specs.Spelled.{are_sound, data_of};
ghost use Rattle.json_tape.specs.Value.{json_data};
ghost use Rattle.ink_model.specs.Story.Grammar.{here, story, unmarked, json, of_json, of_value, root_of, is_blank_object, version_of};
ghost use Rattle.ink_json.specs.Listing.{IsListed, rebuilt};
ghost use Rattle.ink_json.specs.Reading.{IsRefusedBy, Reads, ReadsOr, is_parsable, is_parsed};
ghost use Rattle.ink_json.specs.Story.{tree};

use crate::container::{Context, Position, read_container};
use crate::error::{ReadFailure, refused};
use crate::last::Last;
use crate::nodes::Nodes;
use crate::story::RawStory;
use crate::texts::Texts;
use ink_model::{Cause, Failure, InkVersion, MAX_STORY, ReadRefusal};
use json::Scratch;
use json_tape::Tape;
use json_tape::value::{Kind, Value, root};
use std::alloc::Global;

/// Reads a story. It is refused for the first fault in it, in reading order, or for a refused request for memory.
///
/// Memory is asked for only where there is JSON to parse: bytes over the limit, bytes that are not UTF-8, and bytes of which none
/// stands behind the byte order mark are refused as such, whatever memory there is.
pub fn read_story(alloc: Global, bytes: &[u8]) -> Result<RawStory, ReadRefusal>
    ensures ok { IfOk result (λ s. story bytes.now ≡ Ok (tree s)) }
    ensures err { IfErr result (IsRefusedBy (story bytes.now) bytes.now) }
{
    match read_nodes(alloc, bytes) {
        Ok(nodes) => Ok(RawStory { nodes }),
        Err(Failure::Refused(refusal)) => Err(refusal),
        Err(Failure::OutOfMemory) => Err(ReadRefusal::at_root(alloc, Cause::OutOfMemory)),
    }
}

#[tactic(auto, unfolding(ink_model::specs::Story::Grammar::story))]
fn read_nodes(alloc: Global, bytes: &[u8]) -> Result<Nodes, ReadFailure>
    ensures reads { ReadsOr (is_parsed bytes.now) (λ ns. rebuilt ns) result (story bytes.now) }
    ensures listed { IfOk result (λ ns. IsListed ns) }
{
    if bytes.len() > MAX_STORY {
        return Err(refused(alloc, Cause::Limit));
    }
    read_json(alloc, without_mark(bytes))
}

/// The bytes without the byte order mark.
fn without_mark(bytes: &[u8]) -> &[u8]
    ensures value { result.now ≡ unmarked bytes.now }
    ensures shorter { length result.now ≤ length bytes.now }
{
    match bytes {
        [0xef, 0xbb, 0xbf, rest @ ..] => rest,
        _ => bytes,
    }
}

/// The nodes of the story that bytes are in JSON. Their tape, and what it is made with, are gone once the story is read.
fn read_json(alloc: Global, bytes: &[u8]) -> Result<Nodes, ReadFailure>
    requires { length bytes.now ≤ MAX_STORY }
    ensures reads { ReadsOr (is_parsable bytes.now) (λ ns. rebuilt ns) result (of_json (json bytes.now)) }
    ensures listed { IfOk result (λ ns. IsListed ns) }
{
    let Ok(text) = str::from_utf8(bytes) else {
        return Err(refused(alloc, Cause::NotJson));
    };
    if text.is_empty() {
        return Err(refused(alloc, Cause::NotJson));
    }
    let mut scratch = Scratch::new(alloc);
    match Tape::parse(alloc, text, &mut scratch) {
        Ok(Some(tape)) => read_tape(alloc, &tape),
        Ok(None) => Err(refused(alloc, Cause::NotJson)),
        Err(_) => Err(Failure::OutOfMemory),
    }
}

/// The nodes of the story that a tape holds.
fn read_tape(alloc: Global, tape: &Tape<'_>) -> Result<Nodes, ReadFailure>
    requires { are_sound 0 tape.now ≡ true → size (data_of tape.now) < 2 ^ 31 }
    ensures reads { Reads (λ ns. rebuilt ns) result (of_json (if are_sound 0 tape.now then Some (data_of tape.now) else None)) }
    ensures listed { IfOk result (λ ns. IsListed ns) }
{
    match root(tape) {
        Some(value) => read_value(alloc, &value),
        None => Err(refused(alloc, Cause::NotJson)),
    }
}

/// The nodes of the story that a value is.
fn read_value(alloc: Global, value: &Value<'_, '_>) -> Result<Nodes, ReadFailure>
    requires { size (json_data value.now) < 2 ^ 31 }
    ensures reads { Reads (λ ns. rebuilt ns) result (of_value (json_data value.now)) }
    ensures listed { IfOk result (λ ns. IsListed ns) }
{
    if !value.is_object() {
        return Err(refused(alloc, Cause::Shape));
    }
    let Some(version) = version_of(value) else {
        return Err(refused(alloc, Cause::Version));
    };
    if !has_no_lists(value) {
        return Err(refused(alloc, Cause::Unsupported));
    }
    match value.get("root") {
        Some(root) => read_root(alloc, version, &root),
        None => Err(refused(alloc, Cause::Shape)),
    }
}

fn read_root(alloc: Global, version: InkVersion, root: &Value<'_, '_>) -> Result<Nodes, ReadFailure>
    requires { size (json_data root.now) < 2 ^ 31 }
    ensures reads { Reads (λ ns. rebuilt ns) result (root_of version (Some (json_data root.now))) }
    ensures listed { IfOk result (λ ns. IsListed ns) }
{
    match root.kind() {
        Kind::Array(items) => {
            let mut texts = Texts::new(alloc);
            let mut nodes = Nodes::new(alloc);
            let position = Position {
                holder: 0,
                last: Last::none(),
                context: Context {
                    version,
                    nesting: 1,
                },
                listed: false,
                misnamed: false,
            };
            read_container(alloc, &mut texts, &mut nodes, root, items, position)?;
            Ok(nodes)
        }
        _ => Err(refused(alloc, Cause::Shape)),
    }
}

/// The version of a story; none where its stories are not read.
fn version_of(value: &Value<'_, '_>) -> Option<InkVersion>
    ensures { result ≡ version_of (json_data value.now) }
{
    InkVersion::from_number(value.get("inkVersion")?.as_u64()?)
}

/// Whether the story declares no lists.
fn has_no_lists(value: &Value<'_, '_>) -> bool
    ensures { result ≡ is_blank_object (get (codes "listDefs") (json_data value.now)) }
{
    match value.get("listDefs") {
        Some(lists) => lists.is_blank(),
        None => true,
    }
}
