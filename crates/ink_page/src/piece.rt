//! What stands at a place of a story that is refused.

ghost use Rattle.std.specs.Prelude.{◌≡◌, ◌≤◌, Some, IfOk, IfSome, codes, is_some, option_map, string_bytes};
ghost use Rattle.serde_json.specs.Data.{Data, depth};
ghost use Rattle.serde_json.specs.Find.{get};
ghost use Rattle.serde_json.specs.Read.{max_depth};
ghost use Rattle.serde_json.specs.View.{view};
ghost use Rattle.ink_model.specs.Story.Grammar.{json, unmarked};
ghost use Rattle.ink_page.specs.Piece.{Spells, down, inside, piece_of};

use ink_model::Part;
use serde_json::Value;
use std::alloc::{AllocError, Global};

/// The JSON that stands at a place of a story's bytes, as it is written compactly; none where nothing stands there, or where the
/// bytes are no JSON. The one error is a refused request for memory.
pub fn piece_at(alloc: Global, story: &[u8], parts: &[Part]) -> Result<Option<String>, AllocError>
    ensures found { IfOk result (λ piece. is_some piece ≡ is_some (piece_of story.now parts.now)) }
    ensures text { IfOk result (λ piece. IfSome piece (λ text. (d : Data) × (piece_of story.now parts.now ≡ Some d) × Spells d (string_bytes text))) }
{
    let Some(json) = json_in(alloc, story)? else {
        return Ok(None);
    };
    let Some(piece) = piece_in(&json, parts) else {
        return Ok(None);
    };
    Ok(Some(piece.to_string(alloc)?))
}

// The JSON that a story's bytes are, if they are some.
fn json_in(alloc: Global, story: &[u8]) -> Result<Option<Value>, AllocError>
    ensures read { IfOk result (λ found. option_map view found ≡ json (unmarked story.now)) }
    ensures nests { IfOk result (λ found. IfSome found (λ value. depth (view value) ≤ max_depth)) }
{
    match Value::from_slice(alloc, without_mark(story)) {
        Ok(json) => Ok(Some(json)),
        Err(error) => {
            if error.is_memory() {
                return Err(AllocError);
            }
            Ok(None)
        }
    }
}

// The bytes without the byte order mark.
fn without_mark(bytes: &[u8]) -> &[u8]
    ensures { result.now ≡ unmarked bytes.now }
{
    match bytes {
        [0xef, 0xbb, 0xbf, rest @ ..] => rest,
        _ => bytes,
    }
}

// What stands at a place of a story's JSON.
fn piece_in<'a>(story: &'a Value, parts: &[Part]) -> Option<&'a Value>
    ensures { option_map (λ v. view v.now) result ≡ down parts.now (get (codes "root") (view story.now)) }
{
    let mut piece = story.get("root")?;
    for part in parts {
        piece = inside(piece, part)?;
    }
    Some(piece)
}

// What a container has at an index, or under a name behind its list.
fn inside<'a>(piece: &'a Value, part: &Part) -> Option<&'a Value>
    ensures { option_map (λ v. view v.now) result ≡ inside part.now (view piece.now) }
{
    match part {
        Part::Index(index) => piece.get(*index as usize),
        Part::Name(name) => piece.as_array()?.last()?.get(name.as_str()),
    }
}
