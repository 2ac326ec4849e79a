//! What is written as JSON values or as their text, and lists of it.

ghost use Rattle.std.specs.Prelude.{◌≡◌, ◌∷◌, ◌++◌, [], IfOk, OnOk, flat_map, map, reverse};
ghost use Rattle.serde_json.specs.Data.{Data, array};
ghost use Rattle.serde_json.specs.Data as entries;
ghost use Rattle.json.specs.Token as tokens;
ghost use Rattle.serde_json.specs.View.{items_view, members_view, view};
ghost use Rattle.ink_model.specs.Story.Tree.{StoryTree};
ghost use Rattle.ink_model.specs.Save.Spelling.{list_data};
ghost use Rattle.ink_tokens.specs.Tokens.{Added, data_tokens};
ghost use Rattle.ink_tree.specs.Nodes.{story_tree};

use ink_tokens::put;
use ink_tree::Tree;
use json::{Token, Writer};
use serde_json::{Map, Value as Json, put as put_entry};
use std::alloc::{AllocError, Global};

/// What has a JSON value in a story.
pub(crate) trait Written {
    ghost spelling: { StoryTree → Self → Data };

    /// Its JSON value. The one error is a refused request for memory.
    fn write(&self, alloc: Global, tree: &Tree) -> Result<Json, AllocError>
        ensures { IfOk result (λ json. view json ≡ spelling (story_tree tree.now) self.now) };

    /// The tokens of its JSON value. The one error is a refused request for memory.
    fn put(&self, alloc: Global, tree: &Tree, out: &mut Writer) -> Result<(), AllocError>
        ensures { OnOk result (Added out.old out.new (data_tokens (spelling (story_tree tree.now) self.now))) };
}

/// An array of the JSON values of these. The one error is a refused request for memory.
pub(crate) fn write_list<T: Written>(
    alloc: Global,
    tree: &Tree,
    items: &[T],
) -> Result<Json, AllocError>
    ensures { IfOk result (λ json. view json ≡ list_data (T.spelling (story_tree tree.now)) items.now) }
{
    let made = write_all(alloc, tree, items, 0)?;
    Ok(Json::Array(made))
}

/// The same with one more, which comes last, and is spelled as one of them would be.
pub(crate) fn write_pile<T: Written, U: Written>(
    alloc: Global,
    tree: &Tree,
    below: &[T],
    top: &U,
) -> Result<Json, AllocError>
    ensures { let s = story_tree tree.now in (last : T) → U.spelling s top.now ≡ T.spelling s last → IfOk result (λ json. view json ≡ list_data (T.spelling s) (reverse (last ∷ reverse below.now))) }
{
    let made = write_all(alloc, tree, below, 1)?;
    let last = top.write(alloc, tree)?;
    with_last(made, last)
}

// An array of these and one more. The one error is a refused request for memory.
fn with_last(made: Vec<Json>, last: Json) -> Result<Json, AllocError>
    ensures { IfOk result (λ json. view json ≡ array (items_view (made.items ++ last ∷ []))) }
{
    let mut all = made;
    all.push(last)?;
    Ok(Json::Array(all))
}

// The JSON values of these, with room for so many more. The one error is a refused request for memory.
fn write_all<T: Written>(
    alloc: Global,
    tree: &Tree,
    items: &[T],
    room: usize,
) -> Result<Vec<Json>, AllocError>
    ensures { IfOk result (λ made. map view made.items ≡ map (T.spelling (story_tree tree.now)) items.now) }
{
    let mut made = Vec::with_capacity(alloc, items.len().saturating_add(room))?;
    for item in items {
        made.push(item.write(alloc, tree)?)?;
    }
    Ok(made)
}

/// Puts a member with the JSON value of this. The one error is a refused request for memory.
pub(crate) fn add_member<T: Written>(
    alloc: Global,
    tree: &Tree,
    members: &mut Map<String, Json>,
    name: &str,
    item: &T,
) -> Result<(), AllocError>
    ensures { OnOk result (members_view members.new.entries ≡ entries.put name.now (T.spelling (story_tree tree.now) item.now) (members_view members.old.entries)) }
{
    put_entry(members, alloc, name, item.write(alloc, tree)?)
}

/// The tokens of a member. The one error is a refused request for memory.
pub(crate) fn put_member<T: Written>(
    alloc: Global,
    tree: &Tree,
    out: &mut Writer,
    name: &str,
    item: &T,
) -> Result<(), AllocError>
    ensures { OnOk result (Added out.old out.new (tokens.key name.now ∷ data_tokens (T.spelling (story_tree tree.now) item.now))) }
{
    put(out, Token::Key(name))?;
    item.put(alloc, tree, out)
}

/// The tokens of an array of these. The one error is a refused request for memory.
pub(crate) fn put_list<T: Written>(
    alloc: Global,
    tree: &Tree,
    out: &mut Writer,
    items: &[T],
) -> Result<(), AllocError>
    ensures { OnOk result (Added out.old out.new (data_tokens (list_data (T.spelling (story_tree tree.now)) items.now))) }
{
    put(out, Token::BeginArray)?;
    put_items(alloc, tree, out, items)?;
    put(out, Token::EndArray)
}

/// The same with one more, which comes last, and is spelled as one of them would be.
pub(crate) fn put_pile<T: Written, U: Written>(
    alloc: Global,
    tree: &Tree,
    out: &mut Writer,
    below: &[T],
    top: &U,
) -> Result<(), AllocError>
    ensures { let s = story_tree tree.now in (last : T) → U.spelling s top.now ≡ T.spelling s last → OnOk result (Added out.old out.new (data_tokens (list_data (T.spelling s) (reverse (last ∷ reverse below.now))))) }
{
    put(out, Token::BeginArray)?;
    put_items(alloc, tree, out, below)?;
    top.put(alloc, tree, out)?;
    put(out, Token::EndArray)
}

// The tokens of these. The one error is a refused request for memory.
fn put_items<T: Written>(
    alloc: Global,
    tree: &Tree,
    out: &mut Writer,
    items: &[T],
) -> Result<(), AllocError>
    ensures { OnOk result (Added out.old out.new (flat_map data_tokens (map (T.spelling (story_tree tree.now)) items.now))) }
{
    for item in items {
        item.put(alloc, tree, out)?;
    }
    Ok(())
}
