//! Choices as JSON values, and as their text.

ghost use Rattle.std.specs.Prelude.{◌≡◌, OnOk, map};
ghost use Rattle.ink_model.specs.Run.Configuration.{map_choice};
ghost use Rattle.ink_model.specs.Save.Spelling.{choice_data, list_data};
ghost use Rattle.serde_json.specs.View.{members_view};
ghost use Rattle.ink_parts.specs.Written.{choice_members};
ghost use Rattle.ink_tree.specs.Nodes.{place_of, story_tree};

use crate::members::{add_flag, add_text};
use crate::written::{Written, add_member, put_list, put_member, write_list};
use ink_choice::{Choice, Choices};
use ink_tokens::{put, put_flag, put_text};
use ink_tree::{Spot, Tree};
use json::{Token, Writer};
use serde_json::{Map, Value as Json};
use std::alloc::{AllocError, Global};

impl Written for Choice<Spot> {
    ghost spelling = { λ s choice. choice_data (map_choice (place_of s) choice) };

    fn write(&self, alloc: Global, tree: &Tree) -> Result<Json, AllocError> {
        let mut members = Map::new(alloc);
        add_choice(alloc, tree, &mut members, self)?;
        Ok(Json::Object(members))
    }

    fn put(&self, alloc: Global, tree: &Tree, out: &mut Writer) -> Result<(), AllocError> {
        put(out, Token::BeginObject)?;
        put_flag(out, "hidden", self.hidden)?;
        put_member(alloc, tree, out, "tags", &self.tags)?;
        put_member(alloc, tree, out, "target", &self.target)?;
        put_text(out, "text", self.text.as_str())?;
        put_member(alloc, tree, out, "thread", &self.thread)?;
        put(out, Token::EndObject)
    }
}

// Puts the members of a choice. The one error is a refused request for memory.
fn add_choice(
    alloc: Global,
    tree: &Tree,
    members: &mut Map<String, Json>,
    choice: &Choice<Spot>,
) -> Result<(), AllocError>
    ensures { OnOk result (members_view members.new.entries ≡ choice_members (map_choice (place_of (story_tree tree.now)) choice.now) (members_view members.old.entries)) }
{
    add_flag(alloc, members, "hidden", choice.hidden)?;
    add_member(alloc, tree, members, "tags", &choice.tags)?;
    add_member(alloc, tree, members, "target", &choice.target)?;
    add_text(alloc, members, "text", choice.text.as_str())?;
    add_member(alloc, tree, members, "thread", &choice.thread)
}

/// The choices of a flow, the invisible ones among them.
impl Written for Choices<Spot> {
    ghost spelling = { λ s choices. list_data choice_data (map (map_choice (place_of s)) choices.items) };

    fn write(&self, alloc: Global, tree: &Tree) -> Result<Json, AllocError> {
        write_list(alloc, tree, self.as_slice())
    }

    fn put(&self, alloc: Global, tree: &Tree, out: &mut Writer) -> Result<(), AllocError> {
        put_list(alloc, tree, out, self.as_slice())
    }
}
