//! What a save keeps as the text of its JSON value.

ghost use Rattle.std.specs.Prelude.{◌≡◌, [], IfOk, OnOk};
ghost use Rattle.json.specs.Print as prints;
ghost use Rattle.serde_json.specs.Written.{compact_text};
ghost use Rattle.ink_model.specs.Save.Spelling.{spelling};
ghost use Rattle.ink_parts.specs.Parts.{kept_as};
ghost use Rattle.ink_tokens.specs.Tokens.{Added, data_tokens};
ghost use Rattle.ink_tree.specs.Nodes.{story_tree};

use crate::counts::put_counts;
use crate::flows::put_flows;
use crate::globals::put_globals;
use crate::kept::Kept;
use ink_model::Text;
use ink_tokens::{put, put_number, put_text};
use ink_tree::Tree;
use json::{Token, Writer};
use std::alloc::{AllocError, Global};

/// The compact text of the JSON value of what a save keeps, without a value in between. The one error is a refused request for
/// memory.
pub fn print(alloc: Global, tree: &Tree, kept: &Kept<'_>) -> Result<Text, AllocError>
    ensures { let s = story_tree tree.now in IfOk result (λ text. text ≡ compact_text (spelling (kept_as s kept.now))) }
{
    let mut out = Writer::new(Vec::new(alloc));
    put_kept(alloc, tree, &mut out, kept)?;
    Ok(printed(out))
}

// What was written.
fn printed(out: Writer) -> Text
    requires { out.before ≡ [] }
    ensures { result ≡ prints.print out.tokens }
{
    match String::from_utf8(out.into_inner()) {
        Ok(text) => Text::from_string(text),
        Err(_) => unreachable!(),
    }
}

// The tokens of what a save keeps. The one error is a refused request for memory.
fn put_kept(alloc: Global, tree: &Tree, out: &mut Writer, kept: &Kept<'_>) -> Result<(), AllocError>
    ensures { let s = story_tree tree.now in
        OnOk result (Added out.old out.new (data_tokens (spelling (kept_as s kept.now)))) }
{
    put(out, Token::BeginObject)?;
    put_text(out, "current", kept.aside.current_name())?;
    put_flows(alloc, tree, out, kept.flow, kept.aside)?;
    put_number(out, "format", 2)?;
    put_globals(alloc, out, kept.globals)?;
    put_number(out, "turn", kept.turn.number() as u64)?;
    put_counts(tree, out, "turns", kept.turns)?;
    put_counts(tree, out, "visits", kept.visits)?;
    put(out, Token::EndObject)
}
