//! Choices.

ghost use Rattle.std.specs.Prelude.{◌≡◌, IfOk, OnErr, true};
ghost use Rattle.ink_model.specs.Save.Asks.{choice_asks, choice_asks_by};
ghost use Rattle.ink_model.specs.Save.Unspelled.{choice_by, choice_of};

use crate::members::{alone, next_spelled};
use crate::spelled::Spelled;
use crate::thread::SavedThread;
use ink_model::{Part, Seq, Shared, Text};
use json_tape::{Json, Kind};
use std::alloc::{AllocError, Global};
use std::marker::Model;

/// A choice as it is spelled. A contract sees the choice.
#[derive(Drop)]
pub struct SavedChoice {
    pub text: Text,
    pub tags: Seq<Shared<Text>>,
    pub target: Seq<Part>,
    pub hidden: bool,
    pub thread: SavedThread,
}

impl Model for SavedChoice {
    ghost use Rattle.std.specs.Prelude.{List};
    ghost use Rattle.ink_model.specs.Run.Configuration.{ChoiceOf};
    ghost use Rattle.ink_model.specs.declared.place.Part.{Part};

    ghost Value = { ChoiceOf (List Part) };

    ghost view = { λ c. record { text = c.text; tags = c.tags; target = c.target; hidden = c.hidden; thread = c.thread } };
}

impl Spelled for SavedChoice {
    ghost spelled = { λ j. choice_of j };

    ghost asks = { λ j. choice_asks j };

    fn read<J: Json>(alloc: Global, json: J) -> Result<Option<SavedChoice>, AllocError> {
        match json.kind() {
            Kind::Object(members) => read_members::<J>(alloc, members),
            Kind::Null | Kind::Bool(_) | Kind::Number(_) | Kind::String(_) | Kind::Array(_) => {
                Ok(None)
            }
        }
    }
}

// The choice that members spell. The one error is a refused request for memory.
fn read_members<J: Json>(
    alloc: Global,
    members: J::Members,
) -> Result<Option<SavedChoice>, AllocError>
    ensures found { IfOk result (λ choice. choice ≡ choice_by (J.members members)) }
    ensures memory { OnErr result (choice_asks_by (J.members members) ≡ true) }
{
    let mut rest = members;
    let Some(hidden) = next_spelled::<J, bool>(alloc, &mut rest, "hidden")? else {
        return Ok(None);
    };
    let Some(tags) = next_spelled::<J, Seq<Shared<Text>>>(alloc, &mut rest, "tags")? else {
        return Ok(None);
    };
    let Some(target) = next_spelled::<J, Seq<Part>>(alloc, &mut rest, "target")? else {
        return Ok(None);
    };
    let Some(text) = next_spelled::<J, Text>(alloc, &mut rest, "text")? else {
        return Ok(None);
    };
    let Some(thread) = next_spelled::<J, SavedThread>(alloc, &mut rest, "thread")? else {
        return Ok(None);
    };
    let choice = SavedChoice {
        text,
        tags,
        target,
        hidden,
        thread,
    };
    Ok(alone::<J, _>(&mut rest, choice))
}
