//! Flows.

ghost use Rattle.std.specs.Prelude.{◌≡◌, IfOk, OnErr, true};
ghost use Rattle.ink_model.specs.Save.Unspelled.{named_flow_by, named_flow_of};
ghost use Rattle.ink_spelling.specs.Readings.{flow_from_safe, named_flow_asks, named_flow_asks_by, safe_asks};

use crate::choice::SavedChoice;
use crate::members::{alone, next_spelled};
use crate::spelled::Spelled;
use crate::thread::{SavedThread, SavedThreads};
use crate::value::SavedValue;
use ink_model::{Seq, Text};
use json_tape::{Json, Kind};
use std::alloc::{AllocError, Global};
use std::marker::Model;

/// What a flow has of its own, as it is spelled. A contract sees the flow.
#[derive(Drop)]
pub struct SavedFlow {
    pub threads: SavedThreads,
    pub stack: Seq<SavedValue>,
    pub choices: Seq<SavedChoice>,
    pub safe: bool,
}

impl Model for SavedFlow {
    ghost use Rattle.std.specs.Prelude.{List};
    ghost use Rattle.ink_model.specs.Run.Configuration.{FlowOf};
    ghost use Rattle.ink_model.specs.declared.place.Part.{Part};

    ghost Value = { FlowOf (List Part) };

    ghost view = { λ f. record { threads = f.threads; stack = f.stack; choices = f.choices; safe = f.safe } };
}

/// A flow with its name, as it is spelled. A contract sees both.
#[derive(Drop)]
pub struct NamedFlow {
    name: Text,
    flow: SavedFlow,
}

impl Model for NamedFlow {
    ghost use Rattle.std.specs.Prelude.{ℕ, List};
    ghost use Rattle.ink_model.specs.Run.Configuration.{FlowOf};
    ghost use Rattle.ink_model.specs.declared.place.Part.{Part};

    ghost Value = { List ℕ × FlowOf (List Part) };

    ghost view = { λ f. (f.name, f.flow) };
}

impl NamedFlow {
    /// The name.
    pub fn name(&self) -> &str
        ensures { result.now ≡ self.now.0 }
    {
        self.name.as_str()
    }

    /// The flow.
    pub fn flow(&self) -> &SavedFlow
        ensures { result.now ≡ self.now.1 }
    {
        &self.flow
    }
}

impl Spelled for NamedFlow {
    ghost spelled = { λ j. named_flow_of j };

    ghost asks = { λ j. named_flow_asks j };

    fn read<J: Json>(alloc: Global, json: J) -> Result<Option<NamedFlow>, AllocError> {
        match json.kind() {
            Kind::Object(members) => read_members::<J>(alloc, members),
            Kind::Null | Kind::Bool(_) | Kind::Number(_) | Kind::String(_) | Kind::Array(_) => {
                Ok(None)
            }
        }
    }
}

// The flow that members spell. The one error is a refused request for memory.
fn read_members<J: Json>(
    alloc: Global,
    members: J::Members,
) -> Result<Option<NamedFlow>, AllocError>
    ensures found { IfOk result (λ flow. flow ≡ named_flow_by (J.members members)) }
    ensures memory { OnErr result (named_flow_asks_by (J.members members) ≡ true) }
{
    let mut rest = members;
    let Some(choices) = next_spelled::<J, Seq<SavedChoice>>(alloc, &mut rest, "choices")? else {
        return Ok(None);
    };
    let Some(name) = next_spelled::<J, Text>(alloc, &mut rest, "name")? else {
        return Ok(None);
    };
    read_safe::<J>(alloc, &mut rest, choices, name)
}

// The same from whether its last stop was a safe one.
fn read_safe<J: Json>(
    alloc: Global,
    rest: &mut J::Members,
    choices: Seq<SavedChoice>,
    name: Text,
) -> Result<Option<NamedFlow>, AllocError>
    ensures found { IfOk result (λ flow. flow ≡ flow_from_safe choices name (J.members rest.old)) }
    ensures memory { OnErr result (safe_asks (J.members rest.old) ≡ true) }
{
    let Some(safe) = next_spelled::<J, bool>(alloc, rest, "safe")? else {
        return Ok(None);
    };
    let Some(stack) = next_spelled::<J, Seq<SavedValue>>(alloc, rest, "stack")? else {
        return Ok(None);
    };
    let Some(threads) = next_spelled::<J, Seq<SavedThread>>(alloc, rest, "threads")? else {
        return Ok(None);
    };
    let Some(threads) = SavedThreads::of(threads) else {
        return Ok(None);
    };
    let flow = SavedFlow {
        threads,
        stack,
        choices,
        safe,
    };
    Ok(alone::<J, _>(rest, NamedFlow { name, flow }))
}
