//! The flows that a save spells, in a story.

ghost use Rattle.std.specs.Prelude.{◌≡◌, ◌&&◌, ◌++◌, ◌∷◌, [], IfOk, None, OnErr, OnOk, Some, bytes_eq, is_none, if◌then◌else◌};
ghost use Rattle.ink_flows.specs.Standing.{flow_of, rows_of};
ghost use Rattle.ink_model.specs.Run.Flows as rules;
ghost use Rattle.ink_model.specs.Variables.Named.{at};
ghost use Rattle.ink_model.specs.Save.Sound.{FlowSound};
ghost use Rattle.ink_model.specs.Save.Unspelled.{aside_but};
ghost use Rattle.ink_restore.specs.Asks.{FlowAsks, FlowsAsk};
ghost use Rattle.ink_restore.specs.Building.{Builds};
ghost use Rattle.ink_restore.specs.Gathered.{FlowsFit, gathered_as};
ghost use Rattle.ink_tree.specs.Nodes.{story_tree};

use crate::building::Built;
use crate::collecting::{build_choices, build_stack};
use indexmap::IndexMap;
use ink_flows::{Flow, is_flow_name};
use ink_spelling::{NamedFlow, SavedFlow};
use ink_tree::Tree;
use std::alloc::{AllocError, Global};

/// Flows by name, with none at the current one's name, and that one, once it came.
pub(crate) struct Gathered {
    pub(crate) rows: IndexMap<String, Option<Flow>>,
    pub(crate) current: Option<Flow>,
}

/// Written out, so that wherever flows are let go that is one call, and a proof there does not go through their contents.
impl Drop for Gathered {
    fn drop(self) {
        let Gathered {
            rows: _,
            current: _,
        } = self;
    }
}

impl Gathered {
    /// The flows by name, and the current one.
    pub(crate) fn into_parts(self) -> (IndexMap<String, Option<Flow>>, Option<Flow>)
        ensures { result ≡ (self.rows, self.current) }
    {
        let Gathered { rows, current } = self;
        (rows, current)
    }
}

/// The flows that a save spells, made in a story; none where one does not fit, or has a name that it may not have, or one that
/// stands twice. The one error is a refused request for memory, which is made once the first one may have its name, and asks.
pub(crate) fn gather(
    alloc: Global,
    tree: &Tree,
    current: &str,
    flows: &[NamedFlow],
) -> Result<Option<Gathered>, AllocError>
    ensures gathers { let s = story_tree tree.now in
        IfOk result (λ made. Builds (gathered_as s) (λ _. FlowsFit s flows.now) (aside_but current.now flows.now, at current.now flows.now) made) }
    ensures memory { OnErr result (FlowsAsk (story_tree tree.now) flows.now) }
{
    let mut made = Gathered {
        rows: IndexMap::new(alloc),
        current: None,
    };
    for named in flows {
        let name = named.name();
        if !may_join(&made.rows, name) {
            return Ok(None);
        }
        match build_flow(alloc, tree, named.flow())? {
            Some(flow) => join(alloc, &mut made, current, name, flow)?,
            None => return Ok(None),
        }
    }
    Ok(Some(made))
}

// Whether a flow of this name may come to these: it may have the name, and none of them has it.
fn may_join(rows: &IndexMap<String, Option<Flow>>, name: &str) -> bool
    ensures { result ≡ (rules.is_flow_name name.now && is_none (at name.now (rows_of rows.now.entries))) }
{
    is_flow_name(name) && !rows.contains_key(name)
}

// Puts a flow behind the others, or apart where it is the current one. The one error is a refused request for memory.
fn join(
    alloc: Global,
    made: &mut Gathered,
    current: &str,
    name: &str,
    flow: Flow,
) -> Result<(), AllocError>
    requires { at name.now (rows_of made.old.rows.entries) ≡ None }
    ensures rows { OnOk result (rows_of made.new.rows.entries ≡ rows_of made.old.rows.entries ++ (name.now, if bytes_eq current.now name.now then None else Some flow) ∷ []) }
    ensures current { OnOk result (made.new.current ≡ (if bytes_eq current.now name.now then Some flow else made.old.current)) }
{
    let key = String::from_str(alloc, name)?;
    if current == name {
        made.rows.insert(key, None)?;
        made.current = Some(flow);
    } else {
        made.rows.insert(key, Some(flow))?;
    }
    Ok(())
}

/// What a flow has of its own, if it fits the story. The one error is a refused request for memory, which is made once the first
/// value on the stack fits; where there is none, once the first choice fits, or asks for some; where there is none, by its threads.
pub(crate) fn build_flow(
    alloc: Global,
    tree: &Tree,
    saved: &SavedFlow,
) -> Result<Option<Flow>, AllocError>
    ensures builds { let s = story_tree tree.now in IfOk result (λ made. Builds (flow_of s) (FlowSound s) saved.now made) }
    ensures memory { OnErr result (FlowAsks (story_tree tree.now) saved.now) }
{
    let Some(stack) = build_stack(alloc, tree, saved.stack.as_slice())? else {
        return Ok(None);
    };
    let Some(choices) = build_choices(alloc, tree, saved.choices.as_slice())? else {
        return Ok(None);
    };
    let Some(threads) = saved.threads.build(alloc, tree)? else {
        return Ok(None);
    };
    Ok(Some(Flow {
        threads,
        stack,
        choices,
        safe: saved.safe,
    }))
}
