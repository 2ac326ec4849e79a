//! All flows by name.

ghost use Rattle.std.specs.Prelude.{◌≡◌, ℕ, List, None, bytes_eq, false, is_some, length, option_map, slice_get, IfOk, IfSome, IsTrue, OnErr, OnOk};
ghost use Rattle.std.specs.List.{list_any};
ghost use Rattle.ink_flows.specs.Standing.{NamedAt, flows_of, rows_of};
ghost use Rattle.ink_model.specs.Run.Configuration.{FlowOf, fresh_flow};
ghost use Rattle.ink_model.specs.Run.Flows.{begins_with_default, current_name, default_flow, dropped, goes_to, holes, is_gap, one_flow};
ghost use Rattle.ink_model.specs.Run.Flows as rules;
ghost use Rattle.ink_model.specs.Variables.Named.{at, names, without};
ghost use Rattle.ink_model.specs.Story.Tree.{StoryTree};
ghost use Rattle.ink_model.specs.declared.place.Part.{Part};
ghost use Rattle.ink_tree.specs.Nodes.{place_of};

use crate::flow::Flow;
use crate::rows::{add_names, hole, make, replace_at};
use indexmap::IndexMap;
use ink_model::{MAX_TEXT, Seq, Text};
use ink_tree::Spot;
use std::alloc::{AllocError, Global};
use std::marker::Model;
use std::mem;

/// The name of the first flow, which is always there.
pub const DEFAULT_FLOW: &str = "DEFAULT_FLOW";

/// Whether a flow may have this name: it is not empty, has no space and no newline, and is at most as long as a text. Takes no
/// memory.
pub fn is_flow_name(name: &str) -> bool
    ensures { result ≡ rules.is_flow_name name.now }
{
    !name.is_empty() && !has_gap(name) && name.len() <= MAX_TEXT
}

// Whether there is a space or a newline.
fn has_gap(name: &str) -> bool
    ensures { result ≡ list_any is_gap name.now }
{
    name.as_bytes()
        .iter()
        .any(|byte| *byte == b' ' || *byte == b'\n')
}

/// The names of all flows, in order of making; at each name but the current one's, the flow. A contract sees the first flow also
/// where it is the only one, for which no memory is taken.
#[derive(Drop)]
pub struct Aside {
    rows: IndexMap<String, Option<Flow>>,
    // The index of the current flow.
    current: usize,
    alloc: Global,
}

impl Model for Aside {
    ghost use Rattle.ink_flows.specs.Standing.{CurrentAt, shown_rows};
    ghost use Rattle.ink_flows.specs.declared.flow.Flow.{Flow};
    ghost use Rattle.ink_model.specs.Run.Flows.{AsideOf, begins_with_default};
    ghost use Rattle.std.specs.Prelude.{IsTrue};

    ghost Value = { AsideOf Flow };

    ghost view = { λ a. shown_rows a.rows.entries };

    ghost invariant = { λ a. IsTrue (begins_with_default (shown_rows a.rows.entries)) × CurrentAt a.current (shown_rows a.rows.entries) };
}

impl Aside {
    /// One flow, the first, which is current. Takes no memory.
    pub fn new(alloc: Global) -> Aside
        ensures { result ≡ one_flow }
    {
        Aside {
            rows: IndexMap::new(alloc),
            current: 0,
            alloc,
        }
    }

    /// These flows, the first of which has the name that is always there, and one of which is the current one, with nothing at its
    /// name. Takes no memory.
    pub fn from_rows(alloc: Global, rows: IndexMap<String, Option<Flow>>) -> Aside
        requires first { IsTrue (begins_with_default (rows_of rows.entries)) }
        requires current { holes (rows_of rows.entries) ≡ 1 }
        ensures { result ≡ rows_of rows.entries }
    {
        let current = hole(&rows).unwrap_or(0);
        Aside {
            rows,
            current,
            alloc,
        }
    }

    /// How many flows there are. Takes no memory.
    pub fn len(&self) -> usize
        ensures { result ≡ length self.now }
    {
        if self.rows.is_empty() {
            1
        } else {
            self.rows.len()
        }
    }

    /// Whether there is a flow of this name. Takes no memory.
    pub fn contains(&self, name: &str) -> bool
        ensures { result ≡ is_some (at name.now self.now) }
    {
        self.index_of(name).is_some()
    }

    /// The name of the current flow. Takes no memory.
    pub fn current_name(&self) -> &str
        ensures { result.now ≡ current_name self.now }
    {
        match self.rows.get_index(self.current) {
            Some((name, _)) => name.as_str(),
            None => DEFAULT_FLOW,
        }
    }

    /// The name of the flow at an index, in order of making, and the flow, where it is not the current one; none past the last.
    /// Takes no memory.
    pub fn get(&self, index: usize) -> Option<(&str, Option<&Flow>)>
        ensures { option_map (λ p. (p.0.now, option_map (λ f. f.now) p.1)) result ≡ slice_get self.now index }
    {
        if self.rows.is_empty() {
            return if index == 0 {
                Some((DEFAULT_FLOW, None))
            } else {
                None
            };
        }
        match self.rows.get_index(index) {
            Some((name, flow)) => Some((name.as_str(), flow.as_ref())),
            None => None,
        }
    }

    /// The names of all flows, in order of making. The one error is a refused request for memory.
    pub fn names(&self, alloc: Global) -> Result<Seq<Text>, AllocError>
        ensures { IfOk result (λ found. found ≡ names self.now) }
    {
        let mut found = Vec::new(alloc);
        if self.rows.is_empty() {
            found.push(Text::from_str(alloc, DEFAULT_FLOW)?)?;
        }
        add_names(&mut found, alloc, &self.rows)?;
        Ok(Seq::from_vec(found))
    }

    /// Goes to the flow of a name: the current one is put aside, and that one is taken. An absent one is made, at a place. The one
    /// error is a refused request for memory, which is made only for an absent one, and changes nothing (docs/RUNNING.md, "Flows").
    pub fn go(&mut self, name: &str, current: &mut Flow, start: Spot) -> Result<(), AllocError>
        ensures ok { (s : StoryTree) → OnOk result (flows_of s current.new self.new ≡ goes_to (fresh_flow (place_of s start)) name.now (flows_of s current.old self.old)) }
        ensures err { OnErr result (self.new ≡ self.old) }
        ensures kept { OnErr result (current.new ≡ current.old) }
        ensures memory { OnErr result (at name.now self.old ≡ None) }
    {
        if let Some(index) = self.index_of(name) {
            self.go_to(index, current);
            return Ok(());
        }
        let last = self.len();
        make(&mut self.rows, self.alloc, name, start)?;
        self.go_to(last, current);
        Ok(())
    }

    // The index of the flow of a name.
    fn index_of(&self, name: &str) -> Option<usize>
        ensures found { is_some result ≡ is_some (at name.now self.now) }
        ensures index { IfSome result (λ i. NamedAt name.now i self.now) }
    {
        if self.rows.is_empty() {
            return if name == DEFAULT_FLOW { Some(0) } else { None };
        }
        self.rows.get_index_of(name)
    }

    // Goes to the flow at an index: the current one is put aside, and that one is taken.
    fn go_to(&mut self, index: usize, current: &mut Flow)
        ensures gone { (name : List ℕ) → NamedAt name index self.old → (s : StoryTree) (fresh : FlowOf (List Part)) → flows_of s current.new self.new ≡ goes_to fresh name (flows_of s current.old self.old) }
        ensures named { (name : List ℕ) → NamedAt name index self.old → current_name self.new ≡ name }
        ensures first { NamedAt default_flow 0 self.old }
    {
        let Some(flow) = replace_at(&mut self.rows, index, None) else {
            return;
        };
        let left = mem::replace(current, flow);
        let _none = replace_at(&mut self.rows, self.current, Some(left));
        self.current = index;
    }

    /// Takes the flow of a name away, but not the first. Where it is the current one, the first becomes that before. Takes no memory
    /// (docs/RUNNING.md, "Flows").
    pub fn drop_flow(&mut self, name: &str, current: &mut Flow)
        requires { bytes_eq name.now default_flow ≡ false }
        ensures { (s : StoryTree) (fresh : FlowOf (List Part)) → flows_of s current.new self.new ≡ dropped fresh name.now (flows_of s current.old self.old) }
    {
        if self.current_name() != name {
            self.remove(name);
            return;
        }
        self.go_to(0, current);
        self.remove(name);
    }

    // Takes a flow away that is neither the current one nor the first.
    fn remove(&mut self, name: &str)
        requires other { bytes_eq name.now default_flow ≡ false }
        requires aside { bytes_eq (current_name self.old) name.now ≡ false }
        ensures { self.new ≡ without name.now self.old }
    {
        let Some((index, _, _)) = self.rows.shift_remove_full(name) else {
            return;
        };
        if index < self.current {
            self.current -= 1;
        }
    }
}
