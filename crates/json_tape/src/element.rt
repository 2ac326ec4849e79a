//! Values where they stand in a tape: what each is, and what it has inside.

ghost use Rattle.std.specs.Prelude.{◌≡◌, ℕ, ◌+◌, ◌<◌, ◌^◌, List, ◌∷◌, length, drop, Some, None, option_map, MatchOption, OnSome, IfNone};
ghost use Rattle.json.specs.Token.{Token};
ghost use Rattle.json.specs.Json.{Json, array, object, value};
ghost use Rattle.json.specs.Json as spec;
ghost use Rattle.json.specs.Tape.{node_token, LinkAt};
ghost use Rattle.json_tape.specs.Marks.{AreMarked};
ghost use Rattle.json_tape.specs.Rise.{is_behind, names_rise, objects_rise};
ghost use Rattle.json.specs.Find.{BeginsWith, HasValue, InItems, InMembers, NextItem, NextMember, Finds, get, as_str, as_number, as_bool, as_array, as_object};

use crate::marks::Marks;
use crate::tape::Tape;
use json::Node;
use std::marker::Model;

/// Where a node of a tape stands, at which a value begins. A contract sees the tokens from there on.
#[derive(Drop)]
pub(crate) struct Element<'t, 'a> {
    tape: &'t Tape<'a>,
    at: usize,
}

impl<'t, 'a> Model for Element<'t, 'a> {
    ghost use Rattle.std.specs.Prelude.{◌<◌, ◌^◌, List, drop, length};
    ghost use Rattle.json.specs.Token.{Token, tokens_code};

    ghost Value = { List Token };

    ghost coded = { tokens_code };

    ghost view = { λ a. drop a.at a.tape.now };

    ghost invariant = { λ a. (a.at < length a.tape.now) × (length a.tape.now < 2 ^ 64) };
}

/// The items of an array that are left. A contract sees the tokens from the first of them on.
#[derive(Drop)]
pub(crate) struct Items<'t, 'a> {
    tape: &'t Tape<'a>,
    at: usize,
}

impl<'t, 'a> Model for Items<'t, 'a> {
    ghost use Rattle.std.specs.Prelude.{List, drop};
    ghost use Rattle.json.specs.Token.{Token, tokens_code};

    ghost Value = { List Token };

    ghost coded = { tokens_code };

    ghost view = { λ a. drop a.at a.tape.now };
}

/// The members of an object that are left. A contract sees the tokens from the first of them on.
#[derive(Drop)]
pub(crate) struct Members<'t, 'a> {
    tape: &'t Tape<'a>,
    at: usize,
}

impl<'t, 'a> Model for Members<'t, 'a> {
    ghost use Rattle.std.specs.Prelude.{List, drop};
    ghost use Rattle.json.specs.Token.{Token, tokens_code};

    ghost Value = { List Token };

    ghost coded = { tokens_code };

    ghost view = { λ a. drop a.at a.tape.now };
}

/// The place behind the value that begins with this node at this place, in whichever tape it is.
fn behind(node: Node<'_>, at: usize) -> usize
    requires { at + 1 < 2 ^ 64 }
    ensures value { (all : List Token) → LinkAt all at node.entry → drop at all ≡ node_token node.entry ∷ drop (at + 1) all
        → (depth : ℕ) (j : Json) (rest : List Token) → value depth (drop at all) ≡ Some (j, rest) → rest ≡ drop result all }
    ensures later { (all : List Token) → LinkAt all at node.entry → at < result }
{
    match node {
        Node::Object(end) | Node::Array(end) => end,
        _ => at + 1,
    }
}

/// Whether a name comes behind another, where one stands before it.
fn is_behind(before: Option<&str>, name: &str) -> bool
    ensures { result ≡ is_behind (option_map (λ s. s.now) before.entry) name.now }
{
    match before {
        Some(before) => before.cmp(name).is_lt(),
        None => true,
    }
}

/// Whether the names of members rise.
fn names_rise(members: &mut Members<'_, '_>) -> bool
    ensures { (ms : spec.Members) → InMembers members.old ms → result ≡ names_rise None ms }
{
    let mut before = None;
    while let Some((name, _element)) = members.next() {
        if !is_behind(before, name) {
            return false;
        }
        before = Some(name);
    }
    true
}

impl<'t, 'a> Element<'t, 'a> {
    /// The value that a tape holds.
    pub(crate) fn root(tape: &'t Tape<'a>) -> Element<'t, 'a>
        ensures same { result ≡ tape.now }
        ensures value { HasValue result }
    {
        // A tape's length tells the proof that there is a value.
        let _ = tape.len();
        Element { tape, at: 0 }
    }

    /// The node that it begins with.
    #[inline(always)]
    fn node(&self) -> Node<'a>
        ensures { self.now ≡ node_token result ∷ drop 1 self.now }
    {
        self.tape.node(self.at)
    }

    /// The text, where it is a string.
    #[inline(always)]
    pub(crate) fn as_str(&self) -> Option<&'a str>
        ensures { (j : Json) → BeginsWith self.now j → option_map (λ s. s.now) result ≡ as_str j }
    {
        match self.node() {
            Node::String(text) => Some(text),
            _ => None,
        }
    }

    /// The text of the number, where it is one.
    #[inline(always)]
    pub(crate) fn as_number(&self) -> Option<&'a str>
        ensures { (j : Json) → BeginsWith self.now j → option_map (λ s. s.now) result ≡ as_number j }
    {
        match self.node() {
            Node::Number(text) => Some(text),
            _ => None,
        }
    }

    /// Which truth it is, where it is one.
    #[inline(always)]
    pub(crate) fn as_bool(&self) -> Option<bool>
        ensures { (j : Json) → BeginsWith self.now j → result ≡ as_bool j }
    {
        match self.node() {
            Node::Bool(truth) => Some(truth),
            _ => None,
        }
    }

    /// The items, where it is an array.
    #[inline(always)]
    pub(crate) fn items(&self) -> Option<Items<'t, 'a>>
        ensures { (j : Json) → BeginsWith self.now j
            → MatchOption result (as_array j ≡ None) (λ rest. (js : spec.Items) × (j ≡ array js) × InItems rest js) }
    {
        match self.node() {
            Node::Array(_) => Some(Items {
                tape: self.tape,
                at: self.at + 1,
            }),
            _ => None,
        }
    }

    /// The members, where it is an object.
    #[inline(always)]
    pub(crate) fn members(&self) -> Option<Members<'t, 'a>>
        ensures { (j : Json) → BeginsWith self.now j
            → MatchOption result (as_object j ≡ None) (λ rest. (ms : spec.Members) × (j ≡ object ms) × InMembers rest ms) }
    {
        match self.node() {
            Node::Object(_) => Some(Members {
                tape: self.tape,
                at: self.at + 1,
            }),
            _ => None,
        }
    }

    /// Which names the members may have, where it is an object.
    pub(crate) fn marks(&self) -> Marks
        ensures { (j : Json) → BeginsWith self.now j → AreMarked result (λ name. get name j) }
    {
        let mut marks = Marks::none();
        let Some(mut members) = self.members() else {
            return marks;
        };
        while let Some((name, _element)) = members.next() {
            marks.mark(name);
        }
        marks
    }

    /// The last member of this name, where it is an object.
    pub(crate) fn get(&self, name: &str) -> Option<Element<'t, 'a>>
        ensures { (j : Json) → BeginsWith self.now j → Finds result (get name.now j) }
    {
        let mut members = self.members()?;
        let mut last = None;
        while let Some((key, element)) = members.next() {
            if key == name {
                last = Some(element);
            }
        }
        last
    }
}

impl<'t, 'a> Element<'t, 'a> {
    /// Whether in each object from here on to the tape's end the names rise.
    pub(crate) fn objects_rise(&self) -> bool
        ensures { result ≡ objects_rise self.now }
    {
        let tape = self.tape;
        for at in self.at..tape.len() {
            if let Node::Object(_) = tape.node(at) {
                let mut members = Members { tape, at: at + 1 };
                if !names_rise(&mut members) {
                    return false;
                }
            }
        }
        true
    }
}

impl<'t, 'a> Items<'t, 'a> {
    /// The next item; none where the array ends.
    pub(crate) fn next(&mut self) -> Option<Element<'t, 'a>>
        ensures value { NextItem self.old result self.new }
        ensures shorter { OnSome result (length self.new < length self.old) }
        ensures stays { IfNone result (self.new ≡ self.old) }
    {
        let (tape, at) = (self.tape, self.at);
        if at >= tape.len() {
            return None;
        }
        let node = tape.node(at);
        if let Node::EndArray = node {
            return None;
        }
        self.at = behind(node, at);
        Some(Element { tape, at })
    }
}

impl<'t, 'a> Members<'t, 'a> {
    /// The same members once more.
    #[inline(always)]
    pub(crate) fn again(&self) -> Members<'t, 'a>
        ensures { result ≡ self.now }
    {
        Members {
            tape: self.tape,
            at: self.at,
        }
    }

    /// The next member, by its name; none where the object ends.
    pub(crate) fn next(&mut self) -> Option<(&'a str, Element<'t, 'a>)>
        ensures value { NextMember self.old (option_map (λ m. (m.0.now, m.1)) result) self.new }
        ensures shorter { OnSome result (length self.new < length self.old) }
        ensures stays { IfNone result (self.new ≡ self.old) }
    {
        let (tape, at) = (self.tape, self.at);
        // A member has two nodes at least: its name, and what its value begins with.
        if at >= tape.len().saturating_sub(1) {
            return None;
        }
        let Node::Key(name) = tape.node(at) else {
            return None;
        };
        let at = at + 1;
        self.at = behind(tape.node(at), at);
        Some((name, Element { tape, at }))
    }
}
