//! The list of a story's nodes.

ghost use Rattle.std.specs.Prelude.{◌≡◌, ◌<◌, ◌^◌, ◌+◌, ◌++◌, ◌∷◌, [], ℕ, List, Option, length, slice_get, slice_set, get_or, true, Some, OnOk, OnErr};
ghost use Rattle.ink_model.specs.declared.place.Part.{Part};
ghost use Rattle.ink_model.specs.declared.place.Part.TheVariants.{Name};
ghost use Rattle.ink_json.specs.Kept.{IsNoName, part_at, filled_at};
ghost use Rattle.ink_json.specs.Listing.{container_node};
ghost use Rattle.ink_json.specs.Node.{Node as Listed};
ghost use Rattle.ink_json.specs.declared.kept.Kept.{Kept as KeptNode};

use crate::kept::{FIRST_NAME, Kept, NO_PART};
use crate::key::Key;
use crate::last::Last;
use crate::node::Node;
use ink_model::{Container, Content, Shared, Text};
use std::alloc::{AllocError, Global};
use std::marker::Model;

/// How many slots the names have.
const SLOTS: usize = 64;

/// A story's content in one list, in reading order. A contract sees the nodes.
#[derive(Drop)]
pub struct Nodes {
    list: Vec<Kept>,
    names: Vec<Text>,
    /// Which of the names was kept last at each slot. Nothing rests on it: the name is looked at again.
    slots: [u32; SLOTS],
}

impl Model for Nodes {
    ghost use Rattle.std.specs.Prelude.{List, length, ◌≤◌, ◌<◌, ◌^◌};
    ghost use Rattle.ink_json.specs.Node.{Node};

    ghost Value = { List Node };

    ghost use Rattle.ink_json.specs.Kept.{nodes_kept, AreKnown};

    ghost view = { λ n. nodes_kept n.names.items n.list.items };

    ghost invariant = { λ n. (length n.list.items < 2 ^ 31) × (length n.names.items ≤ length n.list.items) × AreKnown (length n.names.items) n.list.items };
}

impl Nodes {
    /// No node.
    pub(crate) fn new(alloc: Global) -> Nodes
        ensures { result ≡ [] }
    {
        Nodes {
            list: Vec::new(alloc),
            names: Vec::new(alloc),
            slots: [0; SLOTS],
        }
    }

    /// How many contents there are, fewer than 2^31. Takes no memory.
    #[inline(always)]
    pub fn len(&self) -> usize
        ensures len { result ≡ length self.now }
        ensures few { result < 2 ^ 31 }
    {
        self.list.len()
    }

    /// The node of a number, lent; none where there are not so many. Takes no memory.
    #[inline(always)]
    pub fn get(&self, number: usize) -> Option<Node<'_>>
        ensures { result ≡ slice_get self.now number }
    {
        match self.list.get(number) {
            Some(kept) => Some(Node::of(kept, &self.names)),
            None => None,
        }
    }

    /// The node of a number that there is, lent. Takes no memory.
    #[inline(always)]
    pub fn at(&self, number: usize) -> Node<'_>
        requires { number < length self.now }
        ensures node { result ≡ get_or self.now number result }
        ensures few { length self.now < 2 ^ 31 }
    {
        Node::of(&self.list[number], &self.names)
    }

    /// One node more. The one error is a refused request for memory.
    #[inline(always)]
    pub(crate) fn push(
        &mut self,
        alloc: Global,
        holder: u32,
        last: Last<'_>,
        content: Content,
    ) -> Result<(), AllocError>
        requires { length self.old + 1 < 2 ^ 31 }
        ensures { OnOk result (self.new ≡ self.old ++ record { content = content; holder = holder; last = last.entry } ∷ []) }
    {
        match last.key() {
            None => self.push_kept(holder, NO_PART, content),
            Some(Key::Index(index)) => self.push_kept(holder, index, content),
            Some(Key::Name(name)) => self.push_named(alloc, holder, name, content),
        }
    }

    // One of which the part is no name.
    #[inline(always)]
    fn push_kept(&mut self, holder: u32, last: u32, content: Content) -> Result<(), AllocError>
        requires part { IsNoName last }
        requires room { length self.old + 1 < 2 ^ 31 }
        ensures { OnOk result (self.new ≡ self.old ++ record { content = content; holder = holder; last = part_at [] last } ∷ []) }
    {
        self.list.push(Kept {
            content,
            holder,
            last,
        })?;
        Ok(())
    }

    // One to which a name leads. A name that comes again soon is kept once.
    #[inline(never)]
    fn push_named(
        &mut self,
        alloc: Global,
        holder: u32,
        name: &str,
        content: Content,
    ) -> Result<(), AllocError>
        requires { length self.old + 1 < 2 ^ 31 }
        ensures { OnOk result (self.new ≡ self.old ++ record { content = content; holder = holder; last = Some (Name name.now) } ∷ []) }
    {
        let slot = slot(name);
        let known = self.slots[slot];
        if is_name(&self.names, known, name) {
            self.list.push(Kept {
                content,
                holder,
                last: FIRST_NAME + known,
            })?;
            return Ok(());
        }
        self.slots[slot] = self.names.len() as u32;
        self.push_new_name(alloc, holder, name, content)
    }

    // One to which a name leads that is kept for it.
    fn push_new_name(
        &mut self,
        alloc: Global,
        holder: u32,
        name: &str,
        content: Content,
    ) -> Result<(), AllocError>
        requires { length self.old + 1 < 2 ^ 31 }
        ensures { OnOk result (self.new ≡ self.old ++ record { content = content; holder = holder; last = Some (Name name.now) } ∷ []) }
    {
        let number = self.list.len();
        let last = FIRST_NAME + self.names.len() as u32;
        self.list.push(Kept {
            content,
            holder,
            last,
        })?;
        if let Err(error) = add_name(alloc, &mut self.names, name) {
            self.list.truncate(number);
            return Err(error);
        }
        Ok(())
    }

    /// One node more, of a container of which it is not known yet what is in it. The one error is a refused request for memory.
    pub(crate) fn open(
        &mut self,
        alloc: Global,
        holder: u32,
        last: Last<'_>,
        name: Option<Shared<Text>>,
        flags: u8,
    ) -> Result<(), AllocError>
        requires { length self.old + 1 < 2 ^ 31 }
        ensures { OnOk result (self.new ≡ self.old ++ container_node holder last.entry name flags 0 0 0 ∷ []) }
    {
        let container = Container {
            name,
            width: 0,
            keys: 0,
            size: 0,
            flags,
        };
        self.push(alloc, holder, last, Content::Container(container))
    }

    /// All that is in a container is listed, so much by index and so much by key.
    pub(crate) fn close(&mut self, number: usize, width: u32, keys: u32)
        requires { number < length self.old }
        ensures { (before inside : List Listed) (holder : ℕ) (last : Option Part) (name : Option (List ℕ)) (flags : ℕ)
            → self.old ≡ before ++ container_node holder last name flags 0 0 0 ∷ inside → number ≡ length before
            → self.new ≡ before ++ container_node holder last name flags width keys (length inside + 1) ∷ inside }
    {
        let size = (self.list.len() - number) as u32;
        fill(&mut self.list, number, width, keys, size);
    }
}

// The slot of a name.
fn slot(name: &str) -> usize
    ensures { result < 64 }
{
    let bytes = name.as_bytes();
    let len = bytes.len();
    if len == 0 {
        return 0;
    }
    let first = bytes[0] as usize;
    let last = bytes[len - 1] as usize;
    (5 * (len % SLOTS) + 12 * first + last) % SLOTS
}

// Whether the name of a number is this one.
#[inline(always)]
fn is_name(names: &Vec<Text>, number: u32, name: &str) -> bool
    ensures there { result ≡ true → number < length names.now.items }
    ensures same { result ≡ true → get_or names.now.items number [] ≡ name.now }
{
    match names.get(number as usize) {
        Some(there) => there.as_str() == name,
        None => false,
    }
}

// One name more, a copy of this one.
fn add_name(alloc: Global, names: &mut Vec<Text>, name: &str) -> Result<(), AllocError>
    ensures ok { OnOk result (names.new.items ≡ names.old.items ++ name.now ∷ []) }
    ensures err { OnErr result (names.new.items ≡ names.old.items) }
{
    let text = Text::from_str(alloc, name)?;
    names.push(text)?;
    Ok(())
}

// So much is in the container of a number.
fn fill(list: &mut Vec<Kept>, number: usize, width: u32, keys: u32, size: u32)
    requires { number < length list.old.items }
    ensures { (k : KeptNode) → slice_get list.old.items number ≡ Some k → list.new.items ≡ slice_set list.old.items number (filled_at width keys size k) }
{
    if let Content::Container(container) = &mut list[number].content {
        container.width = width;
        container.keys = keys;
        container.size = size;
    }
}
