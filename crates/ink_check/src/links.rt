//! The links of a story's content.

ghost use Rattle.std.specs.Prelude.{◌≡◌, ◌<◌, ◌+◌, ◌^◌, [], ◌∷◌, ◌++◌, length, IfOk, OnOk, OnErr, option_map, unwrap_or, slice_index, slice_index_or};

use crate::link::Link;
use std::alloc::{AllocError, Global};
use std::marker::Model;

/// A link for each content, in reading order. Those that are nothing take no room: each content has a slot, which is 0 or one more
/// than the index of its link.
#[derive(Drop)]
pub(crate) struct Links {
    slots: Vec<u32>,
    links: Vec<Link>,
}

impl Model for Links {
    ghost use Rattle.std.specs.Prelude.{List};
    ghost use Rattle.ink_check.specs.Links.{AreSlots, spread};
    ghost use Rattle.ink_check.specs.declared.link.Link.{Link};

    ghost Value = { List Link };

    ghost view = { λ l. spread l.links.items l.slots.items };

    ghost invariant = { λ l. AreSlots l.links.items l.slots.items };
}

impl Links {
    /// None yet, with room for the slots of so many contents. The one error is a refused request for memory.
    pub(crate) fn with_capacity(alloc: Global, contents: usize) -> Result<Links, AllocError>
        ensures { IfOk result (λ links. links ≡ []) }
    {
        Ok(Links {
            slots: Vec::with_capacity(alloc, contents)?,
            links: Vec::new(alloc),
        })
    }

    /// The link of one content more. The one error is a refused request for memory, and leaves all as it was.
    pub(crate) fn add(&mut self, link: Link) -> Result<(), AllocError>
        requires { length self.old + 1 < 2 ^ 32 }
        ensures ok { OnOk result (self.new ≡ self.old ++ link ∷ []) }
        ensures err { OnErr result (self.new ≡ self.old) }
    {
        self.slots.reserve(1)?;
        match link {
            Link::Nothing => self.slots.push_reserved(0),
            link => {
                self.links.push(link)?;
                self.slots.push_reserved(self.links.len() as u32);
            }
        }
        Ok(())
    }

    /// Gives back the room that no link has taken.
    pub(crate) fn trim(&mut self)
        ensures { self.new ≡ self.old }
    {
        self.links.shrink_to_fit();
    }

    /// The link of a content, where it is something; a number beyond the contents stands for the first. Takes no memory.
    #[inline(always)]
    pub(crate) fn at(&self, number: usize) -> Option<&Link>
        ensures { unwrap_or (option_map (λ l. l.now) result) Link.Nothing
            ≡ slice_index_or self.now number (slice_index_or self.now 0 Link.Nothing) }
    {
        let slot = slot_at(&self.slots, number);
        if slot == 0 {
            None
        } else {
            Some(&self.links[slot as usize - 1])
        }
    }
}

// The slot of a content; of the first, for a number beyond them.
#[inline(always)]
fn slot_at(slots: &Vec<u32>, number: usize) -> u32
    ensures { result ≡ slice_index_or slots.now.items number (slice_index slots.now.items 0) }
{
    match slots.get(number) {
        Some(slot) => *slot,
        None => slots.first().copied().unwrap_or(0),
    }
}
