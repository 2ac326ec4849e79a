//! The texts of a story, as they are kept.

ghost use Rattle.std.specs.Prelude.{◌≡◌, IfOk, IfSome};

use ink_model::{Shared, Text};
use std::alloc::{AllocError, Global};

/// How many texts are remembered.
const SLOTS: usize = 512;

/// The longest text that is remembered: lines that are longer seldom come again.
const LONGEST: usize = 64;

/// What is mixed so far is multiplied by this odd number, so that the order counts.
const STEP: u64 = 37;

/// An odd number whose bits are without order: of what is multiplied by it the uppermost bits come of all that it was.
const SPREAD: u64 = 0x9e37_79b9_7f4a_7c15;

/// Texts that were kept, by a few bytes of each: one that comes again soon is shared. Nothing rests on which are remembered.
#[derive(Drop)]
pub(crate) struct Texts {
    alloc: Global,
    slots: Vec<Option<Shared<Text>>>,
}

impl Texts {
    /// None yet. Takes no memory.
    pub(crate) fn new(alloc: Global) -> Texts {
        Texts {
            alloc,
            slots: Vec::new(alloc),
        }
    }

    /// A text, to be kept. The one error is a refused request for memory.
    pub(crate) fn keep(&mut self, text: &str) -> Result<Shared<Text>, AllocError>
        ensures { IfOk result (λ kept. kept ≡ text.now) }
    {
        if text.len() > LONGEST {
            return self.copied(text);
        }
        let slot = slot(text);
        if let Some(kept) = self.remembered(slot, text) {
            return Ok(kept);
        }
        let kept = self.copied(text)?;
        self.remember(slot, &kept);
        Ok(kept)
    }

    // A copy of a text.
    fn copied(&self, text: &str) -> Result<Shared<Text>, AllocError>
        ensures { IfOk result (λ kept. kept ≡ text.now) }
    {
        Shared::new(self.alloc, Text::from_str(self.alloc, text)?)
    }

    // The text that is remembered at a slot, where it is this one.
    fn remembered(&self, slot: usize, text: &str) -> Option<Shared<Text>>
        ensures { IfSome result (λ kept. kept ≡ text.now) }
    {
        let Some(Some(kept)) = self.slots.get(slot) else {
            return None;
        };
        if kept.as_str() == text {
            kept.share().ok()
        } else {
            None
        }
    }

    // Remembers a text, unless it has too many owners, or there is no memory for the slots.
    fn remember(&mut self, slot: usize, text: &Shared<Text>) {
        if self.make_slots().is_err() {
            return;
        }
        if let Some(place) = self.slots.get_mut(slot) {
            *place = text.share().ok();
        }
    }

    // Makes the slots, where there are none.
    fn make_slots(&mut self) -> Result<(), AllocError> {
        if !self.slots.is_empty() {
            return Ok(());
        }
        self.slots.reserve(SLOTS)?;
        for _ in 0..SLOTS {
            self.slots.push(None)?;
        }
        Ok(())
    }
}

// The slot of a text, by its length and the bytes at both its ends.
fn slot(text: &str) -> usize {
    let bytes = text.as_bytes();
    let ends = match (bytes.first_chunk::<8>(), bytes.last_chunk::<8>()) {
        (Some(first), Some(last)) => mixed(u64::from_le_bytes(*first), u64::from_le_bytes(*last)),
        _ => few(bytes),
    };
    let spread = mixed(ends, bytes.len() as u64).wrapping_mul(SPREAD) >> 32;
    (spread as usize).wrapping_mul(SLOTS) >> 32
}

// The same of fewer than eight bytes.
fn few(bytes: &[u8]) -> u64 {
    match (bytes.first_chunk::<4>(), bytes.last_chunk::<4>()) {
        (Some(first), Some(last)) => mixed(
            u32::from_le_bytes(*first) as u64,
            u32::from_le_bytes(*last) as u64,
        ),
        _ => {
            let first = bytes.first().copied().unwrap_or(0);
            let last = bytes.last().copied().unwrap_or(0);
            mixed(first as u64, last as u64)
        }
    }
}

fn mixed(first: u64, last: u64) -> u64 {
    first.wrapping_mul(STEP).wrapping_add(last)
}
