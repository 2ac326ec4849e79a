//! Where contents may be looked for first.

ghost use Rattle.std.specs.Prelude.{◌≡◌, ◌≤◌, ◌*◌, ◌^◌, length, max, IfOk};
ghost use Rattle.std.specs.Int.{IsPowerOfTwo};

use ink_json::{Key, Nodes, compare_parts};
use ink_model::Content;
use std::alloc::{AllocError, Global};
use std::cmp::Ordering;

/// No more names than these are counted for slots.
const MOST: usize = 0x8000_0000;

/// So many slots there are at least, so that the few names of a small story seldom share one.
const LEAST: usize = 1024;

/// An odd number whose bits are without order: of what is multiplied by it the uppermost bits come of all that it was.
const SPREAD: usize = 0x9e37_79b9_7f4a_7c15;

/// What is mixed so far is multiplied by this odd number, so that the order of parts counts.
const STEP: usize = 37;

/// The numbers of the contents in each container, in order: a block for each, and where it ends. And at the slot of a container
/// and a name the number of the content that was noted there last. Nothing rests on it: what is found here is looked at again.
#[derive(Drop)]
pub(crate) struct Children {
    numbers: Vec<u32>,
    ends: Vec<u32>,
    slots: Vec<u32>,
}

impl Children {
    /// The numbers of these nodes by what is around them. The one error is a refused request for memory.
    pub(crate) fn of(alloc: Global, nodes: &Nodes) -> Result<Children, AllocError>
        ensures { IfOk result (λ children. length children.slots.items ≤ max (8 * length nodes.now) 1024) }
    {
        let mut ends = Vec::from_elem(alloc, 0, nodes.len())?;
        let named = start_all(nodes, &mut ends);
        let mut numbers = Vec::from_elem(alloc, 0, nodes.len())?;
        let mut slots = Vec::from_elem(alloc, 0, slots_for(named))?;
        for number in 1..nodes.len() {
            let node = nodes.at(number);
            let holder = node.holder() as usize;
            note(&mut numbers, count_up(&mut ends, holder), number);
            if let Some(Key::Name(name)) = node.last() {
                let place = slot(holder, name, slots.len());
                note(&mut slots, place, number);
            }
        }
        Ok(Children {
            numbers,
            ends,
            slots,
        })
    }

    /// The number of the content that stands at an index in a container.
    pub(crate) fn at(&self, container: usize, index: usize) -> usize {
        self.number(self.start(container).wrapping_add(index))
    }

    /// The number that is noted at the slot of a container and a name.
    #[inline(always)]
    pub(crate) fn noted(&self, container: usize, name: &str) -> usize {
        match self.slots.get(slot(container, name, self.slots.len())) {
            Some(number) => *number as usize,
            None => 0,
        }
    }

    /// The number of the last content in a container, behind so many by index, at a key or before it: the keys rise. The
    /// container's own, where none is.
    pub(crate) fn up_to(&self, nodes: &Nodes, container: usize, width: usize, name: &str) -> usize {
        let start = self.start(container);
        let mut low = start.wrapping_add(width);
        let mut high = self.end(container);
        while low < high {
            let middle = low + (high - low) / 2;
            let number = self.number(middle);
            match order(nodes, number, name) {
                Ordering::Less => low = middle + 1,
                Ordering::Equal => return number,
                Ordering::Greater => high = middle,
            }
        }
        if low > start {
            self.number(low - 1)
        } else {
            container
        }
    }

    fn number(&self, place: usize) -> usize {
        match self.numbers.get(place) {
            Some(number) => *number as usize,
            None => 0,
        }
    }

    fn start(&self, container: usize) -> usize {
        if container == 0 {
            0
        } else {
            self.end(container - 1)
        }
    }

    fn end(&self, container: usize) -> usize {
        match self.ends.get(container) {
            Some(end) => *end as usize,
            None => 0,
        }
    }
}

// Puts for each content where the block of what is in it starts, and answers how many contents have names.
fn start_all(nodes: &Nodes, starts: &mut Vec<u32>) -> usize
    ensures { result ≤ length nodes.now }
{
    let mut before: usize = 0;
    let mut named: usize = 0;
    for number in 0..nodes.len() {
        note(starts, number, before);
        if let Content::Container(container) = nodes.at(number).content() {
            let keys = container.keys as usize;
            before = before
                .wrapping_add(container.width as usize)
                .wrapping_add(keys);
            named = named.wrapping_add(keys);
        }
    }
    named.min(nodes.len())
}

// Notes a number at a place.
fn note(numbers: &mut Vec<u32>, place: usize, number: usize)
    ensures { length numbers.new.items ≡ length numbers.old.items }
{
    if let Some(noted) = numbers.get_mut(place) {
        *noted = small(number);
    }
}

// How many slots so many names have: four times as many or more, a power of two.
fn slots_for(count: usize) -> usize
    ensures power { IsPowerOfTwo result }
    ensures enough { count ≤ 2 ^ 31 → 4 * count ≤ result }
    ensures most { result ≤ max (8 * count) 1024 }
{
    let slots = count.min(MOST).saturating_mul(4).next_power_of_two();
    slots.max(LEAST)
}

// The slot of a container and a name, of so many. Names of one form, with a number each, are spread as any others.
#[inline(always)]
fn slot(container: usize, name: &str, slots: usize) -> usize {
    let spread = mix_name(container, name.as_bytes()).wrapping_mul(SPREAD) >> 32;
    spread.wrapping_mul(slots) >> 32
}

// A name is mixed eight bytes at a time and by its last eight; a short one as one number.
#[inline(always)]
fn mix_name(container: usize, name: &[u8]) -> usize {
    if name.len() > 8 {
        mix_words(container, name)
    } else {
        mix(container, packed(name))
    }
}

// Up to eight bytes as one number: the first four and the last four, or all of fewer.
#[inline(always)]
fn packed(name: &[u8]) -> usize {
    match (name.first_chunk::<4>(), name.last_chunk::<4>()) {
        (Some(first), Some(last)) => {
            let first = u32::from_le_bytes(*first) as usize;
            let last = u32::from_le_bytes(*last) as usize;
            first | last << 32
        }
        _ => packed_few(name),
    }
}

#[inline(never)]
fn packed_few(name: &[u8]) -> usize {
    match name {
        [first, second, third] => {
            *first as usize | (*second as usize) << 8 | (*third as usize) << 16
        }
        [first, second] => *first as usize | (*second as usize) << 8,
        [first] => *first as usize,
        _ => 0,
    }
}

#[inline(never)]
fn mix_words(container: usize, name: &[u8]) -> usize {
    let mut mixed = container;
    let (words, _) = name.as_chunks::<8>();
    for word in words {
        mixed = mix(mixed, u64::from_le_bytes(*word) as usize);
    }
    match name.last_chunk::<8>() {
        Some(last) => mix(mixed, u64::from_le_bytes(*last) as usize),
        None => mixed,
    }
}

fn mix(mixed: usize, part: usize) -> usize {
    mixed.wrapping_mul(STEP).wrapping_add(part)
}

// Counts one more at an index, and answers the count before; the length, where there is no such index.
fn count_up(counts: &mut Vec<u32>, index: usize) -> usize {
    match counts.get_mut(index) {
        Some(count) => {
            let before = *count;
            *count = before.wrapping_add(1);
            before as usize
        }
        None => counts.len(),
    }
}

// A number, or the largest of the list's where it is larger: then nothing is found there.
fn small(number: usize) -> u32 {
    u32::try_from(number).unwrap_or(u32::MAX)
}

// How the key of a node stands to a name.
fn order(nodes: &Nodes, number: usize, name: &str) -> Ordering {
    match nodes.get(number) {
        Some(node) => match node.last() {
            Some(part) => compare_parts(part, Key::Name(name)),
            None => Ordering::Less,
        },
        None => Ordering::Greater,
    }
}
