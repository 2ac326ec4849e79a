//! Where names are looked for first.

ghost use Rattle.std.specs.Prelude.{◌≡◌, ◌≤◌, ◌<◌, ◌+◌, ◌*◌, ◌^◌, ℕ, List, [], Some, true, bytes_eq, if◌then◌else◌, get_or, length, max, IfOk, OnOk, OnErr};
ghost use Rattle.std.specs.BTreeMap.{get_by_text};
ghost use Rattle.ink_names.specs.Hints.{Finds, KeepsNumbers, Leads, Right, behind, hash, mixed, slot};
ghost use Rattle.ink_names.specs.Names.{Differ, names_of, number_of};

use std::alloc::{AllocError, Global};
use std::collections::BTreeMap;
use std::marker::Model;

/// How many slots there are at first, once there is a name. They double, so that their number is a power of two and a slot is found
/// without a division.
const FEWEST: usize = 512;

/// For so many names room is made beforehand; for more the slots double.
const MOST: usize = 0x8000_0000;

/// A slot is chosen by a few bytes of a name. It holds one more than the number of the first name that came there, or 0. A name whose slot
/// holds 0 is not there; the name that any other slot leads to is looked at, and where it is another, the name is among the others,
/// which are found by order, however names are chosen. There are at least twice as many slots as names.
#[derive(Drop)]
pub(crate) struct Hints {
    slots: Vec<u32>,
}

impl Model for Hints {
    ghost use Rattle.std.specs.Prelude.{ℕ, List};

    ghost Value = { List ℕ };

    ghost view = { λ h. h.slots.items };
}

impl Hints {
    /// No hints, which take no memory.
    pub(crate) fn new(alloc: Global) -> Hints
        ensures { result ≡ [] }
    {
        Hints {
            slots: Vec::new(alloc),
        }
    }

    /// Free slots for so many names. The one error is a refused request for memory.
    pub(crate) fn with_room(alloc: Global, names: usize) -> Result<Hints, AllocError> {
        let count = names.min(MOST).saturating_mul(2).next_power_of_two();
        Ok(Hints {
            slots: Vec::from_elem(alloc, 0, count.max(FEWEST))?,
        })
    }

    /// Makes slots for one name more than these, where there are too few, and notes them again: twice as many as before, and 512 at
    /// least. The one error is a refused request for memory, and leaves the slots as they were; what came to the others stays there.
    pub(crate) fn make_slots(
        &mut self,
        alloc: Global,
        names: &Vec<String>,
        others: &mut BTreeMap<String, usize>,
    ) -> Result<(), AllocError>
        ensures slots { OnOk result (0 < length self.new) }
        ensures enough { OnOk result (2 * length names.now.items ≤ length self.old → 2 * (length names.now.items + 1) ≤ length self.new) }
        ensures stays { 2 * (length names.now.items + 1) ≤ length self.old → self.new ≡ self.old }
        ensures doubles { OnOk result (length self.old < 2 * (length names.now.items + 1) → length self.new ≡ max (2 * length self.old) 512) }
        ensures err { OnErr result (self.new ≡ self.old) }
        ensures right { let all = names_of names.now.items in Differ all → Right others.old all → Right others.new all }
        ensures finds { let all = names_of names.now.items in Differ all → Right others.old all → Finds self.old others.old all → Finds self.new others.new all }
    {
        if names.len() < self.slots.len() / 2 {
            return Ok(());
        }
        let count = self.slots.len().saturating_mul(2).max(FEWEST);
        *self = Hints::of(alloc, names, count, others)?;
        Ok(())
    }

    // So many slots, with each of these names noted.
    fn of(
        alloc: Global,
        names: &Vec<String>,
        count: usize,
        others: &mut BTreeMap<String, usize>,
    ) -> Result<Hints, AllocError>
        requires { 0 < count }
        ensures slots { IfOk result (λ hints. length hints ≡ count) }
        ensures right { let all = names_of names.now.items in Differ all → Right others.old all → Right others.new all }
        ensures kept { KeepsNumbers others.old others.new }
        ensures finds { let all = names_of names.now.items in IfOk result (λ hints. Differ all → Right others.old all → Finds hints others.new all) }
    {
        let mut hints = Hints {
            slots: Vec::from_elem(alloc, 0, count)?,
        };
        for (number, name) in names.iter().enumerate() {
            hints.note(alloc, name.as_str(), number, others)?;
        }
        Ok(hints)
    }

    /// Notes a name with its number: at its slot where that is free, and else among the others, where it is not there yet. The one error
    /// is a refused request for memory, and leaves the others as they were.
    pub(crate) fn note(
        &mut self,
        alloc: Global,
        name: &str,
        number: usize,
        others: &mut BTreeMap<String, usize>,
    ) -> Result<(), AllocError>
        requires slots { 0 < length self.old }
        requires number { number + 1 < 2 ^ 64 }
        ensures slots { length self.new ≡ length self.old }
        ensures right { (names : List (List ℕ)) → number_of names name.now ≡ Some number → Right others.old names → Right others.new names }
        ensures kept { KeepsNumbers others.old others.new }
        ensures leads { (other : List ℕ) (its : ℕ) → Leads self.old others.old other its → Leads self.new others.new other its }
        ensures ok { OnOk result ((names : List (List ℕ)) → number_of names name.now ≡ Some number → Right others.old names → Leads self.new others.new name.now number) }
        ensures err { OnErr result (KeepsNumbers others.new others.old) }
    {
        if self.mark(name, number) || others.contains_key(name) {
            return Ok(());
        }
        put(alloc, others, name, number)?;
        Ok(())
    }

    // Notes a name at its slot, where that is free. Answers whether the slot leads to its number.
    fn mark(&mut self, name: &str, number: usize) -> bool
        requires slots { 0 < length self.old }
        requires number { number + 1 < 2 ^ 64 }
        ensures slots { length self.new ≡ length self.old }
        ensures taken { 0 < behind self.new name.now }
        ensures leads { result ≡ true → behind self.new name.now ≡ number + 1 }
        ensures kept { (at : ℕ) → 0 < get_or self.old at 0 → get_or self.new at 0 ≡ get_or self.old at 0 }
    {
        let slot = slot(name, self.slots.len());
        if self.slots[slot] > 0 {
            return self.slots[slot] as usize == number + 1;
        }
        let held = small(number + 1);
        self.slots[slot] = held;
        held as usize == number + 1
    }

    /// One more than the number at which a name is looked for first; 0 where it is no one's.
    pub(crate) fn behind(&self, name: &str) -> usize
        ensures { result ≡ behind self.now name.now }
    {
        if self.slots.is_empty() {
            return 0;
        }
        let slot = slot(name, self.slots.len());
        self.slots[slot] as usize
    }
}

// A name comes to the others with its number.
fn put(
    alloc: Global,
    others: &mut BTreeMap<String, usize>,
    name: &str,
    number: usize,
) -> Result<(), AllocError>
    ensures ok { OnOk result ((other : List ℕ) → get_by_text others.new other ≡ (if bytes_eq name.now other then Some number else get_by_text others.old other)) }
    ensures err { OnErr result (others.new.entries ≡ others.old.entries) }
{
    let key = String::from_str(alloc, name)?;
    others.insert(key, number)?;
    Ok(())
}

// A number, or the largest that a slot has where it is larger.
fn small(number: usize) -> u32
    ensures { 0 < number → 0 < result }
{
    u32::try_from(number).unwrap_or(u32::MAX)
}

// The slot of a name, of so many.
#[inline(always)]
fn slot(name: &str, slots: usize) -> usize
    requires { 0 < slots }
    ensures slot { result ≡ slot name.now slots }
    ensures within { result < slots }
{
    hash(name.as_bytes()) & (slots - 1)
}

// Names of one length that end in their numbers, of up to six digits, have slots that follow one another.
#[inline(always)]
fn hash(name: &[u8]) -> usize
    ensures { result ≡ hash name.now }
{
    match name {
        [a, .., b, c, d, e, f, g] => mixed(name.len(), *a, *b, *c, *d, *e, *f, *g),
        [a, b, c, d, e, f] => mixed(6, *a, *a, *b, *c, *d, *e, *f),
        [a, b, c, d, e] => mixed(5, *a, *a, *a, *b, *c, *d, *e),
        [a, b, c, d] => mixed(4, *a, *a, *a, *a, *b, *c, *d),
        [a, b, c] => mixed(3, *a, *a, *a, *a, *a, *b, *c),
        [a, b] => mixed(2, *a, *a, *a, *a, *a, *a, *b),
        [a] => mixed(1, *a, *a, *a, *a, *a, *a, *a),
        [] => 0,
    }
}

#[inline(always)]
fn mixed(
    len: usize,
    first: u8,
    sixth: u8,
    fifth: u8,
    fourth: u8,
    third: u8,
    second: u8,
    last: u8,
) -> usize
    ensures { result ≡ mixed len first sixth fifth fourth third second last }
{
    let mut end = 10 * sixth as usize + fifth as usize;
    end = 10 * end + fourth as usize;
    end = 10 * end + third as usize;
    end = 10 * end + second as usize;
    end = 10 * end + last as usize;
    7919 * (len % 4096) + 2_248_091 * first as usize + end
}
