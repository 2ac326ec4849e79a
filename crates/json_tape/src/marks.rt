//! Which names the members of an object may have.

ghost use Rattle.std.specs.Prelude.{◌≡◌, ◌<◌, length, get_or, set};
ghost use Rattle.std.specs.Bool.{OnFalse};
ghost use Rattle.json_tape.specs.Marks.{slot};

/// How many slots there are.
const SLOTS: usize = 32;

/// Tells by a few bytes of a name that an object surely has no member of it: a hint, which may also say that it may have one where it
/// has none.
#[derive(Clone, Copy)]
pub struct Marks {
    slots: [u8; SLOTS],
}

impl Marks {
    /// No name.
    #[inline(always)]
    pub(crate) fn none() -> Marks {
        Marks { slots: [0; SLOTS] }
    }

    /// This name too.
    #[inline(always)]
    pub(crate) fn mark(&mut self, name: &str)
        ensures marked { self.new.slots ≡ set self.old.slots (slot name.now) 1 }
        ensures within { slot name.now < length self.old.slots }
    {
        self.slots[slot(name)] = 1;
    }

    /// Whether a member may have this name.
    #[inline(always)]
    pub fn may_have(&self, name: &str) -> bool
        ensures { OnFalse result (get_or self.now.slots (slot name.now) 0 ≡ 0) }
    {
        self.slots[slot(name)] != 0
    }
}

// The slot of a name. The keys that say what an object of a story is have slots of their own.
#[inline(always)]
fn slot(name: &str) -> usize
    ensures slot { result ≡ slot name.now }
    ensures within { result < 32 }
{
    let bytes = name.as_bytes();
    let len = bytes.len();
    if len == 0 {
        return 0;
    }
    let first = bytes[0] as usize;
    let last = bytes[len - 1] as usize;
    (len % SLOTS + first + first / 8 + 2 * last) % SLOTS
}
