//! Lists of threads that ended.

ghost use Rattle.std.specs.Prelude.{◌≡◌, ◌≤◌, [], vec_capacity, IfOk};
ghost use Rattle.ink_frames.specs.Frames.{MoreRoom};

use crate::frame::Header;
use crate::temps::Temps;
use std::alloc::{AllocError, Global};
use std::marker::Model;
use std::mem;

/// The lists of frames of threads that ended, each the largest so far: the next copy of a thread takes their memory, and need not ask
/// for any. A contract sees how many frames they have room for, and for the temporaries of how many.
pub struct Spare<P> {
    pub(crate) headers: Vec<Header<P>>,
    pub(crate) temps: Vec<Temps>,
}

impl<P: Drop> Drop for Spare<P> {
    #[inline(always)]
    fn drop(self) {
        let Spare { headers: _, temps } = self;
        end_temps(temps);
    }
}

impl<P> Model for Spare<P> {
    ghost use Rattle.std.specs.Prelude.{vec_capacity};
    ghost use Rattle.ink_frames.specs.Frames.{Room};

    ghost Value = { Room };

    ghost view = { λ s. record { frames = vec_capacity s.headers; temps = vec_capacity s.temps } };
}

impl<P: Copy> Spare<P> {
    /// None, which takes no memory.
    pub fn new(alloc: Global) -> Spare<P>
        ensures { result ≡ record { frames = 0; temps = 0 } }
    {
        Spare {
            headers: Vec::new(alloc),
            temps: Vec::new(alloc),
        }
    }

    /// Keeps each of these lists where it is larger than the one that is kept. What stands in the others goes.
    #[inline(always)]
    pub(crate) fn keep(&mut self, headers: Vec<Header<P>>, temps: Vec<Temps>)
        ensures { MoreRoom self.old self.new }
    {
        if headers.capacity() > self.headers.capacity() {
            self.headers = headers;
        }
        if temps.capacity() > self.temps.capacity() {
            let mut temps = temps;
            temps.clear();
            self.temps = temps;
        } else {
            end_temps(temps);
        }
    }
}

/// The temporaries of frames go. Where there never was room for any, they own nothing, and nothing is called.
#[inline(always)]
pub(crate) fn end_temps(temps: Vec<Temps>) {
    if temps.capacity() == 0 {
        mem::forget(temps);
    } else {
        end_all(temps);
    }
}

// A list of temporaries goes.
#[inline(never)]
fn end_all(_temps: Vec<Temps>) {}

/// An empty list with room for so many: the spare one where that is large enough, and else a new one with room for no more. The one
/// error is a refused request for memory.
#[inline(always)]
pub(crate) fn list_for<T: Drop>(
    alloc: Global,
    spare: &mut Vec<T>,
    count: usize,
) -> Result<Vec<T>, AllocError>
    ensures none { IfOk result (λ list. list.items ≡ []) }
    ensures room { IfOk result (λ list. count ≤ vec_capacity list) }
{
    if count > spare.capacity() {
        return Vec::with_capacity(alloc, count);
    }
    let mut list = mem::replace(spare, Vec::new(alloc));
    list.clear();
    Ok(list)
}
