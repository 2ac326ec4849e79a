//! Headers that several lists of frames share.

ghost use Rattle.std.specs.Prelude.{◌≡◌, [], ◌∷◌, ◌++◌, ◌<◌, ◌≤◌, ◌+◌, get_or, length, map, take, vec_capacity, IfOk, MatchOption};
ghost use Rattle.std.specs.Bool.{OnTrue};
ghost use Rattle.ink_frames.specs.Frames.{as_seen, items_of, unnumbered};
ghost use Rattle.ink_frames.specs.declared.frame.Header.{Header};

use crate::frame::Header;
use ink_model::Shared;
use std::alloc::{AllocError, Global};
use std::marker::Model;

/// The lowest headers of a list of frames, which its copies share: the first ones, so many as are counted, of some that no list
/// changes. `unnumbered` says that the numbers of their Enters count no more in this list, so that the end of a line need not copy
/// the headers. A contract sees these as they count.
#[derive(Drop)]
pub(crate) struct Lowest<P> {
    shared: Option<Shared<Vec<Header<P>>>>,
    count: usize,
    unnumbered: bool,
}

impl<P> Model for Lowest<P> {
    ghost use Rattle.std.specs.Prelude.{◌≤◌, List, length, map, take};
    ghost use Rattle.ink_frames.specs.Frames.{items_of, as_seen};
    ghost use Rattle.ink_frames.specs.declared.frame.Header.{Header};

    ghost Value = { List (Header P) };

    ghost view = { λ l. map (as_seen l.unnumbered) (take l.count (items_of l.shared)) };

    ghost invariant = { λ l. l.count ≤ length (items_of l.shared) };
}

impl<P: Copy> Lowest<P> {
    /// None, which takes no memory.
    pub(crate) fn new() -> Lowest<P>
        ensures { result ≡ [] }
    {
        Lowest {
            shared: None,
            count: 0,
            unnumbered: false,
        }
    }

    /// How many there are.
    #[inline(always)]
    pub(crate) fn len(&self) -> usize
        ensures { result ≡ length self.now }
    {
        self.count
    }

    /// Whether there is nothing that is shared.
    #[inline(always)]
    pub(crate) fn is_unshared(&self) -> bool
        ensures { OnTrue result (self.now ≡ []) }
    {
        match &self.shared {
            None => true,
            Some(_) => false,
        }
    }

    /// The header at an index.
    #[inline(always)]
    pub(crate) fn header(&self, index: usize) -> Header<P>
        requires { index < length self.now }
        ensures { (d : Header P) → result ≡ get_or self.now index d }
    {
        seen(&first(&self.shared, self.count)[index], self.unnumbered)
    }

    /// One more owner. It asks for no memory; the one error is a count of owners that is full.
    #[inline(always)]
    pub(crate) fn share(&self) -> Result<Lowest<P>, AllocError>
        ensures { IfOk result (λ copy. copy ≡ self.now) }
    {
        match &self.shared {
            Some(shared) => Ok(Lowest {
                shared: Some(shared.share()?),
                count: self.count,
                unnumbered: self.unnumbered,
            }),
            None => Ok(Lowest::new()),
        }
    }

    /// These and more, to be shared from now on. The one error is a refused request for memory.
    pub(crate) fn extended(
        &self,
        alloc: Global,
        more: &[Header<P>],
    ) -> Result<Lowest<P>, AllocError>
        ensures { IfOk result (λ all. all ≡ self.now ++ more.now) }
    {
        let Some(count) = self.count.checked_add(more.len()) else {
            return Err(AllocError);
        };
        let mut all = Vec::with_capacity(alloc, count)?;
        push_all(&mut all, first(&self.shared, self.count), self.unnumbered);
        push_all(&mut all, more, false);
        Ok(Lowest {
            shared: Some(Shared::new(alloc, all)?),
            count,
            unnumbered: false,
        })
    }

    /// Takes the last one out, where there is one; other owners keep it.
    #[cold]
    #[inline(never)]
    pub(crate) fn pop(&mut self) -> Option<Header<P>>
        ensures { MatchOption result ((self.old ≡ []) × (self.new ≡ self.old)) (λ header. self.old ≡ self.new ++ header ∷ []) }
    {
        if self.count == 0 {
            return None;
        }
        let last = self.header(self.count - 1);
        self.count -= 1;
        Some(last)
    }

    /// They go, and stand in front of headers that are no one else's, where there is room for them.
    #[cold]
    #[inline(never)]
    pub(crate) fn thaw(&mut self, headers: &mut Vec<Header<P>>)
        requires { length (self.old ++ headers.old.items) ≤ vec_capacity headers.old }
        ensures none { self.new ≡ [] }
        ensures all { headers.new.items ≡ self.old ++ headers.old.items }
        ensures room { vec_capacity headers.new ≡ vec_capacity headers.old }
    {
        let own = headers.len();
        push_all(headers, first(&self.shared, self.count), self.unnumbered);
        headers.rotate_left(own);
        *self = Lowest::new();
    }

    /// None has the number of its Enter any more; for other owners it stays.
    pub(crate) fn clear_numbers(&mut self)
        ensures { self.new ≡ map unnumbered self.old }
    {
        self.unnumbered = true;
    }
}

/// The first ones, so many, of headers that are shared.
#[inline(always)]
fn first<P: Copy>(shared: &Option<Shared<Vec<Header<P>>>>, count: usize) -> &[Header<P>]
    requires { count ≤ length (items_of shared.now) }
    ensures { result.now ≡ take count (items_of shared.now) }
{
    match shared {
        Some(shared) => &shared.get().as_slice()[..count],
        None => &[],
    }
}

/// A header, without the number of its Enter where that counts no more.
#[inline(always)]
fn seen<P: Copy>(header: &Header<P>, unnumbered: bool) -> Header<P>
    ensures { result ≡ as_seen unnumbered header.now }
{
    let mut seen = *header;
    if unnumbered {
        seen.enter = None;
    }
    seen
}

/// Puts copies of headers behind others, where there is room for them, without the numbers of their Enters where these count no more.
#[inline(never)]
fn push_all<P: Copy>(headers: &mut Vec<Header<P>>, more: &[Header<P>], unnumbered: bool)
    requires { length headers.old.items + length more.now ≤ vec_capacity headers.old }
    ensures items { headers.new.items ≡ headers.old.items ++ map (as_seen unnumbered) more.now }
    ensures room { vec_capacity headers.new ≡ vec_capacity headers.old }
{
    for header in more {
        headers.push_reserved(seen(header, unnumbered));
    }
}
