//! Frames.

ghost use Rattle.std.specs.Prelude.{◌≡◌, ◌≢◌, ◌<◌, ◌≤◌, [], None, true, option_map, IfOk, IfSome, IsSomeAnd, OnOk, OnErr};
ghost use Rattle.std.specs.Bool.{OnTrue, OnFalse};
ghost use Rattle.ink_model.specs.Flow.Frames.{fresh_depth, is_function};
ghost use Rattle.ink_model.specs.Variables.Rows.{name_order, row};
ghost use Rattle.ink_model.specs.Flow.Threads.{new_frame, same_kind, stale, with_row_in};
ghost use Rattle.ink_frames.specs.Cells.{temp_back, with_fresh};
ghost use Rattle.ink_frames.specs.Frames.{frame_with, is_bare};
ghost use Rattle.ink_frames.specs.Quiet.{Covers};
ghost use Rattle.ink_frames.specs.Temps.{text_of};
ghost use Rattle.ink_model.specs.Variables.Store.{Values};

use crate::temps::{TempName, Temps};
use ink_model::{FrameKind, Value};
use std::alloc::{AllocError, Global};
use std::marker::Model;

/// What a frame has but for its temporaries: what it was pushed for, whether it evaluates, whether it is a fresh function, how
/// many sections were open at its push, where it is, and the number of its Enter on this line. A copy is a copy of some words.
#[derive(Clone, Copy)]
pub(crate) struct Header<P> {
    pub(crate) kind: FrameKind,
    pub(crate) evaluating: bool,
    pub(crate) fresh: bool,
    pub(crate) depth: usize,
    pub(crate) place: Option<P>,
    pub(crate) enter: Option<u64>,
}

impl<P> Header<P> {
    /// Whether the frame is a function.
    pub(crate) fn is_function(&self) -> bool
        ensures { result ≡ is_function self.now.kind }
    {
        matches!(self.kind, FrameKind::Function)
    }

    /// A text is written where so many sections are open: the frame is fresh no more if it was pushed there. Whether it was fresh until
    /// then.
    pub(crate) fn end_one(&mut self, depth: usize) -> bool
        ensures frame { (rows : Values) → frame_with self.new rows ≡ stale depth (frame_with self.old rows) }
        ensures ended { (rows : Values) → OnTrue result (with_fresh true (stale depth (frame_with self.old rows)) ≡ frame_with self.old rows) }
        ensures kept { (rows : Values) → OnFalse result (stale depth (frame_with self.old rows) ≡ frame_with self.old rows) }
    {
        if self.fresh && self.depth == depth {
            self.fresh = false;
            return true;
        }
        false
    }

    /// The number of sections that holds with this frame nearest, by the one that holds below it: where so many are open, or more, a
    /// text ends no freshness. None where there is none.
    pub(crate) fn quiet_above(&self, quiet: Option<usize>) -> Option<usize>
        ensures { (rows : Values) → Covers quiet (frame_with self.now rows) result }
    {
        if !self.is_function() {
            return Some(0);
        }
        if !self.fresh {
            return quiet;
        }
        above(quiet, self.depth)
    }
}

/// A number that is above a depth, and not below a bound; none where there is no bound, or no such number.
fn above(bound: Option<usize>, depth: usize) -> Option<usize>
    ensures above { IfSome result (λ n. depth < n) }
    ensures least { IfSome result (λ n. IsSomeAnd bound (λ m. m ≤ n)) }
{
    let bound = bound?;
    let next = depth.checked_add(1)?;
    Some(next.max(bound))
}

/// A frame: its header, and its temporaries. A contract sees it as one record.
pub struct Frame<P> {
    pub(crate) header: Header<P>,
    pub(crate) temps: Temps,
}

impl<P: Drop> Drop for Frame<P> {
    fn drop(self) {
        let Frame {
            header: _,
            temps: _,
        } = self;
    }
}

impl<P> Model for Frame<P> {
    ghost use Rattle.ink_model.specs.Flow.Frames.{FrameOf};

    ghost Value = { FrameOf P };

    ghost view = { λ f. record { kind = f.header.kind; place = f.header.place; temps = f.temps; evaluating = f.header.evaluating; fresh = f.header.fresh; depth = f.header.depth; enter = f.header.enter } };
}

impl<P: Copy> Frame<P> {
    /// A frame as it is pushed, which takes no memory.
    pub fn new(alloc: Global, kind: FrameKind, place: Option<P>, depth: usize) -> Frame<P>
        ensures { result ≡ new_frame kind place depth }
    {
        let fresh = matches!(kind, FrameKind::Function);
        Frame {
            header: Header {
                kind,
                evaluating: false,
                fresh,
                depth,
                place,
                enter: None,
            },
            temps: Temps::new(alloc),
        }
    }

    /// A frame without temporaries becomes one as it is pushed, at the place where it is.
    #[inline(always)]
    pub fn begin(&mut self, kind: FrameKind, depth: usize)
        requires bare { self.old.temps ≡ [] }
        ensures { self.new ≡ new_frame kind self.old.place depth }
    {
        self.header.kind = kind;
        self.header.evaluating = false;
        self.header.fresh = matches!(kind, FrameKind::Function);
        self.header.depth = depth;
        self.header.enter = None;
    }

    /// A copy of its temporaries. The one error is a refused request for memory, which none never make.
    #[inline(always)]
    pub fn copied_temps(&self, alloc: Global) -> Result<Temps, AllocError>
        ensures copy { IfOk result (λ copy. copy ≡ self.now.temps) }
        ensures memory { OnErr result (self.now.temps ≢ []) }
    {
        self.temps.clone_in(alloc)
    }

    /// A frame as this one, with these temporaries.
    #[inline(always)]
    pub fn with_temps(&self, temps: Temps) -> Frame<P>
        ensures { result ≡ record self.now { temps = temps } }
    {
        Frame {
            header: self.header,
            temps,
        }
    }

    /// It becomes the same as another, but for its temporaries.
    #[inline(always)]
    pub fn copy_header(&mut self, other: &Frame<P>)
        ensures { self.new ≡ record other.now { temps = self.old.temps } }
    {
        self.header = other.header;
    }

    /// Whether there are no temporaries.
    #[inline(always)]
    pub fn is_bare(&self) -> bool
        ensures { result ≡ is_bare self.now }
    {
        self.temps.is_empty()
    }

    /// Whether there are no temporaries, and no list that keeps memory for some.
    #[inline(always)]
    pub fn owns_nothing(&self) -> bool
        ensures { OnTrue result (self.now.temps ≡ []) }
    {
        self.temps.owns_nothing()
    }

    /// What it was pushed for.
    pub fn kind(&self) -> FrameKind
        ensures { result ≡ self.now.kind }
    {
        self.header.kind
    }

    /// Where it is; none where flow has stopped.
    pub fn place(&self) -> Option<P>
        ensures { result ≡ self.now.place }
    {
        self.header.place
    }

    /// Whether it is in evaluation mode.
    pub fn is_evaluating(&self) -> bool
        ensures { result ≡ self.now.evaluating }
    {
        self.header.evaluating
    }

    /// The number of its Enter on this line, where it has one.
    pub fn number(&self) -> Option<u64>
        ensures { result ≡ self.now.enter }
    {
        self.header.enter
    }

    /// How many string and tag sections were open at its push.
    pub fn depth(&self) -> usize
        ensures { result ≡ self.now.depth }
    {
        self.header.depth
    }

    /// How many sections were open at its push where it is a fresh function; none where it is no such function.
    pub fn fresh_depth(&self) -> Option<usize>
        ensures { result ≡ fresh_depth self.now }
    {
        match self.header.kind {
            FrameKind::Function if self.header.fresh => Some(self.header.depth),
            _ => None,
        }
    }

    /// Whether it is fresh.
    pub fn is_fresh(&self) -> bool
        ensures { result ≡ self.now.fresh }
    {
        self.header.fresh
    }

    /// Whether it was pushed for this.
    pub fn is(&self, kind: FrameKind) -> bool
        ensures { result ≡ same_kind self.now.kind kind }
    {
        match (self.header.kind, kind) {
            (FrameKind::Base, FrameKind::Base) => true,
            (FrameKind::Function, FrameKind::Function) => true,
            (FrameKind::Tunnel, FrameKind::Tunnel) => true,
            _ => false,
        }
    }

    /// Whether it is a function.
    pub fn is_function(&self) -> bool
        ensures { result ≡ is_function self.now.kind }
    {
        self.header.is_function()
    }

    /// The number of sections that holds with this frame nearest, by the one that holds below it. None where there is none.
    pub fn quiet_above(&self, quiet: Option<usize>) -> Option<usize>
        ensures { Covers quiet self.now result }
    {
        self.header.quiet_above(quiet)
    }

    /// It is at this place, or at none.
    pub fn put(&mut self, place: Option<P>)
        ensures { self.new ≡ record self.old { place = place } }
    {
        self.header.place = place;
    }

    /// Evaluation mode begins or ends in it.
    pub fn set_mode(&mut self, evaluating: bool)
        ensures { self.new ≡ record self.old { evaluating = evaluating } }
    {
        self.header.evaluating = evaluating;
    }

    /// It has this number of its Enter, or none.
    pub fn set_number(&mut self, number: Option<u64>)
        ensures { self.new ≡ record self.old { enter = number } }
    {
        self.header.enter = number;
    }

    /// A text is written where so many sections are open: the frame is fresh no more if it was pushed there.
    pub fn end_freshness(&mut self, depth: usize)
        ensures { self.new ≡ stale depth self.old }
    {
        let _was_fresh = self.header.end_one(depth);
    }

    /// The value of a temporary, none where the frame has none of that name. Takes no memory.
    pub fn temp(&self, name: &str) -> Option<&Value>
        ensures { option_map (λ value. value.now) result ≡ row name_order name.now self.now.temps }
    {
        self.temps.get(name)
    }

    /// Gives a temporary a value, and answers the index of its row and what that held; none where it is new. The one error is a
    /// refused request for memory, which is made only for a new name, and leaves all as it was.
    #[inline(never)]
    pub fn set_temp(
        &mut self,
        name: TempName<'_>,
        value: Value,
    ) -> Result<(usize, Option<Value>), AllocError>
        ensures ok { OnOk result (self.new ≡ with_row_in (text_of name.entry) value self.old) }
        ensures err { OnErr result (self.new ≡ self.old) }
        ensures memory { OnErr result (row name_order (text_of name.entry) self.old.temps ≡ None) }
        ensures back { IfOk result (λ was. temp_back was.0 was.1 self.new ≡ self.old) }
    {
        self.temps.set(name, value)
    }

    /// The same where what the name had before is not asked for.
    #[inline(always)]
    pub fn put_temp(&mut self, name: TempName<'_>, value: Value) -> Result<(), AllocError>
        ensures ok { OnOk result (self.new ≡ with_row_in (text_of name.entry) value self.old) }
        ensures err { OnErr result (self.new ≡ self.old) }
        ensures memory { OnErr result (row name_order (text_of name.entry) self.old.temps ≡ None) }
    {
        self.temps.put(name, value)
    }

    // ---- what a mark needs

    /// The same as `end_freshness`, and whether it was fresh until then.
    pub fn end_one(&mut self, depth: usize) -> bool
        ensures frame { self.new ≡ stale depth self.old }
        ensures ended { OnTrue result (with_fresh true self.new ≡ self.old) }
        ensures kept { OnFalse result (self.new ≡ self.old) }
    {
        self.header.end_one(depth)
    }

    /// It is fresh again.
    pub fn freshen(&mut self)
        ensures { self.new ≡ with_fresh true self.old }
    {
        self.header.fresh = true;
    }

    /// The row at an index of its temporaries holds what it held; where that was nothing it goes. Takes no memory.
    pub fn put_temp_back(&mut self, index: usize, was: Option<Value>)
        ensures { self.new ≡ temp_back index was self.old }
    {
        self.temps.put_back(index, was);
    }
}
