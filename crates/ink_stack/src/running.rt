//! The thread that runs.

ghost use Rattle.std.specs.Prelude.{◌≡◌, ◌≢◌, ◌⊎◌, ℕ, List, [], ◌∷◌, ◌++◌, ◌<◌, ◌≤◌, Err, None, Some, true, length, option_map, reverse, IfErr, IfOk, IfSome, OnOk, OnErr};
ghost use Rattle.std.specs.Bool.{OnTrue, OnFalse};
ghost use Rattle.ink_model.specs.Flow.Bases.{BaseFirst};
ghost use Rattle.ink_model.specs.Flow.Frames.{FrameOf, base_frame, fresh_depth, frame_numbered, gone, is_function, mode_in, put_in, unnumbered_thread};
ghost use Rattle.ink_model.specs.declared.limits.TheConstants.{MAX_FRAMES};
ghost use Rattle.ink_model.specs.Flow.Threads.{frame_count, number_in, frame_popped, frame_pushed, same_kind, stale, stale_run, staled, temp_in, with_temp};
ghost use Rattle.ink_stack.specs.Calls.{frame_kind};
ghost use Rattle.ink_frames.specs.Cells.{temp_back, with_fresh};
ghost use Rattle.ink_stack.specs.Cells.{Within, holds_of, number_back, ungone, unpopped, unpushed, with_frame};
ghost use Rattle.ink_frames.specs.Frames.{MoreRoom};
ghost use Rattle.ink_frames.specs.Quiet.{IsQuiet, Settled};
ghost use Rattle.ink_stack.specs.Running.{IsPlain, fork_of};
ghost use Rattle.ink_frames.specs.Temps.{text_of};
ghost use Rattle.ink_stack.specs.Outcomes.{Changes, Grows};

use crate::fork::Fork;
use crate::frame::CallKind;
use ink_frames::{Frame, Frames, Spare, TempName};
use ink_model::{Fault, FrameKind, MAX_FRAMES, Value};
use std::alloc::{AllocError, Global};
use std::marker::Model;
use std::mem;

/// The thread that runs: frames, of which there is always one on top and the bottom one alone is the base, and the place from
/// which flow last moved in it. A contract sees the thread, its frames below the top one with the nearest first, and the room
/// for such frames without memory.
///
/// Of the function frames that are nearest below the top one each fresh one was pushed where fewer than `quiet` sections were open,
/// so that a text where so many are open, or more, need not look at them; none where that is not known. `settled` says how many of the
/// lowest frames do not have the number of their Enter, so that the end of a line looks only at those above them.
pub struct Running<P> {
    pub(crate) frame: Frame<P>,
    pub(crate) below: Frames<P>,
    pub(crate) previous: Option<P>,
    pub(crate) quiet: Option<usize>,
    pub(crate) settled: usize,
    pub(crate) alloc: Global,
}

impl<P: Drop> Drop for Running<P> {
    #[inline(always)]
    fn drop(self) {
        let Running {
            frame: _,
            below: _,
            previous: _,
            quiet: _,
            settled: _,
            alloc: _,
        } = self;
    }
}

impl<P> Model for Running<P> {
    ghost use Rattle.std.specs.Prelude.{reverse, ◌<◌, length, IfSome};
    ghost use Rattle.ink_model.specs.Flow.Bases.{BaseFirst};
    ghost use Rattle.ink_model.specs.declared.limits.TheConstants.{MAX_FRAMES};
    ghost use Rattle.ink_frames.specs.Quiet.{IsQuiet, Settled};
    ghost use Rattle.ink_stack.specs.Running.{RunningView};

    ghost Value = { RunningView P };

    ghost view = { λ t. record {
      thread = record { frame = t.frame; below = reverse t.below.items; previous = t.previous };
      room = t.below.room;
    } };

    ghost invariant = { λ t. (length t.below.items < MAX_FRAMES) × IfSome t.quiet (λ n. IsQuiet n (reverse t.below.items))
        × BaseFirst t.frame.kind (reverse t.below.items) × Settled t.settled t.below.items };
}

impl<P: Copy> Running<P> {
    /// One base frame, which takes no memory.
    pub(crate) fn new(alloc: Global, place: Option<P>) -> Running<P>
        ensures { result.thread ≡ record { frame = base_frame place; below = []; previous = None } }
    {
        Running {
            frame: Frame::new(alloc, FrameKind::Base, place, 0),
            below: Frames::new(alloc),
            previous: None,
            quiet: Some(0),
            settled: 0,
            alloc,
        }
    }

    /// How many frames there are, 1,000 at the most; the bottom one alone is the base.
    pub fn frames(&self) -> usize
        ensures count { result ≡ frame_count self.now.thread }
        ensures most { result ≤ MAX_FRAMES }
        ensures base { BaseFirst self.now.thread.frame.kind self.now.thread.below }
    {
        self.below.len() + 1
    }

    /// Where the top frame is; none where flow has stopped.
    pub fn place(&self) -> Option<P>
        ensures { result ≡ self.now.thread.frame.place }
    {
        self.frame.place()
    }

    /// The place from which flow last moved in this thread; none where it has not moved.
    pub fn previous(&self) -> Option<P>
        ensures { result ≡ self.now.thread.previous }
    {
        self.previous
    }

    /// What the top frame was pushed for.
    pub fn kind(&self) -> FrameKind
        ensures { result ≡ self.now.thread.frame.kind }
    {
        self.frame.kind()
    }

    /// Whether the top frame is in evaluation mode.
    pub fn is_evaluating(&self) -> bool
        ensures { result ≡ self.now.thread.frame.evaluating }
    {
        self.frame.is_evaluating()
    }

    /// The number of the top frame's Enter on this line, where it has one.
    pub fn number(&self) -> Option<u64>
        ensures { result ≡ self.now.thread.frame.enter }
    {
        self.frame.number()
    }

    /// How many sections are open below the one in which the top frame is a fresh function; none where it is no such
    /// function.
    pub fn fresh_depth(&self) -> Option<usize>
        ensures { result ≡ fresh_depth self.now.thread.frame }
    {
        self.frame.fresh_depth()
    }

    /// A copy. The one error is a refused request for memory, which a frame alone without temporaries never makes.
    #[inline(always)]
    pub(crate) fn clone_in(&self, alloc: Global) -> Result<Running<P>, AllocError>
        ensures copy { IfOk result (λ copy. copy.thread ≡ self.now.thread) }
        ensures memory { OnErr result ((self.now.thread.frame.temps ≢ []) ⊎ (self.now.thread.below ≢ [])) }
    {
        let mut spare = Spare::new(alloc);
        let Ok(fork) = self.fork_over(alloc, &mut spare) else {
            return Err(AllocError);
        };
        Ok(self.with_fork(fork))
    }

    /// Whether it is a frame alone without temporaries, as most are, so that a copy asks for no memory.
    #[inline(always)]
    pub(crate) fn is_plain(&self) -> bool
        ensures { OnTrue result (IsPlain self.now.thread) }
    {
        if self.below.len() == 0 {
            return self.frame.is_bare();
        }
        false
    }

    /// Whether it is a frame alone without temporaries and without lists, as such a frame's copy is: then nothing is let go with it.
    #[inline(always)]
    pub(crate) fn owns_nothing(&self) -> bool
        ensures { OnTrue result (IsPlain self.now.thread) }
    {
        if self.below.owns_nothing() {
            return self.frame.owns_nothing();
        }
        false
    }

    /// It becomes the same as another, where both are a frame alone without temporaries, and keeps its lists.
    #[inline(always)]
    pub(crate) fn copy_plain(&mut self, other: &Running<P>)
        requires own { IsPlain self.old.thread }
        requires other { IsPlain other.now.thread }
        ensures thread { self.new.thread ≡ other.now.thread }
        ensures room { self.new.room ≡ self.old.room }
    {
        self.frame.copy_header(&other.frame);
        self.previous = other.previous;
        self.quiet = other.quiet;
        self.settled = other.settled;
    }

    /// What a copy asks memory for, in the memory of spare lists where these are large enough. The one error is a refused request
    /// for memory, which a frame alone without temporaries never makes.
    #[inline(always)]
    pub(crate) fn fork_over(
        &self,
        alloc: Global,
        spare: &mut Spare<P>,
    ) -> Result<Fork<P>, AllocError>
        ensures copy { IfOk result (λ fork. fork ≡ fork_of self.now.thread) }
        ensures memory { OnErr result ((self.now.thread.frame.temps ≢ []) ⊎ (self.now.thread.below ≢ [])) }
    {
        let Ok(temps) = self.frame.copied_temps(alloc) else {
            return Err(AllocError);
        };
        let Ok(below) = self.below.clone_over(alloc, spare) else {
            return Err(AllocError);
        };
        Ok(Fork { temps, below })
    }

    /// A copy, of what was asked for. It is a call of its own, which cannot fail, so that a copy is built where it stands.
    #[inline(always)]
    pub(crate) fn with_fork(&self, fork: Fork<P>) -> Running<P>
        requires { fork ≡ fork_of self.now.thread }
        ensures { result.thread ≡ self.now.thread }
    {
        let Fork { temps, below } = fork;
        Running {
            frame: self.frame.with_temps(temps),
            below,
            previous: self.previous,
            quiet: self.quiet,
            settled: self.settled,
            alloc: self.alloc,
        }
    }

    /// Copies share the frames below the top one from now on, where there are many. It asks for memory only to make copies cheap.
    #[inline(always)]
    pub(crate) fn freeze(&mut self)
        ensures { self.new ≡ self.old }
    {
        self.below.freeze();
    }

    /// The thread ends, and its lists of frames become spare ones where they are larger.
    #[inline(always)]
    pub(crate) fn give_lists(self, spare: &mut Spare<P>) {
        let Running {
            frame: _,
            below,
            previous: _,
            quiet: _,
            settled: _,
            alloc: _,
        } = self;
        below.give_lists(spare);
    }

    pub(crate) fn go(&mut self, place: Option<P>)
        ensures { self.new ≡ record self.old { thread = gone place self.old.thread } }
    {
        self.previous = self.frame.place();
        self.frame.put(place);
    }

    pub(crate) fn put(&mut self, place: Option<P>)
        ensures { self.new ≡ record self.old { thread = put_in place self.old.thread } }
    {
        self.frame.put(place);
    }

    pub(crate) fn set_mode(&mut self, evaluating: bool)
        ensures { self.new ≡ record self.old { thread = mode_in evaluating self.old.thread } }
    {
        self.frame.set_mode(evaluating);
    }

    pub(crate) fn set_number(&mut self, number: u64)
        ensures { self.new ≡ record self.old { thread = number_in number self.old.thread } }
    {
        self.frame.set_number(Some(number));
    }

    pub(crate) fn clear_numbers(&mut self)
        ensures { self.new ≡ record self.old { thread = unnumbered_thread self.old.thread } }
    {
        self.frame.set_number(None);
        if self.settled < self.below.len() {
            self.below.clear_numbers(self.settled);
            self.settled = self.below.len();
        }
    }

    pub(crate) fn end_freshness(&mut self, depth: usize)
        ensures { self.new ≡ record self.old { thread = staled depth self.old.thread } }
    {
        let quiet = self.is_quiet(depth);
        self.frame.end_freshness(depth);
        if !quiet {
            self.quiet = end_freshness_of(&mut self.below, depth);
        }
    }

    pub(crate) fn push(&mut self, kind: CallKind, depth: usize) -> Result<(), Fault>
        ensures thread { Grows (frame_pushed (frame_kind kind) depth self.old.thread) self.old.thread self.new.thread result }
        ensures room { MoreRoom self.old.room self.new.room }
    {
        if self.frames() >= MAX_FRAMES {
            return Err(Fault::TooDeep);
        }
        self.below.make_room(&self.frame)?;
        self.quiet = self.frame.quiet_above(self.quiet);
        self.settled = settled_above(&self.frame, self.below.len(), self.settled);
        self.below.push_from(&mut self.frame);
        self.frame.begin(kind.frame_kind(), depth);
        Ok(())
    }

    // Whether a frame of this kind can be popped where so many sections are open. `BadPop` where the top frame is of another kind
    // or the only one; else `BadMode` where another number was open at its push.
    #[inline(always)]
    fn check_pop(&self, kind: FrameKind, depth: usize) -> Result<(), Fault>
        ensures same { OnOk result (same_kind self.now.thread.frame.kind kind ≡ true) }
        ensures caller { OnOk result (0 < length self.now.thread.below) }
        ensures open { OnOk result (self.now.thread.frame.depth ≡ depth) }
        ensures fault { IfErr result (λ f. frame_popped kind depth self.now.thread ≡ Err f) }
    {
        if !self.frame.is(kind) || self.below.len() == 0 {
            return Err(Fault::BadPop);
        }
        if self.frame.depth() != depth {
            return Err(Fault::BadMode);
        }
        Ok(())
    }

    /// Pops a frame, and hands it out.
    pub(crate) fn pop(&mut self, kind: FrameKind, depth: usize) -> Result<Frame<P>, Fault>
        ensures thread { Changes (frame_popped kind depth self.old.thread) self.old.thread self.new.thread result }
        ensures frame { IfOk result (λ frame. frame ≡ self.old.thread.frame) }
        ensures room { self.new.room ≡ self.old.room }
    {
        self.check_pop(kind, depth)?;
        match self.below.pop() {
            Some(caller) => {
                self.quiet = quiet_below(&caller, self.quiet);
                self.settled = self.settled.min(self.below.len());
                Ok(mem::replace(&mut self.frame, caller))
            }
            None => Err(Fault::BadPop),
        }
    }

    /// The same, and the frame goes. Its temporaries may keep their memory for those that come next.
    pub(crate) fn pop_away(&mut self, kind: FrameKind, depth: usize) -> Result<(), Fault>
        ensures thread { Changes (frame_popped kind depth self.old.thread) self.old.thread self.new.thread result }
        ensures room { self.new.room ≡ self.old.room }
    {
        self.check_pop(kind, depth)?;
        self.below.pop_into(&mut self.frame);
        self.quiet = quiet_below(&self.frame, self.quiet);
        self.settled = self.settled.min(self.below.len());
        Ok(())
    }

    /// What a frame has by a name; none where there is no such frame or name.
    pub(crate) fn temp(&self, number: usize, name: &str) -> Option<&Value>
        ensures { option_map (λ value. value.now) result ≡ temp_in number name.now self.now.thread }
    {
        if number == self.frames() {
            return self.frame.temp(name);
        }
        if number == 0 || number > self.frames() {
            return None;
        }
        self.below.temp(number - 1, name)
    }

    /// Gives a temporary a value, and answers the index of its row and what that held; none where it is new.
    pub(crate) fn set_temp(
        &mut self,
        number: usize,
        name: TempName<'_>,
        value: Value,
    ) -> Result<(usize, Option<Value>), AllocError>
        requires from { 0 < number }
        requires there { number ≤ frame_count self.old.thread }
        ensures ok { OnOk result (self.new.thread ≡ with_temp number (text_of name.entry) value self.old.thread) }
        ensures err { OnErr result (self.new.thread ≡ self.old.thread) }
        ensures room { MoreRoom self.old.room self.new.room }
        ensures memory { OnErr result (temp_in number (text_of name.entry) self.old.thread ≡ None) }
        ensures back { IfOk result (λ was. with_frame (temp_back was.0 was.1) number self.new.thread ≡ self.old.thread) }
    {
        if number == self.frames() {
            return self.frame.set_temp(name, value);
        }
        self.below.set_temp(number - 1, name, value)
    }

    /// The same where what the name had before is not asked for.
    pub(crate) fn put_temp(
        &mut self,
        number: usize,
        name: TempName<'_>,
        value: Value,
    ) -> Result<(), AllocError>
        requires from { 0 < number }
        requires there { number ≤ frame_count self.old.thread }
        ensures ok { OnOk result (self.new.thread ≡ with_temp number (text_of name.entry) value self.old.thread) }
        ensures err { OnErr result (self.new.thread ≡ self.old.thread) }
        ensures room { MoreRoom self.old.room self.new.room }
        ensures memory { OnErr result (temp_in number (text_of name.entry) self.old.thread ≡ None) }
    {
        if number == self.frames() {
            return self.frame.put_temp(name, value);
        }
        match self.set_temp(number, name, value) {
            Ok(_was) => Ok(()),
            Err(_) => Err(AllocError),
        }
    }

    // ---- what a mark needs

    /// Does nothing; by its contract the frames are within their limit and their room.
    #[inline(always)]
    pub(crate) fn within(&self)
        ensures { Within self.now.room self.now.thread }
    {
        self.below.within();
    }

    /// Whether it is known of the function frames nearest below the top one that each fresh one was pushed where fewer sections
    /// were open.
    #[inline(always)]
    pub(crate) fn is_quiet(&self, depth: usize) -> bool
        ensures { OnTrue result (IsQuiet depth self.now.thread.below) }
    {
        match self.quiet {
            Some(bound) => bound <= depth,
            None => false,
        }
    }

    /// Whether the frame of a number is a function.
    pub(crate) fn is_function(&self, number: usize) -> bool
        ensures { result ≡ holds_of (λ f. is_function f.kind) (frame_numbered number (self.now.thread.frame ∷ self.now.thread.below)) }
    {
        if number == self.frames() {
            return self.frame.is_function();
        }
        if number == 0 || number > self.frames() {
            return false;
        }
        self.below.is_function(number - 1)
    }

    /// A text is written where so many sections are open: the frame of a number is fresh no more if it was pushed there. Whether
    /// it was fresh until then.
    pub(crate) fn end_one(&mut self, number: usize, depth: usize) -> bool
        requires from { 0 < number }
        requires there { number ≤ frame_count self.old.thread }
        ensures running { self.new ≡ record self.old { thread = with_frame (stale depth) number self.old.thread } }
        ensures ended { OnTrue result (with_frame (with_fresh true) number self.new.thread ≡ self.old.thread) }
        ensures kept { OnFalse result (self.new.thread ≡ self.old.thread) }
    {
        if number == self.below.len() + 1 {
            return self.frame.end_one(depth);
        }
        self.quiet = None;
        self.below.end_one(number - 1, depth)
    }

    /// Flow is where it was before it went.
    pub(crate) fn ungo(&mut self, place: Option<P>, previous: Option<P>)
        ensures { self.new ≡ record self.old { thread = ungone place previous self.old.thread } }
    {
        self.frame.put(place);
        self.previous = previous;
    }

    pub(crate) fn put_number_back(&mut self, number: Option<u64>)
        ensures { self.new ≡ record self.old { thread = number_back number self.old.thread } }
    {
        self.frame.set_number(number);
    }

    /// The frame of a number is fresh again.
    pub(crate) fn freshen(&mut self, number: usize)
        ensures { self.new ≡ record self.old { thread = with_frame (with_fresh true) number self.old.thread } }
    {
        if number == self.below.len() + 1 {
            self.frame.freshen();
            return;
        }
        if 0 < number && number <= self.below.len() {
            self.quiet = None;
            self.below.freshen(number - 1);
        }
    }

    /// The row at an index of a frame's temporaries holds what it held; where that was nothing it goes.
    pub(crate) fn put_temp_back(&mut self, number: usize, index: usize, was: Option<Value>)
        ensures { self.new ≡ record self.old { thread = with_frame (temp_back index was) number self.old.thread } }
    {
        if number == self.below.len() + 1 {
            self.frame.put_temp_back(index, was);
            return;
        }
        if 0 < number && number <= self.below.len() {
            self.below.put_temp_back(number - 1, index, was);
        }
    }

    /// The frame that was pushed goes.
    pub(crate) fn unpush(&mut self)
        ensures { self.new ≡ record self.old { thread = unpushed self.old.thread } }
    {
        if let Some(under) = self.below.pop() {
            self.quiet = quiet_below(&under, self.quiet);
            self.settled = self.settled.min(self.below.len());
            self.frame = under;
        }
    }

    /// The frame that was popped is on top again.
    pub(crate) fn unpop(&mut self, frame: Frame<P>)
        requires { Within self.old.room (unpopped frame self.old.thread) }
        ensures { self.new ≡ record self.old { thread = unpopped frame self.old.thread } }
    {
        let under = mem::replace(&mut self.frame, frame);
        self.quiet = under.quiet_above(self.quiet);
        self.settled = settled_above(&under, self.below.len(), self.settled);
        self.below.push_reserved(under);
    }
}

/// A text is written where so many sections are open: of the function frames that come last here, those that were pushed
/// there are fresh no more. Answers a number of sections, where there is one: those that are fresh then were pushed where fewer were
/// open.
#[inline(never)]
fn end_freshness_of<P: Copy>(frames: &mut Frames<P>, depth: usize) -> Option<usize>
    ensures run { reverse frames.new.items ≡ stale_run depth (reverse frames.old.items) }
    ensures quiet { IfSome result (λ n. IsQuiet n (reverse frames.new.items)) }
    ensures settled { (n : ℕ) → Settled n frames.old.items → Settled n frames.new.items }
    ensures room { frames.new.room ≡ frames.old.room }
{
    let mut quiet = Some(0);
    let mut count = frames.len();
    while count > 0 {
        count -= 1;
        if !frames.is_function(count) {
            return quiet;
        }
        let _was = frames.end_one(count, depth);
        quiet = frames.quiet_above(count, quiet);
    }
    quiet
}

/// The number of sections that holds below a frame, by the one that holds with it.
fn quiet_below<P: Copy>(nearest: &Frame<P>, quiet: Option<usize>) -> Option<usize>
    ensures { IfSome result (λ n. (is_function nearest.now.kind ≡ true) × (quiet ≡ Some n)) }
{
    if nearest.is_function() {
        return quiet;
    }
    None
}

/// How many of the lowest frames do not have the number of their Enter where a frame stands above so many, of which `settled` do not
/// have it.
#[inline(always)]
fn settled_above<P: Copy>(frame: &Frame<P>, count: usize, settled: usize) -> usize
    requires { count < MAX_FRAMES }
    ensures { (fs : List (FrameOf P)) → length fs ≡ count → Settled settled fs → Settled result (fs ++ frame.now ∷ []) }
{
    if settled == count && frame.number().is_none() {
        return count + 1;
    }
    settled
}
