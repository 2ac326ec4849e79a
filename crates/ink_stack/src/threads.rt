//! The threads of a running story.

ghost use Rattle.std.specs.Prelude.{◌≡◌, ◌≢◌, ◌⊎◌, ◌<◌, ◌≤◌, ◌+◌, [], None, Some, is_some, length, map, option_map, true, unwrap_or, vec_capacity, IfOk, IfErr, OnOk, OnErr};
ghost use Rattle.std.specs.Bool.{OnFalse, OnTrue};
ghost use Rattle.ink_model.specs.Flow.Transfers.{is_last};
ghost use Rattle.ink_model.specs.Flow.Frames.{base_threads, fresh_depth, gone, mode_in, on_top, place_in, put_in, unnumbered_thread, unnumbered_threads};
ghost use Rattle.ink_model.specs.Flow.Threads.{alone, doubled, dropped, frame_count, number_in, frame_popped, frame_pushed, staled, temp_in, thread_count, top_result, with_temp};
ghost use Rattle.ink_model.specs.declared.limits.TheConstants.{MAX_THREADS};
ghost use Rattle.ink_stack.specs.Calls.{frame_kind};
ghost use Rattle.ink_stack.specs.Cells.{Within};
ghost use Rattle.ink_stack.specs.Running.{fork_of, threads_in};
ghost use Rattle.ink_frames.specs.Temps.{text_of};
ghost use Rattle.ink_stack.specs.Undo.{HasGone, HasMode, NotesTemp, threads_back, threads_spare, threads_stood};
ghost use Rattle.ink_stack.specs.Outcomes.{Changes, Grows};
ghost use Rattle.ink_trail.specs.Undo.{KeepsTrail, Notes, Trails, TrailsOrKeeps, trail_of, with_count, with_pair, writes_of};

use crate::fork::Fork;
use crate::frame::CallKind;
use crate::running::Running;
use crate::thread::Thread;
use crate::undo::{ThreadsPair, end_freshness, has_gone, has_mode};
use ink_frames::{Spare, TempName};
use ink_model::{Fault, FrameKind, MAX_THREADS, Shared, Text, Value};
use ink_trail::Trail;
use std::alloc::Global;
use std::marker::Model;
use std::mem;

/// Where flow is: threads, of which there is always one on top, 100 at the most; and while a mark stands, the trail of what they
/// were. A contract sees those below the top one with the nearest first. The lists of frames of a thread that ended are kept as
/// `spare`, so that the next copy of a thread need not ask for any.
pub struct Threads<P> {
    pub(crate) running: Running<P>,
    pub(crate) below: Vec<Thread<P>>,
    pub(crate) trail: Trail<ThreadsPair<P>>,
    pub(crate) spare: Spare<P>,
    pub(crate) alloc: Global,
}

impl<P: Drop> Drop for Threads<P> {
    fn drop(self) {
        let Threads {
            running: _,
            below: _,
            trail: _,
            spare: _,
            alloc: _,
        } = self;
    }
}

impl<P> Model for Threads<P> {
    ghost use Rattle.std.specs.Prelude.{◌<◌, length, vec_capacity};
    ghost use Rattle.ink_model.specs.declared.limits.TheConstants.{MAX_THREADS};
    ghost use Rattle.ink_stack.specs.Running.{threads_in};
    ghost use Rattle.ink_stack.specs.Threads.{ThreadsView};
    ghost use Rattle.ink_stack.specs.Undo.{StaysHeld};
    ghost use Rattle.ink_trail.specs.Undo.{trail_of};

    ghost Value = { ThreadsView P };

    ghost view = { λ ts. record { threads = threads_in ts.running ts.below.items; trail = ts.trail } };

    ghost invariant = { λ ts. (length ts.below.items < MAX_THREADS)
        × StaysHeld (record { frames = ts.running.room; threads = vec_capacity ts.below }) (trail_of ts.trail.undo) (threads_in ts.running ts.below.items) };
}

#[tactic(auto, unfolding(crate::specs::Undo::threads_stood, crate::specs::Undo::threads_spare, ink_trail::specs::Undo::stood_at, ink_trail::specs::Undo::spare))]
impl<P: Copy> Threads<P> {
    /// One thread of one base frame, outside evaluation mode, which takes no memory.
    pub fn new(alloc: Global, place: Option<P>) -> Threads<P>
        ensures threads { result.threads ≡ base_threads place }
        ensures stood { threads_stood result ≡ None }
    {
        Threads {
            running: Running::new(alloc, place),
            below: Vec::new(alloc),
            trail: Trail::new(alloc),
            spare: Spare::new(alloc),
            alloc,
        }
    }

    /// The top thread.
    pub fn top(&self) -> &Running<P>
        ensures { result.now.thread ≡ self.now.threads.thread }
    {
        &self.running
    }

    /// Where flow is; none where it has stopped.
    pub fn place(&self) -> Option<P>
        ensures { result ≡ place_in self.now.threads }
    {
        self.running.place()
    }

    /// Whether the top frame is in evaluation mode.
    pub fn is_evaluating(&self) -> bool
        ensures { result ≡ self.now.threads.thread.frame.evaluating }
    {
        self.running.is_evaluating()
    }

    /// How many sections are open below the one in which the top frame is a fresh function; none where it is no such
    /// function.
    pub fn fresh_depth(&self) -> Option<usize>
        ensures { result ≡ fresh_depth self.now.threads.thread.frame }
    {
        self.running.fresh_depth()
    }

    /// Flow goes to a place, or to none. The one that it leaves becomes the previous one.
    pub fn go(&mut self, place: Option<P>)
        requires room { 2 ≤ threads_spare self.old }
        ensures threads { self.new.threads ≡ on_top (gone place) self.old.threads }
        ensures trail { Notes threads_back 2 self.old.threads self.old.trail self.new.threads self.new.trail }
        ensures writes { writes_of self.new.trail.undo ≡ writes_of (with_count 2 self.old.trail.undo) }
        ensures stood { threads_stood self.new ≡ threads_stood self.old }
        ensures spare { threads_spare self.old ≤ threads_spare self.new + 2 }
    {
        if self.trail.is_marked() {
            if has_gone(self.trail.pairs()) {
                return self.go_further(place);
            }
            return self.go_marked(place);
        }
        self.running.go(place);
    }

    // As `go`, while a mark stands, where both places are noted.
    #[cold]
    #[inline(never)]
    fn go_marked(&mut self, place: Option<P>)
        requires room { 2 ≤ threads_spare self.old }
        ensures threads { self.new.threads ≡ on_top (gone place) self.old.threads }
        ensures trail { Notes threads_back 2 self.old.threads self.old.trail self.new.threads self.new.trail }
        ensures writes { writes_of self.new.trail.undo ≡ writes_of (with_count 2 self.old.trail.undo) }
        ensures stood { threads_stood self.new ≡ threads_stood self.old }
        ensures spare { threads_spare self.old ≤ threads_spare self.new + 2 }
    {
        let previous = self.running.previous();
        let left = self.running.place();
        self.trail.note(ThreadsPair::Gone(left, previous), 2);
        self.running.go(place);
    }

    // As `go`, where nothing was noted since flow went last: that puts both places back already.
    #[inline(always)]
    fn go_further(&mut self, place: Option<P>)
        requires gone { HasGone (trail_of self.old.trail.undo) }
        ensures threads { self.new.threads ≡ on_top (gone place) self.old.threads }
        ensures trail { Notes threads_back 2 self.old.threads self.old.trail self.new.threads self.new.trail }
        ensures writes { writes_of self.new.trail.undo ≡ writes_of (with_count 2 self.old.trail.undo) }
        ensures stood { threads_stood self.new ≡ threads_stood self.old }
        ensures spare { threads_spare self.old ≤ threads_spare self.new + 2 }
    {
        self.trail.count(2);
        self.running.go(place);
    }

    /// Puts the top frame at a place, or at none. The previous place stays.
    pub fn put(&mut self, place: Option<P>)
        requires room { 1 ≤ threads_spare self.old }
        ensures threads { self.new.threads ≡ on_top (put_in place) self.old.threads }
        ensures trail { Trails threads_back 1 self.old.threads self.old.trail self.new.threads self.new.trail }
        ensures stood { threads_stood self.new ≡ threads_stood self.old }
        ensures spare { threads_spare self.old ≤ threads_spare self.new + 1 }
    {
        if self.trail.is_marked() {
            return self.put_marked(place);
        }
        self.running.put(place);
    }

    // As `put`, while a mark stands.
    #[cold]
    #[inline(never)]
    fn put_marked(&mut self, place: Option<P>)
        requires room { 1 ≤ threads_spare self.old }
        ensures threads { self.new.threads ≡ on_top (put_in place) self.old.threads }
        ensures trail { Trails threads_back 1 self.old.threads self.old.trail self.new.threads self.new.trail }
        ensures stood { threads_stood self.new ≡ threads_stood self.old }
        ensures spare { threads_spare self.old ≤ threads_spare self.new + 1 }
    {
        let was = self.running.place();
        self.trail.note(ThreadsPair::Placed(was), 1);
        self.running.put(place);
    }

    /// Evaluation mode begins or ends in the top frame.
    pub fn set_mode(&mut self, evaluating: bool)
        requires room { 1 ≤ threads_spare self.old }
        ensures threads { self.new.threads ≡ on_top (mode_in evaluating) self.old.threads }
        ensures trail { Notes threads_back 1 self.old.threads self.old.trail self.new.threads self.new.trail }
        ensures writes { writes_of self.new.trail.undo ≡ writes_of (with_count 1 self.old.trail.undo) }
        ensures stood { threads_stood self.new ≡ threads_stood self.old }
        ensures spare { threads_spare self.old ≤ threads_spare self.new + 1 }
    {
        if self.trail.is_marked() {
            return self.set_mode_marked(evaluating);
        }
        self.running.set_mode(evaluating);
    }

    // As `set_mode`, while a mark stands.
    #[cold]
    #[inline(never)]
    fn set_mode_marked(&mut self, evaluating: bool)
        requires room { 1 ≤ threads_spare self.old }
        ensures threads { self.new.threads ≡ on_top (mode_in evaluating) self.old.threads }
        ensures trail { Notes threads_back 1 self.old.threads self.old.trail self.new.threads self.new.trail }
        ensures writes { writes_of self.new.trail.undo ≡ writes_of (with_count 1 self.old.trail.undo) }
        ensures stood { threads_stood self.new ≡ threads_stood self.old }
        ensures spare { threads_spare self.old ≤ threads_spare self.new + 1 }
    {
        if has_mode(self.trail.pairs()) {
            return self.set_mode_again(evaluating);
        }
        let was = self.running.is_evaluating();
        self.trail.note(ThreadsPair::Evaluating(was), 1);
        self.running.set_mode(evaluating);
    }

    // As `set_mode`, where nothing was noted since but that flow went: the mode is put back already.
    #[inline(always)]
    fn set_mode_again(&mut self, evaluating: bool)
        requires mode { HasMode (trail_of self.old.trail.undo) }
        ensures threads { self.new.threads ≡ on_top (mode_in evaluating) self.old.threads }
        ensures trail { Notes threads_back 1 self.old.threads self.old.trail self.new.threads self.new.trail }
        ensures writes { writes_of self.new.trail.undo ≡ writes_of (with_count 1 self.old.trail.undo) }
        ensures stood { threads_stood self.new ≡ threads_stood self.old }
        ensures spare { threads_spare self.old ≤ threads_spare self.new + 1 }
    {
        self.trail.count(1);
        self.running.set_mode(evaluating);
    }

    /// The top frame has this number of its Enter on the line.
    pub fn set_number(&mut self, number: u64)
        requires room { 1 ≤ threads_spare self.old }
        ensures threads { self.new.threads ≡ on_top (number_in number) self.old.threads }
        ensures trail { Trails threads_back 1 self.old.threads self.old.trail self.new.threads self.new.trail }
        ensures stood { threads_stood self.new ≡ threads_stood self.old }
        ensures spare { threads_spare self.old ≤ threads_spare self.new + 1 }
    {
        if self.trail.is_marked() {
            return self.set_number_marked(number);
        }
        self.running.set_number(number);
    }

    // As `set_number`, while a mark stands.
    #[cold]
    #[inline(never)]
    fn set_number_marked(&mut self, number: u64)
        requires room { 1 ≤ threads_spare self.old }
        ensures threads { self.new.threads ≡ on_top (number_in number) self.old.threads }
        ensures trail { Trails threads_back 1 self.old.threads self.old.trail self.new.threads self.new.trail }
        ensures stood { threads_stood self.new ≡ threads_stood self.old }
        ensures spare { threads_spare self.old ≤ threads_spare self.new + 1 }
    {
        let was = self.running.number();
        self.trail.note(ThreadsPair::Numbered(was), 1);
        self.running.set_number(number);
    }

    /// A text was written where so many sections are open: the top frame is a fresh function no more, and neither are the
    /// function frames directly below it, of all these the ones that were pushed there (docs/FRAMES.md, "Freshness").
    pub fn end_freshness(&mut self, depth: usize)
        requires room { frame_count self.old.threads.thread ≤ threads_spare self.old }
        ensures threads { self.new.threads ≡ on_top (staled depth) self.old.threads }
        ensures trail { Trails threads_back (frame_count self.old.threads.thread) self.old.threads self.old.trail self.new.threads self.new.trail }
        ensures stood { threads_stood self.new ≡ threads_stood self.old }
        ensures spare { threads_spare self.old ≤ threads_spare self.new + frame_count self.old.threads.thread }
    {
        if self.trail.is_marked() {
            return end_freshness(&mut self.running, &self.below, &mut self.trail, depth);
        }
        self.running.end_freshness(depth);
        self.running.within();
    }

    /// No frame has the number of its Enter any more. No mark may stand.
    pub fn clear_numbers(&mut self)
        requires unmarked { threads_stood self.old ≡ None }
        ensures threads { self.new.threads ≡ unnumbered_threads self.old.threads }
        ensures trail { KeepsTrail self.old.trail self.new.trail }
        ensures stood { threads_stood self.new ≡ threads_stood self.old }
        ensures spare { threads_spare self.old ≤ threads_spare self.new }
    {
        self.running.clear_numbers();
        self.running.within();
        clear_numbers_of(self.below.as_mut_slice());
    }

    /// Pushes a frame at the place of the one below, outside evaluation mode and without temporaries; a function is fresh.
    /// `depth` says how many sections are open. `TooDeep` where the thread has 1,000 frames; `OutOfMemory` for a refused
    /// request for memory. On an error nothing has changed (docs/FRAMES.md, "Frames").
    pub fn push_frame(&mut self, kind: CallKind, depth: usize) -> Result<(), Fault>
        ensures threads { Grows (top_result (frame_pushed (frame_kind kind) depth self.old.threads.thread) self.old.threads) self.old.threads self.new.threads result }
        ensures trail { TrailsOrKeeps threads_back 1 self.old.threads self.old.trail self.new.threads self.new.trail result }
        ensures pair { OnOk result (self.new.trail.undo ≡ with_pair ThreadsPair.FramePushed 1 self.old.trail.undo) }
        ensures stood { threads_stood self.new ≡ threads_stood self.old }
        ensures spare { threads_spare self.old ≤ threads_spare self.new + 1 }
    {
        if self.trail.is_marked() {
            return self.push_frame_marked(kind, depth);
        }
        let pushed = self.running.push(kind, depth);
        self.running.within();
        pushed
    }

    // As `push_frame`, while a mark stands.
    #[cold]
    #[inline(never)]
    fn push_frame_marked(&mut self, kind: CallKind, depth: usize) -> Result<(), Fault>
        ensures threads { Grows (top_result (frame_pushed (frame_kind kind) depth self.old.threads.thread) self.old.threads) self.old.threads self.new.threads result }
        ensures trail { TrailsOrKeeps threads_back 1 self.old.threads self.old.trail self.new.threads self.new.trail result }
        ensures pair { OnOk result (self.new.trail.undo ≡ with_pair ThreadsPair.FramePushed 1 self.old.trail.undo) }
        ensures stood { threads_stood self.new ≡ threads_stood self.old }
        ensures spare { threads_spare self.old ≤ threads_spare self.new + 1 }
    {
        let pushed = self.running.push(kind, depth);
        self.running.within();
        if let Err(fault) = pushed {
            return Err(fault);
        }
        let Ok(_) = self.trail.add(ThreadsPair::FramePushed, 1) else {
            self.running.unpush();
            return Err(Fault::OutOfMemory);
        };
        Ok(())
    }

    /// Pops a frame of this kind. `BadPop` where the top frame is of another kind or the only one; else `BadMode` where
    /// another number of sections is open than at its push. On an error nothing has changed. Takes no memory
    /// (docs/FRAMES.md, "Frames").
    pub fn pop_frame(&mut self, kind: FrameKind, depth: usize) -> Result<(), Fault>
        requires room { 1 ≤ threads_spare self.old }
        ensures threads { Changes (top_result (frame_popped kind depth self.old.threads.thread) self.old.threads) self.old.threads self.new.threads result }
        ensures trail { TrailsOrKeeps threads_back 1 self.old.threads self.old.trail self.new.threads self.new.trail result }
        ensures stood { threads_stood self.new ≡ threads_stood self.old }
        ensures spare { threads_spare self.old ≤ threads_spare self.new + 1 }
    {
        if self.trail.is_marked() {
            return self.pop_frame_marked(kind, depth);
        }
        let popped = self.running.pop_away(kind, depth);
        self.running.within();
        popped
    }

    // As `pop_frame`, while a mark stands.
    #[cold]
    #[inline(never)]
    fn pop_frame_marked(&mut self, kind: FrameKind, depth: usize) -> Result<(), Fault>
        requires room { 1 ≤ threads_spare self.old }
        ensures threads { Changes (top_result (frame_popped kind depth self.old.threads.thread) self.old.threads) self.old.threads self.new.threads result }
        ensures trail { TrailsOrKeeps threads_back 1 self.old.threads self.old.trail self.new.threads self.new.trail result }
        ensures stood { threads_stood self.new ≡ threads_stood self.old }
        ensures spare { threads_spare self.old ≤ threads_spare self.new + 1 }
    {
        let popped = self.running.pop(kind, depth);
        self.running.within();
        match popped {
            Ok(frame) => self.trail.note(ThreadsPair::FramePopped(frame), 1),
            Err(fault) => return Err(fault),
        }
        Ok(())
    }

    /// Puts a copy of the top thread on top. `TooDeep` where there are 100 threads; `OutOfMemory` for a refused request for
    /// memory. On an error nothing has changed (docs/FRAMES.md, "Threads").
    pub fn push_thread(&mut self) -> Result<(), Fault>
        ensures threads { Grows (doubled self.old.threads) self.old.threads self.new.threads result }
        ensures trail { TrailsOrKeeps threads_back 1 self.old.threads self.old.trail self.new.threads self.new.trail result }
        ensures pair { OnOk result (self.new.trail.undo ≡ with_pair ThreadsPair.ThreadPushed 1 self.old.trail.undo) }
        ensures stood { threads_stood self.new ≡ threads_stood self.old }
        ensures spare { threads_spare self.old ≤ threads_spare self.new + 1 }
    {
        self.share_frames();
        if self.trail.is_marked() {
            return self.push_thread_marked();
        }
        push_copy(self.alloc, &self.running, &mut self.below, &mut self.spare)
    }

    // As `push_thread`, while a mark stands.
    #[cold]
    #[inline(never)]
    fn push_thread_marked(&mut self) -> Result<(), Fault>
        ensures threads { Grows (doubled self.old.threads) self.old.threads self.new.threads result }
        ensures trail { TrailsOrKeeps threads_back 1 self.old.threads self.old.trail self.new.threads self.new.trail result }
        ensures pair { OnOk result (self.new.trail.undo ≡ with_pair ThreadsPair.ThreadPushed 1 self.old.trail.undo) }
        ensures stood { threads_stood self.new ≡ threads_stood self.old }
        ensures spare { threads_spare self.old ≤ threads_spare self.new + 1 }
    {
        if let Err(fault) = push_copy(self.alloc, &self.running, &mut self.below, &mut self.spare) {
            return Err(fault);
        }
        let Ok(_) = self.trail.add(ThreadsPair::ThreadPushed, 1) else {
            let _copy = self.below.pop();
            return Err(Fault::OutOfMemory);
        };
        Ok(())
    }

    /// Drops the top thread. False where it is the last one, and then nothing has changed. Takes no memory (docs/FRAMES.md,
    /// "Threads").
    pub fn pop_thread(&mut self) -> bool
        requires room { 1 ≤ threads_spare self.old }
        ensures dropped { result ≡ is_some (dropped self.old.threads) }
        ensures new { self.new.threads ≡ unwrap_or (dropped self.old.threads) self.old.threads }
        ensures trail { Trails threads_back 1 self.old.threads self.old.trail self.new.threads self.new.trail }
        ensures kept { OnFalse result (KeepsTrail self.old.trail self.new.trail) }
        ensures stood { threads_stood self.new ≡ threads_stood self.old }
        ensures spare { threads_spare self.old ≤ threads_spare self.new + 1 }
    {
        if self.trail.is_marked() {
            return self.pop_thread_marked();
        }
        drop_top(&mut self.running, &mut self.below, &mut self.spare)
    }

    // As `pop_thread`, while a mark stands.
    #[cold]
    #[inline(never)]
    fn pop_thread_marked(&mut self) -> bool
        requires room { 1 ≤ threads_spare self.old }
        ensures dropped { result ≡ is_some (dropped self.old.threads) }
        ensures new { self.new.threads ≡ unwrap_or (dropped self.old.threads) self.old.threads }
        ensures trail { Trails threads_back 1 self.old.threads self.old.trail self.new.threads self.new.trail }
        ensures kept { OnFalse result (KeepsTrail self.old.trail self.new.trail) }
        ensures stood { threads_stood self.new ≡ threads_stood self.old }
        ensures spare { threads_spare self.old ≤ threads_spare self.new + 1 }
    {
        let Some(next) = self.below.pop() else {
            return false;
        };
        let top = mem::replace(&mut self.running, next.run());
        self.trail.note(ThreadsPair::ThreadPopped(top), 1);
        true
    }

    /// Whether the top thread is the only one; there are 100 at the most. Takes no memory.
    pub fn is_last(&self) -> bool
        ensures last { result ≡ is_last self.now.threads }
        ensures most { thread_count self.now.threads ≤ MAX_THREADS }
    {
        self.below.is_empty()
    }

    /// Copies of the top thread share the frames below its top one from now on, where there are many. A contract sees no change: it
    /// asks for memory only to make copies cheap, and where that is refused, copies copy.
    #[inline(always)]
    pub fn share_frames(&mut self)
        ensures { self.new ≡ self.old }
    {
        self.running.freeze();
    }

    /// A copy of the top thread. The one error is `OutOfMemory` for a refused request for memory, which a frame alone
    /// without temporaries never makes.
    #[inline(always)]
    pub fn fork(&self) -> Result<Thread<P>, Fault>
        ensures copy { IfOk result (λ copy. copy ≡ self.now.threads.thread) }
        ensures fault { IfErr result (λ f. f ≡ Fault.OutOfMemory) }
        ensures memory { OnErr result ((self.now.threads.thread.frame.temps ≢ []) ⊎ (self.now.threads.thread.below ≢ [])) }
    {
        match self.ready_fork() {
            Ok(fork) => Ok(self.with_fork(fork)),
            Err(fault) => Err(fault),
        }
    }

    /// What a copy of the top thread asks memory for, so that `with_fork` can build the copy where it is to stand. The one error is
    /// that of `fork`.
    #[inline(always)]
    pub fn ready_fork(&self) -> Result<Fork<P>, Fault>
        ensures fork { IfOk result (λ fork. fork ≡ fork_of self.now.threads.thread) }
        ensures fault { IfErr result (λ f. f ≡ Fault.OutOfMemory) }
        ensures memory { OnErr result ((self.now.threads.thread.frame.temps ≢ []) ⊎ (self.now.threads.thread.below ≢ [])) }
    {
        let mut spare = Spare::new(self.alloc);
        match self.running.fork_over(self.alloc, &mut spare) {
            Ok(fork) => Ok(fork),
            Err(_) => Err(Fault::OutOfMemory),
        }
    }

    /// Whether the top thread is a frame alone without temporaries, as most are: a copy of it asks for no memory.
    #[inline(always)]
    pub fn is_plain(&self) -> bool
        ensures { OnTrue result (([], []) ≡ fork_of self.now.threads.thread) }
    {
        self.running.is_plain()
    }

    /// A copy of the top thread, of what it asked memory for. Takes no memory.
    #[inline(always)]
    pub fn with_fork(&self, fork: Fork<P>) -> Thread<P>
        requires same { fork ≡ fork_of self.now.threads.thread }
        ensures copy { result ≡ self.now.threads.thread }
    {
        Thread {
            running: self.running.with_fork(fork),
        }
    }

    /// What a frame of the top thread has by a name; none where there is no such frame, or the frame has no such name. The
    /// bottom frame has number 1. Takes no memory.
    pub fn temp(&self, frame: usize, name: &str) -> Option<&Value>
        ensures { option_map (λ value. value.now) result ≡ temp_in frame name.now self.now.threads.thread }
    {
        self.running.temp(frame, name)
    }

    /// Gives a name a value in a frame of the top thread; there has to be that frame, and the bottom one has number 1. The
    /// one error is `OutOfMemory` for a refused request for memory, which is made only where the frame lacks the name, or a
    /// mark stands, and leaves all as it was.
    pub fn set_temp(&mut self, frame: usize, name: &str, value: Value) -> Result<(), Fault>
        requires from { 0 < frame }
        requires there { frame ≤ frame_count self.old.threads.thread }
        ensures ok { OnOk result (self.new.threads ≡ on_top (with_temp frame name.now value) self.old.threads) }
        ensures fault { IfErr result (λ f. f ≡ Fault.OutOfMemory) }
        ensures kept { OnErr result (self.new.threads ≡ self.old.threads) }
        ensures memory { OnErr result ((temp_in frame name.now self.old.threads.thread ≡ None) ⊎ (threads_spare self.old < 1)) }
        ensures trail { TrailsOrKeeps threads_back 1 self.old.threads self.old.trail self.new.threads self.new.trail result }
        ensures pair { OnOk result (NotesTemp frame self.old.trail self.new.trail) }
        ensures stood { threads_stood self.new ≡ threads_stood self.old }
        ensures spare { threads_spare self.old ≤ threads_spare self.new + 1 }
    {
        self.put_temp(frame, TempName::Given(name), value)
    }

    /// The same of a name that can be shared, of which no copy is made.
    pub fn set_shared_temp(
        &mut self,
        frame: usize,
        name: &Shared<Text>,
        value: Value,
    ) -> Result<(), Fault>
        requires from { 0 < frame }
        requires there { frame ≤ frame_count self.old.threads.thread }
        ensures ok { OnOk result (self.new.threads ≡ on_top (with_temp frame name.now value) self.old.threads) }
        ensures fault { IfErr result (λ f. f ≡ Fault.OutOfMemory) }
        ensures kept { OnErr result (self.new.threads ≡ self.old.threads) }
        ensures memory { OnErr result ((temp_in frame name.now self.old.threads.thread ≡ None) ⊎ (threads_spare self.old < 1)) }
        ensures trail { TrailsOrKeeps threads_back 1 self.old.threads self.old.trail self.new.threads self.new.trail result }
        ensures pair { OnOk result (NotesTemp frame self.old.trail self.new.trail) }
        ensures stood { threads_stood self.new ≡ threads_stood self.old }
        ensures spare { threads_spare self.old ≤ threads_spare self.new + 1 }
    {
        self.put_temp(frame, TempName::Shared(name), value)
    }

    // The same of either.
    fn put_temp(&mut self, frame: usize, name: TempName<'_>, value: Value) -> Result<(), Fault>
        requires from { 0 < frame }
        requires there { frame ≤ frame_count self.old.threads.thread }
        ensures ok { OnOk result (self.new.threads ≡ on_top (with_temp frame (text_of name.entry) value) self.old.threads) }
        ensures fault { IfErr result (λ f. f ≡ Fault.OutOfMemory) }
        ensures kept { OnErr result (self.new.threads ≡ self.old.threads) }
        ensures memory { OnErr result ((temp_in frame (text_of name.entry) self.old.threads.thread ≡ None) ⊎ (threads_spare self.old < 1)) }
        ensures trail { TrailsOrKeeps threads_back 1 self.old.threads self.old.trail self.new.threads self.new.trail result }
        ensures pair { OnOk result (NotesTemp frame self.old.trail self.new.trail) }
        ensures stood { threads_stood self.new ≡ threads_stood self.old }
        ensures spare { threads_spare self.old ≤ threads_spare self.new + 1 }
    {
        if self.trail.is_marked() {
            return self.put_temp_marked(frame, name, value);
        }
        let set = self.running.put_temp(frame, name, value);
        self.running.within();
        let Ok(_) = set else {
            return Err(Fault::OutOfMemory);
        };
        Ok(())
    }

    // As `put_temp`, while a mark stands.
    #[cold]
    #[inline(never)]
    fn put_temp_marked(
        &mut self,
        frame: usize,
        name: TempName<'_>,
        value: Value,
    ) -> Result<(), Fault>
        requires from { 0 < frame }
        requires there { frame ≤ frame_count self.old.threads.thread }
        ensures ok { OnOk result (self.new.threads ≡ on_top (with_temp frame (text_of name.entry) value) self.old.threads) }
        ensures fault { IfErr result (λ f. f ≡ Fault.OutOfMemory) }
        ensures kept { OnErr result (self.new.threads ≡ self.old.threads) }
        ensures memory { OnErr result ((temp_in frame (text_of name.entry) self.old.threads.thread ≡ None) ⊎ (threads_spare self.old < 1)) }
        ensures trail { TrailsOrKeeps threads_back 1 self.old.threads self.old.trail self.new.threads self.new.trail result }
        ensures pair { OnOk result (NotesTemp frame self.old.trail self.new.trail) }
        ensures stood { threads_stood self.new ≡ threads_stood self.old }
        ensures spare { threads_spare self.old ≤ threads_spare self.new + 1 }
    {
        let Ok(_) = self.trail.ready(1) else {
            return Err(Fault::OutOfMemory);
        };
        let set = self.running.set_temp(frame, name, value);
        self.running.within();
        let Ok((index, was)) = set else {
            return Err(Fault::OutOfMemory);
        };
        self.trail.note(ThreadsPair::Temp(frame, index, was), 1);
        Ok(())
    }

    /// This thread becomes the only one. Takes no memory.
    pub fn replace(&mut self, thread: Thread<P>)
        requires room { 1 ≤ threads_spare self.old }
        ensures threads { self.new.threads ≡ alone thread }
        ensures trail { Trails threads_back 1 self.old.threads self.old.trail self.new.threads self.new.trail }
        ensures stood { threads_stood self.new ≡ threads_stood self.old }
        ensures spare { threads_spare self.old ≤ threads_spare self.new + 1 }
    {
        self.replace_by(thread.run());
    }

    /// All threads go, and one base frame is left that stands nowhere. Takes no memory.
    pub fn reset(&mut self)
        requires room { 1 ≤ threads_spare self.old }
        ensures threads { self.new.threads ≡ base_threads None }
        ensures trail { Trails threads_back 1 self.old.threads self.old.trail self.new.threads self.new.trail }
        ensures stood { threads_stood self.new ≡ threads_stood self.old }
        ensures spare { threads_spare self.old ≤ threads_spare self.new + 1 }
    {
        let alloc = self.alloc;
        self.replace_by(Running::new(alloc, None));
    }

    // This thread becomes the only one.
    fn replace_by(&mut self, running: Running<P>)
        requires room { 1 ≤ threads_spare self.old }
        ensures threads { self.new.threads ≡ alone running.thread }
        ensures trail { Trails threads_back 1 self.old.threads self.old.trail self.new.threads self.new.trail }
        ensures stood { threads_stood self.new ≡ threads_stood self.old }
        ensures spare { threads_spare self.old ≤ threads_spare self.new + 1 }
    {
        if self.trail.is_marked() {
            return self.replace_by_marked(running);
        }
        running.within();
        self.running = running;
        self.below.clear();
    }

    // As `replace_by`, while a mark stands.
    #[cold]
    #[inline(never)]
    fn replace_by_marked(&mut self, running: Running<P>)
        requires room { 1 ≤ threads_spare self.old }
        ensures threads { self.new.threads ≡ alone running.thread }
        ensures trail { Trails threads_back 1 self.old.threads self.old.trail self.new.threads self.new.trail }
        ensures stood { threads_stood self.new ≡ threads_stood self.old }
        ensures spare { threads_spare self.old ≤ threads_spare self.new + 1 }
    {
        running.within();
        let top = mem::replace(&mut self.running, running);
        let below = mem::replace(&mut self.below, Vec::new(self.alloc));
        self.trail.note(ThreadsPair::Replaced(top, below), 1);
    }
}

/// No frame of these threads has the number of its Enter any more.
fn clear_numbers_of<P: Copy>(threads: &mut [Thread<P>])
    ensures { threads.new ≡ map unnumbered_thread threads.old }
{
    for thread in threads {
        thread.clear_numbers();
    }
}

/// Puts a copy of the thread that runs on top of those below it. `TooDeep` where there are 100 threads; `OutOfMemory` for a
/// refused request for memory. A frame alone without temporaries, which most threads are, is copied where it stands.
fn push_copy<P: Copy>(
    alloc: Global,
    running: &Running<P>,
    below: &mut Vec<Thread<P>>,
    spare: &mut Spare<P>,
) -> Result<(), Fault>
    requires { length below.old.items < MAX_THREADS }
    ensures threads { Grows (doubled (threads_in running.now below.old.items)) (threads_in running.now below.old.items) (threads_in running.now below.new.items) result }
    ensures few { length below.new.items < MAX_THREADS }
    ensures room { vec_capacity below.old ≤ vec_capacity below.new }
{
    if below.len() >= MAX_THREADS - 1 {
        return Err(Fault::TooDeep);
    }
    let Ok(_) = below.reserve(1) else {
        return Err(Fault::OutOfMemory);
    };
    if !running.is_plain() {
        return push_any(alloc, running, below, spare);
    }
    below.push_reserved(Thread {
        running: running.with_fork(Fork::none(alloc)),
    });
    Ok(())
}

/// The same of any thread, where there is room for it.
#[inline(never)]
fn push_any<P: Copy>(
    alloc: Global,
    running: &Running<P>,
    below: &mut Vec<Thread<P>>,
    spare: &mut Spare<P>,
) -> Result<(), Fault>
    requires few { length below.old.items + 1 < MAX_THREADS }
    requires fits { length below.old.items < vec_capacity below.old }
    ensures threads { Grows (doubled (threads_in running.now below.old.items)) (threads_in running.now below.old.items) (threads_in running.now below.new.items) result }
    ensures few { length below.new.items < MAX_THREADS }
    ensures room { vec_capacity below.old ≤ vec_capacity below.new }
{
    let Ok(fork) = running.fork_over(alloc, spare) else {
        return Err(Fault::OutOfMemory);
    };
    below.push_reserved(Thread {
        running: running.with_fork(fork),
    });
    Ok(())
}

/// Drops the thread that runs, and the one below runs in its place; false where there is none. Where both are a frame alone without
/// temporaries, as most are, and the one below owns nothing, that is copied over the other, and nothing is let go.
#[inline(always)]
fn drop_top<P: Copy>(
    running: &mut Running<P>,
    below: &mut Vec<Thread<P>>,
    spare: &mut Spare<P>,
) -> bool
    ensures dropped { result ≡ is_some (dropped (threads_in running.old below.old.items)) }
    ensures new { threads_in running.new below.new.items ≡ unwrap_or (dropped (threads_in running.old below.old.items)) (threads_in running.old below.old.items) }
    ensures within { Within running.new.room running.new.thread }
    ensures fewer { length below.new.items ≤ length below.old.items }
    ensures room { vec_capacity below.new ≡ vec_capacity below.old }
{
    match below.last() {
        Some(next) if running.is_plain() && next.running.owns_nothing() => {
            running.copy_plain(&next.running);
        }
        _ => return drop_any(running, below, spare),
    }
    running.within();
    // It owns nothing that would have to be let go.
    let last = below.pop();
    mem::forget(last);
    true
}

/// The same, and the lists of frames of the thread that is dropped become spare ones where they are larger.
#[inline(never)]
fn drop_any<P: Copy>(
    running: &mut Running<P>,
    below: &mut Vec<Thread<P>>,
    spare: &mut Spare<P>,
) -> bool
    ensures dropped { result ≡ is_some (dropped (threads_in running.old below.old.items)) }
    ensures new { threads_in running.new below.new.items ≡ unwrap_or (dropped (threads_in running.old below.old.items)) (threads_in running.old below.old.items) }
    ensures within { Within running.new.room running.new.thread }
    ensures fewer { length below.new.items ≤ length below.old.items }
    ensures room { vec_capacity below.new ≡ vec_capacity below.old }
{
    let Some(next) = below.pop() else {
        running.within();
        return false;
    };
    let ended = mem::replace(running, next.run());
    ended.give_lists(spare);
    true
}
