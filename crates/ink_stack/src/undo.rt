//! How changes of frames and threads are put back.

ghost use Rattle.std.specs.Prelude.{◌≡◌, ◌≤◌, ◌<◌, ◌+◌, is_some, length, refl, reverse, true, vec_capacity};
ghost use Rattle.ink_model.specs.Flow.Frames.{ThreadsOf};
ghost use Rattle.ink_model.specs.Flow.Threads.{frame_count, stale, stale_run, staled};
ghost use Rattle.ink_stack.specs.Cells.{with_frame};
ghost use Rattle.ink_stack.specs.Running.{threads_in};
ghost use Rattle.ink_stack.specs.Undo.{HasGone, HasMode, Held, More, StaysHeld, rooms_of, threads_back, threads_spare, threads_stood};
ghost use Rattle.ink_trail.specs.Parts.{PutsBack};
ghost use Rattle.ink_trail.specs.Undo.{Trails, spare, trail_of, writes_of};

use crate::running::Running;
use crate::thread::Thread;
use crate::threads::Threads;
use ink_frames::Frame;
use ink_model::Value;
use ink_trail::{Trail, Undo};
use std::alloc::AllocError;
use std::mem;

/// A cell of the frames and threads, and what it held. Where no frame is named it is the top one's.
#[derive(Drop)]
pub enum ThreadsPair<P> {
    /// The place.
    Placed(Option<P>),
    /// Flow went: the place that it left, and the previous one.
    Gone(Option<P>, Option<P>),
    /// Whether the frame was in evaluation mode.
    Evaluating(bool),
    /// The number of the frame's Enter.
    Numbered(Option<u64>),
    /// The frame of this number was fresh.
    Fresh(usize),
    /// In the frame of the first number the row at an index; none where it was new.
    Temp(usize, usize, Option<Value>),
    FramePushed,
    FramePopped(Frame<P>),
    ThreadPushed,
    ThreadPopped(Running<P>),
    /// All threads.
    Replaced(Running<P>, Vec<Thread<P>>),
}

/// Whether the last that was noted is that flow went.
#[inline(always)]
pub(crate) fn has_gone<P>(pairs: &[ThreadsPair<P>]) -> bool
    ensures { result ≡ true → HasGone (reverse pairs.now) }
{
    matches!(pairs.split_last(), Some((ThreadsPair::Gone(_, _), _)))
}

/// Whether the last that was noted, but for that flow went, is the mode of the frame.
#[inline(always)]
pub(crate) fn has_mode<P>(pairs: &[ThreadsPair<P>]) -> bool
    ensures { result ≡ true → HasMode (reverse pairs.now) }
{
    match pairs.split_last() {
        Some((ThreadsPair::Gone(_, _), before)) => {
            matches!(before.split_last(), Some((ThreadsPair::Evaluating(_), _)))
        }
        _ => false,
    }
}

/// A text is written where so many sections are open, and each frame that is fresh no more is noted.
#[cold]
#[inline(never)]
pub(crate) fn end_freshness<P: Copy>(
    running: &mut Running<P>,
    below: &Vec<Thread<P>>,
    trail: &mut Trail<ThreadsPair<P>>,
    depth: usize,
)
    requires spare { frame_count running.old.thread ≤ spare trail.old }
    requires held { StaysHeld (record { frames = running.old.room; threads = vec_capacity below.now }) (trail_of trail.old.undo) (threads_in running.old below.now.items) }
    ensures running { running.new ≡ record running.old { thread = staled depth running.old.thread } }
    ensures trail { Trails threads_back (frame_count running.old.thread) (threads_in running.old below.now.items) trail.old (threads_in running.new below.now.items) trail.new }
    ensures held { StaysHeld (record { frames = running.new.room; threads = vec_capacity below.now }) (trail_of trail.new.undo) (threads_in running.new below.now.items) }
{
    let top = running.frames();
    end_one(running, below, trail, top, depth);
    if running.is_quiet(depth) {
        return;
    }
    end_run(running, below, trail, depth);
    // Nothing is left to end; how far what is fresh still reaches is kept in mind.
    running.end_freshness(depth);
}

/// The same of the function frames nearest below the top one.
fn end_run<P: Copy>(
    running: &mut Running<P>,
    below: &Vec<Thread<P>>,
    trail: &mut Trail<ThreadsPair<P>>,
    depth: usize,
)
    requires spare { length running.old.thread.below ≤ spare trail.old }
    requires held { StaysHeld (record { frames = running.old.room; threads = vec_capacity below.now }) (trail_of trail.old.undo) (threads_in running.old below.now.items) }
    ensures running { running.new ≡ record running.old { thread = record running.old.thread { below = stale_run depth running.old.thread.below } } }
    ensures trail { Trails threads_back (length running.old.thread.below) (threads_in running.old below.now.items) trail.old (threads_in running.new below.now.items) trail.new }
    ensures held { StaysHeld (record { frames = running.new.room; threads = vec_capacity below.now }) (trail_of trail.new.undo) (threads_in running.new below.now.items) }
{
    let mut number = running.frames() - 1;
    while number > 0 && running.is_function(number) {
        end_one(running, below, trail, number, depth);
        number -= 1;
    }
}

/// The same of the frame of a number alone.
fn end_one<P: Copy>(
    running: &mut Running<P>,
    below: &Vec<Thread<P>>,
    trail: &mut Trail<ThreadsPair<P>>,
    number: usize,
    depth: usize,
)
    requires from { 0 < number }
    requires there { number ≤ frame_count running.old.thread }
    requires spare { 1 ≤ spare trail.old }
    requires held { StaysHeld (record { frames = running.old.room; threads = vec_capacity below.now }) (trail_of trail.old.undo) (threads_in running.old below.now.items) }
    ensures running { running.new ≡ record running.old { thread = with_frame (stale depth) number running.old.thread } }
    ensures trail { Trails threads_back 1 (threads_in running.old below.now.items) trail.old (threads_in running.new below.now.items) trail.new }
    ensures spare { spare trail.old ≤ spare trail.new + 1 }
    ensures held { StaysHeld (record { frames = running.new.room; threads = vec_capacity below.now }) (trail_of trail.new.undo) (threads_in running.new below.now.items) }
{
    if running.end_one(number, depth) {
        trail.note(ThreadsPair::Fresh(number), 1);
    }
}

#[tactic(auto, unfolding(crate::specs::Undo::threads_stood, crate::specs::Undo::threads_spare, ink_trail::specs::Undo::stood_at, ink_trail::specs::Undo::spare))]
impl<P: Copy> Undo for Threads<P> {
    type Pair = ThreadsPair<P>;

    ghost Cells = { ThreadsOf P };

    ghost cells = { λ threads. threads.threads };

    ghost trail = { λ threads. threads.trail };

    ghost before = { threads_back };

    ghost stood = { threads_stood };

    ghost spare = { threads_spare };

    ghost aside = { λ threads. tt };

    ghost stood_is = { λ threads. unfold threads_stood in refl };

    ghost spare_is = { λ threads. unfold threads_spare in refl };

    #[inline(always)]
    fn trail(&self) -> &Trail<ThreadsPair<P>> {
        &self.trail
    }

    #[inline(always)]
    fn undo_last(&mut self) -> bool {
        match self.trail.last() {
            Some(ThreadsPair::Gone(place, previous)) => {
                self.running.ungo(*place, *previous);
                self.trail.drop_last();
                true
            }
            Some(ThreadsPair::Evaluating(evaluating)) => {
                self.running.set_mode(*evaluating);
                self.trail.drop_last();
                true
            }
            _ => self.undo_other(),
        }
    }

    #[inline(always)]
    fn mark(&mut self) {
        self.trail.mark();
    }

    #[inline(always)]
    fn forget(&mut self) {
        self.trail.forget();
    }

    fn make_room(&mut self, count: usize) -> Result<(), AllocError> {
        self.trail.make_room(count)
    }
}

impl<P: Copy> Threads<P> {
    // Puts the last pair back, whatever it is.
    #[inline(never)]
    fn undo_other(&mut self) -> bool
        ensures cells { PutsBack threads_back result self.old.threads self.old.trail self.new.threads self.new.trail }
        ensures marked { is_some self.new.trail.undo ≡ is_some self.old.trail.undo }
        ensures writes { writes_of self.new.trail.undo ≡ writes_of self.old.trail.undo }
    {
        let Some(pair) = self.trail.take_last() else {
            return false;
        };
        put_one_back(&mut self.running, &mut self.below, pair);
        true
    }
}

// Puts a pair back.
fn put_one_back<P: Copy>(running: &mut Running<P>, below: &mut Vec<Thread<P>>, pair: ThreadsPair<P>)
    requires { Held (rooms_of pair (record { frames = running.old.room; threads = vec_capacity below.old })) (threads_back pair (threads_in running.old below.old.items)) }
    ensures threads { threads_in running.new below.new.items ≡ threads_back pair (threads_in running.old below.old.items) }
    ensures room { More (rooms_of pair (record { frames = running.old.room; threads = vec_capacity below.old })) (record { frames = running.new.room; threads = vec_capacity below.new }) }
{
    match pair {
        ThreadsPair::Placed(place) => running.put(place),
        ThreadsPair::Gone(left, before) => running.ungo(left, before),
        ThreadsPair::Evaluating(mode) => running.set_mode(mode),
        ThreadsPair::Numbered(number) => running.put_number_back(number),
        ThreadsPair::Fresh(number) => running.freshen(number),
        ThreadsPair::Temp(number, index, was) => running.put_temp_back(number, index, was),
        ThreadsPair::FramePushed => running.unpush(),
        ThreadsPair::FramePopped(frame) => running.unpop(frame),
        ThreadsPair::ThreadPushed => {
            let _copy = below.pop();
        }
        ThreadsPair::ThreadPopped(top) => {
            let under = mem::replace(running, top);
            below.push_reserved(Thread { running: under });
        }
        ThreadsPair::Replaced(top, threads) => {
            *running = top;
            *below = threads;
        }
    }
}
