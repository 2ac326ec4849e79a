//! Threads as a save lends and gives them.

ghost use Rattle.std.specs.Prelude.{◌≡◌, ◌≢◌, ◌<◌, ◌≤◌, [], true, length, option_map, reverse, IfOk, IfSome, OnErr, None};
ghost use Rattle.std.specs.List.{list_all};
ghost use Rattle.ink_model.specs.declared.limits.TheConstants.{MAX_FRAMES, MAX_THREADS};
ghost use Rattle.ink_stack.specs.Saving.{base_first, is_call, thread_from, thread_with, threads_from, threads_with};
ghost use Rattle.ink_stack.specs.Undo.{threads_stood};

use crate::running::Running;
use crate::thread::Thread;
use crate::threads::Threads;
use ink_frames::{Frame, Frames, Spare};
use ink_model::{FrameKind, MAX_FRAMES, MAX_THREADS};
use ink_trail::Trail;
use std::alloc::{AllocError, Global};

impl<P: Copy> Thread<P> {
    /// The thread of these frames, the bottom one first, and the place from which it last moved; none where there is no frame,
    /// the bottom one alone is not the base, or there are more than 1,000. The one error is a refused request for memory, which
    /// one frame alone never makes, nor do frames that make no thread.
    pub fn from_frames(
        alloc: Global,
        frames: Vec<Frame<P>>,
        previous: Option<P>,
    ) -> Result<Option<Thread<P>>, AllocError>
        ensures thread { IfOk result (λ made. made ≡ thread_from frames.items previous) }
        ensures memory { OnErr result ((1 < length frames.items) × (thread_from frames.items previous ≢ None)) }
    {
        if base_first(frames.as_slice()) && frames.len() <= MAX_FRAMES {
            Thread::with(alloc, frames, previous)
        } else {
            Ok(None)
        }
    }

    // The same of frames that are within their limit, of which the first alone is the base.
    fn with(
        alloc: Global,
        frames: Vec<Frame<P>>,
        previous: Option<P>,
    ) -> Result<Option<Thread<P>>, AllocError>
        requires few { length frames.items ≤ MAX_FRAMES }
        requires base { base_first frames.items ≡ true }
        ensures thread { IfOk result (λ made. made ≡ thread_with (reverse frames.items) previous) }
        ensures memory { OnErr result ((1 < length frames.items) × (thread_with (reverse frames.items) previous ≢ None)) }
    {
        let mut rest = frames;
        let Some(frame) = rest.pop() else {
            return Ok(None);
        };
        let below = Frames::of(alloc, rest)?;
        let running = Running {
            frame,
            below,
            previous,
            quiet: None,
            settled: 0,
            alloc,
        };
        Ok(Some(Thread { running }))
    }

    /// The top frame.
    pub fn top(&self) -> &Frame<P>
        ensures { result.now ≡ self.now.frame }
    {
        self.running.top()
    }

    /// Copies of the frames below the top one, the bottom one first. The one error is a refused request for memory, which a
    /// frame alone never makes.
    pub fn below(&self, alloc: Global) -> Result<Vec<Frame<P>>, AllocError>
        ensures copies { IfOk result (λ frames. reverse frames.items ≡ self.now.below) }
        ensures memory { OnErr result (self.now.below ≢ []) }
    {
        self.running.below(alloc)
    }
}

impl<P: Copy> Running<P> {
    /// The top frame.
    pub fn top(&self) -> &Frame<P>
        ensures { result.now ≡ self.now.thread.frame }
    {
        &self.frame
    }

    /// Copies of the frames below the top one, the bottom one first. The one error is a refused request for memory, which a
    /// frame alone never makes.
    pub fn below(&self, alloc: Global) -> Result<Vec<Frame<P>>, AllocError>
        ensures copies { IfOk result (λ frames. reverse frames.items ≡ self.now.thread.below) }
        ensures memory { OnErr result (self.now.thread.below ≢ []) }
    {
        self.below.list(alloc)
    }
}

impl<P: Copy> Threads<P> {
    /// These threads, the bottom one first; none where there is none, or there are more than 100. Takes no memory.
    pub fn from_threads(alloc: Global, threads: Vec<Thread<P>>) -> Option<Threads<P>>
        ensures threads { option_map (λ made. made.threads) result ≡ threads_from threads.items }
        ensures stood { IfSome result (λ made. threads_stood made ≡ None) }
    {
        if threads.len() <= MAX_THREADS {
            Threads::with(alloc, threads)
        } else {
            None
        }
    }

    // The same of threads that are within their limit.
    fn with(alloc: Global, threads: Vec<Thread<P>>) -> Option<Threads<P>>
        requires { length threads.items ≤ MAX_THREADS }
        ensures threads { option_map (λ made. made.threads) result ≡ threads_with (reverse threads.items) }
        ensures stood { IfSome result (λ made. threads_stood made ≡ None) }
    {
        let mut below = threads;
        let thread = below.pop()?;
        let running = thread.run();
        Some(Threads {
            running,
            below,
            trail: Trail::new(alloc),
            spare: Spare::new(alloc),
            alloc,
        })
    }

    /// The threads below the top one, the bottom one first.
    pub fn below(&self) -> &[Thread<P>]
        ensures { reverse result.now ≡ self.now.threads.below }
    {
        self.below.as_slice()
    }
}

// Whether the first frame alone is the base.
fn base_first<P: Copy>(frames: &[Frame<P>]) -> bool
    ensures { result ≡ base_first frames.now }
{
    match frames.split_first() {
        Some((bottom, calls)) => !is_call(bottom) && all_calls(calls),
        None => false,
    }
}

fn all_calls<P: Copy>(frames: &[Frame<P>]) -> bool
    ensures { result ≡ list_all (λ f. is_call f.kind) frames.now }
{
    frames.iter().all(|frame| is_call(frame))
}

fn is_call<P: Copy>(frame: &Frame<P>) -> bool
    ensures { result ≡ is_call frame.now.kind }
{
    !frame.is(FrameKind::Base)
}
