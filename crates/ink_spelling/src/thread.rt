//! Threads.

ghost use Rattle.std.specs.Prelude.{◌≡◌, IfOk, OnErr, reverse, true};
ghost use Rattle.ink_model.specs.Save.Asks.{thread_asks, thread_asks_by};
ghost use Rattle.ink_model.specs.Save.Unspelled.{thread_by, thread_in, thread_with, threads_with};

use crate::frame::SavedFrame;
use crate::members::{alone, next_spelled};
use crate::spelled::Spelled;
use ink_model::{Part, Seq};
use json_tape::{Json, Kind};
use std::alloc::{AllocError, Global};
use std::marker::Model;

/// A thread as it is spelled: its top frame, and those below it with the bottom one first. A contract sees the thread.
#[derive(Drop)]
pub struct SavedThread {
    pub frame: SavedFrame,
    pub below: Vec<SavedFrame>,
    pub previous: Option<Seq<Part>>,
}

impl Model for SavedThread {
    ghost use Rattle.std.specs.Prelude.{List, reverse};
    ghost use Rattle.ink_model.specs.Flow.Frames.{ThreadOf};
    ghost use Rattle.ink_model.specs.declared.place.Part.{Part};

    ghost Value = { ThreadOf (List Part) };

    ghost view = { λ t. record { frame = t.frame; below = reverse t.below.items; previous = t.previous } };
}

impl SavedThread {
    /// The thread of these frames, the bottom one first; none where there are no frames.
    fn of(frames: Seq<SavedFrame>, previous: Option<Seq<Part>>) -> Option<SavedThread>
        ensures { result ≡ thread_with (reverse frames) previous }
    {
        let mut below = frames.into_vec();
        let frame = below.pop()?;
        Some(SavedThread {
            frame,
            below,
            previous,
        })
    }
}

impl Spelled for SavedThread {
    ghost spelled = { λ j. thread_in j };

    ghost asks = { λ j. thread_asks j };

    fn read<J: Json>(alloc: Global, json: J) -> Result<Option<SavedThread>, AllocError> {
        match json.kind() {
            Kind::Object(members) => read_members::<J>(alloc, members),
            Kind::Null | Kind::Bool(_) | Kind::Number(_) | Kind::String(_) | Kind::Array(_) => {
                Ok(None)
            }
        }
    }
}

// The thread that members spell. The one error is a refused request for memory.
fn read_members<J: Json>(
    alloc: Global,
    members: J::Members,
) -> Result<Option<SavedThread>, AllocError>
    ensures found { IfOk result (λ thread. thread ≡ thread_by (J.members members)) }
    ensures memory { OnErr result (thread_asks_by (J.members members) ≡ true) }
{
    let mut rest = members;
    let Some(frames) = next_spelled::<J, Seq<SavedFrame>>(alloc, &mut rest, "frames")? else {
        return Ok(None);
    };
    let Some(previous) = next_spelled::<J, Option<Seq<Part>>>(alloc, &mut rest, "previous")? else {
        return Ok(None);
    };
    let Some(thread) = SavedThread::of(frames, previous) else {
        return Ok(None);
    };
    Ok(alone::<J, _>(&mut rest, thread))
}

/// Threads as they are spelled: the top one, and those below it with the bottom one first. A contract sees the threads.
#[derive(Drop)]
pub struct SavedThreads {
    pub thread: SavedThread,
    pub below: Vec<SavedThread>,
}

impl Model for SavedThreads {
    ghost use Rattle.std.specs.Prelude.{List, reverse};
    ghost use Rattle.ink_model.specs.Flow.Frames.{ThreadsOf};
    ghost use Rattle.ink_model.specs.declared.place.Part.{Part};

    ghost Value = { ThreadsOf (List Part) };

    ghost view = { λ t. record { thread = t.thread; below = reverse t.below.items } };
}

impl SavedThreads {
    /// These threads, the bottom one first; none where there are none.
    pub(crate) fn of(threads: Seq<SavedThread>) -> Option<SavedThreads>
        ensures { result ≡ threads_with (reverse threads) }
    {
        let mut below = threads.into_vec();
        let thread = below.pop()?;
        Some(SavedThreads { thread, below })
    }
}
