//! Playing a story over bytes (docs/PROTOCOL.md, "Playing").

ghost use Rattle.std.specs.Prelude.{◌≡◌, Ok, IfOk, IfErr};
ghost use Rattle.ink_check.specs.Standing.{story_tree};
ghost use Rattle.ink_host.specs.Desk.{Resting};
ghost use Rattle.ink_host.specs.Telling.{rests};
ghost use Rattle.ink_model.specs.Story.Acceptance as rules;
ghost use Rattle.ink_player.specs.Ends.{PlayEndsOnce, play_reads_fail, play_writes_fail};
ghost use Rattle.ink_player.specs.Playing.{IsRefused, Opens, OpensDesk, Plays, PlaysToEnd, desk_left, play_fault, played};
ghost use Rattle.ink_player.specs.Standing.{bindings};
ghost use Rattle.ink_protocol.specs.Ends.{Reports};

use crate::end::{PlayEnd, PlayFault};
use crate::player::{OpenFault, Player};
use crate::session::serve_lines;
use ink_check::{Story, check};
use ink_host::{Desk, PureFn, TurnFn, Watcher};
use ink_json::read_story;
use ink_model::{Cause, MAX_INPUT, MAX_STORY, ReadRefusal};
use ink_protocol::{Ahead, Lent, Line, RunFault, Sink, Source, next_line};
use std::alloc::Global;
use std::io::{Read, Write};

/// Plays a story: the first line is the story, and the lines after it are served as `run` does until the reader's end. The
/// limit of the input, 64 MiB, counts the story. The desk is handed back, at an error too.
///
/// Errors: `Story`, where the story is refused, with nothing written; a story line over 16 MiB is refused with `Limit` at
/// the root, whatever memory there is, once what was read shows that it is longer; until then memory may be refused. `Start`,
/// where its declarations fault, or where they run to a step that asks for memory and gets none. `Run`, as of `run`; the reader
/// may also fail within the story. At an error lines that were read ahead and not served are lost, so that no session can go on
/// with the same reader.
pub fn play<R: Read, W: Write, P: PureFn, F: TurnFn, O: Watcher>(
    alloc: Global,
    reader: &mut R,
    writer: &mut W,
    desk: Desk<P, F, O>,
) -> Result<Desk<P, F, O>, PlayEnd<P, F, O>>
    ensures plays { Plays F.log F.refusals O.state (bindings P.meaning desk) desk (R.remaining reader.old) (R.remaining reader.new) (W.contents writer.old) (W.contents writer.new) result }
    ensures rest { Resting (rests O.state) desk.watchers → Resting (rests O.state) (desk_left result).watchers }
{
    let mut source = Lent::over(reader);
    let mut sink = Lent::over(writer);
    serve_story(alloc, &mut source, &mut sink, desk)
}

/// Plays a story as `play` does, over a source and a sink, which count their failures: the source has failed in this call
/// exactly where the error is `Read`, and the sink, or it took no byte, exactly where it is `Write`. The end is read
/// at most once, and nothing after it. At an error lines that were read ahead are lost. `Counting` makes a source of any reader,
/// and a sink of any writer.
pub fn serve_story<S: Source, T: Sink, P: PureFn, F: TurnFn, O: Watcher>(
    alloc: Global,
    source: &mut S,
    sink: &mut T,
    desk: Desk<P, F, O>,
) -> Result<Desk<P, F, O>, PlayEnd<P, F, O>>
    ensures plays { Plays F.log F.refusals O.state (bindings P.meaning desk) desk (S.remaining source.old) (S.remaining source.new) (T.contents sink.old) (T.contents sink.new) result }
    ensures rest { Resting (rests O.state) desk.watchers → Resting (rests O.state) (desk_left result).watchers }
    ensures source { Reports (play_reads_fail result) (S.failures source.old) (S.failures source.new) (S.name source.old) (S.name source.new) }
    ensures ends { PlayEndsOnce (S.remaining source.old) (S.remaining source.new) result (S.ends source.old) (S.ends source.new) }
    ensures sink { Reports (play_writes_fail result) (T.failures sink.old) (T.failures sink.new) (T.name sink.old) (T.name sink.new) }
{
    match serve_to_end(alloc, source, sink, desk) {
        Ok(player) => Ok(player.close()),
        Err(end) => Err(end),
    }
}

/// Plays a story as `serve_story` does, and hands back the player, which stands where the last line left it and has the desk: a host
/// may save it or go on with it, and a program that ends here need not let go of what it holds. At an error the desk is handed back.
pub fn serve_to_end<S: Source, T: Sink, P: PureFn, F: TurnFn, O: Watcher>(
    alloc: Global,
    source: &mut S,
    sink: &mut T,
    desk: Desk<P, F, O>,
) -> Result<Player<P, F, O>, PlayEnd<P, F, O>>
    ensures plays { PlaysToEnd F.log F.refusals O.state (bindings P.meaning desk) desk (S.remaining source.old) (S.remaining source.new) (T.contents sink.old) (T.contents sink.new) result }
    ensures rest { Resting (rests O.state) desk.watchers → Resting (rests O.state) (desk_left (played result)).watchers }
    ensures source { Reports (play_reads_fail (played result)) (S.failures source.old) (S.failures source.new) (S.name source.old) (S.name source.new) }
    ensures ends { PlayEndsOnce (S.remaining source.old) (S.remaining source.new) (played result) (S.ends source.old) (S.ends source.new) }
    ensures sink { Reports (play_writes_fail (played result)) (T.failures sink.old) (T.failures sink.new) (T.name sink.old) (T.name sink.new) }
{
    let mut ahead = Ahead::new(MAX_INPUT);
    let line = match next_line(Vec::new(alloc), &mut ahead, source, MAX_STORY) {
        Ok(line) => line,
        Err(fault) => {
            let fault = fault_of(alloc, fault);
            return Err(PlayEnd { fault, desk });
        }
    };
    match line {
        Line::Whole(line) => {
            let mut player = match open_story(alloc, &line, desk) {
                Ok(player) => player,
                Err(end) => return Err(end),
            };
            match serve_lines(alloc, &mut ahead, source, sink, &mut player) {
                Ok(()) => {
                    // No effect at run time: a proof reads from it that no event waits on the desk.
                    player.has_no_events();
                    Ok(player)
                }
                Err(fault) => Err(PlayEnd {
                    fault: PlayFault::Run(fault),
                    desk: player.close(),
                }),
            }
        }
        Line::Last(line) => open_story(alloc, &line, desk),
    }
}

/// Reads a story, checks its paths, and opens it (docs/PROTOCOL.md, "Playing").
///
/// Errors: `Story`, where the story is refused as by `read_story` and `check`. `Start`, where its declarations fault, or where they
/// run to a step that asks for memory and gets none. The desk is handed back.
pub fn open_story<P: PureFn, F: TurnFn, O: Watcher>(
    alloc: Global,
    bytes: &[u8],
    desk: Desk<P, F, O>,
) -> Result<Player<P, F, O>, PlayEnd<P, F, O>>
    ensures opens { Opens bytes.now result }
    ensures desk { OpensDesk desk result }
{
    let story = match accepted_story(alloc, bytes) {
        Ok(story) => story,
        Err(refusal) => {
            let fault = PlayFault::Story(refusal);
            return Err(PlayEnd { fault, desk });
        }
    };
    match Player::open(alloc, story, desk) {
        Ok(player) => Ok(player),
        Err(
            OpenFault {
                fault,
                story: _,
                desk,
            },
        ) => {
            let fault = PlayFault::Start(fault);
            Err(PlayEnd { fault, desk })
        }
    }
}

// Reads a story and accepts it.
fn accepted_story(alloc: Global, bytes: &[u8]) -> Result<Story, ReadRefusal>
    ensures ok { IfOk result (λ s. rules.accepted_story bytes.now ≡ Ok (story_tree s)) }
    ensures err { IfErr result (IsRefused bytes.now) }
{
    check(alloc, read_story(alloc, bytes)?)
}

// Why there is no story.
fn fault_of(alloc: Global, fault: RunFault) -> PlayFault
    ensures { result ≡ play_fault fault }
{
    match fault {
        RunFault::Read | RunFault::Write => PlayFault::Run(fault),
        RunFault::TooLong => PlayFault::Story(ReadRefusal::at_root(alloc, Cause::Limit)),
        RunFault::OutOfMemory => PlayFault::Story(ReadRefusal::at_root(alloc, Cause::OutOfMemory)),
    }
}
