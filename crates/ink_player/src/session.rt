//! Sessions over command lines (docs/PROTOCOL.md, "Sessions").

ghost use Rattle.std.specs.Prelude.{◌≡◌, ℕ, List, [], ◌⊎◌, IfNone, IfSome, OnOk, Some, false, true, option_map};
ghost use Rattle.ink_host.specs.Desk.{Resting};
ghost use Rattle.ink_host.specs.Telling.{rests};
ghost use Rattle.ink_model.specs.Protocol.Answer.{Refuses, Reply, Tells, answer, answer_asks, reply_of_events, reply_of_halt};
ghost use Rattle.ink_model.specs.Protocol.Command as ink;
ghost use Rattle.ink_model.specs.Protocol.Command.{command_of};
ghost use Rattle.ink_model.specs.Protocol.Session.{Does, Set};
ghost use Rattle.ink_model.specs.Host.Bindings.{Bindings};
ghost use Rattle.ink_model.specs.declared.fault.Refusal.TheVariants as refusal;
ghost use Rattle.ink_model.specs.declared.host.Event.{Event as Happening};
ghost use Rattle.ink_protocol.specs.Commands.{command_by};
ghost use Rattle.ink_protocol.specs.Replies.{HasTextOf, reply_by};
ghost use Rattle.ink_player.specs.Standing.{DeliveredBy, DeliveredOf, bindings, desk_of, scene_of, state_of, story_of};
ghost use Rattle.ink_protocol.specs.Ends.{Reports, reads_fail, writes_fail};
ghost use Rattle.ink_player.specs.Ends.{EndsNext, EndsOnce};
ghost use Rattle.ink_player.specs.Extents.{is_running, running};
ghost use Rattle.ink_player.specs.Serving.{Answers, IsTold, Runs, ServesNext};
ghost use Rattle.ink_model.specs.Protocol.Unread.{TextFails};
ghost use Rattle.ink_model.specs.declared.limits.TheConstants.{MAX_INPUT};
ghost use Rattle.serde_json.specs.Data.{Data};

use crate::player::Player;
use ink_host::{PureFn, TurnFn, Watcher};
use ink_look::Extent;
use ink_model::{Event, Given, Halt, MAX_INPUT, MAX_LINE, Passage, Refusal, Seq};
use ink_protocol::{
    Ahead, Lent, Line, LineCommand, Outcome, RunFault, Sink, Source, answer_text, fixed_answer,
    next_line, passage_text, read_command, write_answer,
};
use std::alloc::{AllocError, Global};
use std::io::{Read, Write};
use std::mem;

/// Memory that a session uses again for each line and each answer.
#[derive(Drop)]
struct Buffers {
    line: Vec<u8>,
    answer: Vec<u8>,
}

impl Buffers {
    // None of it is taken yet.
    fn new(alloc: Global) -> Buffers {
        Buffers {
            line: Vec::new(alloc),
            answer: Vec::new(alloc),
        }
    }
}

/// Whether a session goes on after a line.
pub(crate) enum Served {
    More,
    Done,
}

/// Serves command lines until the reader's end (docs/PROTOCOL.md, "Sessions"): the answer to each line is written as soon
/// as the line is complete. Reads what is there, one read at a time, and at most one byte more than an input may have. To the
/// objects of the host each command does what the player's call of it does.
///
/// Errors, where the answers to earlier lines have been written: `Read`, where the reader failed; `Write`, where the writer
/// failed or took no byte, and the command whose answer could not be written has taken effect; `TooLong`, where a line is
/// longer than 1 MiB or the input longer than 64 MiB; `OutOfMemory`, where memory was refused for a line, or for the text of
/// an answer, whose command has taken effect. Lines that were read ahead and not served are lost then, so that no session can
/// go on with the same reader.
///
/// It never flushes: a writer that keeps bytes back has to be flushed by its host.
pub fn run<R: Read, W: Write, P: PureFn, F: TurnFn, O: Watcher>(
    alloc: Global,
    reader: &mut R,
    writer: &mut W,
    player: &mut Player<P, F, O>,
) -> Result<(), RunFault>
    ensures runs { Runs F.log F.refusals O.state (story_of player.old) (bindings P.meaning (desk_of player.old)) MAX_INPUT [] (R.remaining reader.old) (R.remaining reader.new)
        (W.contents writer.old) (W.contents writer.new) (scene_of player.old) (scene_of player.new) result }
    ensures rest { Resting (rests O.state) (desk_of player.old).watchers → Resting (rests O.state) (desk_of player.new).watchers }
    ensures story { story_of player.new ≡ story_of player.old }
{
    let mut source = Lent::over(reader);
    let mut sink = Lent::over(writer);
    serve(alloc, &mut source, &mut sink, player)
}

/// Serves command lines as `run` does, over a source and a sink, which count their failures: the source has failed in this
/// call exactly where the error is `Read`, and the sink, or it took no byte, exactly where it is `Write`. The end is read at most
/// once, and nothing after it. At an error lines that were read ahead are lost, as of `run`. It never flushes. `Counting` makes a
/// source of any reader, and a sink of any writer.
pub fn serve<S: Source, T: Sink, P: PureFn, F: TurnFn, O: Watcher>(
    alloc: Global,
    source: &mut S,
    sink: &mut T,
    player: &mut Player<P, F, O>,
) -> Result<(), RunFault>
    ensures runs { Runs F.log F.refusals O.state (story_of player.old) (bindings P.meaning (desk_of player.old)) MAX_INPUT [] (S.remaining source.old) (S.remaining source.new)
        (T.contents sink.old) (T.contents sink.new) (scene_of player.old) (scene_of player.new) result }
    ensures rest { Resting (rests O.state) (desk_of player.old).watchers → Resting (rests O.state) (desk_of player.new).watchers }
    ensures story { story_of player.new ≡ story_of player.old }
    ensures source { Reports (reads_fail result) (S.failures source.old) (S.failures source.new) (S.name source.old) (S.name source.new) }
    ensures ends { EndsOnce result (S.ends source.old) (S.ends source.new) }
    ensures sink { Reports (writes_fail result) (T.failures sink.old) (T.failures sink.new) (T.name sink.old) (T.name sink.new) }
{
    let mut ahead = Ahead::new(MAX_INPUT);
    serve_lines(alloc, &mut ahead, source, sink, player)
}

// Serves lines to the end, or to what ends the session early.
pub(crate) fn serve_lines<S: Source, T: Sink, P: PureFn, F: TurnFn, O: Watcher>(
    alloc: Global,
    ahead: &mut Ahead,
    source: &mut S,
    sink: &mut T,
    player: &mut Player<P, F, O>,
) -> Result<(), RunFault>
    ensures runs { Runs F.log F.refusals O.state (story_of player.old) (bindings P.meaning (desk_of player.old)) ahead.old.spare ahead.old.unread (S.remaining source.old) (S.remaining source.new)
        (T.contents sink.old) (T.contents sink.new) (scene_of player.old) (scene_of player.new) result }
    ensures rest { Resting (rests O.state) (desk_of player.old).watchers → Resting (rests O.state) (desk_of player.new).watchers }
    ensures story { story_of player.new ≡ story_of player.old }
    ensures source { Reports (reads_fail result) (S.failures source.old) (S.failures source.new) (S.name source.old) (S.name source.new) }
    ensures ends { EndsOnce result (S.ends source.old) (S.ends source.new) }
    ensures sink { Reports (writes_fail result) (T.failures sink.old) (T.failures sink.new) (T.name sink.old) (T.name sink.new) }
{
    let mut buffers = Buffers::new(alloc);
    'lines: loop {
        match serve_line(alloc, &mut buffers, ahead, source, sink, player) {
            Ok(Served::More) => {}
            Ok(Served::Done) => return Ok(()),
            Err(fault) => return Err(fault),
        }
    }
}

// Serves the next line, if there is one.
fn serve_line<S: Source, T: Sink, P: PureFn, F: TurnFn, O: Watcher>(
    alloc: Global,
    buffers: &mut Buffers,
    ahead: &mut Ahead,
    source: &mut S,
    sink: &mut T,
    player: &mut Player<P, F, O>,
) -> Result<Served, RunFault>
    ensures next { ServesNext F.log F.refusals O.state (story_of player.old) (bindings P.meaning (desk_of player.old)) (S.remaining source.old) (S.remaining source.new) (T.contents sink.old) (T.contents sink.new)
        ahead.old ahead.new (scene_of player.old) (scene_of player.new) result }
    ensures rest { Resting (rests O.state) (desk_of player.old).watchers → Resting (rests O.state) (desk_of player.new).watchers }
    ensures story { story_of player.new ≡ story_of player.old }
    ensures source { Reports (reads_fail result) (S.failures source.old) (S.failures source.new) (S.name source.old) (S.name source.new) }
    ensures ends { EndsNext result (S.ends source.old) (S.ends source.new) }
    ensures sink { Reports (writes_fail result) (T.failures sink.old) (T.failures sink.new) (T.name sink.old) (T.name sink.new) }
{
    // No effect at run time: a proof reads from it that no more than a chunk was read ahead.
    ahead.bounds();
    let buffer = mem::replace(&mut buffers.line, Vec::new(alloc));
    let line = match next_line(buffer, ahead, source, MAX_LINE) {
        Ok(line) => line,
        Err(fault) => return Err(fault),
    };
    match line {
        Line::Whole(line) => {
            if let Err(fault) = answer_line(alloc, &mut buffers.answer, sink, player, &line) {
                return Err(fault);
            }
            buffers.line = line;
            Ok(Served::More)
        }
        Line::Last(line) => {
            if line.is_empty() {
                return Ok(Served::Done);
            }
            if let Err(fault) = answer_line(alloc, &mut buffers.answer, sink, player, &line) {
                return Err(fault);
            }
            Ok(Served::Done)
        }
    }
}

// Performs the command of a line, and writes the answer.
fn answer_line<T: Sink, P: PureFn, F: TurnFn, O: Watcher>(
    alloc: Global,
    buffer: &mut Vec<u8>,
    sink: &mut T,
    player: &mut Player<P, F, O>,
    line: &[u8],
) -> Result<(), RunFault>
    ensures answers { Answers F.log F.refusals O.state (story_of player.old) (bindings P.meaning (desk_of player.old)) line.now (T.contents sink.old) (T.contents sink.new) (scene_of player.old) (scene_of player.new) result }
    ensures rest { Resting (rests O.state) (desk_of player.old).watchers → Resting (rests O.state) (desk_of player.new).watchers }
    ensures story { story_of player.new ≡ story_of player.old }
    ensures sink { Reports (writes_fail result) (T.failures sink.old) (T.failures sink.new) (T.name sink.old) (T.name sink.new) }
{
    match read_command(alloc, line) {
        Ok(command) => match extent_of(&command) {
            Some(extent) => answer_run(alloc, buffer, sink, player, extent),
            None => answer_command(alloc, buffer, sink, player, command),
        },
        Err(AllocError) => refuse_line(alloc, buffer, sink),
    }
}

// How far a command runs the story, if it does.
fn extent_of(command: &Option<LineCommand<'_>>) -> Option<Extent>
    ensures some { IfSome result (λ extent. option_map command_by command.now ≡ Some (running extent)) }
    ensures none { IfNone result (is_running command.now ≡ false) }
{
    match command {
        Some(LineCommand::Continue) => Some(Extent::Line),
        Some(LineCommand::Through) => Some(Extent::Stop),
        _ => None,
    }
}

// Runs as far as is asked, and writes the answer.
fn answer_run<T: Sink, P: PureFn, F: TurnFn, O: Watcher>(
    alloc: Global,
    buffer: &mut Vec<u8>,
    sink: &mut T,
    player: &mut Player<P, F, O>,
    extent: Extent,
) -> Result<(), RunFault>
    ensures answers { (line : List ℕ) → Some (running extent) ≡ command_of line → Answers F.log F.refusals O.state (story_of player.old) (bindings P.meaning (desk_of player.old)) line (T.contents sink.old) (T.contents sink.new) (scene_of player.old) (scene_of player.new) result }
    ensures rest { Resting (rests O.state) (desk_of player.old).watchers → Resting (rests O.state) (desk_of player.new).watchers }
    ensures story { story_of player.new ≡ story_of player.old }
    ensures sink { Reports (writes_fail result) (T.failures sink.old) (T.failures sink.new) (T.name sink.old) (T.name sink.new) }
{
    match player.go_on(extent) {
        Ok(passage) => tell_passage(alloc, buffer, sink, player, passage),
        Err(halt) => tell_halt(alloc, buffer, sink, halt),
    }
}

// Writes the answer that tells a passage. Then the passage goes back to the player, so that a later one is made in its memory.
#[inline(always)]
fn tell_passage<T: Sink, P: PureFn, F: TurnFn, O: Watcher>(
    alloc: Global,
    buffer: &mut Vec<u8>,
    sink: &mut T,
    player: &mut Player<P, F, O>,
    passage: Passage,
) -> Result<(), RunFault>
    ensures told { IsTold (Tells passage) (T.contents sink.old) (T.contents sink.new) result }
    ensures same { player.new ≡ player.old }
    ensures sink { Reports (writes_fail result) (T.failures sink.old) (T.failures sink.new) (T.name sink.old) (T.name sink.new) }
{
    let made = passage_text(alloc, buffer, &passage);
    player.reuse(passage);
    write_made(sink, buffer, made)
}

// Writes the answer of a run that was refused or that a fault ended. Out of the way of a passage.
#[inline(never)]
fn tell_halt<T: Sink>(
    alloc: Global,
    buffer: &mut Vec<u8>,
    sink: &mut T,
    halt: Halt,
) -> Result<(), RunFault>
    ensures told { IsTold (reply_of_halt halt) (T.contents sink.old) (T.contents sink.new) result }
    ensures sink { Reports (writes_fail result) (T.failures sink.old) (T.failures sink.new) (T.name sink.old) (T.name sink.new) }
{
    tell(alloc, buffer, sink, Outcome::Halted(halt))
}

// Performs a command that runs nothing, and writes the answer.
#[inline(always)]
fn answer_command<T: Sink, P: PureFn, F: TurnFn, O: Watcher>(
    alloc: Global,
    buffer: &mut Vec<u8>,
    sink: &mut T,
    player: &mut Player<P, F, O>,
    command: Option<LineCommand<'_>>,
) -> Result<(), RunFault>
    requires { is_running command ≡ false }
    ensures answers { (line : List ℕ) → option_map command_by command.entry ≡ command_of line → Answers F.log F.refusals O.state (story_of player.old) (bindings P.meaning (desk_of player.old)) line (T.contents sink.old) (T.contents sink.new) (scene_of player.old) (scene_of player.new) result }
    ensures rest { Resting (rests O.state) (desk_of player.old).watchers → Resting (rests O.state) (desk_of player.new).watchers }
    ensures story { story_of player.new ≡ story_of player.old }
    ensures sink { Reports (writes_fail result) (T.failures sink.old) (T.failures sink.new) (T.name sink.old) (T.name sink.new) }
{
    let outcome = perform(player, command);
    tell(alloc, buffer, sink, outcome)
}

// Refuses a line for whose reading memory was refused.
#[inline(never)]
fn refuse_line<T: Sink>(alloc: Global, buffer: &mut Vec<u8>, sink: &mut T) -> Result<(), RunFault>
    ensures told { IsTold (Refuses refusal.OutOfMemory) (T.contents sink.old) (T.contents sink.new) result }
    ensures sink { Reports (writes_fail result) (T.failures sink.old) (T.failures sink.new) (T.name sink.old) (T.name sink.new) }
{
    tell(alloc, buffer, sink, Outcome::Refused(Refusal::OutOfMemory))
}

// Writes the answer that tells what a command's call returned.
#[inline(always)]
fn tell<T: Sink>(
    alloc: Global,
    buffer: &mut Vec<u8>,
    sink: &mut T,
    outcome: Outcome,
) -> Result<(), RunFault>
    ensures told { (saved : Data) → HasTextOf saved outcome → IsTold (reply_by saved outcome) (T.contents sink.old) (T.contents sink.new) result }
    ensures sink { Reports (writes_fail result) (T.failures sink.old) (T.failures sink.new) (T.name sink.old) (T.name sink.new) }
{
    if let Some(text) = fixed_answer(&outcome) {
        drop(outcome);
        return write_answer(sink, text.as_bytes());
    }
    let made = answer_text(alloc, buffer, outcome);
    write_made(sink, buffer, made)
}

// Writes the text of an answer, if memory for it was found.
#[inline(always)]
fn write_made<T: Sink>(
    sink: &mut T,
    text: &[u8],
    made: Result<(), AllocError>,
) -> Result<(), RunFault>
    ensures told { (reply : Reply) → answer_asks reply ≡ true → OnOk made (text.now ≡ answer reply) → IsTold reply (T.contents sink.old) (T.contents sink.new) result }
    ensures sink { Reports (writes_fail result) (T.failures sink.old) (T.failures sink.new) (T.name sink.old) (T.name sink.new) }
{
    match made {
        Ok(()) => write_answer(sink, text),
        Err(AllocError) => Err(RunFault::OutOfMemory),
    }
}

// Performs a command that runs nothing, unless memory is refused for reading its path or its JSON.
fn perform<P: PureFn, F: TurnFn, O: Watcher>(
    player: &mut Player<P, F, O>,
    command: Option<LineCommand<'_>>,
) -> Outcome
    requires { is_running command ≡ false }
    ensures does { (es : List Happening) × (saved : Data) × HasTextOf saved result
        × (Does (story_of player.old) (bindings P.meaning (desk_of player.old)) es (option_map command_by command.entry) (state_of player.old) (reply_by saved result) (state_of player.new)
        ⊎ ((es ≡ []) × TextFails (option_map command_by command.entry) (state_of player.old) (reply_by saved result) (state_of player.new)))
        × DeliveredOf F.log F.refusals O.state (option_map command_by command.entry) (scene_of player.old) es (reply_by saved result) (scene_of player.new) }
    ensures rest { Resting (rests O.state) (desk_of player.old).watchers → Resting (rests O.state) (desk_of player.new).watchers }
    ensures story { story_of player.new ≡ story_of player.old }
{
    match command {
        Some(LineCommand::Continue) | Some(LineCommand::Through) => unreachable!(),
        Some(LineCommand::Set { name, value }) => Outcome::Events(set(player, name, value)),
        Some(LineCommand::Get { name }) => Outcome::Value(player.get(name)),
        Some(LineCommand::Visits { path }) => Outcome::Visits(player.visits(path)),
        Some(LineCommand::Choose { number }) => Outcome::Landing(player.choose(number)),
        Some(LineCommand::Jump { path }) => Outcome::Landing(player.jump(path)),
        Some(LineCommand::Save) => Outcome::Saved(player.save_text()),
        Some(LineCommand::Load { json }) => Outcome::Events(player.load_text(json)),
        Some(LineCommand::Restart) => Outcome::Events(player.restart()),
        Some(LineCommand::Flow { name }) => Outcome::Landing(player.flow(name)),
        Some(LineCommand::Drop { name }) => Outcome::Landing(player.drop_flow(name)),
        None => Outcome::Refused(Refusal::BadCommand),
    }
}

// Sets a global, or refuses where the line has no value.
fn set<P: PureFn, F: TurnFn, O: Watcher>(
    player: &mut Player<P, F, O>,
    name: &str,
    value: Option<Given>,
) -> Result<Seq<Event>, Halt>
    ensures does { (es : List Happening) × Set (bindings P.meaning (desk_of player.old)) es name.now value (state_of player.old) (reply_of_events result) (state_of player.new)
        × DeliveredBy F.log O.state (Some (ink.Set name.now value)) (scene_of player.old) es (reply_of_events result) (scene_of player.new) }
    ensures functions { (desk_of player.new).functions ≡ (desk_of player.old).functions }
    ensures rest { Resting (rests O.state) (desk_of player.old).watchers → Resting (rests O.state) (desk_of player.new).watchers }
    ensures story { story_of player.new ≡ story_of player.old }
{
    let Some(value) = value else {
        return Err(Halt::Refused(no_value(player)));
    };
    player.set(name, value)
}

// Why a line without a value is refused: a fault that broke the player comes first.
fn no_value<P: PureFn, F: TurnFn, O: Watcher>(player: &Player<P, F, O>) -> Refusal
    ensures { (h : Bindings) (name : List ℕ) → Set h [] name None (state_of player.now) (Refuses result) (state_of player.now) }
{
    match player.fault() {
        Some(fault) => Refusal::Broken(fault),
        None => Refusal::BadValue,
    }
}
