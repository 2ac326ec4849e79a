//! Telling what comes, up to the next choice.

ghost use Rattle.std.specs.Prelude.{◌≡◌, ◌++◌, ℕ, List, [], ◌∷◌, Option, Result, false, is_ok, IfErr, IfOk, OnOk};
ghost use Rattle.std.specs.Io.KnownBytes.{Appends};
ghost use Rattle.ink_model.specs.Protocol.Answer.{Reply, reply_of_events, reply_of_halt};
ghost use Rattle.ink_model.specs.Protocol.Command as command;
ghost use Rattle.ink_model.specs.Protocol.State.{is_running};
ghost use Rattle.ink_model.specs.Protocol.Turns.{ShowsChoices};
ghost use Rattle.ink_model.specs.declared.fault.Refusal.{Refusal};
ghost use Rattle.ink_model.specs.declared.passage.Shown.{Shown};
ghost use Rattle.ink_page.specs.Sentences.{fault_sentence};
ghost use Rattle.ink_page.specs.Showing.{FailsToShow, events_shown, passage_shown, said};
ghost use Rattle.ink_player.specs.Standing.{state_of};
ghost use Rattle.ink_protocol.specs.Ends.{Reports, reads_fail, writes_fail};
ghost use Rattle.ink_reader.specs.Course.{IsBreak, acts, end_behind};
ghost use Rattle.ink_reader.specs.Deeds.{Deed, Gives, Played, deeds_shown, reply_shown};
ghost use Rattle.ink_reader.specs.Steps.{ToldBy, are_offered, break_told, end_after, stop_told, whereabouts_told};
ghost use Rattle.ink_reader.specs.Notices.{Began, broke_before, broke_off, end_words, word_text};

use crate::moves::next_line;
use crate::whereabouts::next_path;
use ink_host::{PureFn, TurnFn, Watcher};
use ink_model::{Event, Fault, Halt, Passage, Seq, Text};
use ink_page::{Look, fault_words, refusal_words, say, show_choices, show_events, show_passage};
use ink_player::Player;
use ink_protocol::{RunFault, Sink};
use std::alloc::{AllocError, Global};

// How the story stands behind a fault.
const BROKE_OFF: &str =
    "The story breaks off behind the last line. What was saved stays; b goes back to before the last choice, if there was one, and r restarts.";
// How it stands behind one that came as it was loaded, or began anew.
const BROKE_BEFORE: &str =
    "The story breaks off before the next line. What was saved stays; b goes back to before the last choice, if there was one, and r restarts.";

/// How telling ended: the story stopped, at a loose end or not; or it broke off or was refused, and that was said.
#[derive(Clone, Copy)]
pub(crate) enum Told {
    Stop,
    LooseEnd,
    Break,
}

/// Tells line by line what comes, up to the stop. A stop that is not there after 2^64 - 1 lines is no more waited for: `TooLong`.
#[tactic(auto, using(crate::proofs::Causes::unread))]
pub(crate) fn tell<T: Sink, P: PureFn, F: TurnFn, O: Watcher>(
    alloc: Global,
    look: Look,
    sink: &mut T,
    player: &mut Player<P, F, O>,
) -> Result<Told, RunFault>
    ensures lines { (ds : List Deed) × ToldBy result ds × ((kept : Option (Option (List ℕ))) → Played P.meaning F.log F.refusals O.state look player.old ds player.new (T.contents sink.old) (T.contents sink.new) kept kept (is_ok result)) }
    ensures stops { OnOk result (is_running (state_of player.new).condition ≡ false) }
    ensures sink { Reports (writes_fail result) (T.failures sink.old) (T.failures sink.new) (T.name sink.old) (T.name sink.new) }
    ensures fault { reads_fail result ≡ false }
{
    let mut told = Told::Stop;
    'lines: for _line in 0..u64::MAX {
        if !player.can_continue() {
            return Ok(told);
        }
        told = tell_line(alloc, look, sink, player)?;
        if let Told::Break = told {
            return Ok(told);
        }
    }
    Err(RunFault::TooLong)
}

// Tells the next line, and how the story ends if no line comes behind it; behind a fault, where the line began.
fn tell_line<T: Sink, P: PureFn, F: TurnFn, O: Watcher>(
    alloc: Global,
    look: Look,
    sink: &mut T,
    player: &mut Player<P, F, O>,
) -> Result<Told, RunFault>
    ensures line { (place : Reply) × (reply : Reply) × (ds : List Deed) × IsBreak place reply ds × IfOk result (λ end. end ≡ end_after reply)
        × ((kept : Option (Option (List ℕ))) → Played P.meaning F.log F.refusals O.state look player.old (Gives command.Save place ∷ Gives command.Continue reply ∷ ds) player.new (T.contents sink.old) (T.contents sink.new) kept kept (is_ok result)) }
    ensures stops { IfOk result (λ end. end ≡ Told.Break → is_running (state_of player.new).condition ≡ false) }
    ensures sink { Reports (writes_fail result) (T.failures sink.old) (T.failures sink.new) (T.name sink.old) (T.name sink.new) }
    ensures fault { IfErr result FailsToShow }
{
    let path = next_path(alloc, player);
    match next_line(player) {
        Ok(passage) => tell_passage(alloc, look, sink, &passage),
        Err(halt) => tell_break(alloc, look, sink, &halt, &path),
    }
}

fn tell_passage<T: Sink>(
    alloc: Global,
    look: Look,
    sink: &mut T,
    passage: &Passage,
) -> Result<Told, RunFault>
    ensures shows { OnOk result (Appends (T.contents sink.old) (T.contents sink.new) (passage_shown look passage.now)) }
    ensures end { IfOk result (λ end. end ≡ end_behind passage.now.loose) }
    ensures sink { Reports (writes_fail result) (T.failures sink.old) (T.failures sink.new) (T.name sink.old) (T.name sink.new) }
    ensures fault { IfErr result FailsToShow }
{
    show_passage(alloc, look, sink, passage)?;
    if passage.loose {
        return Ok(Told::LooseEnd);
    }
    Ok(Told::Stop)
}

fn tell_break<T: Sink>(
    alloc: Global,
    look: Look,
    sink: &mut T,
    halt: &Halt,
    path: &Result<Option<Text>, AllocError>,
) -> Result<Told, RunFault>
    ensures shows { OnOk result (Appends (T.contents sink.old) (T.contents sink.new) (reply_shown look broke_off (reply_of_halt halt.now) ++ deeds_shown look (break_told (reply_of_halt halt.now) path.now))) }
    ensures end { IfOk result (λ end. end ≡ Told.Break) }
    ensures sink { Reports (writes_fail result) (T.failures sink.old) (T.failures sink.new) (T.name sink.old) (T.name sink.new) }
    ensures fault { IfErr result FailsToShow }
{
    tell_halt(alloc, look, sink, halt, BROKE_OFF)?;
    if let Halt::Fault { .. } = halt {
        tell_path(alloc, look, sink, path)?;
    }
    Ok(Told::Break)
}

// Tells where a line began, by the path of that place.
fn tell_path<T: Sink>(
    alloc: Global,
    look: Look,
    sink: &mut T,
    path: &Result<Option<Text>, AllocError>,
) -> Result<(), RunFault>
    ensures shows { OnOk result (Appends (T.contents sink.old) (T.contents sink.new) (deeds_shown look (whereabouts_told path.now))) }
    ensures sink { Reports (writes_fail result) (T.failures sink.old) (T.failures sink.new) (T.name sink.old) (T.name sink.new) }
    ensures fault { IfErr result FailsToShow }
{
    let Ok(path) = path else {
        return say(
            alloc,
            look,
            sink,
            "There is not enough memory to tell where that line began.",
        );
    };
    match path {
        Some(path) => say_path(alloc, look, sink, path.as_str()),
        None => Ok(()),
    }
}

fn say_path<T: Sink>(alloc: Global, look: Look, sink: &mut T, path: &str) -> Result<(), RunFault>
    ensures shows { OnOk result (Appends (T.contents sink.old) (T.contents sink.new) (said look (word_text (Began path.now)))) }
    ensures sink { Reports (writes_fail result) (T.failures sink.old) (T.failures sink.new) (T.name sink.old) (T.name sink.new) }
    ensures fault { IfErr result FailsToShow }
{
    let Ok(words) = format!(in alloc; "The line that broke off began at {path}.") else {
        return Err(RunFault::OutOfMemory);
    };
    say(alloc, look, sink, words.as_str())
}

// Tells why the story does not go on, and behind a fault how it stands.
fn tell_halt<T: Sink>(
    alloc: Global,
    look: Look,
    sink: &mut T,
    halt: &Halt,
    stands: &str,
) -> Result<(), RunFault>
    ensures shows { OnOk result (Appends (T.contents sink.old) (T.contents sink.new) (reply_shown look stands.now (reply_of_halt halt.now))) }
    ensures sink { Reports (writes_fail result) (T.failures sink.old) (T.failures sink.new) (T.name sink.old) (T.name sink.new) }
    ensures fault { IfErr result FailsToShow }
{
    match halt {
        Halt::Refused(refusal) => say(alloc, look, sink, refusal_words(*refusal)),
        Halt::Fault { fault, events } => {
            tell_fault(alloc, look, sink, *fault, events.as_slice(), stands)
        }
    }
}

// Tells what happened before a fault, what it means, and how the story stands.
fn tell_fault<T: Sink>(
    alloc: Global,
    look: Look,
    sink: &mut T,
    fault: Fault,
    events: &[Event],
    stands: &str,
) -> Result<(), RunFault>
    ensures shows { OnOk result (Appends (T.contents sink.old) (T.contents sink.new) (events_shown look events.now ++ (said look (fault_sentence fault) ++ said look stands.now))) }
    ensures sink { Reports (writes_fail result) (T.failures sink.old) (T.failures sink.new) (T.name sink.old) (T.name sink.new) }
    ensures fault { IfErr result FailsToShow }
{
    show_events(alloc, look, sink, events)?;
    say(alloc, look, sink, fault_words(fault))?;
    say(alloc, look, sink, stands)
}

/// Tells what happened at a command that runs no line, and whether it was done; where it was not, it says why.
pub(crate) fn tell_outcome<T: Sink>(
    alloc: Global,
    look: Look,
    sink: &mut T,
    outcome: &Result<Seq<Event>, Halt>,
) -> Result<bool, RunFault>
    ensures shows { OnOk result (Appends (T.contents sink.old) (T.contents sink.new) (reply_shown look broke_before (reply_of_events outcome.now))) }
    ensures done { IfOk result (λ done. done ≡ acts (reply_of_events outcome.now)) }
    ensures sink { Reports (writes_fail result) (T.failures sink.old) (T.failures sink.new) (T.name sink.old) (T.name sink.new) }
    ensures fault { IfErr result FailsToShow }
{
    match outcome {
        Ok(events) => {
            show_events(alloc, look, sink, events.as_slice())?;
            Ok(true)
        }
        Err(halt) => {
            tell_halt(alloc, look, sink, halt, BROKE_BEFORE)?;
            Ok(false)
        }
    }
}

/// Shows the choices, or that the story ends. Tells whether there are choices.
pub(crate) fn tell_stop<T: Sink, P: PureFn, F: TurnFn, O: Watcher>(
    alloc: Global,
    look: Look,
    sink: &mut T,
    player: &Player<P, F, O>,
    told: Told,
) -> Result<bool, RunFault>
    ensures shows { (shown : Result (List Shown) Refusal) × ShowsChoices (state_of player.now) shown × IfOk result (λ offered. offered ≡ are_offered shown)
        × OnOk result (Appends (T.contents sink.old) (T.contents sink.new) (deeds_shown look (stop_told told shown))) }
    ensures sink { Reports (writes_fail result) (T.failures sink.old) (T.failures sink.new) (T.name sink.old) (T.name sink.new) }
    ensures fault { IfErr result FailsToShow }
{
    let choices = match player.choices() {
        Ok(choices) => choices,
        Err(refusal) => return tell_end(alloc, look, sink, refusal_words(refusal)),
    };
    if choices.as_slice().is_empty() {
        return tell_end(alloc, look, sink, end_words(told));
    }
    show_choices(alloc, look, sink, choices.as_slice())?;
    Ok(true)
}

// Says why there are no choices.
fn tell_end<T: Sink>(alloc: Global, look: Look, sink: &mut T, words: &str) -> Result<bool, RunFault>
    ensures says { OnOk result (Appends (T.contents sink.old) (T.contents sink.new) (said look words.now)) }
    ensures none { IfOk result (λ offered. offered ≡ false) }
    ensures sink { Reports (writes_fail result) (T.failures sink.old) (T.failures sink.new) (T.name sink.old) (T.name sink.new) }
    ensures fault { IfErr result FailsToShow }
{
    say(alloc, look, sink, words)?;
    Ok(false)
}

// How a story ends where there is no choice.
fn end_words(told: Told) -> &'static str
    ensures { result.now ≡ end_words told }
{
    match told {
        Told::LooseEnd =>
            "The story stops here at a loose end: nothing was written to come after this.",
        Told::Stop | Told::Break => "The story ends here.",
    }
}
