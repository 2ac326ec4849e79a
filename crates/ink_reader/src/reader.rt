//! A reading, and what is done at each line that is typed. The error of a call is `Write` exactly where the sink failed in it, or
//! took no byte; it is never `Read`.

ghost use Rattle.std.specs.Prelude.{◌≡◌, ◌&&◌, [], List, None, false, IfErr, IfOk, OnErr, OnOk, is_ok};
ghost use Rattle.std.specs.Io.KnownBytes.{Appends};
ghost use Rattle.ink_model.specs.Protocol.State.{is_running};
ghost use Rattle.ink_page.specs.Showing.{FailsToShow, said};
ghost use Rattle.ink_page.specs.Typed as asks;
ghost use Rattle.ink_page.specs.Typed.{asked_by};
ghost use Rattle.ink_player.specs.Standing.{desk_of, state_of, story_of};
ghost use Rattle.ink_protocol.specs.Ends.{Reports, reads_fail, writes_fail};
ghost use Rattle.ink_reader.specs.Course.{IsBeginning, IsCourse, IsEnding, UpTo, has_loaded, places_of};
ghost use Rattle.ink_reader.specs.Deeds.{Deed, Played};
ghost use Rattle.ink_reader.specs.Kept.{IsPlace, KeptAs, Notes, StandsAt};

use crate::moves::save_of;
use crate::past::Past;
use crate::shelf::Shelf;
use ink_host::{Desk, PureFn, TurnFn, Watcher};
use ink_page::{Look, Typed, refusal_words, say};
use ink_player::Player;
use ink_protocol::{RunFault, Sink};
use std::alloc::Global;

const HELP: &str =
    "A number takes the choice of that number. s saves, l loads the save, b goes back to before the last choice, r restarts, v NAME shows a variable, q quits, ? shows this.";

/// A reading of a story: its player, where it stood before each choice, and where it stands now.
#[derive(Drop)]
pub struct Reader<P, F, O> {
    pub(crate) player: Player<P, F, O>,
    pub(crate) look: Look,
    pub(crate) past: Past,
    pub(crate) saves: bool,
    pub(crate) alloc: Global,
}

impl<P: PureFn, F: TurnFn, O: Watcher> Reader<P, F, O> {
    /// A reading of which nothing was told yet. It may save at each choice.
    pub fn new(alloc: Global, player: Player<P, F, O>, look: Look, saves: bool) -> Reader<P, F, O>
        ensures player { result.player ≡ player }
        ensures look { result.look ≡ look }
        ensures saves { result.saves ≡ saves }
        ensures before { result.past.before.items ≡ [] }
        ensures here { result.past.here ≡ None }
    {
        Reader {
            player,
            look,
            past: Past::new(alloc),
            saves,
            alloc,
        }
    }

    /// Ends the reading and hands the player's desk back. Takes no memory.
    pub fn close(self) -> Desk<P, F, O>
        ensures { result ≡ desk_of self.player }
    {
        let Reader {
            player,
            look: _,
            past: _,
            saves: _,
            alloc: _,
        } = self;
        player.close()
    }

    /// Does what was typed. Only quitting is left to the caller. The error is `Write` exactly where the sink failed in this call, or
    /// took no byte; else it is `OutOfMemory`, or `TooLong` after 2^64 - 1 lines that were told at once.
    #[tactic(auto, using(crate::proofs::Causes::unread, crate::proofs::Causes::unread_shown))]
    pub fn answer<T: Sink, S: Shelf>(
        &mut self,
        typed: Typed<'_>,
        sink: &mut T,
        shelf: &mut S,
    ) -> Result<(), RunFault>
        ensures reads { (ds : List Deed) × UpTo (is_ok result) (IsCourse self.old.saves (places_of self.old.past) (asked_by typed.entry)) ds (places_of self.new.past)
            × Played P.meaning F.log F.refusals O.state self.old.look self.old.player ds self.new.player (T.contents sink.old) (T.contents sink.new) (S.kept shelf.old) (S.kept shelf.new) (is_ok result) }
        ensures settings { (self.new.look ≡ self.old.look) × (self.new.saves ≡ self.old.saves) }
        ensures keeps { KeptAs (story_of self.new.player) (state_of self.new.player) (S.kept shelf.old) (S.kept shelf.new) }
        ensures notes { Notes (asked_by typed.entry) self.old.past.before.items self.old.past.here self.new.past.before.items }
        ensures stands { StandsAt (story_of self.new.player) (state_of self.new.player) self.old.past.here self.new.past.here }
        ensures sink { Reports (writes_fail result) (T.failures sink.old) (T.failures sink.new) (T.name sink.old) (T.name sink.new) }
        ensures fault { reads_fail result ≡ false }
    {
        match typed {
            Typed::Choice(number) => self.choose(number, sink, shelf),
            Typed::Save => self.save(sink, shelf),
            Typed::Load => {
                let _loaded = self.load(sink, shelf)?;
                Ok(())
            }
            Typed::Back => self.go_back(sink, shelf),
            Typed::Restart => self.restart(sink, shelf),
            Typed::Variable(name) => self.tell_variable(name, sink),
            Typed::Help => self.say(sink, HELP),
            Typed::Quit => Ok(()),
            Typed::Unclear => self.say(sink, "That was not understood; ? shows what is."),
        }
    }

    /// Tells the story from where the player stands, up to where it stops. The errors are those of `answer`.
    pub fn begin<T: Sink, S: Shelf>(&mut self, sink: &mut T, shelf: &mut S) -> Result<(), RunFault>
        ensures reads { (ds : List Deed) × UpTo (is_ok result) (IsBeginning self.old.saves (places_of self.old.past)) ds (places_of self.new.past)
            × Played P.meaning F.log F.refusals O.state self.old.look self.old.player ds self.new.player (T.contents sink.old) (T.contents sink.new) (S.kept shelf.old) (S.kept shelf.new) (is_ok result) }
        ensures settings { (self.new.look ≡ self.old.look) × (self.new.saves ≡ self.old.saves) }
        ensures stops { OnOk result (is_running (state_of self.new.player).condition ≡ false) }
        ensures keeps { KeptAs (story_of self.new.player) (state_of self.new.player) (S.kept shelf.old) (S.kept shelf.new) }
        ensures before { self.new.past.before.items ≡ self.old.past.before.items }
        ensures here { IsPlace (story_of self.new.player) (state_of self.new.player) self.new.past.here }
        ensures sink { Reports (writes_fail result) (T.failures sink.old) (T.failures sink.new) (T.name sink.old) (T.name sink.new) }
        ensures fault { reads_fail result ≡ false }
    {
        self.go_on(sink, shelf)
    }

    /// Goes on where the save stands that is kept, and tells whether it does. Where there is none that stands in this story, it is
    /// said why, and the reading saves no more by itself, so that what is kept stays. The errors are those of `answer`.
    pub fn resume<T: Sink, S: Shelf>(
        &mut self,
        sink: &mut T,
        shelf: &mut S,
    ) -> Result<bool, RunFault>
        ensures reads { (ds : List Deed) × UpTo (is_ok result) (IsCourse self.old.saves (places_of self.old.past) asks.Load) ds (places_of self.new.past)
            × IfOk result (λ loaded. loaded ≡ has_loaded ds)
            × Played P.meaning F.log F.refusals O.state self.old.look self.old.player ds self.new.player (T.contents sink.old) (T.contents sink.new) (S.kept shelf.old) (S.kept shelf.new) (is_ok result) }
        ensures look { self.new.look ≡ self.old.look }
        ensures saves { IfOk result (λ loaded. self.new.saves ≡ (self.old.saves && loaded)) }
        ensures stays { OnErr result (self.new.saves ≡ self.old.saves) }
        ensures keeps { KeptAs (story_of self.new.player) (state_of self.new.player) (S.kept shelf.old) (S.kept shelf.new) }
        ensures notes { Notes asks.Load self.old.past.before.items self.old.past.here self.new.past.before.items }
        ensures stands { StandsAt (story_of self.new.player) (state_of self.new.player) self.old.past.here self.new.past.here }
        ensures sink { Reports (writes_fail result) (T.failures sink.old) (T.failures sink.new) (T.name sink.old) (T.name sink.new) }
        ensures fault { reads_fail result ≡ false }
    {
        let loaded = self.load(sink, shelf)?;
        self.saves = self.saves && loaded;
        Ok(loaded)
    }

    /// Saves where the story stands at a choice, unless it is not to save by itself: the reading ends. The error is `Write` exactly
    /// where the sink failed in this call, or took no byte, and else `OutOfMemory`.
    pub fn quit<T: Sink, S: Shelf>(&self, sink: &mut T, shelf: &mut S) -> Result<(), RunFault>
        ensures reads { (ds : List Deed) × UpTo (is_ok result) (IsEnding self.now.saves (places_of self.now.past)) ds (places_of self.now.past)
            × Played P.meaning F.log F.refusals O.state self.now.look self.now.player ds self.now.player (T.contents sink.old) (T.contents sink.new) (S.kept shelf.old) (S.kept shelf.new) (is_ok result) }
        ensures keeps { KeptAs (story_of self.now.player) (state_of self.now.player) (S.kept shelf.old) (S.kept shelf.new) }
        ensures sink { Reports (writes_fail result) (T.failures sink.old) (T.failures sink.new) (T.name sink.old) (T.name sink.new) }
        ensures fault { IfErr result FailsToShow }
    {
        if !self.saves || !self.past.is_at_choice() {
            return Ok(());
        }
        match save_of(&self.player) {
            Ok(save) => self.save_here(&save, sink, shelf),
            Err(refusal) => self.say(sink, refusal_words(refusal)),
        }
    }

    pub(crate) fn say<T: Sink>(&self, sink: &mut T, words: &str) -> Result<(), RunFault>
        ensures shows { OnOk result (Appends (T.contents sink.old) (T.contents sink.new) (said self.now.look words.now)) }
        ensures sink { Reports (writes_fail result) (T.failures sink.old) (T.failures sink.new) (T.name sink.old) (T.name sink.new) }
        ensures fault { IfErr result FailsToShow }
    {
        say(self.alloc, self.look, sink, words)
    }
}
