//! What is done at each line that is typed, and how the story is told then.

ghost use Rattle.std.specs.Prelude.{◌≡◌, ◌⊎◌, ◌++◌, ℕ, [], ◌∷◌, List, Option, Result, None, Some, false, IfErr, IfOk, MatchResult, OnOk, is_ok};
ghost use Rattle.serde_json.specs.Read.{read as read_text};
ghost use Rattle.serde_json.specs.View.{view};
ghost use Rattle.ink_model.specs.Protocol.Answer.{Reply};
ghost use Rattle.ink_model.specs.Protocol.Command as command;
ghost use Rattle.ink_model.specs.Protocol.State.{is_running};
ghost use Rattle.ink_page.specs.Typed as asks;
ghost use Rattle.ink_player.specs.Standing.{state_of, story_of};
ghost use Rattle.ink_page.specs.Showing.{FailsToShow};
ghost use Rattle.ink_protocol.specs.Ends.{Reports, reads_fail, writes_fail};
ghost use Rattle.ink_reader.specs.Course.{GoesOn, IsBeginning, IsCourse, IsNoted, IsSaving, IsStop, SavesItself, UpTo, acts, has_loaded, places_of, saving_told};
ghost use Rattle.ink_reader.specs.Deeds.{Deed, Gives, Keeps, Played};
ghost use Rattle.ink_reader.specs.Kept.{IsPlace, KeptAs, Noted, Notes, StandsAt};
ghost use Rattle.ink_reader.specs.Steps.{NoPlace};
ghost use Rattle.ink_reader.specs.Notices.{Word, word_text};
ghost use Rattle.ink_reader.specs.declared.shelf.NotKept.{NotKept};

use crate::moves::{begin_anew, load_save, save_of, take_choice, value_of};
use crate::reader::Reader;
use crate::saving::{fetch_save, keep_save, read_save};
use crate::shelf::Shelf;
use crate::telling::{Told, tell, tell_outcome, tell_stop};
use ink_host::{PureFn, TurnFn, Watcher};
use ink_model::{Refusal, Text};
use ink_page::{refusal_words, show_value};
use ink_protocol::{RunFault, Sink};
use serde_json::Value as Json;

impl<P: PureFn, F: TurnFn, O: Watcher> Reader<P, F, O> {
    /// Tells what comes, up to the next choice, and notes where the story stands there.
    #[tactic(auto, using(crate::proofs::Causes::unread, crate::proofs::Causes::unread_shown))]
    pub(crate) fn go_on<T: Sink, S: Shelf>(
        &mut self,
        sink: &mut T,
        shelf: &mut S,
    ) -> Result<(), RunFault>
        ensures reads { (ds : List Deed) × UpTo (is_ok result) (IsBeginning self.old.saves (places_of self.old.past)) ds (places_of self.new.past)
            × Played P.meaning F.log F.refusals O.state self.old.look self.old.player ds self.new.player (T.contents sink.old) (T.contents sink.new) (S.kept shelf.old) (S.kept shelf.new) (is_ok result) }
        ensures settings { (self.new.look ≡ self.old.look) × (self.new.saves ≡ self.old.saves) }
        ensures stops { OnOk result (is_running (state_of self.new.player).condition ≡ false) }
        ensures keeps { KeptAs (story_of self.new.player) (state_of self.new.player) (S.kept shelf.old) (S.kept shelf.new) }
        ensures before { self.new.past.before.items ≡ self.old.past.before.items }
        ensures here { IsPlace (story_of self.new.player) (state_of self.new.player) self.new.past.here }
        ensures sink { Reports (writes_fail result) (T.failures sink.old) (T.failures sink.new) (T.name sink.old) (T.name sink.new) }
        ensures fault { reads_fail result ≡ false }
    {
        self.past.stand(None);
        let told = tell(self.alloc, self.look, sink, &mut self.player)?;
        self.stop(told, sink, shelf)
    }

    // Shows the choices where the story stopped, and notes where it stands.
    fn stop<T: Sink, S: Shelf>(
        &mut self,
        told: Told,
        sink: &mut T,
        shelf: &mut S,
    ) -> Result<(), RunFault>
        requires { self.old.past.here ≡ None }
        ensures reads { (ds : List Deed) × UpTo (is_ok result) (λ ds new. IsStop self.old.saves told ds new.here) ds (places_of self.new.past)
            × Played P.meaning F.log F.refusals O.state self.old.look self.old.player ds self.new.player (T.contents sink.old) (T.contents sink.new) (S.kept shelf.old) (S.kept shelf.new) (is_ok result) }
        ensures settings { (self.new.look ≡ self.old.look) × (self.new.saves ≡ self.old.saves) }
        ensures player { self.new.player ≡ self.old.player }
        ensures keeps { KeptAs (story_of self.new.player) (state_of self.new.player) (S.kept shelf.old) (S.kept shelf.new) }
        ensures before { self.new.past.before.items ≡ self.old.past.before.items }
        ensures here { IsPlace (story_of self.new.player) (state_of self.new.player) self.new.past.here }
        ensures sink { Reports (writes_fail result) (T.failures sink.old) (T.failures sink.new) (T.name sink.old) (T.name sink.new) }
        ensures fault { IfErr result FailsToShow }
    {
        if let Told::Break = told {
            return Ok(());
        }
        if !tell_stop(self.alloc, self.look, sink, &self.player, told)? {
            return Ok(());
        }
        self.note(sink, shelf)
    }

    // Notes where the story stands at a choice, and saves there.
    fn note<T: Sink, S: Shelf>(&mut self, sink: &mut T, shelf: &mut S) -> Result<(), RunFault>
        requires { self.old.past.here ≡ None }
        ensures reads { (ds : List Deed) × UpTo (is_ok result) (λ ds new. IsNoted self.old.saves ds new.here) ds (places_of self.new.past)
            × Played P.meaning F.log F.refusals O.state self.old.look self.old.player ds self.new.player (T.contents sink.old) (T.contents sink.new) (S.kept shelf.old) (S.kept shelf.new) (is_ok result) }
        ensures settings { (self.new.look ≡ self.old.look) × (self.new.saves ≡ self.old.saves) }
        ensures player { self.new.player ≡ self.old.player }
        ensures keeps { KeptAs (story_of self.new.player) (state_of self.new.player) (S.kept shelf.old) (S.kept shelf.new) }
        ensures before { self.new.past.before.items ≡ self.old.past.before.items }
        ensures here { IsPlace (story_of self.new.player) (state_of self.new.player) self.new.past.here }
        ensures sink { Reports (writes_fail result) (T.failures sink.old) (T.failures sink.new) (T.name sink.old) (T.name sink.new) }
        ensures fault { IfErr result FailsToShow }
    {
        match save_of(&self.player) {
            Ok(save) => {
                self.save_here(&save, sink, shelf)?;
                self.past.stand(Some(save));
                Ok(())
            }
            Err(_) => self.say(
                sink,
                "There is not enough memory to note this place: it is not saved, and b does not come back to it.",
            ),
        }
    }

    /// Saves where the story stands at a choice, unless it is not to save by itself.
    pub(crate) fn save_here<T: Sink, S: Shelf>(
        &self,
        save: &Text,
        sink: &mut T,
        shelf: &mut S,
    ) -> Result<(), RunFault>
        ensures reads { (ds : List Deed) × SavesItself self.now.saves save.now ds
            × Played P.meaning F.log F.refusals O.state self.now.look self.now.player ds self.now.player (T.contents sink.old) (T.contents sink.new) (S.kept shelf.old) (S.kept shelf.new) (is_ok result) }
        ensures keeps { (S.kept shelf.new ≡ S.kept shelf.old) ⊎ (S.kept shelf.new ≡ Some (Some save.now)) }
        ensures sink { Reports (writes_fail result) (T.failures sink.old) (T.failures sink.new) (T.name sink.old) (T.name sink.new) }
        ensures fault { IfErr result FailsToShow }
    {
        if !self.saves {
            return Ok(());
        }
        let _kept = keep_save(self.alloc, self.look, sink, shelf, save)?;
        Ok(())
    }

    /// Takes the choice of a number, from 1.
    #[tactic(auto, using(crate::proofs::Causes::unread, crate::proofs::Causes::unread_shown))]
    pub(crate) fn choose<T: Sink, S: Shelf>(
        &mut self,
        number: u32,
        sink: &mut T,
        shelf: &mut S,
    ) -> Result<(), RunFault>
        ensures reads { (ds : List Deed) × UpTo (is_ok result) (IsCourse self.old.saves (places_of self.old.past) (asks.Choice number)) ds (places_of self.new.past)
            × Played P.meaning F.log F.refusals O.state self.old.look self.old.player ds self.new.player (T.contents sink.old) (T.contents sink.new) (S.kept shelf.old) (S.kept shelf.new) (is_ok result) }
        ensures settings { (self.new.look ≡ self.old.look) × (self.new.saves ≡ self.old.saves) }
        ensures keeps { KeptAs (story_of self.new.player) (state_of self.new.player) (S.kept shelf.old) (S.kept shelf.new) }
        ensures notes { Notes (asks.Choice number) self.old.past.before.items self.old.past.here self.new.past.before.items }
        ensures stands { StandsAt (story_of self.new.player) (state_of self.new.player) self.old.past.here self.new.past.here }
        ensures sink { Reports (writes_fail result) (T.failures sink.old) (T.failures sink.new) (T.name sink.old) (T.name sink.new) }
        ensures fault { reads_fail result ≡ false }
    {
        let Some(index) = number.checked_sub(1) else {
            return self.say(sink, refusal_words(Refusal::NotAChoice));
        };
        match take_choice(&mut self.player, index) {
            Ok(()) => self.leave(sink, shelf),
            Err(refusal) => self.say(sink, refusal_words(refusal)),
        }
    }

    // Goes on from where the story stood, which is noted.
    #[tactic(auto, using(crate::proofs::Causes::unread, crate::proofs::Causes::unread_shown))]
    fn leave<T: Sink, S: Shelf>(&mut self, sink: &mut T, shelf: &mut S) -> Result<(), RunFault>
        ensures reads { (ds : List Deed) × UpTo (is_ok result) (GoesOn self.old.saves (places_of self.old.past)) ds (places_of self.new.past)
            × Played P.meaning F.log F.refusals O.state self.old.look self.old.player ds self.new.player (T.contents sink.old) (T.contents sink.new) (S.kept shelf.old) (S.kept shelf.new) (is_ok result) }
        ensures settings { (self.new.look ≡ self.old.look) × (self.new.saves ≡ self.old.saves) }
        ensures keeps { KeptAs (story_of self.new.player) (state_of self.new.player) (S.kept shelf.old) (S.kept shelf.new) }
        ensures noted { Noted self.old.past.before.items self.old.past.here self.new.past.before.items }
        ensures here { IsPlace (story_of self.new.player) (state_of self.new.player) self.new.past.here }
        ensures sink { Reports (writes_fail result) (T.failures sink.old) (T.failures sink.new) (T.name sink.old) (T.name sink.new) }
        ensures fault { reads_fail result ≡ false }
    {
        if self.past.leave().is_ok() {
            return self.go_on(sink, shelf);
        }
        self.say(
            sink,
            "There is not enough memory to note the last place: b does not come back to it.",
        )?;
        self.go_on(sink, shelf)
    }

    /// Goes back to before the last choice.
    #[tactic(auto, using(crate::proofs::Causes::unread, crate::proofs::Causes::unread_shown))]
    pub(crate) fn go_back<T: Sink, S: Shelf>(
        &mut self,
        sink: &mut T,
        shelf: &mut S,
    ) -> Result<(), RunFault>
        ensures reads { (ds : List Deed) × UpTo (is_ok result) (IsCourse self.old.saves (places_of self.old.past) asks.Back) ds (places_of self.new.past)
            × Played P.meaning F.log F.refusals O.state self.old.look self.old.player ds self.new.player (T.contents sink.old) (T.contents sink.new) (S.kept shelf.old) (S.kept shelf.new) (is_ok result) }
        ensures settings { (self.new.look ≡ self.old.look) × (self.new.saves ≡ self.old.saves) }
        ensures keeps { KeptAs (story_of self.new.player) (state_of self.new.player) (S.kept shelf.old) (S.kept shelf.new) }
        ensures notes { Notes asks.Back self.old.past.before.items self.old.past.here self.new.past.before.items }
        ensures stands { StandsAt (story_of self.new.player) (state_of self.new.player) self.old.past.here self.new.past.here }
        ensures sink { Reports (writes_fail result) (T.failures sink.old) (T.failures sink.new) (T.name sink.old) (T.name sink.new) }
        ensures fault { reads_fail result ≡ false }
    {
        let json = match self.last_place() {
            Ok(json) => json,
            Err(words) => return self.say(sink, words),
        };
        if !self.stand_at(&json, sink)? {
            return Ok(());
        }
        self.past.take_back();
        self.go_on(sink, shelf)
    }

    // Where the story stood before the last choice, or words that say why it cannot be gone back to.
    fn last_place(&self) -> Result<Json, &'static str>
        ensures { MatchResult result
            (λ json. (earlier : List (List ℕ)) × (text : List ℕ) × (self.now.past.before.items ≡ earlier ++ text ∷ []) × (read_text text ≡ Some (view json)))
            (λ words. (word : Word) × NoPlace self.now.past.before.items word × (words.now ≡ word_text word)) }
    {
        let Some(save) = self.past.last() else {
            return Err("There is no choice to take back.");
        };
        read_save(self.alloc, save.as_str())
    }

    // Stands where a save stands, and tells whether it does; where it does not, it says why.
    fn stand_at<T: Sink>(&mut self, json: &Json, sink: &mut T) -> Result<bool, RunFault>
        ensures loads { (reply : Reply) × IfOk result (λ stands. stands ≡ acts reply)
            × ((kept : Option (Option (List ℕ))) → Played P.meaning F.log F.refusals O.state self.old.look self.old.player (Gives (command.Load (Some (view json.now))) reply ∷ []) self.new.player (T.contents sink.old) (T.contents sink.new) kept kept (is_ok result)) }
        ensures settings { (self.new.look ≡ self.old.look) × (self.new.saves ≡ self.old.saves) }
        ensures past { self.new.past ≡ self.old.past }
        ensures sink { Reports (writes_fail result) (T.failures sink.old) (T.failures sink.new) (T.name sink.old) (T.name sink.new) }
        ensures fault { IfErr result FailsToShow }
    {
        let outcome = load_save(&mut self.player, json);
        tell_outcome(self.alloc, self.look, sink, &outcome)
    }

    /// Begins the story anew.
    #[tactic(auto, using(crate::proofs::Causes::unread, crate::proofs::Causes::unread_shown))]
    pub(crate) fn restart<T: Sink, S: Shelf>(
        &mut self,
        sink: &mut T,
        shelf: &mut S,
    ) -> Result<(), RunFault>
        ensures reads { (ds : List Deed) × UpTo (is_ok result) (IsCourse self.old.saves (places_of self.old.past) asks.Restart) ds (places_of self.new.past)
            × Played P.meaning F.log F.refusals O.state self.old.look self.old.player ds self.new.player (T.contents sink.old) (T.contents sink.new) (S.kept shelf.old) (S.kept shelf.new) (is_ok result) }
        ensures settings { (self.new.look ≡ self.old.look) × (self.new.saves ≡ self.old.saves) }
        ensures keeps { KeptAs (story_of self.new.player) (state_of self.new.player) (S.kept shelf.old) (S.kept shelf.new) }
        ensures notes { Notes asks.Restart self.old.past.before.items self.old.past.here self.new.past.before.items }
        ensures stands { StandsAt (story_of self.new.player) (state_of self.new.player) self.old.past.here self.new.past.here }
        ensures sink { Reports (writes_fail result) (T.failures sink.old) (T.failures sink.new) (T.name sink.old) (T.name sink.new) }
        ensures fault { reads_fail result ≡ false }
    {
        let outcome = begin_anew(&mut self.player);
        if !tell_outcome(self.alloc, self.look, sink, &outcome)? {
            return Ok(());
        }
        self.leave(sink, shelf)
    }

    /// Tells a global's value.
    pub(crate) fn tell_variable<T: Sink>(&self, name: &str, sink: &mut T) -> Result<(), RunFault>
        ensures shows { (reply : Reply) × ((kept : Option (Option (List ℕ))) → Played P.meaning F.log F.refusals O.state self.now.look self.now.player (Gives (command.Get name.now) reply ∷ []) self.now.player (T.contents sink.old) (T.contents sink.new) kept kept (is_ok result)) }
        ensures sink { Reports (writes_fail result) (T.failures sink.old) (T.failures sink.new) (T.name sink.old) (T.name sink.new) }
        ensures fault { IfErr result FailsToShow }
    {
        match value_of(&self.player, name) {
            Ok(value) => show_value(self.alloc, self.look, sink, name, &value),
            Err(refusal) => self.say(sink, refusal_words(refusal)),
        }
    }

    /// Saves where the story stands.
    pub(crate) fn save<T: Sink, S: Shelf>(
        &self,
        sink: &mut T,
        shelf: &mut S,
    ) -> Result<(), RunFault>
        ensures reads { (ds : List Deed) × IsSaving ds × Played P.meaning F.log F.refusals O.state self.now.look self.now.player ds self.now.player (T.contents sink.old) (T.contents sink.new) (S.kept shelf.old) (S.kept shelf.new) (is_ok result) }
        ensures keeps { KeptAs (story_of self.now.player) (state_of self.now.player) (S.kept shelf.old) (S.kept shelf.new) }
        ensures sink { Reports (writes_fail result) (T.failures sink.old) (T.failures sink.new) (T.name sink.old) (T.name sink.new) }
        ensures fault { IfErr result FailsToShow }
    {
        match save_of(&self.player) {
            Ok(save) => self.keep(&save, sink, shelf),
            Err(refusal) => self.say(sink, refusal_words(refusal)),
        }
    }

    // Keeps a save, and says that it did.
    fn keep<T: Sink, S: Shelf>(
        &self,
        save: &Text,
        sink: &mut T,
        shelf: &mut S,
    ) -> Result<(), RunFault>
        ensures reads { (answer : Result (Unit {0}) NotKept) × Played P.meaning F.log F.refusals O.state self.now.look self.now.player (Keeps save.now answer ∷ saving_told answer) self.now.player (T.contents sink.old) (T.contents sink.new) (S.kept shelf.old) (S.kept shelf.new) (is_ok result) }
        ensures keeps { (S.kept shelf.new ≡ S.kept shelf.old) ⊎ (S.kept shelf.new ≡ Some (Some save.now)) }
        ensures sink { Reports (writes_fail result) (T.failures sink.old) (T.failures sink.new) (T.name sink.old) (T.name sink.new) }
        ensures fault { IfErr result FailsToShow }
    {
        if !keep_save(self.alloc, self.look, sink, shelf, save)? {
            return Ok(());
        }
        self.say(sink, "Saved.")
    }

    /// Goes on where the save stands that is kept, and tells whether it does; where it does not, it is said why.
    #[tactic(auto, using(crate::proofs::Causes::unread, crate::proofs::Causes::unread_shown))]
    pub(crate) fn load<T: Sink, S: Shelf>(
        &mut self,
        sink: &mut T,
        shelf: &mut S,
    ) -> Result<bool, RunFault>
        ensures reads { (ds : List Deed) × UpTo (is_ok result) (IsCourse self.old.saves (places_of self.old.past) asks.Load) ds (places_of self.new.past)
            × IfOk result (λ loaded. loaded ≡ has_loaded ds)
            × Played P.meaning F.log F.refusals O.state self.old.look self.old.player ds self.new.player (T.contents sink.old) (T.contents sink.new) (S.kept shelf.old) (S.kept shelf.new) (is_ok result) }
        ensures settings { (self.new.look ≡ self.old.look) × (self.new.saves ≡ self.old.saves) }
        ensures keeps { KeptAs (story_of self.new.player) (state_of self.new.player) (S.kept shelf.old) (S.kept shelf.new) }
        ensures notes { Notes asks.Load self.old.past.before.items self.old.past.here self.new.past.before.items }
        ensures stands { StandsAt (story_of self.new.player) (state_of self.new.player) self.old.past.here self.new.past.here }
        ensures sink { Reports (writes_fail result) (T.failures sink.old) (T.failures sink.new) (T.name sink.old) (T.name sink.new) }
        ensures fault { reads_fail result ≡ false }
    {
        let json = match fetch_save(self.alloc, shelf) {
            Ok(json) => json,
            Err(words) => {
                self.say(sink, words)?;
                return Ok(false);
            }
        };
        if !self.stand_at(&json, sink)? {
            return Ok(false);
        }
        self.leave(sink, shelf)?;
        Ok(true)
    }
}
