//! A reading of lines that are typed, one after another.

ghost use Rattle.std.specs.Prelude.{◌≡◌, ℕ, [], List, Option, IfErr, IfOk, bytes_eq, codes, false, is_ok, not, true};
ghost use Rattle.ink_page.specs.Typed.{asked_by};
ghost use Rattle.ink_page.specs.Showing.{FailsToShow};
ghost use Rattle.ink_protocol.specs.Ends.{Reports, after_call, reads_fail, writes_fail};
ghost use Rattle.ink_reader.specs.Course.{IsEnding, UpTo, places_of};
ghost use Rattle.ink_reader.specs.Deeds.{Deed, Played};
ghost use Rattle.ink_reader.specs.Session.{AreNext, Begins, Follows, IsOffer, IsReading, IsSession, ReadBy, ReadTo, Starts, quits};

use crate::lines::Lines;
use crate::reader::Reader;
use crate::shelf::Shelf;
use ink_host::{PureFn, TurnFn, Watcher};
use ink_page::{Typed, read_typed};
use ink_protocol::{RunFault, Sink, write_answer};

impl<P: PureFn, F: TurnFn, O: Watcher> Reader<P, F, O> {
    /// Reads the story. It begins, or goes on where the save stands if there is one and that is wanted; then what is typed is done, up
    /// to the end of it, or until the reader quits. The error is `Write` exactly where the sink failed in this call, or took no byte,
    /// and `Read` exactly where bringing a line failed; `TooLong` comes after 2^64 - 1 lines that were typed, or told at once.
    pub fn read_to_end<L: Lines, T: Sink, S: Shelf>(
        &mut self,
        lines: &mut L,
        sink: &mut T,
        shelf: &mut S,
    ) -> Result<(), RunFault>
        ensures reads { (lines_read : List (Option (List ℕ))) × (ds : List Deed) × AreNext (L.coming lines.old) lines_read (L.coming lines.new)
            × ReadTo (is_ok result) (IsSession self.old.saves (places_of self.old.past)) lines_read ds (places_of self.new.past)
            × Played P.meaning F.log F.refusals O.state self.old.look self.old.player ds self.new.player (T.contents sink.old) (T.contents sink.new) (S.kept shelf.old) (S.kept shelf.new) (is_ok result) }
        ensures look { self.new.look ≡ self.old.look }
        ensures saves { self.new.saves ≡ true → self.old.saves ≡ true }
        ensures sink { Reports (writes_fail result) (T.failures sink.old) (T.failures sink.new) (T.name sink.old) (T.name sink.new) }
        ensures lines { L.failures lines.new ≡ after_call (reads_fail result) (L.failures lines.old) }
    {
        if !self.open(lines, sink, shelf)? {
            return Ok(());
        }
        self.read_lines(lines, sink, shelf)
    }

    // Begins, or goes on where a save is, if that is wanted. Tells whether the reading goes on.
    #[tactic(auto, using(crate::proofs::Causes::unread, crate::proofs::Causes::unread_shown, crate::proofs::Causes::unread_written, crate::proofs::Causes::as_many))]
    fn open<L: Lines, T: Sink, S: Shelf>(
        &mut self,
        lines: &mut L,
        sink: &mut T,
        shelf: &mut S,
    ) -> Result<bool, RunFault>
        ensures reads { (lines_read : List (Option (List ℕ))) × (ds : List Deed) × AreNext (L.coming lines.old) lines_read (L.coming lines.new)
            × ReadBy result (IsSession self.old.saves (places_of self.old.past)) self.new.saves lines_read ds (places_of self.new.past)
            × Played P.meaning F.log F.refusals O.state self.old.look self.old.player ds self.new.player (T.contents sink.old) (T.contents sink.new) (S.kept shelf.old) (S.kept shelf.new) (is_ok result) }
        ensures look { self.new.look ≡ self.old.look }
        ensures saves { self.new.saves ≡ true → self.old.saves ≡ true }
        ensures sink { Reports (writes_fail result) (T.failures sink.old) (T.failures sink.new) (T.name sink.old) (T.name sink.new) }
        ensures lines { L.failures lines.new ≡ after_call (reads_fail result) (L.failures lines.old) }
    {
        match shelf.fetch(self.alloc) {
            Ok(None) => self.start(sink, shelf),
            Ok(Some(_save)) => self.offer(lines, sink, shelf),
            Err(_) => self.offer(lines, sink, shelf),
        }
    }

    // Asks whether to go on with a save, and begins as is wanted.
    #[tactic(auto, using(crate::proofs::Causes::unread, crate::proofs::Causes::unread_shown, crate::proofs::Causes::unread_written, crate::proofs::Causes::as_many))]
    fn offer<L: Lines, T: Sink, S: Shelf>(
        &mut self,
        lines: &mut L,
        sink: &mut T,
        shelf: &mut S,
    ) -> Result<bool, RunFault>
        ensures reads { (lines_read : List (Option (List ℕ))) × (ds : List Deed) × AreNext (L.coming lines.old) lines_read (L.coming lines.new)
            × ReadBy result (IsOffer self.old.saves (places_of self.old.past)) self.new.saves lines_read ds (places_of self.new.past)
            × Played P.meaning F.log F.refusals O.state self.old.look self.old.player ds self.new.player (T.contents sink.old) (T.contents sink.new) (S.kept shelf.old) (S.kept shelf.new) (is_ok result) }
        ensures look { self.new.look ≡ self.old.look }
        ensures saves { self.new.saves ≡ true → self.old.saves ≡ true }
        ensures sink { Reports (writes_fail result) (T.failures sink.old) (T.failures sink.new) (T.name sink.old) (T.name sink.new) }
        ensures lines { L.failures lines.new ≡ after_call (reads_fail result) (L.failures lines.old) }
    {
        self.say(
            sink,
            "There is a save. Go on with it? (n begins anew; the next save takes its place)",
        )?;
        write_answer(sink, b"> ")?;
        match lines.next(self.alloc)? {
            None => Ok(false),
            Some(line) => self.start_by(line.trim(), sink, shelf),
        }
    }

    // Begins anew where that is typed, or else goes on where the save stands. Where it does not stand in this story, that begins.
    fn start_by<T: Sink, S: Shelf>(
        &mut self,
        wish: &str,
        sink: &mut T,
        shelf: &mut S,
    ) -> Result<bool, RunFault>
        ensures reads { (ds : List Deed) × ReadBy result (Starts (bytes_eq wish.now (codes "n")) self.old.saves (places_of self.old.past)) self.new.saves [] ds (places_of self.new.past)
            × Played P.meaning F.log F.refusals O.state self.old.look self.old.player ds self.new.player (T.contents sink.old) (T.contents sink.new) (S.kept shelf.old) (S.kept shelf.new) (is_ok result) }
        ensures look { self.new.look ≡ self.old.look }
        ensures saves { self.new.saves ≡ true → self.old.saves ≡ true }
        ensures sink { Reports (writes_fail result) (T.failures sink.old) (T.failures sink.new) (T.name sink.old) (T.name sink.new) }
        ensures fault { reads_fail result ≡ false }
    {
        if wish == "n" {
            return self.start(sink, shelf);
        }
        if self.resume(sink, shelf)? {
            return Ok(true);
        }
        self.start(sink, shelf)
    }

    // Begins the story: the reading goes on.
    fn start<T: Sink, S: Shelf>(&mut self, sink: &mut T, shelf: &mut S) -> Result<bool, RunFault>
        ensures reads { (ds : List Deed) × ReadBy result (Begins self.old.saves (places_of self.old.past)) self.old.saves [] ds (places_of self.new.past)
            × Played P.meaning F.log F.refusals O.state self.old.look self.old.player ds self.new.player (T.contents sink.old) (T.contents sink.new) (S.kept shelf.old) (S.kept shelf.new) (is_ok result) }
        ensures settings { (self.new.look ≡ self.old.look) × (self.new.saves ≡ self.old.saves) }
        ensures sink { Reports (writes_fail result) (T.failures sink.old) (T.failures sink.new) (T.name sink.old) (T.name sink.new) }
        ensures fault { reads_fail result ≡ false }
    {
        self.begin(sink, shelf)?;
        Ok(true)
    }

    // Reads what is typed, up to the end of it, or until the reader quits.
    fn read_lines<L: Lines, T: Sink, S: Shelf>(
        &mut self,
        lines: &mut L,
        sink: &mut T,
        shelf: &mut S,
    ) -> Result<(), RunFault>
        ensures reads { (lines_read : List (Option (List ℕ))) × (ds : List Deed) × AreNext (L.coming lines.old) lines_read (L.coming lines.new)
            × ReadTo (is_ok result) (IsReading self.old.saves (places_of self.old.past)) lines_read ds (places_of self.new.past)
            × Played P.meaning F.log F.refusals O.state self.old.look self.old.player ds self.new.player (T.contents sink.old) (T.contents sink.new) (S.kept shelf.old) (S.kept shelf.new) (is_ok result) }
        ensures settings { (self.new.look ≡ self.old.look) × (self.new.saves ≡ self.old.saves) }
        ensures sink { Reports (writes_fail result) (T.failures sink.old) (T.failures sink.new) (T.name sink.old) (T.name sink.new) }
        ensures lines { L.failures lines.new ≡ after_call (reads_fail result) (L.failures lines.old) }
    {
        'lines: for _line in 0..u64::MAX {
            if !self.read_line(lines, sink, shelf)? {
                return Ok(());
            }
        }
        Err(RunFault::TooLong)
    }

    // Asks for a line, and does what is typed. Tells whether the reading goes on.
    #[tactic(auto, using(crate::proofs::Causes::unread, crate::proofs::Causes::unread_shown, crate::proofs::Causes::unread_written, crate::proofs::Causes::as_many))]
    fn read_line<L: Lines, T: Sink, S: Shelf>(
        &mut self,
        lines: &mut L,
        sink: &mut T,
        shelf: &mut S,
    ) -> Result<bool, RunFault>
        ensures reads { (lines_read : List (Option (List ℕ))) × (ds : List Deed) × AreNext (L.coming lines.old) lines_read (L.coming lines.new)
            × ReadBy result (IsReading self.old.saves (places_of self.old.past)) self.old.saves lines_read ds (places_of self.new.past)
            × Played P.meaning F.log F.refusals O.state self.old.look self.old.player ds self.new.player (T.contents sink.old) (T.contents sink.new) (S.kept shelf.old) (S.kept shelf.new) (is_ok result) }
        ensures settings { (self.new.look ≡ self.old.look) × (self.new.saves ≡ self.old.saves) }
        ensures sink { Reports (writes_fail result) (T.failures sink.old) (T.failures sink.new) (T.name sink.old) (T.name sink.new) }
        ensures lines { L.failures lines.new ≡ after_call (reads_fail result) (L.failures lines.old) }
    {
        write_answer(sink, b"> ")?;
        match lines.next(self.alloc)? {
            None => self.end(sink, shelf),
            Some(line) => self.follow(read_typed(line.as_str()), sink, shelf),
        }
    }

    // Does what is typed, and tells whether the reading goes on.
    #[tactic(auto, using(crate::proofs::Causes::unread, crate::proofs::Causes::unread_shown))]
    fn follow<T: Sink, S: Shelf>(
        &mut self,
        typed: Typed<'_>,
        sink: &mut T,
        shelf: &mut S,
    ) -> Result<bool, RunFault>
        ensures reads { (ds : List Deed) × UpTo (is_ok result) (Follows self.old.saves (places_of self.old.past) (asked_by typed.entry)) ds (places_of self.new.past)
            × IfOk result (λ goes. quits (asked_by typed.entry) ≡ not goes)
            × Played P.meaning F.log F.refusals O.state self.old.look self.old.player ds self.new.player (T.contents sink.old) (T.contents sink.new) (S.kept shelf.old) (S.kept shelf.new) (is_ok result) }
        ensures settings { (self.new.look ≡ self.old.look) × (self.new.saves ≡ self.old.saves) }
        ensures sink { Reports (writes_fail result) (T.failures sink.old) (T.failures sink.new) (T.name sink.old) (T.name sink.new) }
        ensures fault { reads_fail result ≡ false }
    {
        match typed {
            Typed::Quit => self.end(sink, shelf),
            other => {
                self.answer(other, sink, shelf)?;
                Ok(true)
            }
        }
    }

    // Ends the reading: it does not go on.
    fn end<T: Sink, S: Shelf>(&self, sink: &mut T, shelf: &mut S) -> Result<bool, RunFault>
        ensures reads { (ds : List Deed) × UpTo (is_ok result) (IsEnding self.now.saves (places_of self.now.past)) ds (places_of self.now.past)
            × IfOk result (λ goes. goes ≡ false)
            × Played P.meaning F.log F.refusals O.state self.now.look self.now.player ds self.now.player (T.contents sink.old) (T.contents sink.new) (S.kept shelf.old) (S.kept shelf.new) (is_ok result) }
        ensures sink { Reports (writes_fail result) (T.failures sink.old) (T.failures sink.new) (T.name sink.old) (T.name sink.new) }
        ensures fault { IfErr result FailsToShow }
    {
        self.quit(sink, shelf)?;
        Ok(false)
    }
}
