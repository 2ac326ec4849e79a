//! Where lines are read from.

ghost use Rattle.std.specs.Prelude.{◌≡◌, ◌<◌, ◌≤◌, ◌+◌, ◌-◌, ℕ, max, List, [], false, Option, length, take, drop, is_err, IfOk, OnOk, OnErr, MatchOption, MatchResult};
ghost use Rattle.ink_model.specs.Text.Bytes.{has_newline};
ghost use Rattle.ink_protocol.specs.Ends.{after_call, gives_nothing};
ghost use Rattle.ink_protocol.specs.Input.{Extends, IsNewlineAt};
ghost use Rattle.std.specs.Io.{ReadsAtMost};
ghost use Rattle.std.specs.Io.KnownBytes.{Consumes, Keeps, IsAtEnd, ReadConsumes};

use crate::fault::RunFault;
use memchr::memchr;
use std::marker::Model;

/// A source failed.
#[derive(Clone, Copy, Debug, PartialEq, Eq, thiserror::Error)]
#[error("read failed")]
pub struct ReadFailed;

/// A reader that counts its failures, and how often it was read at its end.
pub trait Source {
    /// The bytes that reads will give from here on, where they are known.
    ghost remaining: { Self → Option (List ℕ) };

    /// How many reads have failed, by a counter of 64 bits.
    ghost failures: { Self → ℕ };

    /// How many reads have given no byte, which is how often it was read at its end, by a counter of 64 bits.
    ghost ends: { Self → ℕ };

    /// Tells two sources apart. A source around another one answers for that.
    ghost name: { Self → ℕ };

    /// Reads some bytes into the front of the buffer, and tells how many: none only at the end. `ReadFailed` says that none
    /// were read. There is room for a byte: a source is never asked to read nothing.
    fn read(&mut self, buffer: &mut [u8]) -> Result<usize, ReadFailed>
        requires room { 0 < length buffer.old }
        ensures bound { ReadsAtMost result buffer.new }
        ensures bytes { ReadConsumes (remaining self.old) (remaining self.new) result buffer.new }
        ensures cause { failures self.new ≡ after_call (is_err result) (failures self.old) }
        ensures ends { ends self.new ≡ after_call (gives_nothing result) (ends self.old) }
        ensures name { name self.new ≡ name self.old };
}

/// How many bytes are read at a time, at most.
const CHUNK: usize = 4096;

// What stands next: bytes that may be taken, or the source's end, or one byte more than may be taken.
pub(crate) enum Next {
    Bytes,
    End,
    TooMany,
}

// What `Ahead::cut` gave to a line: all up to a newline, which was taken too, or all that was read.
pub(crate) enum Cut {
    Newline,
    More,
}

/// Bytes that were read and not yet taken, and how many may still be taken. It has a chunk of its own and takes no memory.
#[derive(Drop)]
pub struct Ahead {
    chunk: [u8; CHUNK],
    at: usize,
    end: usize,
    spare: usize,
}

impl Model for Ahead {
    ghost use Rattle.std.specs.Prelude.{◌≤◌, ◌+◌, max, take, drop};
    ghost use Rattle.ink_protocol.specs.Buffered.{Buffered};

    ghost Value = { Buffered };

    ghost view = { λ a. record { unread = drop a.at (take a.end a.chunk); spare = a.spare } };

    ghost invariant = { λ a. (a.at ≤ a.end) × (a.end ≤ 4096) × (a.end ≤ a.at + max a.spare 1) };
}

impl Ahead {
    ghost use Rattle.std.specs.Prelude.{◌≡◌, ◌<◌, ◌≤◌, ◌+◌, max, [], length, take, drop, is_err, OnOk, OnErr};
    ghost use Rattle.std.specs.Io.KnownBytes.{IsAtEnd};
    ghost use Rattle.ink_protocol.specs.Ends.{after_call};
    ghost use Rattle.ink_protocol.specs.Input.{Cuts, Extends, GivesNext, Takes, finds_end, is_end};

    /// Nothing was read, and this many bytes may be taken.
    pub fn new(most: usize) -> Ahead
        ensures { result ≡ record { unread = []; spare = most } }
    {
        Ahead {
            chunk: [0; CHUNK],
            at: 0,
            end: 0,
            spare: most,
        }
    }

    /// No effect at run time. A proof reads from it that no more than a chunk was read ahead.
    pub fn bounds(&self)
        ensures { length self.now.unread ≤ 4096 }
    {
        let _chunk = &self.chunk;
    }

    // How many bytes were read and not yet taken.
    fn len(&self) -> usize
        ensures { result ≡ length self.now.unread }
    {
        self.end - self.at
    }

    /// What stands next. Where nothing is left of what was read, reads no more than `room` bytes and than may be taken, but
    /// one in any case, which tells whether there is any.
    pub(crate) fn next<S: Source>(
        &mut self,
        source: &mut S,
        room: usize,
    ) -> Result<Next, ReadFailed>
        ensures gives { GivesNext (S.remaining source.old) (S.remaining source.new) self.old self.new result }
        ensures cause { S.failures source.new ≡ after_call (is_err result) (S.failures source.old) }
        ensures ends { S.ends source.new ≡ after_call (is_end result) (S.ends source.old) }
        ensures name { S.name source.new ≡ S.name source.old }
        ensures bound { length self.new.unread ≤ max self.new.spare 1 }
        ensures room { length self.new.unread ≤ max (length self.old.unread) (max room 1) }
    {
        self.fill(source, room)?;
        if self.len() == 0 {
            return Ok(Next::End);
        }
        if self.spare == 0 {
            return Ok(Next::TooMany);
        }
        Ok(Next::Bytes)
    }

    // Reads where none is left of what was read. At `Ok` there is then a byte, unless the source is at its end.
    fn fill<S: Source>(&mut self, source: &mut S, room: usize) -> Result<(), ReadFailed>
        ensures takes { Takes (S.remaining source.old) (S.remaining source.new) self.old self.new [] }
        ensures end { OnOk result (self.new.unread ≡ [] → IsAtEnd (S.remaining source.new)) }
        ensures err { OnErr result (self.new.unread ≡ []) }
        ensures cause { S.failures source.new ≡ after_call (is_err result) (S.failures source.old) }
        ensures ends { S.ends source.new ≡ after_call (finds_end result self.new.unread) (S.ends source.old) }
        ensures name { S.name source.new ≡ S.name source.old }
        ensures bound { length self.new.unread ≤ max self.new.spare 1 }
        ensures room { length self.new.unread ≤ max (length self.old.unread) (max room 1) }
    {
        if self.len() > 0 {
            return Ok(());
        }
        let room = room.min(self.spare).min(CHUNK).max(1);
        self.at = 0;
        self.end = 0;
        self.end = read_some(source, &mut self.chunk, room)?;
        Ok(())
    }

    /// Moves what was read onto the end of a line of at most so many bytes, up to the first newline, which is taken too.
    /// Errors: `TooLong`, where the line would be longer; `OutOfMemory`, where memory was refused for it. The line is as it
    /// was then.
    pub(crate) fn cut(&mut self, line: &mut Vec<u8>, limit: usize) -> Result<Cut, RunFault>
        requires some { 0 < length self.old.unread }
        requires spare { length self.old.unread ≤ self.old.spare }
        ensures { Cuts line.old.items limit self.old self.new line.new.items result }
    {
        match first_newline(&self.chunk[self.at..self.end]) {
            Some(count) => {
                self.give(count, line, limit)?;
                self.skip();
                Ok(Cut::Newline)
            }
            None => {
                self.give(self.len(), line, limit)?;
                Ok(Cut::More)
            }
        }
    }

    // Takes one byte.
    fn skip(&mut self)
        requires some { 0 < length self.old.unread }
        requires spare { 0 < self.old.spare }
        ensures bytes { self.new.unread ≡ drop 1 self.old.unread }
        ensures count { self.new.spare + 1 ≡ self.old.spare }
    {
        self.at += 1;
        self.spare -= 1;
    }

    // Moves so many bytes onto the end of a line. At an error they are taken too, and the line is as it was.
    fn give(&mut self, count: usize, line: &mut Vec<u8>, limit: usize) -> Result<(), RunFault>
        requires some { count ≤ length self.old.unread }
        requires spare { length self.old.unread ≤ self.old.spare }
        ensures line { Extends line.old.items (take count self.old.unread) limit line.new.items result }
        ensures bytes { self.new.unread ≡ drop count self.old.unread }
        ensures count { self.new.spare + count ≡ self.old.spare }
    {
        let from = self.at;
        self.at += count;
        self.spare -= count;
        extend(line, &self.chunk[from..self.at], limit)
    }
}

// The place of the first newline.
fn first_newline(bytes: &[u8]) -> Option<usize>
    ensures { MatchOption result (has_newline bytes.now ≡ false) (IsNewlineAt bytes.now) }
{
    memchr(b'\n', bytes)
}

// Appends a piece to a line, unless the line would be longer than its limit.
fn extend(line: &mut Vec<u8>, piece: &[u8], limit: usize) -> Result<(), RunFault>
    ensures { Extends line.old.items piece.now limit line.new.items result }
{
    if piece.is_empty() {
        return Ok(());
    }
    if line.len() > limit || piece.len() > limit - line.len() {
        return Err(RunFault::TooLong);
    }
    line.extend_from_slice(piece)?;
    Ok(())
}

fn read_some<S: Source>(source: &mut S, chunk: &mut [u8], room: usize) -> Result<usize, ReadFailed>
    requires some { 0 < room }
    requires fits { room ≤ length chunk.old }
    ensures bound { IfOk result (λ n. n ≤ room) }
    ensures bytes { MatchResult result
        (λ n. Consumes (S.remaining source.old) (S.remaining source.new) (take n chunk.new) × (n ≡ 0 → IsAtEnd (S.remaining source.new)))
        (λ _. Keeps (S.remaining source.old) (S.remaining source.new)) }
    ensures cause { S.failures source.new ≡ after_call (is_err result) (S.failures source.old) }
    ensures ends { S.ends source.new ≡ after_call (gives_nothing result) (S.ends source.old) }
    ensures name { S.name source.new ≡ S.name source.old }
{
    source.read(&mut chunk[..room])
}
