//! A reader that gives little at a time and may fail, and a writer that takes little at a time and may fail.

ghost use Rattle.std.specs.Prelude.{◌≤◌};

use std::alloc::Global;
use std::io::{Error, ErrorKind, Read, Result as IoResult, Write};

/// What a reader gives to who asks once more, when it has failed or was at its end: a line that would be answered.
const MORE: &[u8] = b"bye\n";

/// Gives at most so many bytes at a time, and behind them fails or is at its end, once.
#[derive(Drop)]
pub(crate) struct Pieces<'b> {
    pub rest: &'b [u8],
    pub size: usize,
    pub fails: bool,
    pub is_over: bool,
}

impl<'b> Pieces<'b> {
    /// Gives as many bytes as are asked for, and then is at its end.
    pub(crate) fn whole(bytes: &'b [u8]) -> Pieces<'b> {
        Pieces {
            rest: bytes,
            size: usize::MAX,
            fails: false,
            is_over: false,
        }
    }
}

impl Read for Pieces<'_> {
    fn read(&mut self, buffer: &mut [u8]) -> IoResult<usize> {
        if self.rest.is_empty() && !self.is_over && !buffer.is_empty() {
            self.is_over = true;
            self.rest = MORE;
            if self.fails {
                return Err(Error::from(ErrorKind::Other));
            }
            return Ok(0);
        }
        let count = self.rest.len().min(self.size).min(buffer.len());
        let (front, rest) = self.rest.split_at(count);
        buffer[..count].copy_from_slice(front);
        self.rest = rest;
        Ok(count)
    }
}

/// Takes at most so many bytes at a time, until it is full: then it fails, or takes nothing, once, and takes all that is written
/// after that. `found_none` says that it found no memory.
#[derive(Drop)]
pub(crate) struct Page {
    pub bytes: Vec<u8>,
    pub size: usize,
    pub room: usize,
    pub takes_nothing: bool,
    pub has_failed: bool,
    pub found_none: bool,
}

impl Page {
    /// Takes all bytes.
    pub(crate) fn new(alloc: Global) -> Page {
        Page {
            bytes: Vec::new(alloc),
            size: usize::MAX,
            room: usize::MAX,
            takes_nothing: false,
            has_failed: false,
            found_none: false,
        }
    }

    // How many of so many bytes it takes.
    fn fitting(&self, count: usize) -> usize
        ensures { result ≤ count }
    {
        if self.has_failed {
            return count;
        }
        count.min(self.size).min(self.room)
    }
}

impl Write for Page {
    fn write(&mut self, bytes: &[u8]) -> IoResult<usize> {
        let count = self.fitting(bytes.len());
        if count == 0 {
            self.has_failed = true;
            if self.takes_nothing {
                return Ok(0);
            }
            return Err(Error::from(ErrorKind::Other));
        }
        if self.bytes.extend_from_slice(&bytes[..count]).is_err() {
            self.found_none = true;
            return Err(Error::from(ErrorKind::OutOfMemory));
        }
        self.room = self.room.saturating_sub(count);
        Ok(count)
    }

    fn flush(&mut self) -> IoResult<()> {
        Ok(())
    }
}
