//! Taking lines from a source.

ghost use Rattle.std.specs.Prelude.{◌≡◌, ◌≤◌, ◌+◌, length};
ghost use Rattle.ink_protocol.specs.Ends.{after_call, reads_fail};
ghost use Rattle.ink_protocol.specs.Lines.{GivesLine, is_last};

use crate::fault::RunFault;
use crate::input::{Ahead, Cut, Next, Source};

/// A line: one that ended at its newline, without it, or what stands before the source's end.
#[derive(Drop)]
pub enum Line {
    Whole(Vec<u8>),
    Last(Vec<u8>),
}

/// The next line, of at most so many bytes, in the memory of a buffer that is emptied first. No more is read than tells that it is
/// longer, and nothing after a read that gave no byte: that is the source's end. Errors: `Read`, where the source failed;
/// `TooLong`, once what was read shows that the line is longer, or that all bytes were taken that may be and more are there,
/// whatever memory there is; `OutOfMemory`, where memory was refused for a byte that the line may have.
#[inline(always)]
pub fn next_line<S: Source>(
    buffer: Vec<u8>,
    ahead: &mut Ahead,
    source: &mut S,
    limit: usize,
) -> Result<Line, RunFault>
    ensures gives { GivesLine (S.remaining source.old) (S.remaining source.new) ahead.old ahead.new limit result }
    ensures bound { length ahead.new.unread ≤ ahead.new.spare + 1 }
    ensures cause { S.failures source.new ≡ after_call (reads_fail result) (S.failures source.old) }
    ensures ends { S.ends source.new ≡ after_call (is_last result) (S.ends source.old) }
    ensures name { S.name source.new ≡ S.name source.old }
{
    let mut line = buffer;
    line.clear();
    'pieces: loop {
        let Ok(next) = ahead.next(source, limit - line.len()) else {
            return Err(RunFault::Read);
        };
        match next {
            Next::Bytes => {}
            Next::End => return Ok(Line::Last(line)),
            Next::TooMany => return Err(RunFault::TooLong),
        }
        match ahead.cut(&mut line, limit)? {
            Cut::Newline => return Ok(Line::Whole(line)),
            Cut::More => {}
        }
    }
}
