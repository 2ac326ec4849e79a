//! Where answers are written.

ghost use Rattle.std.specs.Prelude.{◌≡◌, ◌<◌, ℕ, List, Option, is_err, length};
ghost use Rattle.std.specs.Io.{WritesAtMost};
ghost use Rattle.std.specs.Io.KnownBytes.{WriteAppends};
ghost use Rattle.ink_protocol.specs.Ends.{Reports, after_call, takes_nothing, writes_fail, WritesAll, WritesText};

use crate::fault::RunFault;

/// A sink failed, or took no byte though there was one.
#[derive(Clone, Copy, Debug, PartialEq, Eq, thiserror::Error)]
#[error("write failed")]
pub struct WriteFailed;

/// A writer that counts its failures. It has no call to flush it: a writer that keeps bytes back has to be flushed by its host.
pub trait Sink {
    /// The bytes that it holds, where they are known.
    ghost contents: { Self → Option (List ℕ) };

    /// How many writes have failed, or took no byte though there was one, by a counter of 64 bits.
    ghost failures: { Self → ℕ };

    /// Tells two sinks apart. A sink around another one answers for that.
    ghost name: { Self → ℕ };

    /// Writes some bytes from the front of these, and tells how many. `WriteFailed` says that none were written. There is a byte
    /// to write: a sink is never asked to write nothing.
    fn write(&mut self, bytes: &[u8]) -> Result<usize, WriteFailed>
        requires some { 0 < length bytes.now }
        ensures bound { WritesAtMost result bytes.now }
        ensures bytes { WriteAppends (contents self.old) (contents self.new) result bytes.now }
        ensures cause { failures self.new ≡ after_call (takes_nothing result bytes.now) (failures self.old) }
        ensures name { name self.new ≡ name self.old };
}

/// Writes the text of an answer, in as many writes as it takes. The one error is `Write`: a write failed or took no byte, and
/// a front of the text is written then.
pub fn write_answer<T: Sink>(sink: &mut T, text: &[u8]) -> Result<(), RunFault>
    ensures written { WritesText (T.contents sink.old) (T.contents sink.new) text.now result }
    ensures sink { Reports (writes_fail result) (T.failures sink.old) (T.failures sink.new) (T.name sink.old) (T.name sink.new) }
{
    match write_whole(sink, text) {
        Ok(()) => Ok(()),
        Err(WriteFailed) => Err(RunFault::Write),
    }
}

// Writes all of these bytes, or a front of them.
fn write_whole<T: Sink>(sink: &mut T, bytes: &[u8]) -> Result<(), WriteFailed>
    ensures written { WritesAll (T.contents sink.old) (T.contents sink.new) bytes.now result }
    ensures cause { T.failures sink.new ≡ after_call (is_err result) (T.failures sink.old) }
    ensures name { T.name sink.new ≡ T.name sink.old }
{
    let mut rest = bytes;
    while !rest.is_empty() {
        let count = sink.write(rest)?;
        if count == 0 {
            return Err(WriteFailed);
        }
        let (_, after) = rest.split_at(count);
        rest = after;
    }
    Ok(())
}
