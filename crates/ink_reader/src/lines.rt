//! Lines that are typed.

ghost use Rattle.std.specs.Prelude.{◌≡◌, List, ℕ, Option, false};
ghost use Rattle.ink_protocol.specs.Ends.{after_call, reads_fail, writes_fail};
ghost use Rattle.ink_reader.specs.Kept.{text_of};
ghost use Rattle.ink_reader.specs.Session.{Hands};

use ink_protocol::RunFault;
use std::alloc::Global;

/// Hands out lines, one after another.
pub trait Lines {
    /// Those that are still to come, where that is known.
    ghost coming: { Self → Option (List (List ℕ)) };

    /// How many times bringing a line has failed, by a counter of 64 bits.
    ghost failures: { Self → ℕ };

    /// The next line; none at the end. The error is `Read` where bringing it failed, and never `Write`.
    fn next(&mut self, alloc: Global) -> Result<Option<String>, RunFault>
        ensures hands { Hands (coming self.old) (text_of result) (coming self.new) }
        ensures cause { failures self.new ≡ after_call (reads_fail result) (failures self.old) }
        ensures fault { writes_fail result ≡ false };
}
