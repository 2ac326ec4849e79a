//! The lines of the input.

ghost use Rattle.std.specs.Prelude.{None};

use ink_player::RunFault;
use ink_reader::Lines;
use std::alloc::Global;
use std::io::ErrorKind;

/// The lines of the input.
#[derive(Drop)]
pub(crate) struct InputLines<R> {
    pub(crate) rt: R,
    /// How many times reading a line has failed, by a counter of 64 bits. Refused memory is not among these.
    pub(crate) failures: u64,
}

impl<R: Input> Lines for InputLines<R> {
    // What will be typed is not known.
    ghost coming = { λ l. None };

    ghost failures = { λ l. l.failures };

    // A line that is no text is as one that is not understood.
    fn next(&mut self, alloc: Global) -> Result<Option<String>, RunFault> {
        let mut line = String::new(alloc);
        match self.rt.read_line(&mut line) {
            Ok(0) => Ok(None),
            Ok(_) => Ok(Some(line)),
            Err(error) if error.kind() == ErrorKind::InvalidData => Ok(Some(String::new(alloc))),
            Err(error) if error.kind() == ErrorKind::OutOfMemory => Err(RunFault::OutOfMemory),
            Err(_) => {
                self.failures = self.failures.wrapping_add(1);
                Err(RunFault::Read)
            }
        }
    }
}
