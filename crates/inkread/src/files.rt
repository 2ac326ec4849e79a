//! The save's file.

ghost use Rattle.std.specs.Prelude.{None};

use ink_model::MAX_INPUT;
use ink_reader::{NotKept, Shelf};
use std::alloc::Global;
use std::fs::{self, File, Files, OpenFile};
use std::io::{self, ErrorKind, Read, Write};

/// Bytes that are read of a save: as many as an input may have in which it is loaded, and one more, which tells that there are more.
const MOST: u64 = MAX_INPUT as u64 + 1;

/// The file of a save. It is written beside and then renamed, so that it is there whole or as it was.
#[derive(Drop)]
pub(crate) struct SaveFile<'a, R> {
    pub(crate) rt: R,
    pub(crate) path: &'a str,
    pub(crate) beside: &'a str,
}

impl<R: Files> SaveFile<'_, R> {
    // Writes a file beside the save's, to the disk.
    fn write_beside(&self, save: &str) -> io::Result<()> {
        let mut file = File::create(&self.rt, self.beside)?;
        file.write_all(save.as_bytes())?;
        file.sync_all()
    }
}

impl<R: Files> Shelf for SaveFile<'_, R> {
    // What a file has is not known: others may write it.
    ghost kept = { λ s. None };

    fn keep(&mut self, save: &str) -> Result<(), NotKept> {
        if save.len() > MAX_INPUT {
            return Err(NotKept::TooLong);
        }
        if self.write_beside(save).is_ok() && fs::rename(&self.rt, self.beside, self.path).is_ok() {
            return Ok(());
        }
        let _ = fs::remove_file(&self.rt, self.beside);
        Err(NotKept::Failed)
    }

    fn fetch(&self, alloc: Global) -> Result<Option<String>, NotKept> {
        let file = match File::open(&self.rt, self.path) {
            Ok(file) => file,
            Err(error) if error.kind() == ErrorKind::NotFound => return Ok(None),
            Err(_) => return Err(NotKept::Failed),
        };
        let mut save = Vec::new(alloc);
        let Ok(_) = file.take(MOST).read_to_end(&mut save) else {
            return Err(NotKept::Failed);
        };
        text_of(save)
    }
}

// The text that a save's bytes are.
fn text_of(save: Vec<u8>) -> Result<Option<String>, NotKept> {
    if save.len() > MAX_INPUT {
        return Err(NotKept::TooLong);
    }
    match String::from_utf8(save) {
        Ok(text) => Ok(Some(text)),
        Err(_) => Err(NotKept::NoText),
    }
}
