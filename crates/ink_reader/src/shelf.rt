//! Where saves are kept.

ghost use Rattle.std.specs.Prelude.{◌≡◌, List, ℕ, Option};
ghost use Rattle.ink_reader.specs.Kept.{Fetches, KeepsSave, text_of};
ghost use Rattle.ink_reader.specs.Notices.{unread, unwritten};

use std::alloc::Global;

/// What is said of a save that is no text, or no JSON.
pub(crate) const NO_SAVE: &str = "The save is cut, or is no save; it stays as it is.";

/// Why a save could not be kept, or what is kept could not be read.
#[derive(Clone, Copy)]
pub enum NotKept {
    /// Writing or reading failed.
    Failed,
    /// It is longer than a save may be.
    TooLong,
    /// It is no text.
    NoText,
}

impl NotKept {
    /// Why a save was not written, in words.
    pub(crate) fn unwritten(self) -> &'static str
        ensures { result.now ≡ unwritten self }
    {
        match self {
            NotKept::TooLong =>
                "The save would be longer than 64 MiB; what was saved before stays.",
            NotKept::Failed | NotKept::NoText =>
                "The save could not be written; what was saved before stays.",
        }
    }

    /// Why a save was not read, in words.
    pub(crate) fn unread(self) -> &'static str
        ensures { result.now ≡ unread self }
    {
        match self {
            NotKept::TooLong =>
                "The save is longer than 64 MiB, so it is not read; it stays as it is.",
            NotKept::NoText => NO_SAVE,
            NotKept::Failed => "The save could not be read; it stays as it is.",
        }
    }
}

/// Keeps one save.
pub trait Shelf {
    /// The save that is kept, or that there is none, where that is known.
    ghost kept: { Self → Option (Option (List ℕ)) };

    /// Keeps a save in the place of the one before. Where it fails, the one before stands.
    fn keep(&mut self, save: &str) -> Result<(), NotKept>
        ensures { KeepsSave (kept self.old) (kept self.new) save.now result };

    /// The save that is kept, if there is one.
    fn fetch(&self, alloc: Global) -> Result<Option<String>, NotKept>
        ensures { Fetches (kept self.now) (text_of result) };
}
