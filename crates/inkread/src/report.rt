//! What the program says where it does not read, and its exit statuses, which are those of `inkplay`.

use ink_page::{Look, cause_words, fault_words, line_page, piece_at};
use ink_player::{Cause, Fault, Part, Place, ReadRefusal, RunFault};
use std::alloc::{AllocError, Global};

/// Reading or writing failed, or there was no memory to read a line or to show something.
const RUN_FAULT: u8 = 1;
/// Nothing was read: the words, the file or the story were refused, or the story could not be opened.
const REFUSED: u8 = 2;

/// Bytes of a piece of content that are shown.
const PIECE: usize = 300;

/// Why a story is not read, or not to the end of the input.
#[derive(Drop)]
pub(crate) enum ReadEnd {
    /// The file could not be read.
    File,
    /// These bytes are no story that is accepted.
    Story {
        bytes: Vec<u8>,
        refusal: ReadRefusal,
    },
    /// There is no memory to begin.
    Memory,
    /// The story could not be opened.
    Start(Fault),
    /// Reading or writing failed, or there was no memory to go on.
    Run(RunFault),
}

impl From<AllocError> for ReadEnd {
    fn from(_error: AllocError) -> ReadEnd {
        ReadEnd::Memory
    }
}

impl From<RunFault> for ReadEnd {
    fn from(fault: RunFault) -> ReadEnd {
        ReadEnd::Run(fault)
    }
}

/// The words are no words of the program, or there was no memory for them.
pub(crate) fn refuse_words(rt: &impl Eprint) -> u8 {
    let _ = eprintln!(rt;
        "inkread: inkread STORY [--save FILE] [--no-autosave] [--tags] [--answer NAME=JSON].. [--table NAME=JSON].. [--watch NAME].."
    );
    REFUSED
}

/// Tells why the reading of the story in a file ended, and gives the exit status.
pub(crate) fn tell_end(
    rt: &impl Eprint,
    alloc: Global,
    look: Look,
    path: &str,
    end: &ReadEnd,
) -> u8 {
    match end {
        ReadEnd::File => {
            let _ = eprintln!(rt; "inkread: the file {path} could not be read");
            REFUSED
        }
        ReadEnd::Story { bytes, refusal } => {
            tell_refusal(rt, alloc, look, bytes.as_slice(), refusal);
            REFUSED
        }
        ReadEnd::Memory => {
            let _ = eprintln!(rt; "inkread: {}", cause_words(Cause::OutOfMemory));
            REFUSED
        }
        ReadEnd::Start(fault) => {
            let _ = eprintln!(rt; "inkread: the story cannot begin. {}", fault_words(*fault));
            REFUSED
        }
        ReadEnd::Run(fault) => {
            let _ = eprintln!(rt; "inkread: {}; what was saved stays", run_words(*fault));
            RUN_FAULT
        }
    }
}

// Why a reading did not come to its end.
fn run_words(fault: RunFault) -> &'static str {
    match fault {
        RunFault::OutOfMemory => "there was not enough memory to go on",
        _ => "reading or writing failed",
    }
}

// Tells why the story is refused, where, and what stands there.
fn tell_refusal(rt: &impl Eprint, alloc: Global, look: Look, bytes: &[u8], refusal: &ReadRefusal) {
    let _ = eprintln!(rt; "inkread: {}", cause_words(refusal.cause));
    if refusal.cause.is_of_a_place() {
        tell(rt, alloc, look, place_words(alloc, &refusal.place).ok());
        tell(
            rt,
            alloc,
            look,
            piece_words(alloc, bytes, refusal.place.parts()),
        );
    }
}

// Tells what a story has as it is shown in a reading, without control characters, where there is memory for it.
fn tell(rt: &impl Eprint, alloc: Global, look: Look, words: Option<String>) {
    let Some(words) = words else { return };
    if let Ok(page) = line_page(alloc, look, words.as_str(), &[]) {
        let _ = eprintln!(rt; "{}", page.as_str());
    }
}

// Where it is: the parts joined by dots, or the root.
fn place_words(alloc: Global, place: &Place) -> Result<String, AllocError> {
    if place.parts().is_empty() {
        return String::from_str(alloc, "It is at the root.");
    }
    format!(in alloc; "It is at {place}.")
}

// The content that stands there, or how long it is where that is too much to show.
fn piece_words(alloc: Global, bytes: &[u8], parts: &[Part]) -> Option<String> {
    let piece = piece_at(alloc, bytes, parts).ok().flatten()?;
    if piece.len() > PIECE {
        return format!(in alloc; "There stands a piece of {} bytes.", piece.len()).ok();
    }
    format!(in alloc; "There stands: {}", piece.as_str()).ok()
}
