//! What the program says on standard error, and its exit statuses (docs/PROTOCOL.md, "The program").

use ink_player::PlayFault;

/// Reading or writing failed, a line or the input was too long, or there was no memory for a line or an answer.
const RUN_FAULT: u8 = 1;
/// No line was served: the words, the file or the story were refused, or the story could not be opened.
const REFUSED: u8 = 2;

/// The words are no words of the program, or there was no memory for them.
pub(crate) fn refuse_words(rt: &impl Eprint) -> u8 {
    let _ = eprintln!(rt; "inkplay: words refused");
    REFUSED
}

/// The story's file could not be read.
pub(crate) fn refuse_file(rt: &impl Eprint) -> u8 {
    let _ = eprintln!(rt; "inkplay: file not read");
    REFUSED
}

/// Tells why the play ended, and gives the exit status.
pub(crate) fn tell(rt: &impl Eprint, fault: &PlayFault) -> u8 {
    let _ = eprintln!(rt; "inkplay: {fault}");
    match fault {
        PlayFault::Story(_) | PlayFault::Start(_) => REFUSED,
        PlayFault::Run(_) => RUN_FAULT,
    }
}
