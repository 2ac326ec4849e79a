//! Plays a compiled story: commands are the lines of standard input, and each command's answer is a line of standard output.
//! The story is a file, or without one the first line of the input (docs/PROTOCOL.md, "The program"). Other words bind functions
//! and watch globals (docs/PROGRAM.md).
#![tactic(auto)]

mod report;

use ink_player::{
    Counting, Observer, PlayFault, Player, RunFault, Sink, Source, open_story, serve, serve_to_end,
};
use ink_words::{PlayDesk, Script, Table, read_story_file, read_words, words};
use report::{refuse_file, refuse_words, tell};
use std::alloc::Global;
use std::fs::Files;
use std::process::ExitCode;
use std::{io, mem};

/// The input was served to its end.
const SERVED: u8 = 0;

/// A player whose functions and watchers are those of the words.
type Playing = Player<Table, Script, Observer>;

fn main(rt: HostRuntime) -> ExitCode {
    let alloc = rt.alloc();
    let Ok(words) = words(&rt) else {
        return ExitCode::from(refuse_words(&rt));
    };
    let mut desk = PlayDesk::new(alloc);
    let Ok(story) = read_words(alloc, "inkplay", words.as_slice(), &mut desk) else {
        return ExitCode::from(refuse_words(&rt));
    };
    let mut source = Counting::new(rt.reader());
    let mut sink = Counting::new(io::writer(&rt));
    ExitCode::from(match story {
        Some(path) => serve_file(&rt, alloc, path, desk, &mut source, &mut sink),
        None => serve_input(&rt, alloc, desk, &mut source, &mut sink),
    })
}

/// Plays the story that is the first line of the input.
fn serve_input<S: Source, T: Sink>(
    rt: &impl Eprint,
    alloc: Global,
    desk: PlayDesk,
    source: &mut S,
    sink: &mut T,
) -> u8 {
    match serve_to_end(alloc, source, sink, desk) {
        Ok(player) => {
            leave(player);
            SERVED
        }
        Err(end) => tell(rt, &end.fault),
    }
}

/// Plays the story of a file.
fn serve_file<S: Source, T: Sink>(
    rt: &(impl Eprint + Files),
    alloc: Global,
    path: &str,
    desk: PlayDesk,
    source: &mut S,
    sink: &mut T,
) -> u8 {
    match read_story_file(rt, alloc, path) {
        Ok(bytes) => serve_bytes(rt, alloc, bytes.as_slice(), desk, source, sink),
        Err(_) => refuse_file(rt),
    }
}

/// Plays the story that these bytes are.
fn serve_bytes<S: Source, T: Sink>(
    rt: &impl Eprint,
    alloc: Global,
    bytes: &[u8],
    desk: PlayDesk,
    source: &mut S,
    sink: &mut T,
) -> u8 {
    match open_story(alloc, bytes, desk) {
        Ok(player) => status_of(rt, serve_player(alloc, player, source, sink)),
        Err(end) => tell(rt, &end.fault),
    }
}

/// Serves the lines of the input to a player, which ends with them.
fn serve_player<S: Source, T: Sink>(
    alloc: Global,
    player: Playing,
    source: &mut S,
    sink: &mut T,
) -> Result<(), RunFault> {
    let mut player = player;
    let outcome = serve(alloc, source, sink, &mut player);
    leave(player);
    outcome
}

/// The program ends here, so that nothing of the story and the game has to be walked to be let go.
fn leave(player: Playing) {
    mem::forget(player);
}

/// The exit status of a session, once its fault is told.
fn status_of(rt: &impl Eprint, outcome: Result<(), RunFault>) -> u8 {
    match outcome {
        Ok(()) => SERVED,
        Err(fault) => tell(rt, &PlayFault::Run(fault)),
    }
}
