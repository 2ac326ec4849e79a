//! Reads a compiled story to a person in a terminal (docs/READER.md).
#![tactic(auto)]

mod desk;
mod files;
mod lines;
mod looks;
mod report;
mod settings;

use desk::{Answering, ReaderDesk, reader_desk};
use files::SaveFile;
use ink_page::{Look, ask_for_the_rest};
use ink_player::{Counting, Observer, Player, ReadRefusal, RunFault, Story, check, read_story};
use ink_reader::Reader;
use ink_words::{PlayDesk, Table, read_story_file, words};
use lines::InputLines;
use looks::look;
use report::{ReadEnd, refuse_words, tell_end};
use settings::{Settings, read_settings};
use std::alloc::{AllocError, Global};
use std::process::ExitCode;
use std::{io, mem};

/// The input was read to its end, or the reader quit.
const SERVED: u8 = 0;

/// A player whose functions and watchers are those of the words, and which asks the reader for the others.
type Reading = Player<Table, Answering<HostRuntime>, Observer>;

fn main(rt: HostRuntime) -> ExitCode {
    let alloc = rt.alloc();
    let Ok(words) = words(&rt) else {
        return ExitCode::from(refuse_words(&rt));
    };
    let mut desk = PlayDesk::new(alloc);
    let Some(settings) = read_settings(alloc, words.as_slice(), &mut desk) else {
        return ExitCode::from(refuse_words(&rt));
    };
    let look = look(&rt, settings.tags);
    ExitCode::from(match read(rt, alloc, look, &settings, desk) {
        Ok(()) => SERVED,
        Err(end) => tell_end(&rt, alloc, look, settings.story, &end),
    })
}

/// Reads a story to the end of the input, or until the reader quits.
fn read(
    rt: HostRuntime,
    alloc: Global,
    look: Look,
    settings: &Settings<'_>,
    desk: PlayDesk,
) -> Result<(), ReadEnd> {
    let Ok(bytes) = read_story_file(&rt, alloc, settings.story) else {
        return Err(ReadEnd::File);
    };
    let story = accepted(alloc, bytes)?;
    let desk = asking_desk(rt, alloc, look, &story, desk)?;
    let player = opened(alloc, story, desk)?;
    read_player(rt, alloc, look, settings, player)?;
    Ok(())
}

/// The story that these bytes are, if it is accepted.
fn accepted(alloc: Global, bytes: Vec<u8>) -> Result<Story, ReadEnd> {
    match read_and_check(alloc, bytes.as_slice()) {
        Ok(story) => Ok(story),
        Err(refusal) => Err(ReadEnd::Story { bytes, refusal }),
    }
}

fn read_and_check(alloc: Global, bytes: &[u8]) -> Result<Story, ReadRefusal> {
    let raw = read_story(alloc, bytes)?;
    check(alloc, raw)
}

/// The desk with what the words bind, and with questions to the reader for the other functions that the story calls.
fn asking_desk(
    rt: HostRuntime,
    alloc: Global,
    look: Look,
    story: &Story,
    desk: PlayDesk,
) -> Result<ReaderDesk<HostRuntime>, AllocError> {
    let mut desk = reader_desk(alloc, desk)?;
    ask_for_the_rest(alloc, rt, look, story, &mut desk)?;
    Ok(desk)
}

/// The player at the story's start.
fn opened(alloc: Global, story: Story, desk: ReaderDesk<HostRuntime>) -> Result<Reading, ReadEnd> {
    match Player::open(alloc, story, desk) {
        Ok(player) => Ok(player),
        Err(end) => Err(ReadEnd::Start(end.fault)),
    }
}

/// Reads an opened story to the end of the input.
fn read_player(
    rt: HostRuntime,
    alloc: Global,
    look: Look,
    settings: &Settings<'_>,
    player: Reading,
) -> Result<(), RunFault> {
    let mut reader = Reader::new(alloc, player, look, settings.saves);
    let mut shelf = SaveFile {
        rt,
        path: settings.save.as_str(),
        beside: settings.beside.as_str(),
    };
    let mut lines = InputLines { rt, failures: 0 };
    let mut sink = Counting::new(io::writer(&rt));
    let outcome = reader.read_to_end(&mut lines, &mut sink, &mut shelf);
    // The program ends here, so that nothing of the story and the game has to be walked to be let go.
    mem::forget(reader);
    outcome
}
