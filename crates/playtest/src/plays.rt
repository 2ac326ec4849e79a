//! Plays of a session: at once, by few bytes at a time, and with what fails on the way.

ghost use Rattle.std.specs.Prelude.{◌≡◌};
ghost use Rattle.ink_host.specs.Desk.{empty_desk};

use crate::streams::{Page, Pieces};
use ink_host::{Desk, Nobody};
use ink_model::Fault;
use ink_player::{
    Counting, PlayEnd, PlayFault, RunFault, open_story, play, run, serve, serve_story,
};
use inkcases::Report;
use std::alloc::Global;

/// The longest input that is also played by `open_story` with `run` and `serve`, and by few bytes at a time.
const SHORT: usize = 65_536;

/// What is answered where a command found no memory that does not run.
const REFUSED: &str = r#"{"refused":"OutOfMemory"}"#;

/// What is answered where one that runs found no memory.
const FAULT: &str = r#"{"events":[],"fault":"OutOfMemory"}"#;

/// What has to be written in a play, and how it has to end.
#[derive(Clone, Copy)]
pub(crate) struct Wanted<'s> {
    pub text: &'s [u8],
    pub end: &'s str,
}

/// Plays a session in each way, and writes the first difference.
pub(crate) fn play_ways(said: &mut Report, input: &[u8], wanted: Wanted<'_>, is_cut: bool) {
    played(said, Pieces::whole(input), Page::new(said.alloc()), wanted);
    if input.len() <= SHORT {
        slowly_played(said, input, wanted);
        opened_and_run(said, input, wanted);
        opened_and_served(said, input, wanted);
    }
    if is_cut {
        cut(said, input, wanted);
    }
}

/// Plays from a reader to a writer.
fn played(said: &mut Report, mut reader: Pieces<'_>, mut writer: Page, wanted: Wanted<'_>) {
    let alloc = said.alloc();
    let end = let_go(play(alloc, &mut reader, &mut writer, nobody(alloc)));
    compare(said, &writer, &end, wanted);
}

/// Why a play ended early, if it did. Its desk is let go.
fn let_go(
    outcome: Result<Desk<Nobody, Nobody, Nobody>, PlayEnd<Nobody, Nobody, Nobody>>,
) -> Option<PlayFault> {
    match outcome {
        Ok(_desk) => None,
        Err(PlayEnd { fault, desk: _ }) => Some(fault),
    }
}

/// A desk with no object.
fn nobody(alloc: Global) -> Desk<Nobody, Nobody, Nobody>
    ensures { result ≡ empty_desk }
{
    Desk::new(alloc)
}

/// Plays by few bytes at a time, from a source to a sink.
fn slowly_played(said: &mut Report, input: &[u8], wanted: Wanted<'_>) {
    let alloc = said.alloc();
    let mut reader = Pieces::whole(input);
    reader.size = 7;
    let mut writer = Page::new(alloc);
    writer.size = 7;
    let mut source = Counting::new(reader);
    let mut sink = Counting::new(writer);
    let end = let_go(serve_story(alloc, &mut source, &mut sink, nobody(alloc)));
    compare(said, &sink.into_inner(), &end, wanted);
}

/// Opens the first line as a story, and runs over the others.
fn opened_and_run(said: &mut Report, input: &[u8], wanted: Wanted<'_>) {
    let (story, rest) = first_line(input);
    let mut writer = Page::new(said.alloc());
    let end = run_opened(said.alloc(), story, rest, &mut writer);
    compare(said, &writer, &end, wanted);
}

fn run_opened(alloc: Global, story: &[u8], rest: &[u8], writer: &mut Page) -> Option<PlayFault> {
    let mut player = match open_story(alloc, story, nobody(alloc)) {
        Ok(player) => player,
        Err(end) => return let_go(Err(end)),
    };
    let outcome = run(alloc, &mut Pieces::whole(rest), writer, &mut player);
    let _desk = player.close();
    fault_of(outcome)
}

/// Opens the first line as a story, and serves the others from a source to a sink.
fn opened_and_served(said: &mut Report, input: &[u8], wanted: Wanted<'_>) {
    let (story, rest) = first_line(input);
    let mut sink = Counting::new(Page::new(said.alloc()));
    let end = serve_opened(said.alloc(), story, rest, &mut sink);
    compare(said, &sink.into_inner(), &end, wanted);
}

fn serve_opened(
    alloc: Global,
    story: &[u8],
    rest: &[u8],
    sink: &mut Counting<Page>,
) -> Option<PlayFault> {
    let mut player = match open_story(alloc, story, nobody(alloc)) {
        Ok(player) => player,
        Err(end) => return let_go(Err(end)),
    };
    let mut source = Counting::new(Pieces::whole(rest));
    let outcome = serve(alloc, &mut source, sink, &mut player);
    let _desk = player.close();
    fault_of(outcome)
}

fn fault_of(outcome: Result<(), RunFault>) -> Option<PlayFault> {
    match outcome {
        Ok(()) => None,
        Err(fault) => Some(PlayFault::Run(fault)),
    }
}

/// The first line, and what stands behind its newline.
fn first_line(input: &[u8]) -> (&[u8], &[u8]) {
    let line = first_lines(input, 1);
    (
        without_newline(line),
        input.get(line.len()..).unwrap_or(b""),
    )
}

fn without_newline(line: &[u8]) -> &[u8] {
    match line.split_last() {
        Some((b'\n', text)) => text,
        _ => line,
    }
}

/// Plays with a reader that fails behind each number of bytes, and with a writer that fails, or takes nothing, behind each.
fn cut(said: &mut Report, input: &[u8], wanted: Wanted<'_>) {
    for count in 0..=input.len() {
        read_to(said, input, count, wanted);
    }
    for room in 0..wanted.text.len() {
        written_to(said, input, room, wanted);
    }
}

/// The reader fails behind so many bytes. The lines that ended before are answered.
fn read_to(said: &mut Report, input: &[u8], count: usize, wanted: Wanted<'_>) {
    let front = input.get(..count).unwrap_or(input);
    let lines = lines_in(front);
    let mut reader = Pieces::whole(front);
    reader.fails = true;
    let is_read = lines > 0 && !wanted.end.is_empty();
    let wanted = Wanted {
        text: first_lines(wanted.text, lines.saturating_sub(1)),
        end: if is_read { wanted.end } else { "run Read" },
    };
    played(said, reader, Page::new(said.alloc()), wanted);
}

/// How many lines have ended.
fn lines_in(text: &[u8]) -> usize {
    let mut lines = 0usize;
    for byte in text {
        if *byte == b'\n' {
            lines = lines.saturating_add(1);
        }
    }
    lines
}

/// The first so many lines, each with its newline.
fn first_lines(text: &[u8], count: usize) -> &[u8] {
    let mut left = count;
    for (index, byte) in text.iter().enumerate() {
        if left == 0 {
            return text.split_at(index).0;
        }
        if *byte == b'\n' {
            left -= 1;
        }
    }
    text
}

/// The writer takes so many bytes, and then fails, or takes nothing where the number is even.
fn written_to(said: &mut Report, input: &[u8], room: usize, wanted: Wanted<'_>) {
    let mut writer = Page::new(said.alloc());
    writer.room = room;
    writer.takes_nothing = room % 2 == 0;
    let wanted = Wanted {
        text: wanted.text.get(..room).unwrap_or(wanted.text),
        end: "run Write",
    };
    played(said, Pieces::whole(input), writer, wanted);
}

// ---- what came

/// Writes what differs, if nothing did before: the first line that is another, and how the play ended.
fn compare(said: &mut Report, writer: &Page, end: &Option<PlayFault>, wanted: Wanted<'_>) {
    let mut ended = Report::new(said.alloc());
    show_end(&mut ended, end);
    said.note_of(&ended);
    let is_alike = writer.bytes.as_slice() == wanted.text && ended.as_str() == wanted.end;
    if !is_alike && said.is_empty() {
        let line = first_other(writer.bytes.as_slice(), wanted.text);
        if writer.found_none || is_want(line) {
            said.refuse();
        }
        said.put(line);
        said.put(", ended '");
        said.put(ended.as_str());
        said.put("'");
    }
}

/// Writes how a play ended: nothing where it was served to its end.
fn show_end(said: &mut Report, end: &Option<PlayFault>) {
    match end {
        None => {}
        Some(PlayFault::Run(RunFault::OutOfMemory)) | Some(PlayFault::Start(Fault::OutOfMemory)) =>
            said.refuse(),
        Some(PlayFault::Run(fault)) => {
            said.put("run ");
            said.show(*fault);
        }
        Some(PlayFault::Start(fault)) => {
            said.put("start ");
            said.put(fault.name());
        }
        Some(PlayFault::Story(refusal)) => {
            said.put("story ");
            said.unread(refusal);
        }
    }
}

/// The first line that is not the one that is wanted there.
fn first_other<'b>(came: &'b [u8], wanted: &[u8]) -> &'b str {
    let mut start = 0usize;
    for (index, (byte, other)) in came.iter().zip(wanted.iter()).enumerate() {
        if byte != other {
            break;
        }
        if *byte == b'\n' {
            start = index.saturating_add(1);
        }
    }
    let line = first_lines(came.get(start..).unwrap_or(b""), 1);
    str::from_utf8(without_newline(line)).unwrap_or("no text")
}

/// Whether a line says that memory was refused, or is the beginning of one that does, which a writer has cut.
fn is_want(line: &str) -> bool {
    !line.is_empty() && (REFUSED.starts_with(line) || FAULT.starts_with(line))
}
