//! Tables of whole sessions. A session begins with its name:
//!
//! ```text
//! = NAME          begins a session
//! < TEXT          a line that is read, the story first; <N TEXT is N such lines, <- TEXT ends without a newline
//! > TEXT          a line that has to be written; >N TEXT is N such lines
//! ! END           how the play has to end: `story CAUSE PLACE`, `start FAULT`, `run NAME`; served to its end without it
//! cut             the reader also fails behind each byte, and the writer before each
//! ```
//!
//! A session is played at once, and a short one also by seven bytes at a time, by `serve_story`, and by `open_story` with `run` and
//! with `serve`.

use crate::plays::{Wanted, play_ways};
use inkcases::{Report, Table, Tally, expand, is_comment};
use std::alloc::{AllocError, Global};

/// A session: what is read, what has to be written, and how the play has to end, which is nothing where it is served to its
/// end. `is_cut` asks for every cut of the input and of the output as well.
#[derive(Drop)]
struct Session<'t> {
    alloc: Global,
    input: Vec<u8>,
    wanted: Vec<u8>,
    end: &'t str,
    is_cut: bool,
}

impl<'t> Session<'t> {
    /// Reads the lines of a session behind its name.
    fn read(&mut self, text: &'t str) -> Result<(), AllocError> {
        for line in text.lines().skip(1) {
            if !is_comment(line) {
                self.take(line)?;
            }
        }
        Ok(())
    }

    /// Reads a line. One that is none of a session's stands for an end that no play has.
    fn take(&mut self, line: &'t str) -> Result<(), AllocError> {
        let (mark, text) = line.split_once(' ').unwrap_or((line, ""));
        match (mark.chars().next(), mark.get(1..)) {
            (Some('<'), Some("-")) => return expand(self.alloc, &mut self.input, text),
            (Some('<'), Some(count)) => return push_lines(self.alloc, &mut self.input, text, count),
            (Some('>'), Some(count)) => return push_lines(
                self.alloc,
                &mut self.wanted,
                text,
                count,
            ),
            (Some('!'), _) => self.end = text,
            (Some('c'), _) => self.is_cut = true,
            _ => self.end = line,
        }
        Ok(())
    }
}

/// Writes a line as many times as is written, which is once where nothing is.
fn push_lines(
    alloc: Global,
    into: &mut Vec<u8>,
    text: &str,
    count: &str,
) -> Result<(), AllocError> {
    for _ in 0..count.parse::<usize>().unwrap_or(1) {
        expand(alloc, into, text)?;
        into.push(b'\n')?;
    }
    Ok(())
}

/// Plays the sessions of a table.
pub(crate) fn run_sessions(rt: &impl Print, alloc: Global, table: Table<'_>, tally: &mut Tally) {
    for text in table.text.split("\n= ").skip(1) {
        let mut said = Report::new(alloc);
        play_session(&mut said, text);
        tally.judge(rt, table.file, text.lines().next().unwrap_or(""), &said, "");
    }
}

/// Plays a session in each way, and writes the first difference.
fn play_session(said: &mut Report, text: &str) {
    let alloc = said.alloc();
    let mut session = Session {
        alloc,
        input: Vec::new(alloc),
        wanted: Vec::new(alloc),
        end: "",
        is_cut: false,
    };
    match session.read(text) {
        Ok(()) => {
            let wanted = Wanted {
                text: session.wanted.as_slice(),
                end: session.end,
            };
            play_ways(said, session.input.as_slice(), wanted, session.is_cut);
        }
        Err(_) => said.refuse(),
    }
}
