//! Tables with a case a line: a question, ` => ` and the answer that is wanted.

use crate::answer::NoAnswer;
use crate::expansion::expanded;
use crate::report::Report;
use crate::table::Table;
use crate::tally::Tally;
use std::alloc::Global;

/// What answers the questions of a table.
pub trait Questions {
    /// Writes the answer to a question about a story, which is empty where the table has none.
    fn answer(&mut self, said: &mut Report, story: &str, question: &str) -> Result<(), NoAnswer>;

    /// A question was not read, for want of memory. That matters where later answers hang on it.
    fn miss(&mut self) {}
}

/// Runs the cases of a table.
pub fn ask_lines<Q: Questions>(
    rt: &impl Print,
    alloc: Global,
    questions: &mut Q,
    table: Table<'_>,
    tally: &mut Tally,
) {
    ask_below(rt, alloc, questions, table, ("", table.text), tally);
}

/// Runs the cases of a table of stories: `= STORY` stands above the questions about it.
pub fn ask_stories<Q: Questions>(
    rt: &impl Print,
    alloc: Global,
    questions: &mut Q,
    table: Table<'_>,
    tally: &mut Tally,
) {
    let mut parts = table.text.split("\n= ");
    let _front = parts.next();
    for part in parts {
        ask_below(rt, alloc, questions, table, first_line(part), tally);
    }
}

/// Runs the cases below a story.
pub fn ask_below<Q: Questions>(
    rt: &impl Print,
    alloc: Global,
    questions: &mut Q,
    table: Table<'_>,
    (story, text): (&str, &str),
    tally: &mut Tally,
) {
    for line in text.lines() {
        if !is_comment(line) {
            ask_line(rt, alloc, questions, (table.file, story, line), tally);
        }
    }
}

fn ask_line<Q: Questions>(
    rt: &impl Print,
    alloc: Global,
    questions: &mut Q,
    (file, story, line): (&str, &str, &str),
    tally: &mut Tally,
) {
    match expanded(alloc, line) {
        Ok(bytes) => {
            let (question, wanted) = question_and_answer(&bytes);
            let mut said = Report::new(alloc);
            let outcome = questions.answer(&mut said, story, question);
            said.end(outcome);
            tally.judge(rt, file, line, &said, wanted);
        }
        Err(_) => {
            questions.miss();
            tally.refuse();
        }
    }
}

/// The first line of a text, and the others.
pub fn first_line(text: &str) -> (&str, &str) {
    text.split_once('\n').unwrap_or((text, ""))
}

/// Whether a line is no case.
pub fn is_comment(line: &str) -> bool {
    line.is_empty() || line.starts_with("//")
}

/// The question and the wanted answer of a line.
fn question_and_answer(line: &[u8]) -> (&str, &str) {
    let line = str::from_utf8(line).unwrap_or("no text");
    line.rsplit_once(" => ").unwrap_or((line, "an answer"))
}
