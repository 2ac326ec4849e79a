//! How changes of the text being written are put back.

ghost use Rattle.std.specs.Prelude.{ℕ, ◌≡◌, ◌≤◌, ◌+◌, OnErr, OnOk, vec_capacity};
ghost use Rattle.ink_out.specs.Stands.{IsStateOf};
ghost use Rattle.ink_out.specs.Undo.{Held, KeepsState, open_marks, output_back, room_of, with_open};
ghost use Rattle.ink_out.specs.Writing.{page_of};
ghost use Rattle.ink_trail.specs.Undo.{Ends, KeepsTrail, but_last, spare, with_pair};

use crate::opened::Opened;
use crate::section::Section;
use crate::spares::Spares;
use crate::state::State;
use ink_trail::Trail;
use std::alloc::AllocError;

/// A cell of the text, and what it held: a mark was written into what is open, where this was known before it; a section was
/// opened, or closed; there was another next number; or the line went with its next number, or all sections.
#[derive(Drop)]
pub enum OutputPair {
    Wrote(State),
    Began,
    Closed(Opened),
    Numbered(u64),
    Line(Section, u64),
    Sections(Vec<Opened>),
}

/// Notes which number was the next one. Where no mark stands no pair is made.
#[inline(always)]
pub(crate) fn note_number(trail: &mut Trail<OutputPair>, number: u64)
    requires { 1 ≤ spare trail.old }
    ensures undo { trail.new.undo ≡ with_pair (OutputPair.Numbered number) 1 trail.old.undo }
    ensures room { trail.old.room ≤ trail.new.room + 1 }
{
    if trail.is_marked() {
        trail.note(OutputPair::Numbered(number), 1);
    }
}

/// Notes that a section was opened, and makes room for that. Where no mark stands no pair is made. The one error is a refused request
/// for memory, which is made only where a mark stands; nothing has changed then.
#[inline(always)]
pub(crate) fn note_began(trail: &mut Trail<OutputPair>) -> Result<(), AllocError>
    ensures ok { OnOk result (trail.new.undo ≡ with_pair OutputPair.Began 1 trail.old.undo) }
    ensures room { trail.old.room ≤ trail.new.room + 1 }
    ensures spare { spare trail.old ≤ spare trail.new + 1 }
    ensures err { OnErr result (KeepsTrail trail.old trail.new) }
{
    if trail.is_marked() {
        return trail.add(OutputPair::Began, 1);
    }
    Ok(())
}

/// Puts a pair back. A section that is taken away is kept, to be opened again.
pub(crate) fn put_one_back(
    line: &mut Section,
    sections: &mut Vec<Opened>,
    next_enter: &mut u64,
    spares: &mut Spares,
    pair: OutputPair,
)
    requires keeps { KeepsState pair (output_back pair (page_of line.old sections.old.items next_enter.old)) }
    requires held { Held (room_of pair (vec_capacity sections.old)) (output_back pair (page_of line.old sections.old.items next_enter.old)) }
    ensures page { page_of line.new sections.new.items next_enter.new ≡ output_back pair (page_of line.old sections.old.items next_enter.old) }
    ensures room { room_of pair (vec_capacity sections.old) ≤ vec_capacity sections.new }
{
    match pair {
        OutputPair::Wrote(state) => unwrite(line, sections, state),
        OutputPair::Began => spares.keep(sections.pop()),
        OutputPair::Closed(opened) => sections.push_reserved(opened),
        OutputPair::Numbered(number) => *next_enter = number,
        OutputPair::Line(marks, number) => {
            *line = marks;
            *next_enter = number;
        }
        OutputPair::Sections(list) => *sections = list,
    }
}

/// Ends the mark, and keeps the sections that were closed under it, to be opened again. Takes no memory.
#[inline(never)]
pub(crate) fn let_go(spares: &mut Spares, trail: &mut Trail<OutputPair>)
    ensures { Ends trail.old trail.new }
{
    while let Some(pair) = trail.take_last() {
        if let OutputPair::Closed(opened) = pair {
            spares.keep(Some(opened));
        }
    }
    trail.forget();
}

/// Takes the last mark of what is open back, by the state before it.
pub(crate) fn unwrite(line: &mut Section, sections: &mut [Opened], state: State)
    requires { (n : ℕ) → IsStateOf (but_last (open_marks (page_of line.old sections.old n))) state }
    ensures { (n : ℕ) → page_of line.new sections.new n ≡ with_open (but_last (open_marks (page_of line.old sections.old n))) (page_of line.old sections.old n) }
{
    match sections.len() {
        0 => line.take_back(state),
        open => sections[open - 1].take_back(state),
    }
}
