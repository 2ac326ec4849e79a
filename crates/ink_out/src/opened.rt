//! Strings and tags that are open on the line, and where a mark is written.

ghost use Rattle.std.specs.Prelude.{ℕ, Err, IfErr, ◌≡◌, ◌≤◌, [], ◌∷◌, ◌++◌, ◌+◌, ◌-◌, ◌<◌, length, map, take, IfOk, OnOk, OnErr};
ghost use Rattle.ink_model.specs.Text.Clean.{clean};
ghost use Rattle.ink_model.specs.Run.Configuration.{Page};
ghost use Rattle.ink_model.specs.Text.Output.{is_crowded, is_string, writes_marks};
ghost use Rattle.ink_model.specs.declared.mark.Mark.{Mark};
ghost use Rattle.ink_model.specs.declared.limits.TheConstants.{MAX_MARKS};
ghost use Rattle.ink_model.specs.Text.Shown.{shown_text};
ghost use Rattle.ink_out.specs.Cutting.{piece_mark};
ghost use Rattle.ink_out.specs.Opened.{section_kind};
ghost use Rattle.ink_out.specs.Stands.{IsStateOf};
ghost use Rattle.ink_out.specs.Undo.{GoesBack, Held, open_marks, output_back, with_open};
ghost use Rattle.ink_out.specs.Writing.{Notes, page_of};
ghost use Rattle.ink_trail.specs.Undo.{TrailsOrKeeps, but_last, spare, trail_of};

use crate::cutting::Pieces;
use crate::kept::Kept;
use crate::lent::Lent;
use crate::section::Section;
use crate::state::State;
use crate::undo::OutputPair;
use ink_model::{Fault, MAX_MARKS, Shared, Text};
use ink_trail::Trail;
use std::alloc::{AllocError, Global};
use std::marker::Model;

#[derive(Clone, Copy)]
pub(crate) enum Kind {
    String,
    Tag,
}

/// A string or a tag that is open. A contract sees its kind and its marks, the oldest first. The section stands in a box, so that
/// opening and closing move two words and not the section.
#[derive(Drop)]
pub struct Opened {
    kind: Kind,
    marks: Box<Section>,
}

impl Model for Opened {
    ghost use Rattle.ink_model.specs.Run.Configuration.{Section};
    ghost use Rattle.ink_out.specs.Cutting.{piece_mark};
    ghost use Rattle.ink_out.specs.Opened.{section_kind};

    ghost Value = { Section };

    ghost view = { λ o. record { kind = section_kind o.kind; marks = o.marks.value } };
}

impl Opened {
    /// With no marks; one that was closed is used again. The one error is a refused request for memory, where none was.
    #[inline(always)]
    pub(crate) fn again(
        closed: Option<Opened>,
        alloc: Global,
        kind: Kind,
    ) -> Result<Opened, AllocError>
        ensures { IfOk result (λ opened. opened ≡ record { kind = section_kind kind; marks = [] }) }
    {
        match closed {
            Some(mut opened) => {
                opened.kind = kind;
                opened.marks.clear();
                Ok(opened)
            }
            None => Opened::new(alloc, kind),
        }
    }

    /// With no marks. The one error is a refused request for memory.
    #[cold]
    #[inline(never)]
    fn new(alloc: Global, kind: Kind) -> Result<Opened, AllocError>
        ensures { IfOk result (λ opened. opened ≡ record { kind = section_kind kind; marks = [] }) }
    {
        let marks = Box::new(alloc, Section::new(alloc))?;
        Ok(Opened { kind, marks })
    }

    #[inline(always)]
    pub(crate) fn is_string(&self) -> bool
        ensures { result ≡ is_string self.now }
    {
        matches!(self.kind, Kind::String)
    }

    /// Adds a mark. The one error is a refused request for memory, and leaves all as it was.
    #[inline(always)]
    fn add(&mut self, mark: Kept) -> Result<(), AllocError>
        ensures ok { OnOk result (self.new ≡ record self.old { marks = self.old.marks ++ mark ∷ [] }) }
        ensures err { OnErr result (self.new ≡ self.old) }
    {
        self.marks.add(mark)
    }

    /// Adds the marks of pieces, as `Section::extend` does. The one error is a refused request for memory, and leaves all as it
    /// was.
    fn extend(&mut self, trail: &mut Trail<OutputPair>, pieces: Pieces) -> Result<(), AllocError>
        ensures ok { OnOk result (self.new ≡ record self.old { marks = self.old.marks ++ map piece_mark pieces.items }) }
        ensures err { OnErr result (self.new ≡ self.old) }
        ensures trail { (page : Page) → TrailsOrKeeps output_back (length pieces.items) (with_open self.old.marks page) trail.old (with_open self.new.marks page) trail.new result }
        ensures back { (page : Page) (room : ℕ) → Held room (with_open self.new.marks page) → GoesBack room (trail_of trail.old.undo) (with_open self.old.marks page) → GoesBack room (trail_of trail.new.undo) (with_open self.new.marks page) }
    {
        self.marks.extend(trail, pieces)
    }

    /// What is known after the marks so far.
    #[inline(always)]
    fn state(&self) -> State
        ensures { IsStateOf self.now.marks result }
    {
        self.marks.state()
    }

    /// Takes the last mark back, by the state before it. Takes no memory.
    pub(crate) fn take_back(&mut self, state: State)
        requires { IsStateOf (but_last self.old.marks) state }
        ensures { self.new ≡ record self.old { marks = but_last self.old.marks } }
    {
        self.marks.take_back(state);
    }

    /// The shown text, cleaned. The one error is a refused request for memory, or a count of owners that is full.
    pub(crate) fn text(&self, alloc: Global, lent: &mut Lent) -> Result<Shared<Text>, AllocError>
        ensures { IfOk result (λ text. text ≡ clean (shown_text self.now.marks)) }
    {
        self.marks.shared_text(alloc, lent)
    }

    /// The shown text as it is, not cleaned. The one error is a refused request for memory, or a count of owners that is full.
    pub(crate) fn raw_text(
        &self,
        alloc: Global,
        lent: &mut Lent,
    ) -> Result<Shared<Text>, AllocError>
        ensures { IfOk result (λ text. text ≡ shown_text self.now.marks) }
    {
        self.marks.raw_text(alloc, lent)
    }
}

/// Adds a mark to the last of these sections, or to the line where there is none. `TooDeep` for more than 100,000 marks in
/// the line, which is found before memory is asked for, `OutOfMemory` for a refused request for memory; nothing has
/// changed then.
#[inline(always)]
pub(crate) fn note(line: &mut Section, sections: &mut [Opened], mark: Kept) -> Result<(), Fault>
    ensures page { Notes (mark ∷ []) line.old sections.old line.new sections.new result }
    ensures limit { (n : ℕ) → IfErr (writes_marks (mark ∷ []) (page_of line.old sections.old n)) (λ f. result ≡ Err f) }
    ensures err { OnErr result ((line.new ≡ line.old) × (sections.new ≡ sections.old)) }
    ensures within { length line.old ≤ MAX_MARKS → length line.new ≤ MAX_MARKS }
{
    match sections.len() {
        0 => {
            if line.len() >= MAX_MARKS {
                return Err(Fault::TooDeep);
            }
            line.add(mark)?;
            Ok(())
        }
        open => {
            sections[open - 1].add(mark)?;
            Ok(())
        }
    }
}

/// What is known after the marks of what is open.
pub(crate) fn open_state(line: &Section, sections: &[Opened]) -> State
    ensures { (n : ℕ) → IsStateOf (open_marks (page_of line.now sections.now n)) result }
{
    match sections.last() {
        Some(opened) => opened.state(),
        None => line.state(),
    }
}

/// As `note`; while a mark of the trail stands, the change is noted in it, and there is room for so many pairs, that one counted.
#[inline(always)]
pub(crate) fn note_in(
    line: &mut Section,
    sections: &mut [Opened],
    trail: &mut Trail<OutputPair>,
    mark: Kept,
    count: usize,
) -> Result<(), Fault>
    requires { 1 ≤ count }
    ensures page { Notes (mark ∷ []) line.old sections.old line.new sections.new result }
    ensures limit { (n : ℕ) → IfErr (writes_marks (mark ∷ []) (page_of line.old sections.old n)) (λ f. result ≡ Err f) }
    ensures within { length line.old ≤ MAX_MARKS → length line.new ≤ MAX_MARKS }
    ensures trail { (n : ℕ) → TrailsOrKeeps output_back 1 (page_of line.old sections.old n) trail.old (page_of line.new sections.new n) trail.new result }
    ensures back { (n room : ℕ) → GoesBack room (trail_of trail.old.undo) (page_of line.old sections.old n) → GoesBack room (trail_of trail.new.undo) (page_of line.new sections.new n) }
    ensures spare { OnOk result (count ≤ spare trail.new + 1) }
{
    if trail.is_marked() {
        return note_marked(line, sections, trail, mark, count);
    }
    note(line, sections, mark)
}

// The same, where a mark stands.
#[cold]
#[inline(never)]
fn note_marked(
    line: &mut Section,
    sections: &mut [Opened],
    trail: &mut Trail<OutputPair>,
    mark: Kept,
    count: usize,
) -> Result<(), Fault>
    requires { 1 ≤ count }
    ensures page { Notes (mark ∷ []) line.old sections.old line.new sections.new result }
    ensures limit { (n : ℕ) → IfErr (writes_marks (mark ∷ []) (page_of line.old sections.old n)) (λ f. result ≡ Err f) }
    ensures within { length line.old ≤ MAX_MARKS → length line.new ≤ MAX_MARKS }
    ensures trail { (n : ℕ) → TrailsOrKeeps output_back 1 (page_of line.old sections.old n) trail.old (page_of line.new sections.new n) trail.new result }
    ensures back { (n room : ℕ) → GoesBack room (trail_of trail.old.undo) (page_of line.old sections.old n) → GoesBack room (trail_of trail.new.undo) (page_of line.new sections.new n) }
    ensures spare { OnOk result (count ≤ spare trail.new + 1) }
{
    if is_full(line, sections) {
        return Err(Fault::TooDeep);
    }
    let state = open_state(line, sections);
    trail.ready(count)?;
    note(line, sections, mark)?;
    trail.note(OutputPair::Wrote(state), 1);
    Ok(())
}

// Whether there is no room for one more mark, as the line alone is limited.
fn is_full(line: &Section, sections: &[Opened]) -> bool
    ensures { (mark : Mark) (n : ℕ) → is_crowded (mark ∷ []) (page_of line.now sections.now n) ≡ result }
{
    sections.is_empty() && line.len() >= MAX_MARKS
}

/// Adds the marks of pieces in the same way, all or none, and notes each.
pub(crate) fn note_all(
    line: &mut Section,
    sections: &mut [Opened],
    trail: &mut Trail<OutputPair>,
    pieces: Pieces,
) -> Result<(), Fault>
    ensures page { Notes (map piece_mark pieces.items) line.old sections.old line.new sections.new result }
    ensures within { length line.old ≤ MAX_MARKS → length line.new ≤ MAX_MARKS }
    ensures trail { (n : ℕ) → TrailsOrKeeps output_back (length pieces.items) (page_of line.old sections.old n) trail.old (page_of line.new sections.new n) trail.new result }
    ensures back { (n room : ℕ) → GoesBack room (trail_of trail.old.undo) (page_of line.old sections.old n) → GoesBack room (trail_of trail.new.undo) (page_of line.new sections.new n) }
{
    match sections.len() {
        0 => {
            if line.len().saturating_add(pieces.len()) > MAX_MARKS {
                return Err(Fault::TooDeep);
            }
            line.extend(trail, pieces)?;
            Ok(())
        }
        open => {
            sections[open - 1].extend(trail, pieces)?;
            Ok(())
        }
    }
}

/// Adds a mark in the same way, as if the last section were not there.
pub(crate) fn note_below(
    line: &mut Section,
    sections: &mut [Opened],
    mark: Kept,
) -> Result<(), Fault>
    requires { 0 < length sections.old }
    ensures page { Notes (mark ∷ []) line.old (take (length sections.old - 1) sections.old) line.new (take (length sections.old - 1) sections.new) result }
    ensures err { OnErr result ((line.new ≡ line.old) × (sections.new ≡ sections.old)) }
    ensures within { length line.old ≤ MAX_MARKS → length line.new ≤ MAX_MARKS }
{
    let below = sections.len() - 1;
    note(line, &mut sections[..below], mark)
}
