//! A section of marks.

ghost use Rattle.std.specs.Prelude.{ℕ, ◌≡◌, ◌≤◌, ◌+◌, [], ◌∷◌, ◌++◌, length, map, string_bytes, true, vec_len, vec_capacity, IfOk, IfSome, IsOk, OnOk, OnErr};
ghost use Rattle.std.specs.List.{list_any};
ghost use Rattle.ink_model.specs.Text.Clean.{clean};
ghost use Rattle.ink_model.specs.Run.Configuration.{Page};
ghost use Rattle.ink_model.specs.Text.Mark.{tags};
ghost use Rattle.ink_model.specs.declared.mark.Mark.TheVariants as kinds;
ghost use Rattle.ink_model.specs.Text.Shown.{is_filled_blank, is_shown, more_from, open_newline, shown_text, shows_more};
ghost use Rattle.ink_out.specs.Cutting.{piece_mark};
ghost use Rattle.ink_out.specs.declared.state.State.{State};
ghost use Rattle.ink_out.specs.Kept.{said};
ghost use Rattle.ink_out.specs.Stands.{IsStateOf, Sees, is_past};
ghost use Rattle.ink_out.specs.Undo.{GoesBack, Held, output_back, with_open};
ghost use Rattle.ink_trail.specs.Undo.{KeepsTrail, Trails, TrailsOrKeeps, but_last, spare, trail_of};

use crate::cleaning::{is_clean, room_in};
use crate::cutting::{Pieces, has_words};
use crate::enters::Enters;
use crate::joining::{is_newline, joined, texts_of_line};
use crate::kept::{Form, Kept, Words};
use crate::lent::Lent;
use crate::state::{State, is_settled, make_room, settle, unsettle};
use crate::tags::tag_texts;
use crate::tracker::Waiting;
use crate::undo::OutputPair;
use crate::walk::shown_text;
use ink_model::{Seq, Shared, Text};
use ink_trail::Trail;
use itoa::Buffer;
use std::alloc::{AllocError, Global};
use std::marker::Model;

/// The marks that were written into the line, a string or a tag, the shown newlines that nothing can hide any more, and what
/// the marks leave to decide. A contract sees the marks, the oldest first.
pub struct Section {
    marks: Vec<Kept>,
    settled: Vec<usize>,
    state: State,
    enters: Enters,
}

/// Written out, so that wherever a section is let go that is one call, and a proof there does not go through its fields.
impl Drop for Section {
    fn drop(self) {
        let Section {
            marks: _,
            settled: _,
            state: _,
            enters: _,
        } = self;
    }
}

impl Model for Section {
    ghost use Rattle.std.specs.Prelude.{List};
    ghost use Rattle.ink_model.specs.declared.mark.Mark.{Mark};
    ghost use Rattle.ink_out.specs.Stands.{Sees};

    ghost Value = { List Mark };

    ghost view = { λ s. s.marks.items };

    ghost invariant = { λ s. Sees s.marks.items s.settled.items s.state s.enters };
}

impl Section {
    /// An empty section, which takes no memory.
    pub(crate) fn new(alloc: Global) -> Section
        ensures { result ≡ [] }
    {
        Section {
            marks: Vec::new(alloc),
            settled: Vec::new(alloc),
            state: State::new(),
            enters: Enters::new(alloc),
        }
    }

    /// Adds a mark. The one error is a refused request for memory, and leaves the section as it was.
    pub(crate) fn add(&mut self, mark: Kept) -> Result<(), AllocError>
        ensures ok { OnOk result (self.new ≡ self.old ++ mark ∷ []) }
        ensures err { OnErr result (self.new ≡ self.old) }
    {
        let at = self.marks.len();
        let newline = self.state.tracker.newline;
        self.marks.reserve(1)?;
        make_room(&mut self.settled, newline)?;
        self.enters.note(&mark, at)?;
        settle(&mut self.settled, &mark, newline);
        self.state.add(&mark, at, &self.enters);
        self.marks.push_reserved(mark);
        Ok(())
    }

    /// Adds the marks of pieces; while a mark of the trail stands, each is noted in it. The one error is a refused request for
    /// memory, and leaves the section as it was. The contract speaks of each page where this section is open.
    pub(crate) fn extend(
        &mut self,
        trail: &mut Trail<OutputPair>,
        pieces: Pieces,
    ) -> Result<(), AllocError>
        ensures ok { OnOk result (self.new ≡ self.old ++ map piece_mark pieces.items) }
        ensures err { OnErr result (self.new ≡ self.old) }
        ensures trail { (page : Page) → TrailsOrKeeps output_back (length pieces.items) (with_open self.old page) trail.old (with_open self.new page) trail.new result }
        ensures back { (page : Page) (room : ℕ) → Held room (with_open self.new page) → GoesBack room (trail_of trail.old.undo) (with_open self.old page) → GoesBack room (trail_of trail.new.undo) (with_open self.new page) }
    {
        make_room_for(&mut self.marks, &mut self.settled, trail, pieces.len())?;
        append(
            &mut self.marks,
            &mut self.settled,
            &mut self.state,
            &self.enters,
            trail,
            pieces,
        );
        Ok(())
    }

    /// What is known after the marks so far.
    #[inline(always)]
    pub(crate) fn state(&self) -> State
        ensures { IsStateOf self.now result }
    {
        self.state
    }

    /// Takes the last mark back, by the state before it. Takes no memory.
    pub(crate) fn take_back(&mut self, state: State)
        requires { IsStateOf (but_last self.old) state }
        ensures { self.new ≡ but_last self.old }
    {
        take_last_back(
            &mut self.marks,
            &mut self.settled,
            &mut self.enters,
            state.tracker.newline,
        );
        self.state = state;
    }

    /// How many marks there are.
    pub(crate) fn len(&self) -> usize
        ensures { result ≡ length self.now }
    {
        self.marks.len()
    }

    /// Whether a newline that is shown stands at an index.
    pub(crate) fn is_shown(&self, index: usize) -> bool
        ensures { result ≡ is_shown self.now index }
    {
        match self.state.tracker.newline {
            Some(newline) if newline.at == index => true,
            _ => is_settled(self.settled.as_slice(), index),
        }
    }

    /// The index of the shown newline that no text or tag follows.
    pub(crate) fn open(&self) -> Option<usize>
        ensures { result ≡ open_newline self.now }
    {
        let newline = self.state.tracker.newline?;
        if newline.tagged {
            return None;
        }
        Some(newline.at)
    }

    /// Whether a text or tag stands at an index or behind it.
    pub(crate) fn more_from(&self, index: usize) -> bool
        ensures { result ≡ more_from self.now index }
    {
        is_past(index, self.state.more)
    }

    /// The shown text, cleaned (docs/TEXT.md), in this room where it is enough. The one error is a refused request for memory,
    /// which is made only where more than blanks is shown.
    pub(crate) fn text(&self, alloc: Global, room: String) -> Result<Text, AllocError>
        requires { string_bytes room ≡ [] }
        ensures text { IfOk result (λ text. text ≡ clean (shown_text self.now)) }
        ensures memory { OnErr result (shows_more self.now ≡ true) }
    {
        if let Some(text) = self.plain_line() {
            return line_of(alloc, room, text);
        }
        if !self.shows_more() {
            return Ok(Text::from_string(room));
        }
        let marks = self.marks.as_slice();
        match texts_of_line(marks) {
            Some((texts, len)) => joined(alloc, room, texts, len),
            None => shown_text(alloc, room, marks, &self.enters, true),
        }
    }

    // The text that stands alone with a newline behind it, where cleaning leaves it as it is: most lines are that.
    #[inline(always)]
    fn plain_line(&self) -> Option<&str>
        ensures { IfSome result (λ text. (self.now ≡ kinds.Text text.now ∷ kinds.Newline ∷ []) × (clean text.now ≡ text.now)) }
    {
        if self.marks.len() != 2 {
            return None;
        }
        match &self.marks[0].form {
            Form::Text(Words::Text(text))
                if is_newline(&self.marks[1]) && is_clean(text.as_str()) => { Some(text.as_str()) }
            _ => None,
        }
    }

    // Whether more than blanks is shown.
    fn shows_more(&self) -> bool
        ensures { result ≡ shows_more self.now }
    {
        let tracker = self.state.tracker;
        if !tracker.shows_text() {
            return false;
        }
        if tracker.shows_line() {
            return true;
        }
        has_filled_blank(self.marks.as_slice())
    }

    /// The same, to be shared: a text that stands alone, and that cleaning leaves as it is, is not copied. The one error is a
    /// refused request for memory, or a count of owners that is full.
    pub(crate) fn shared_text(
        &self,
        alloc: Global,
        lent: &mut Lent,
    ) -> Result<Shared<Text>, AllocError>
        ensures { IfOk result (λ text. text ≡ clean (shown_text self.now)) }
    {
        let mut digits = Buffer::new();
        match self.only_text() {
            Some(words) if is_clean(words.as_str(&mut digits)) => words.to_shared(alloc, lent),
            _ => {
                let room = lent.take_room(alloc);
                let text = self.text(alloc, room)?;
                lent.share(alloc, text)
            }
        }
    }

    /// The shown text as it is, not cleaned, to be shared: a text that stands alone is not copied. The one error is a refused
    /// request for memory, or a count of owners that is full.
    pub(crate) fn raw_text(
        &self,
        alloc: Global,
        lent: &mut Lent,
    ) -> Result<Shared<Text>, AllocError>
        ensures { IfOk result (λ text. text ≡ shown_text self.now) }
    {
        match self.only_text() {
            Some(words) => words.to_shared(alloc, lent),
            None => {
                let room = lent.take_room(alloc);
                let marks = self.marks.as_slice();
                let text = shown_text(alloc, room, marks, &self.enters, false)?;
                lent.share(alloc, text)
            }
        }
    }

    // The text that is the only mark.
    #[inline(always)]
    fn only_text(&self) -> Option<&Words>
        ensures { IfSome result (λ words. self.now ≡ kinds.Text (said words.now) ∷ []) }
    {
        if self.marks.len() != 1 {
            return None;
        }
        match &self.marks[0].form {
            Form::Text(words) => Some(words),
            _ => None,
        }
    }

    /// The tags, in order, in this room for them. The one error is a refused request for memory, which is never made where there
    /// are none.
    pub(crate) fn tags(&self, room: Vec<Shared<Text>>) -> Result<Seq<Shared<Text>>, AllocError>
        requires { room.items ≡ [] }
        ensures tags { IfOk result (λ texts. texts ≡ tags self.now) }
        ensures none { tags self.now ≡ [] → IsOk result }
    {
        tag_texts(room, self.marks.as_slice())
    }

    /// Takes all marks away, which takes no memory.
    pub(crate) fn clear(&mut self)
        ensures { self.new ≡ [] }
    {
        self.marks.clear();
        self.settled.clear();
        self.state = State::new();
        self.enters.clear();
    }
}

// A text with a newline behind it, in this room where it is enough. The one error is a refused request for memory.
#[inline(always)]
fn line_of(alloc: Global, room: String, text: &str) -> Result<Text, AllocError>
    requires { string_bytes room ≡ [] }
    ensures { IfOk result (λ line. line ≡ text.now ++ 10 ∷ []) }
{
    let mut line = room_in(alloc, room, text.len() + 1)?;
    line.push_str(text)?;
    line.push_str("\n")?;
    Ok(Text::from_string(line))
}

fn has_filled_blank(marks: &[Kept]) -> bool
    ensures { result ≡ list_any is_filled_blank marks.now }
{
    for mark in marks {
        if is_filled_blank(mark) {
            return true;
        }
    }
    false
}

fn is_filled_blank(mark: &Kept) -> bool
    ensures { result ≡ is_filled_blank mark.now }
{
    match &mark.form {
        Form::Blank(text) => has_words(text.as_str().as_bytes()),
        Form::BlankPart(part) => has_words(part.as_str().as_bytes()),
        _ => false,
    }
}

// Makes room for so many marks more. The one error is a refused request for memory, and leaves all as it was.
#[inline(always)]
fn make_room_for(
    marks: &mut Vec<Kept>,
    settled: &mut Vec<usize>,
    trail: &mut Trail<OutputPair>,
    count: usize,
) -> Result<(), AllocError>
    ensures marks { marks.new.items ≡ marks.old.items }
    ensures settled { settled.new.items ≡ settled.old.items }
    ensures trail { KeepsTrail trail.old trail.new }
    ensures room_of_marks { OnOk result (vec_len marks.new + count ≤ vec_capacity marks.new) }
    ensures room_of_settled { OnOk result (vec_len settled.new + count ≤ vec_capacity settled.new) }
    ensures spare { OnOk result (count ≤ spare trail.new) }
{
    trail.ready(count)?;
    marks.reserve(count)?;
    settled.reserve(count)
}

// Adds the marks of pieces, where there is room.
fn append(
    marks: &mut Vec<Kept>,
    settled: &mut Vec<usize>,
    state: &mut State,
    enters: &Enters,
    trail: &mut Trail<OutputPair>,
    pieces: Pieces,
)
    requires marks { vec_len marks.old + length pieces.items ≤ vec_capacity marks.old }
    requires settled { vec_len settled.old + length pieces.items ≤ vec_capacity settled.old }
    requires spare { length pieces.items ≤ spare trail.old }
    ensures marks { marks.new.items ≡ marks.old.items ++ map piece_mark pieces.items }
    ensures sees { Sees marks.old.items settled.old.items state.old enters.now → Sees marks.new.items settled.new.items state.new enters.now }
    ensures trail { (page : Page) → Trails output_back (length pieces.items) (with_open marks.old.items page) trail.old (with_open marks.new.items page) trail.new }
    ensures back { Sees marks.old.items settled.old.items state.old enters.now → (page : Page) (room : ℕ) → Held room (with_open marks.new.items page) → GoesBack room (trail_of trail.old.undo) (with_open marks.old.items page) → GoesBack room (trail_of trail.new.undo) (with_open marks.new.items page) }
{
    for piece in pieces {
        let mark = piece.into_mark();
        trail.note(OutputPair::Wrote(*state), 1);
        settle(settled, &mark, state.tracker.newline);
        state.add(&mark, marks.len(), enters);
        marks.push_reserved(mark);
    }
}

// Takes the last mark back, by the newline that waited before it.
fn take_last_back(
    marks: &mut Vec<Kept>,
    settled: &mut Vec<usize>,
    enters: &mut Enters,
    newline: Option<Waiting>,
)
    ensures marks { marks.new.items ≡ but_last marks.old.items }
    ensures sees { (state next : State) → state.tracker.newline ≡ newline → IsStateOf marks.new.items state → Sees marks.old.items settled.old.items next enters.old → Sees marks.new.items settled.new.items state enters.new }
{
    let Some(mark) = marks.pop() else {
        return;
    };
    enters.forget(&mark);
    unsettle(settled, &mark, newline);
}

// Whether the index of the last text or tag, if there is one, is past an index or the same.
fn is_past(index: usize, last: Option<usize>) -> bool
    ensures { result ≡ is_past index last }
{
    match last {
        Some(last) => index <= last,
        None => false,
    }
}
