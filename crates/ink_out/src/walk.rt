//! The shown text, by one walk over the marks (docs/TEXT.md, "What is shown").

ghost use Rattle.std.specs.Prelude.{◌≡◌, ℕ, List, [], ◌∷◌, Bool, length, reverse, IfOk, OnOk, string_bytes};
ghost use Rattle.ink_model.specs.declared.mark.Mark.{Mark};
ghost use Rattle.ink_model.specs.declared.mark.Mark.TheVariants as kinds;
ghost use Rattle.ink_model.specs.Text.Shown.{shown_text, text_before};
ghost use Rattle.ink_out.specs.Cleaning.{Holds, shown_as};
ghost use Rattle.ink_out.specs.Kept.{said};
ghost use Rattle.ink_out.specs.Stands.{Knows, Leads, Passes};
ghost use Rattle.ink_out.specs.Walks.{Walks};
ghost use Rattle.ink_out.specs.declared.enters.Start.{Start};

use crate::cleaning::{MOST_ROOM, Shown, room_in};
use crate::enters::{Enters, Passed};
use crate::kept::{Form, Kept, Words};
use crate::part::Part;
use crate::pile::{Held, Pile};
use crate::tracker::Tracker;
use ink_model::Text;
use itoa::Buffer;
use std::alloc::{AllocError, Global};

/// The text that marks show whose starts are known, cleaned or as it is, in this room where it is enough. The one error is a
/// refused request for memory.
pub(crate) fn shown_text(
    alloc: Global,
    room: String,
    marks: &[Kept],
    enters: &Enters,
    cleans: bool,
) -> Result<Text, AllocError>
    requires room { string_bytes room ≡ [] }
    requires starts { Knows enters.now (reverse marks.now) }
    ensures { IfOk result (λ text. text ≡ shown_as cleans (shown_text marks.now)) }
{
    let room = room_in(alloc, room, most_shown(marks).min(MOST_ROOM))?;
    let mut walk = Walk::new(alloc, enters.unpassed(), Shown::new(room, cleans));
    for (at, mark) in marks.iter().enumerate() {
        walk.add(mark, at)?;
    }
    walk.finish()
}

// How many bytes these marks show at the most.
fn most_shown(marks: &[Kept]) -> usize {
    let mut most: usize = 0;
    for mark in marks {
        most = most.saturating_add(shown_by(mark));
    }
    most
}

fn shown_by(mark: &Kept) -> usize {
    match &mark.form {
        Form::Text(words) => words.most_len(),
        Form::Part(part) => part.as_str().len(),
        Form::Blank(text) => text.as_str().len(),
        Form::BlankPart(part) => part.as_str().len(),
        Form::Newline => 1,
        _ => 0,
    }
}

/// A walk over marks: what decides which are shown, the index of the last glue behind the last text, what waits, and what
/// was written.
#[derive(Drop)]
struct Walk<'m> {
    tracker: Tracker,
    passed: Passed<'m>,
    glue: usize,
    held: Pile<'m>,
    shown: Shown,
}

impl<'m> Walk<'m> {
    /// At the start, where nothing is shown yet.
    #[inline(always)]
    fn new(alloc: Global, passed: Passed<'m>, shown: Shown) -> Walk<'m>
        ensures { (cleans : Bool) (starts : List Start) → Holds cleans shown [] → Passes starts passed.entry [] → Walks cleans starts [] result }
    {
        Walk {
            tracker: Tracker::new(),
            passed,
            glue: 0,
            held: Pile::new(alloc),
            shown,
        }
    }

    /// Goes past the mark at an index. The one error is a refused request for memory.
    fn add(&mut self, mark: &'m Kept, at: usize) -> Result<(), AllocError>
        ensures { OnOk result ((cleans : Bool) (starts : List Start) (before : List Mark) → at ≡ length before → Leads starts (mark.now ∷ before) → Walks cleans starts before self.old → Walks cleans starts (mark.now ∷ before) self.new) }
    {
        match &mark.form {
            Form::Text(words) => self.text(words),
            Form::Part(part) => self.part(part),
            Form::Blank(text) => self.blank(text.as_str(), at),
            Form::BlankPart(part) => self.blank(part.as_str(), at),
            Form::Newline => self.newline(at),
            Form::Glue => {
                self.glue(at);
                Ok(())
            }
            Form::Tag(_) => {
                self.tag();
                Ok(())
            }
            Form::Enter(_) => {
                self.enter();
                Ok(())
            }
            Form::Leave(number) => {
                self.leave(*number);
                Ok(())
            }
        }
    }

    /// The text, where no mark is left. The one error is a refused request for memory.
    #[inline(always)]
    fn finish(mut self) -> Result<Text, AllocError>
        ensures { IfOk result (λ text. (cleans : Bool) (starts : List Start) (before : List Mark) → Walks cleans starts before self.entry → text ≡ shown_as cleans (text_before before [])) }
    {
        let walk = &mut self;
        walk.held
            .write(&mut walk.shown, walk.tracker.newline, walk.glue)?;
        Ok(self.shown.into_text())
    }

    // A text: nothing hides what waits any more.
    fn text(&mut self, words: &Words) -> Result<(), AllocError>
        ensures { OnOk result ((cleans : Bool) (starts : List Start) (before : List Mark) → Walks cleans starts before self.old → Walks cleans starts (kinds.Text (said words.now) ∷ before) self.new) }
    {
        let mut digits = Buffer::new();
        self.say(words.as_str(&mut digits))
    }

    // Parts are few, so that this stands apart.
    #[inline(never)]
    fn part(&mut self, part: &Part) -> Result<(), AllocError>
        ensures { OnOk result ((cleans : Bool) (starts : List Start) (before : List Mark) → Walks cleans starts before self.old → Walks cleans starts (kinds.Text part.now ∷ before) self.new) }
    {
        self.say(part.as_str())
    }

    #[inline(always)]
    fn say(&mut self, text: &str) -> Result<(), AllocError>
        ensures { OnOk result ((cleans : Bool) (starts : List Start) (before : List Mark) → Walks cleans starts before self.old → Walks cleans starts (kinds.Text text.now ∷ before) self.new) }
    {
        self.held
            .write(&mut self.shown, self.tracker.newline, self.glue)?;
        self.shown.push_str(text)?;
        self.held.clear();
        self.tracker.text();
        self.glue = 0;
        Ok(())
    }

    fn blank(&mut self, text: &'m str, at: usize) -> Result<(), AllocError>
        ensures { OnOk result ((cleans : Bool) (starts : List Start) (before : List Mark) → at ≡ length before → Walks cleans starts before self.old → Walks cleans starts (kinds.Blank text.now ∷ before) self.new) }
    {
        let blank = Held::Blank {
            at,
            broken: self.tracker.broken,
            text,
        };
        self.held.push(blank)?;
        self.tracker.blank(at);
        Ok(())
    }

    // A newline. Behind one that waits it is never shown.
    fn newline(&mut self, at: usize) -> Result<(), AllocError>
        ensures { OnOk result ((cleans : Bool) (starts : List Start) (before : List Mark) → at ≡ length before → Walks cleans starts before self.old → Walks cleans starts (kinds.Newline ∷ before) self.new) }
    {
        if self.tracker.newline.is_none() {
            self.held.push(Held::Newline { at })?;
        }
        self.tracker.newline(at);
        Ok(())
    }

    fn glue(&mut self, at: usize)
        ensures { (cleans : Bool) (starts : List Start) (before : List Mark) → at ≡ length before → Walks cleans starts before self.old → Walks cleans starts (kinds.Glue ∷ before) self.new }
    {
        self.tracker.glue();
        self.glue = at;
    }

    fn tag(&mut self)
        ensures { (cleans : Bool) (starts : List Start) (before : List Mark) (text : List ℕ) → Walks cleans starts before self.old → Walks cleans starts (kinds.Tag text ∷ before) self.new }
    {
        self.tracker.tag();
    }

    // The start of a function's text.
    fn enter(&mut self)
        ensures { (cleans : Bool) (starts : List Start) (before : List Mark) (n : ℕ) → Leads starts (kinds.Enter n ∷ before) → Walks cleans starts before self.old → Walks cleans starts (kinds.Enter n ∷ before) self.new }
    {
        self.passed.pass();
        self.tracker.enter();
    }

    // The end of a function's text, which hides what waits since its start.
    fn leave(&mut self, number: Option<u64>)
        ensures { (cleans : Bool) (starts : List Start) (before : List Mark) → Leads starts before → Walks cleans starts before self.old → Walks cleans starts (kinds.Leave number ∷ before) self.new }
    {
        let reach = self.passed.reach(number);
        self.tracker.leave(reach);
        self.held.leave(reach);
    }
}
