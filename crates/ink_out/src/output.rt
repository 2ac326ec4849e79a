//! The text being written (docs/TEXT.md, "Sections").

ghost use Rattle.std.specs.Prelude.{ℕ, ◌≡◌, ◌<◌, ◌≤◌, ◌+◌, ◌&&◌, not, refl, [], ◌∷◌, Err, Ok, None, Some, is_some, length, map, reverse, true, ◌≢◌, IfErr, IfOk, IsOk, IsTrue, OnErr};
ghost use Rattle.std.specs.List.{list_any};
ghost use Rattle.ink_model.specs.Memory.Asks.{prints_bytes};
ghost use Rattle.ink_model.specs.Text.Clean.{clean};
ghost use Rattle.ink_model.specs.Run.Configuration.{Page, string_section, tag_section};
ghost use Rattle.ink_model.specs.Text.Mark.{cut, piece, tags};
ghost use Rattle.ink_model.specs.Memory.Refusals.{Gives, Hands, Leaves};
ghost use Rattle.ink_model.specs.Text.Bytes.{fits_text};
ghost use Rattle.ink_model.specs.Text.Output.{writes_marks, writes_value, writes_text, writes_newline, writes_glue, begins_function, ends_function, opens, closes_string, closes_tag, writes_tag, prints_text, ends_line, empty_page, is_string, is_text, kept_text, let_through, tagged};
ghost use Rattle.ink_model.specs.declared.limits.TheConstants.{MAX_MARKS};
ghost use Rattle.ink_model.specs.declared.mark.Mark.TheVariants as kinds;
ghost use Rattle.ink_model.specs.Text.Shown.{shown_text, shows_more, is_shown, open_newline, more_from};
ghost use Rattle.ink_model.specs.Run.Step.Host as host;
ghost use Rattle.ink_model.specs.Run.Step.Text.{in_string, in_tag};
ghost use Rattle.ink_model.specs.Values.Value.{printed};
ghost use Rattle.ink_out.specs.Cutting.{piece_mark};
ghost use Rattle.ink_out.specs.Kept.{mark_of, said};
ghost use Rattle.ink_out.specs.Opened.{section_kind};
ghost use Rattle.ink_out.specs.Undo.{GoesBack, output_back, output_spare, output_stood};
ghost use Rattle.ink_out.specs.Writing.{Notes, closed, marks_of, page_of, prints_nothing};
ghost use Rattle.ink_trail.specs.Parts.{PutsBack};
ghost use Rattle.ink_trail.specs.Undo.{Trails, TrailsOrKeeps, trail_of, writes_of};

use crate::cleaning::cleaned;
use crate::cutting::{Piece, Pieces, cut_text, is_cut};
use crate::kept::{Form, Kept, Words};
use crate::lent::Lent;
use crate::opened::{Kind, Opened, note, note_all, note_below, note_in, open_state};
use crate::rooms::Rooms;
use crate::section::Section;
use crate::spares::Spares;
use crate::undo::{OutputPair, let_go, note_began, note_number, put_one_back, unwrite};
use ink_model::{Fault, MAX_SECTIONS, MAX_TEXT, Seq, Shared, Text, Value};
use ink_trail::{Trail, Undo};
use smallvec::SmallVec;
use std::alloc::{AllocError, Global};
use std::marker::Model;
use std::mem;

/// The text being written: the marks of the line, and the string and tag sections that are open on it. A contract sees the
/// page and the trail of what it was while a mark stands.
pub struct Output {
    line: Section,
    sections: Vec<Opened>,
    next_enter: u64,
    /// Those that were closed, to be opened again without a request for memory.
    spares: Spares,
    trail: Trail<OutputPair>,
    /// The trail may hold sections that were closed while a mark stood.
    holds_closed: bool,
    /// What was handed out and came back, to be handed out again without a request for memory.
    rooms: Rooms,
    /// What strings and tags were joined into, to be used again in the same way.
    lent: Lent,
    alloc: Global,
}

/// Written out, so that wherever an output is let go that is one call, and a proof there does not go through its fields.
impl Drop for Output {
    fn drop(self) {
        let Output {
            line: _,
            sections: _,
            next_enter: _,
            spares: _,
            trail: _,
            holds_closed: _,
            rooms: _,
            lent: _,
            alloc: _,
        } = self;
    }
}

impl Model for Output {
    ghost use Rattle.std.specs.Prelude.{length, vec_capacity, ◌≤◌};
    ghost use Rattle.ink_model.specs.declared.limits.TheConstants.{MAX_MARKS};
    ghost use Rattle.ink_out.specs.Undo.{GoesBack};
    ghost use Rattle.ink_out.specs.Writing.{Writing, page_of};
    ghost use Rattle.ink_trail.specs.Undo.{trail_of};

    ghost Value = { Writing };

    ghost view = { λ o. record { page = page_of o.line o.sections.items o.next_enter; trail = o.trail } };

    ghost invariant = { λ o. (length o.line ≤ MAX_MARKS) × GoesBack (vec_capacity o.sections) (trail_of o.trail.undo) (page_of o.line o.sections.items o.next_enter) };
}

#[tactic(auto, unfolding(crate::specs::Undo::output_stood, crate::specs::Undo::output_spare, ink_trail::specs::Undo::stood_at, ink_trail::specs::Undo::spare))]
impl Output {
    /// An empty line, which takes no memory.
    pub fn new(alloc: Global) -> Output
        ensures page { result.page ≡ empty_page }
        ensures stood { output_stood result ≡ None }
    {
        Output {
            line: Section::new(alloc),
            sections: Vec::new(alloc),
            next_enter: 0,
            spares: Spares::new(alloc),
            trail: Trail::new(alloc),
            holds_closed: false,
            rooms: Rooms::new(alloc),
            lent: Lent::new(alloc),
            alloc,
        }
    }

    /// Writes the printed text of a value into the open section, cut into marks; `fresh` where the top frame is a function
    /// fresh in that section, which lets no newline through before a text. True where a text is among the marks.
    ///
    /// `BadOperands` for a value that does not print, `TooDeep` for more than 100,000 marks in the line, `OutOfMemory` for a
    /// refused request for memory, which is never made for void, for a text without bytes and for what does not print; nothing
    /// has changed then.
    #[tactic(auto, unfolding(ink_model::specs::Values::Value::printed))]
    pub fn write(&mut self, value: &Value, fresh: bool) -> Result<bool, Fault>
        ensures page { Leaves (writes_value fresh value.now self.old.page) self.old.page self.new.page result }
        ensures text { IfOk result (λ has_text. has_text ≡ prints_text (printed value.now)) }
        ensures nothing { IsTrue (prints_nothing value.now) → IsOk result }
        ensures memory { result ≡ Err Fault.OutOfMemory → prints_bytes value.now ≡ true }
        ensures trail { TrailsOrKeeps output_back (marks_of fresh (printed value.now)) self.old.page self.old.trail self.new.page self.new.trail result }
        ensures stood { output_stood self.new ≡ output_stood self.old }
        ensures spare { output_spare self.old ≤ output_spare self.new + marks_of fresh (printed value.now) }
    {
        match value {
            Value::Text(text) => self.write_text(text, fresh),
            Value::Int(number) => self.note_words(Words::Number(*number)),
            Value::Bool(truth) => self.note_words(Words::Truth(*truth)),
            Value::Void => {
                // No effect at run time: a proof reads from it that the line is within its limit.
                let _unchanged = &self.line;
                Ok(false)
            }
            Value::Target(_) | Value::Pointer(..) | Value::Tag(_) => Err(Fault::BadOperands),
        }
    }

    // Writes what is printed of a number or a truth value: one text, before which no newline stands.
    fn note_words(&mut self, words: Words) -> Result<bool, Fault>
        ensures page { Leaves (writes_marks (kinds.Text (said words) ∷ []) self.old.page) self.old.page self.new.page result }
        ensures text { IfOk result (λ has_text. has_text ≡ true) }
        ensures trail { TrailsOrKeeps output_back 1 self.old.page self.old.trail self.new.page self.new.trail result }
        ensures stood { output_stood self.new ≡ output_stood self.old }
        ensures spare { output_spare self.old ≤ output_spare self.new + 1 }
    {
        self.note(Form::Text(words))?;
        Ok(true)
    }

    /// Writes a text as `write` writes its value. `TooDeep` for more than 100,000 marks in the line,
    /// `OutOfMemory` for a refused request for memory, which is never made for a text without bytes; nothing has changed then.
    #[inline(always)]
    pub fn write_text(&mut self, text: &Shared<Text>, fresh: bool) -> Result<bool, Fault>
        ensures page { Leaves (writes_text fresh text.now self.old.page) self.old.page self.new.page result }
        ensures text { IfOk result (λ has_text. has_text ≡ list_any is_text (cut text.now)) }
        ensures nothing { text.now ≡ [] → IsOk result }
        ensures trail { TrailsOrKeeps output_back (length (let_through fresh (cut text.now))) self.old.page self.old.trail self.new.page self.new.trail result }
        ensures stood { output_stood self.new ≡ output_stood self.old }
        ensures spare { output_spare self.old ≤ output_spare self.new + length (let_through fresh (cut text.now)) }
    {
        let line = &mut self.line;
        let written = text.as_str();
        if written.is_empty() {
            return Ok(false);
        }
        if is_cut(written) {
            note_cut(
                self.alloc,
                line,
                &mut self.sections,
                &mut self.trail,
                text,
                fresh,
            )
        } else {
            note_piece(line, &mut self.sections, &mut self.trail, text)
        }
    }

    /// Writes a newline, unless the top frame is a function that is `fresh` in the open section. `TooDeep` for more than
    /// 100,000 marks in the line, which is found before memory is asked for, `OutOfMemory` for a refused request for memory,
    /// which is never made where the function is fresh; nothing has changed then.
    pub fn newline(&mut self, fresh: bool) -> Result<(), Fault>
        ensures page { Leaves (writes_newline fresh self.old.page) self.old.page self.new.page result }
        ensures limit { IfErr (writes_newline fresh self.old.page) (λ f. result ≡ Err f) }
        ensures nothing { IsTrue fresh → IsOk result }
        ensures trail { TrailsOrKeeps output_back 1 self.old.page self.old.trail self.new.page self.new.trail result }
        ensures stood { output_stood self.new ≡ output_stood self.old }
        ensures spare { output_spare self.old ≤ output_spare self.new + 1 }
    {
        if fresh {
            // No effect at run time: a proof reads from it that the line is within its limit.
            let _unchanged = &mut self.line;
            return Ok(());
        }
        self.note(Form::Newline)
    }

    /// Writes glue (docs/TEXT.md, "What is shown"). `TooDeep` for more than 100,000 marks in the line, which is found before
    /// memory is asked for, `OutOfMemory` for a refused request for memory; nothing has changed then.
    pub fn glue(&mut self) -> Result<(), Fault>
        ensures page { Leaves (writes_glue self.old.page) self.old.page self.new.page result }
        ensures limit { IfErr (writes_glue self.old.page) (λ f. result ≡ Err f) }
        ensures trail { TrailsOrKeeps output_back 1 self.old.page self.old.trail self.new.page self.new.trail result }
        ensures stood { output_stood self.new ≡ output_stood self.old }
        ensures spare { output_spare self.old ≤ output_spare self.new + 1 }
    {
        self.note(Form::Glue)
    }

    /// A function begins. Answers its number: Enters are numbered upwards. `TooDeep` for more than 100,000 marks in the line
    /// and where no number is left, which is found before memory is asked for, `OutOfMemory` for a refused request for
    /// memory; nothing has changed then.
    pub fn enter(&mut self) -> Result<u64, Fault>
        ensures page { Leaves (begins_function self.old.page) self.old.page self.new.page result }
        ensures number { IfOk result (λ n. n ≡ self.old.page.next_enter) }
        ensures limit { IfErr (begins_function self.old.page) (λ f. result ≡ Err f) }
        ensures trail { TrailsOrKeeps output_back 2 self.old.page self.old.trail self.new.page self.new.trail result }
        ensures stood { output_stood self.new ≡ output_stood self.old }
        ensures spare { output_spare self.old ≤ output_spare self.new + 2 }
    {
        let number = self.next_enter;
        let next = number.checked_add(1).ok_or(Fault::TooDeep)?;
        let mark = Kept {
            form: Form::Enter(number),
        };
        note_in(&mut self.line, &mut self.sections, &mut self.trail, mark, 2)?;
        note_number(&mut self.trail, number);
        self.next_enter = next;
        Ok(number)
    }

    /// A function ends; `None` where it began on an earlier line. `TooDeep` for more than 100,000 marks in the line, which is
    /// found before memory is asked for, `OutOfMemory` for a refused request for memory; nothing has changed then.
    pub fn leave(&mut self, number: Option<u64>) -> Result<(), Fault>
        ensures page { Leaves (ends_function number self.old.page) self.old.page self.new.page result }
        ensures limit { IfErr (ends_function number self.old.page) (λ f. result ≡ Err f) }
        ensures trail { TrailsOrKeeps output_back 1 self.old.page self.old.trail self.new.page self.new.trail result }
        ensures stood { output_stood self.new ≡ output_stood self.old }
        ensures spare { output_spare self.old ≤ output_spare self.new + 1 }
    {
        self.note(Form::Leave(number))
    }

    // Writes a mark into what is open, as those calls do.
    #[inline(always)]
    fn note(&mut self, form: Form) -> Result<(), Fault>
        ensures page { Leaves (writes_marks (mark_of form ∷ []) self.old.page) self.old.page self.new.page result }
        ensures limit { IfErr (writes_marks (mark_of form ∷ []) self.old.page) (λ f. result ≡ Err f) }
        ensures trail { TrailsOrKeeps output_back 1 self.old.page self.old.trail self.new.page self.new.trail result }
    {
        let mark = Kept { form };
        note_in(&mut self.line, &mut self.sections, &mut self.trail, mark, 1)
    }

    /// Opens a string. `TooDeep` where 1,000 strings and tags are open, which is found before memory is asked for,
    /// `OutOfMemory` for a refused request for memory; nothing has changed then.
    pub fn open_string(&mut self) -> Result<(), Fault>
        ensures page { Leaves (opens string_section self.old.page) self.old.page self.new.page result }
        ensures limit { IfErr (opens string_section self.old.page) (λ f. result ≡ Err f) }
        ensures trail { TrailsOrKeeps output_back 1 self.old.page self.old.trail self.new.page self.new.trail result }
        ensures stood { output_stood self.new ≡ output_stood self.old }
        ensures spare { output_spare self.old ≤ output_spare self.new + 1 }
    {
        self.open(Kind::String)
    }

    /// Opens a tag. An open tag is not closed by it. `TooDeep` where 1,000 strings and tags are open, which is found before
    /// memory is asked for, `OutOfMemory` for a refused request for memory; nothing has changed then.
    pub fn open_tag(&mut self) -> Result<(), Fault>
        ensures page { Leaves (opens tag_section self.old.page) self.old.page self.new.page result }
        ensures limit { IfErr (opens tag_section self.old.page) (λ f. result ≡ Err f) }
        ensures trail { TrailsOrKeeps output_back 1 self.old.page self.old.trail self.new.page self.new.trail result }
        ensures stood { output_stood self.new ≡ output_stood self.old }
        ensures spare { output_spare self.old ≤ output_spare self.new + 1 }
    {
        self.open(Kind::Tag)
    }

    fn open(&mut self, kind: Kind) -> Result<(), Fault>
        ensures page { Leaves (opens (section_kind kind) self.old.page) self.old.page self.new.page result }
        ensures limit { IfErr (opens (section_kind kind) self.old.page) (λ f. result ≡ Err f) }
        ensures trail { TrailsOrKeeps output_back 1 self.old.page self.old.trail self.new.page self.new.trail result }
        ensures stood { output_stood self.new ≡ output_stood self.old }
        ensures spare { output_spare self.old ≤ output_spare self.new + 1 }
    {
        if self.depth() >= MAX_SECTIONS {
            return Err(Fault::TooDeep);
        }
        self.spares.make_room()?;
        let opened = Opened::again(self.spares.take(), self.alloc, kind)?;
        self.sections.reserve(1)?;
        note_began(&mut self.trail)?;
        self.sections.push_reserved(opened);
        Ok(())
    }

    /// Closes the open string and hands its text out as it is shown, uncleaned. `BadMode` where no string is open on top,
    /// `TooDeep` for a text over 1 MiB, `OutOfMemory` for a refused request for memory; nothing has changed then.
    pub fn close_string(&mut self) -> Result<Shared<Text>, Fault>
        ensures page { Hands (closes_string self.old.page) self.old.page self.new.page result }
        ensures trail { TrailsOrKeeps output_back 1 self.old.page self.old.trail self.new.page self.new.trail result }
        ensures stood { output_stood self.new ≡ output_stood self.old }
        ensures spare { output_spare self.old ≤ output_spare self.new + 1 }
    {
        let Some(opened) = self.sections.last() else {
            return Err(Fault::BadMode);
        };
        if !opened.is_string() {
            return Err(Fault::BadMode);
        }
        let raw_text = opened.raw_text(self.alloc, &mut self.lent)?;
        let text = kept(raw_text)?;
        self.close()?;
        Ok(text)
    }

    /// Closes the open tag. Its cleaned text is handed out where a string is open, and else is a mark. `BadMode` where no
    /// tag is open on top, `TooDeep` for a text over 1 MiB or more than 100,000 marks in the line, `OutOfMemory` for a
    /// refused request for memory; nothing has changed then.
    pub fn close_tag(&mut self) -> Result<Option<Shared<Text>>, Fault>
        ensures page { Hands (closes_tag self.old.page) self.old.page self.new.page result }
        ensures trail { TrailsOrKeeps output_back 2 self.old.page self.old.trail self.new.page self.new.trail result }
        ensures stood { output_stood self.new ≡ output_stood self.old }
        ensures spare { output_spare self.old ≤ output_spare self.new + 2 }
    {
        let Some(opened) = self.sections.last() else {
            return Err(Fault::BadMode);
        };
        if opened.is_string() {
            return Err(Fault::BadMode);
        }
        let text = opened.text(self.alloc, &mut self.lent)?;
        let text = kept(text)?;
        self.end_tag(text)
    }

    // Closes what is open on top, a tag of this text.
    fn end_tag(&mut self, text: Shared<Text>) -> Result<Option<Shared<Text>>, Fault>
        requires { 0 < length self.old.page.sections }
        ensures page { Hands (tagged text (closed self.old.page)) self.old.page self.new.page result }
        ensures trail { TrailsOrKeeps output_back 2 self.old.page self.old.trail self.new.page self.new.trail result }
    {
        let below = self.depth() - 1;
        if has_string(&self.sections[..below]) {
            self.close()?;
            return Ok(Some(text));
        }
        self.close_with(Form::Tag(text))?;
        Ok(None)
    }

    /// Writes a tag that is given whole. Its cleaned text is handed out where a string is open, and else is a mark in what is
    /// open. `TooDeep` for a text over 1 MiB or more than 100,000 marks in the line, `OutOfMemory` for a refused request for
    /// memory; nothing has changed then.
    pub fn tag(&mut self, text: &str) -> Result<Option<Shared<Text>>, Fault>
        ensures page { Hands (writes_tag text.now self.old.page) self.old.page self.new.page result }
        ensures trail { TrailsOrKeeps output_back 1 self.old.page self.old.trail self.new.page self.new.trail result }
        ensures stood { output_stood self.new ≡ output_stood self.old }
        ensures spare { output_spare self.old ≤ output_spare self.new + 1 }
    {
        let text = whole_tag(self.alloc, &mut self.lent, text)?;
        if self.in_string() {
            return Ok(Some(text));
        }
        self.note(Form::Tag(text))?;
        Ok(None)
    }

    // Closes what is open on top. The one error is `OutOfMemory` for a refused request for memory, while a mark stands; nothing
    // has changed then.
    #[inline(always)]
    fn close(&mut self) -> Result<(), Fault>
        requires { 0 < length self.old.page.sections }
        ensures page { Leaves (Ok (closed self.old.page)) self.old.page self.new.page result }
        ensures trail { TrailsOrKeeps output_back 1 self.old.page self.old.trail self.new.page self.new.trail result }
    {
        if self.trail.is_marked() {
            return self.close_marked();
        }
        self.spares.keep(self.sections.pop());
        Ok(())
    }

    #[cold]
    #[inline(never)]
    fn close_marked(&mut self) -> Result<(), Fault>
        requires { 0 < length self.old.page.sections }
        ensures page { Leaves (Ok (closed self.old.page)) self.old.page self.new.page result }
        ensures trail { TrailsOrKeeps output_back 1 self.old.page self.old.trail self.new.page self.new.trail result }
    {
        self.trail.ready(1)?;
        if let Some(opened) = self.sections.pop() {
            self.trail.note(OutputPair::Closed(opened), 1);
            self.holds_closed = true;
        }
        Ok(())
    }

    /// Closes what is open on top, and adds a mark to what is open then. `TooDeep` for more than 100,000 marks in the line,
    /// `OutOfMemory` for a refused request for memory; nothing has changed then.
    fn close_with(&mut self, form: Form) -> Result<(), Fault>
        requires { 0 < length self.old.page.sections }
        ensures page { Leaves (writes_marks (mark_of form ∷ []) (closed self.old.page)) self.old.page self.new.page result }
        ensures trail { TrailsOrKeeps output_back 2 self.old.page self.old.trail self.new.page self.new.trail result }
    {
        let mark = Kept { form };
        if self.trail.is_marked() {
            return self.close_with_marked(mark);
        }
        note_below(&mut self.line, &mut self.sections, mark)?;
        self.spares.keep(self.sections.pop());
        Ok(())
    }

    #[cold]
    #[inline(never)]
    fn close_with_marked(&mut self, mark: Kept) -> Result<(), Fault>
        requires { 0 < length self.old.page.sections }
        ensures page { Leaves (writes_marks (mark ∷ []) (closed self.old.page)) self.old.page self.new.page result }
        ensures trail { TrailsOrKeeps output_back 2 self.old.page self.old.trail self.new.page self.new.trail result }
    {
        self.trail.ready(2)?;
        let Some(top) = self.sections.pop() else {
            return Err(Fault::BadMode);
        };
        let state = open_state(&self.line, &self.sections);
        match note(&mut self.line, &mut self.sections, mark) {
            Ok(()) => {
                self.trail.note(OutputPair::Closed(top), 1);
                self.trail.note(OutputPair::Wrote(state), 1);
                self.holds_closed = true;
                Ok(())
            }
            Err(fault) => {
                self.sections.push_reserved(top);
                Err(fault)
            }
        }
    }

    /// How many strings and tags are open.
    pub fn depth(&self) -> usize
        ensures { result ≡ length self.now.page.sections }
    {
        self.sections.len()
    }

    /// Whether a string is open on top. Takes no memory.
    pub fn is_string(&self) -> bool
        ensures { result ≡ in_string self.now.page.sections }
    {
        match self.sections.last() {
            Some(opened) => opened.is_string(),
            None => false,
        }
    }

    /// Whether a tag is open on top, and a string below it. Takes no memory.
    pub fn is_tag_in_string(&self) -> bool
        ensures { result ≡ (in_tag self.now.page.sections && host.has_string self.now.page.sections) }
    {
        match self.sections.last() {
            Some(opened) => !opened.is_string() && has_string(&self.sections),
            None => false,
        }
    }

    /// Whether a string is open, on top or below tags. Takes no memory.
    pub fn in_string(&self) -> bool
        ensures { result ≡ host.has_string self.now.page.sections }
    {
        has_string(&self.sections)
    }

    /// Whether the line alone is open, and a newline is shown in it that no text or tag follows.
    pub fn ends_line(&self) -> bool
        ensures { result ≡ ends_line self.now.page }
    {
        self.sections.is_empty() && self.open_newline().is_some()
    }

    /// How many marks the line has.
    pub fn len(&self) -> usize
        ensures marks { result ≡ length self.now.page.line }
        ensures within { result ≤ MAX_MARKS }
    {
        self.line.len()
    }

    /// The index in the line of the shown newline that no text or tag follows.
    pub fn open_newline(&self) -> Option<usize>
        ensures { result ≡ open_newline self.now.page.line }
    {
        self.line.open()
    }

    /// Whether a newline that is shown stands at an index of the line.
    pub fn is_shown(&self, index: usize) -> bool
        ensures { result ≡ is_shown self.now.page.line index }
    {
        self.line.is_shown(index)
    }

    /// Whether a text or a tag stands in the line at an index or behind it.
    pub fn more_from(&self, index: usize) -> bool
        ensures { result ≡ more_from self.now.page.line index }
    {
        self.line.more_from(index)
    }

    /// The line's text, cleaned (docs/TEXT.md, "Cleaning"). The one error is a refused request for memory, which is made only
    /// where more than blanks is shown.
    pub fn text(&self) -> Result<Text, AllocError>
        ensures text { IfOk result (λ text. text ≡ clean (shown_text self.now.page.line)) }
        ensures memory { OnErr result (shows_more self.now.page.line ≡ true) }
    {
        self.line.text(self.alloc, String::new(self.alloc))
    }

    /// The line's tags, in order. The one error is a refused request for memory, which is never made where there are none.
    pub fn tags(&self) -> Result<Seq<Shared<Text>>, AllocError>
        ensures tags { IfOk result (λ texts. texts ≡ tags self.now.page.line) }
        ensures none { tags self.now.page.line ≡ [] → IsOk result }
    {
        self.line.tags(Vec::new(self.alloc))
    }

    /// The line's text, cleaned, in the memory of one that came back where that is enough. The one error is a refused request for
    /// memory, which is made only where more than blanks is shown.
    pub fn hand_text(&mut self) -> Result<Text, AllocError>
        ensures text { IfOk result (λ text. text ≡ clean (shown_text self.old.page.line)) }
        ensures memory { OnErr result (shows_more self.old.page.line ≡ true) }
        ensures page { self.new.page ≡ self.old.page }
        ensures trail { self.new.trail ≡ self.old.trail }
        ensures stood { output_stood self.new ≡ output_stood self.old }
        ensures spare { output_spare self.new ≡ output_spare self.old }
    {
        let room = self.rooms.take_text(self.alloc);
        self.line.text(self.alloc, room)
    }

    /// The line's tags, in order, in the memory of a list that came back. The one error is a refused request for memory, which is
    /// never made where there are none.
    pub fn hand_tags(&mut self) -> Result<Seq<Shared<Text>>, AllocError>
        ensures tags { IfOk result (λ texts. texts ≡ tags self.old.page.line) }
        ensures none { tags self.old.page.line ≡ [] → IsOk result }
        ensures page { self.new.page ≡ self.old.page }
        ensures trail { self.new.trail ≡ self.old.trail }
        ensures stood { output_stood self.new ≡ output_stood self.old }
        ensures spare { output_spare self.new ≡ output_spare self.old }
    {
        let room = self.rooms.take_tags(self.alloc);
        self.line.tags(room)
    }

    /// Takes the text and the tags of a line that are of no use any more: their memory is used again for the next line. Takes no
    /// memory.
    pub fn reuse(&mut self, text: Text, tags: Seq<Shared<Text>>)
        ensures page { self.new.page ≡ self.old.page }
        ensures trail { self.new.trail ≡ self.old.trail }
        ensures stood { output_stood self.new ≡ output_stood self.old }
        ensures spare { output_spare self.new ≡ output_spare self.old }
    {
        self.rooms.keep_text(text.into_string());
        self.rooms.keep_tags(tags.into_vec());
    }

    /// Takes all away: marks, open sections and numbers, which is two changes of cells. Takes no memory.
    pub fn clear(&mut self)
        requires room { 2 ≤ output_spare self.old }
        ensures page { self.new.page ≡ empty_page }
        ensures trail { Trails output_back 2 self.old.page self.old.trail self.new.page self.new.trail }
        ensures stood { output_stood self.new ≡ output_stood self.old }
        ensures spare { output_spare self.old ≤ output_spare self.new + 2 }
    {
        if self.trail.is_marked() {
            self.clear_marked();
            return;
        }
        self.line.clear();
        self.sections.clear();
        self.next_enter = 0;
    }

    #[cold]
    #[inline(never)]
    fn clear_marked(&mut self)
        requires room { 2 ≤ output_spare self.old }
        ensures page { self.new.page ≡ empty_page }
        ensures trail { Trails output_back 2 self.old.page self.old.trail self.new.page self.new.trail }
    {
        let sections = mem::replace(&mut self.sections, Vec::new(self.alloc));
        self.trail.note(OutputPair::Sections(sections), 1);
        let line = mem::replace(&mut self.line, Section::new(self.alloc));
        let number = mem::replace(&mut self.next_enter, 0);
        self.trail.note(OutputPair::Line(line, number), 1);
    }
}

#[tactic(auto, unfolding(crate::specs::Undo::output_stood, crate::specs::Undo::output_spare, ink_trail::specs::Undo::stood_at, ink_trail::specs::Undo::spare))]
impl Undo for Output {
    type Pair = OutputPair;

    ghost Cells = { Page };

    ghost cells = { λ output. output.page };

    ghost trail = { λ output. output.trail };

    ghost before = { output_back };

    ghost stood = { output_stood };

    ghost spare = { output_spare };

    ghost aside = { λ output. tt };

    ghost stood_is = { λ output. unfold output_stood in refl };

    ghost spare_is = { λ output. unfold output_spare in refl };

    #[inline(always)]
    fn trail(&self) -> &Trail<OutputPair> {
        &self.trail
    }

    #[inline(always)]
    fn undo_last(&mut self) -> bool {
        match self.trail.last() {
            Some(OutputPair::Wrote(state)) => {
                unwrite(&mut self.line, &mut self.sections, *state);
                self.trail.drop_last();
                true
            }
            _ => self.undo_other(),
        }
    }

    #[inline(always)]
    fn mark(&mut self) {
        self.trail.mark();
    }

    #[inline(always)]
    fn forget(&mut self) {
        if self.holds_closed {
            self.holds_closed = false;
            let_go(&mut self.spares, &mut self.trail);
            return;
        }
        self.trail.forget();
    }

    fn make_room(&mut self, count: usize) -> Result<(), AllocError> {
        self.trail.make_room(count)
    }
}

impl Output {
    // Puts the last pair back, whatever it is.
    #[inline(never)]
    fn undo_other(&mut self) -> bool
        ensures cells { PutsBack output_back result self.old.page self.old.trail self.new.page self.new.trail }
        ensures marked { is_some self.new.trail.undo ≡ is_some self.old.trail.undo }
        ensures writes { writes_of self.new.trail.undo ≡ writes_of self.old.trail.undo }
    {
        let Some(pair) = self.trail.take_last() else {
            return false;
        };
        put_one_back(
            &mut self.line,
            &mut self.sections,
            &mut self.next_enter,
            &mut self.spares,
            pair,
        );
        true
    }
}

/// The cleaned text of a tag that is given whole, to be shared. `TooDeep` for one over 1 MiB, `OutOfMemory` for a refused request for
/// memory.
fn whole_tag(alloc: Global, lent: &mut Lent, text: &str) -> Result<Shared<Text>, Fault>
    ensures { Gives result (kept_text (clean text.now) (clean text.now)) }
{
    let room = lent.take_room(alloc);
    let text = cleaned(alloc, room, text)?;
    if is_long(text.as_str()) {
        return Err(Fault::TooDeep);
    }
    Ok(lent.share(alloc, text)?)
}

/// A text within the limit. `TooDeep` for one over 1 MiB. Takes no memory.
fn kept(text: Shared<Text>) -> Result<Shared<Text>, Fault>
    ensures { result ≡ kept_text text text }
{
    if is_long(text.as_str()) {
        return Err(Fault::TooDeep);
    }
    Ok(text)
}

/// Whether a text is over the limit.
fn is_long(text: &str) -> bool
    ensures { not result ≡ fits_text text.now }
{
    text.len() > MAX_TEXT
}

fn has_string(sections: &[Opened]) -> bool
    ensures { result ≡ list_any is_string (reverse sections.now) }
{
    for section in sections {
        if section.is_string() {
            return true;
        }
    }
    false
}

// Writes the pieces of a text into what is open.
#[inline(never)]
fn note_cut(
    alloc: Global,
    line: &mut Section,
    sections: &mut [Opened],
    trail: &mut Trail<OutputPair>,
    text: &Shared<Text>,
    fresh: bool,
) -> Result<bool, Fault>
    ensures page { Notes (let_through fresh (cut text.now)) line.old sections.old line.new sections.new result }
    ensures text { IfOk result (λ has_text. has_text ≡ list_any is_text (cut text.now)) }
    ensures within { length line.old ≤ MAX_MARKS → length line.new ≤ MAX_MARKS }
    ensures trail { (n : ℕ) → TrailsOrKeeps output_back (length (let_through fresh (cut text.now))) (page_of line.old sections.old n) trail.old (page_of line.new sections.new n) trail.new result }
    ensures back { (n room : ℕ) → GoesBack room (trail_of trail.old.undo) (page_of line.old sections.old n) → GoesBack room (trail_of trail.new.undo) (page_of line.new sections.new n) }
{
    let pieces = cut_text(alloc, text)?;
    let has_text = has_text(pieces.as_slice());
    let pieces = let_through(alloc, pieces, fresh)?;
    note_all(line, sections, trail, pieces)?;
    Ok(has_text)
}

// Writes a text of one piece into what is open.
#[inline(always)]
fn note_piece(
    line: &mut Section,
    sections: &mut [Opened],
    trail: &mut Trail<OutputPair>,
    text: &Shared<Text>,
) -> Result<bool, Fault>
    requires { text.now ≢ [] }
    ensures page { Notes (piece text.now) line.old sections.old line.new sections.new result }
    ensures text { IfOk result (λ has_text. has_text ≡ list_any is_text (piece text.now)) }
    ensures within { length line.old ≤ MAX_MARKS → length line.new ≤ MAX_MARKS }
    ensures trail { (n : ℕ) → TrailsOrKeeps output_back 1 (page_of line.old sections.old n) trail.old (page_of line.new sections.new n) trail.new result }
    ensures back { (n room : ℕ) → GoesBack room (trail_of trail.old.undo) (page_of line.old sections.old n) → GoesBack room (trail_of trail.new.undo) (page_of line.new sections.new n) }
{
    let piece = Piece::whole(text)?;
    let has_text = piece.is_text();
    note_in(line, sections, trail, piece.into_mark(), 1)?;
    Ok(has_text)
}

fn has_text(pieces: &[Piece]) -> bool
    ensures { result ≡ list_any is_text (map piece_mark pieces.now) }
{
    for piece in pieces {
        if piece.is_text() {
            return true;
        }
    }
    false
}

/// The pieces that are let through, which newlines before a text are not where the top frame is a `fresh` function. The one
/// error is a refused request for memory.
fn let_through(alloc: Global, pieces: Pieces, mut fresh: bool) -> Result<Pieces, AllocError>
    ensures { IfOk result (λ kept. map piece_mark kept.items ≡ let_through fresh (map piece_mark pieces.items)) }
{
    if !fresh {
        return Ok(pieces);
    }
    let mut kept = SmallVec::new(alloc);
    for piece in pieces {
        if piece.is_let_through(fresh) {
            fresh = piece.leaves_fresh(fresh);
            kept.push(piece)?;
        }
    }
    Ok(kept)
}
