//! What decides which newlines are shown, kept up to date by each mark (docs/TEXT.md, "What is shown").

ghost use Rattle.std.specs.Prelude.{◌≡◌, ℕ, List, [], ◌∷◌, ◌||◌, Option, is_some, length, true};
ghost use Rattle.ink_model.specs.declared.mark.Mark.{Mark};
ghost use Rattle.ink_model.specs.declared.mark.Mark.TheVariants as mark;
ghost use Rattle.ink_out.specs.Next.{blank_left, hides_next, newline_left};
ghost use Rattle.ink_out.specs.Stands.{Knows};
ghost use Rattle.ink_out.specs.Tracks.{Tracks, reach_of, reached, settled_after, settled_by};

use crate::enters::Enters;
use crate::kept::{Form, Kept};

/// Which glue that follows hides a newline: one with no text or tag between, any with no text between, or none.
#[derive(Clone, Copy)]
pub(crate) enum Hides {
    Near,
    Any,
    Never,
}

/// A shown newline that no text follows, and whether a tag does.
#[derive(Clone, Copy)]
pub(crate) struct Waiting {
    pub(crate) at: usize,
    pub(crate) hides: Hides,
    pub(crate) tagged: bool,
}

/// The first shown blank of a section without a text, and whether a newline stands before it.
#[derive(Clone, Copy)]
pub(crate) struct First {
    pub(crate) at: usize,
    pub(crate) broken: bool,
}

/// What the marks so far leave to decide: whether there is a text, whether glue and a newline stand behind the last one,
/// and what of these may still be hidden. In contracts `Tracks before tracker settled` says that it is so: whatever marks follow
/// `before`, the newlines of `settled` show (Text/Shown.antt), and the one that waits here shows where those marks do not hide it.
/// Each section keeps one for its newlines (`State`). A text is made with one of its own, by a walk over the marks (`Walk`), which
/// holds newlines back up to the next text or the end, and writes of these the one that still waits here.
#[derive(Clone, Copy)]
pub(crate) struct Tracker {
    pub(crate) text: bool,
    pub(crate) glue: bool,
    pub(crate) broken: bool,
    pub(crate) newline: Option<Waiting>,
    pub(crate) blank: Option<First>,
}

impl Tracker {
    /// At the start of a section.
    pub(crate) fn new() -> Tracker
        ensures { Tracks [] result [] }
    {
        Tracker {
            text: false,
            glue: false,
            broken: false,
            newline: None,
            blank: None,
        }
    }

    /// Whether a text or a blank is shown.
    pub(crate) fn shows_text(&self) -> bool
        ensures { result ≡ (self.now.text || is_some self.now.blank) }
    {
        self.text || self.blank.is_some()
    }

    /// Whether a text or a newline is shown.
    pub(crate) fn shows_line(&self) -> bool
        ensures { result ≡ (self.now.text || is_some self.now.newline) }
    {
        self.text || self.newline.is_some()
    }

    /// Goes past a mark at an index, where the starts of the numbers up to it are known.
    #[inline(always)]
    pub(crate) fn add(&mut self, mark: &Kept, at: usize, enters: &Enters)
        ensures { (before : List Mark) (settled : List ℕ) → at ≡ length before → Knows enters.now (mark.now ∷ before) → Tracks before self.old settled → Tracks (mark.now ∷ before) self.new (settled_after mark.now self.old.newline settled) }
    {
        match &mark.form {
            Form::Text(_) => self.text(),
            Form::Part(_) => self.text(),
            Form::Blank(_) => self.blank(at),
            Form::BlankPart(_) => self.blank(at),
            Form::Newline => self.newline(at),
            Form::Glue => self.glue(),
            Form::Tag(_) => self.tag(),
            Form::Enter(_) => self.enter(),
            Form::Leave(number) => self.end(*number, enters),
        }
    }

    /// Goes past a text, which settles the newline that waits.
    #[inline(always)]
    pub(crate) fn text(&mut self)
        ensures { (before : List Mark) (text settled : List ℕ) → Tracks before self.old settled → Tracks (mark.Text text ∷ before) self.new (settled_by self.old.newline settled) }
    {
        self.text = true;
        self.glue = false;
        self.broken = false;
        self.newline = None;
        self.blank = None;
    }

    /// Goes past a blank at an index.
    #[inline(always)]
    pub(crate) fn blank(&mut self, at: usize)
        ensures { (before : List Mark) (text settled : List ℕ) → at ≡ length before → Tracks before self.old settled → Tracks (mark.Blank text ∷ before) self.new settled }
    {
        if self.text || self.blank.is_some() {
            return;
        }
        self.blank = Some(First {
            at,
            broken: self.broken,
        });
    }

    /// Goes past a newline at an index.
    #[inline(always)]
    pub(crate) fn newline(&mut self, at: usize)
        ensures waits { is_some self.old.newline ≡ true → self.new.newline ≡ self.old.newline }
        ensures tracks { (before : List Mark) (settled : List ℕ) → at ≡ length before → Tracks before self.old settled → Tracks (mark.Newline ∷ before) self.new settled }
    {
        if self.newline.is_some() {
            return;
        }
        match self.hides_next() {
            Some(hides) => {
                self.broken = true;
                self.newline = Some(Waiting {
                    at,
                    hides,
                    tagged: false,
                });
            }
            None => self.broken = true,
        }
    }

    /// Which glue would hide a newline that comes next, where it may be shown at all and none waits.
    #[inline(always)]
    fn hides_next(&self) -> Option<Hides>
        ensures { result ≡ hides_next self.now }
    {
        if self.glue {
            return None;
        }
        if self.text {
            return Some(Hides::Near);
        }
        match self.blank {
            Some(first) if first.broken => Some(Hides::Any),
            Some(_) => Some(Hides::Near),
            None => None,
        }
    }

    /// Goes past glue.
    #[inline(always)]
    pub(crate) fn glue(&mut self)
        ensures { (before : List Mark) (settled : List ℕ) → Tracks before self.old settled → Tracks (mark.Glue ∷ before) self.new settled }
    {
        self.glue = true;
        self.newline = match self.newline {
            Some(
                Waiting {
                    hides: Hides::Never,
                    ..
                },
            ) => self.newline,
            _ => None,
        };
        self.blank = match self.blank {
            Some(First { broken: false, .. }) => self.blank,
            _ => None,
        };
    }

    /// Goes past a tag.
    #[inline(always)]
    pub(crate) fn tag(&mut self)
        ensures { (before : List Mark) (text settled : List ℕ) → Tracks before self.old settled → Tracks (mark.Tag text ∷ before) self.new settled }
    {
        if let Some(newline) = self.newline {
            let hides = match newline.hides {
                Hides::Near => Hides::Never,
                Hides::Any => Hides::Any,
                Hides::Never => Hides::Never,
            };
            self.newline = Some(Waiting {
                hides,
                tagged: true,
                ..newline
            });
        }
    }

    /// Goes past the start of a function's text, which changes nothing.
    #[inline(always)]
    pub(crate) fn enter(&mut self)
        ensures { (before : List Mark) (n : ℕ) (settled : List ℕ) → Tracks before self.old settled → Tracks (mark.Enter n ∷ before) self.new settled }
    {}

    /// Goes past the end of a function's text. How far it reaches back matters only where something waits.
    #[inline(always)]
    fn end(&mut self, number: Option<u64>, enters: &Enters)
        ensures { (before : List Mark) (settled : List ℕ) → Knows enters.now before → Tracks before self.old settled → Tracks (mark.Leave number ∷ before) self.new settled }
    {
        if self.waits() {
            self.leave(enters.reach(number));
        }
    }

    /// Whether something waits that the end of a function's text may hide.
    #[inline(always)]
    fn waits(&self) -> bool
        ensures { result ≡ (is_some self.now.newline || is_some self.now.blank) }
    {
        self.newline.is_some() || self.blank.is_some()
    }

    /// Goes past the end of a function's text, which reaches back to an index, or to the start.
    #[inline(always)]
    pub(crate) fn leave(&mut self, reach: Option<usize>)
        ensures { (before : List Mark) (n : Option ℕ) (settled : List ℕ) → reach ≡ reach_of n before → Tracks before self.old settled → Tracks (mark.Leave n ∷ before) self.new settled }
    {
        self.newline = newline_left(self.newline, reach);
        self.blank = blank_left(self.blank, reach);
    }
}

/// The waiting newline, where the end of a function's text leaves it.
#[inline(always)]
fn newline_left(newline: Option<Waiting>, reach: Option<usize>) -> Option<Waiting>
    ensures { result ≡ newline_left newline reach }
{
    match newline {
        Some(waiting) if is_reached(waiting.at, reach) => None,
        _ => newline,
    }
}

/// The first blank, where the end of a function's text leaves it.
#[inline(always)]
fn blank_left(blank: Option<First>, reach: Option<usize>) -> Option<First>
    ensures { result ≡ blank_left blank reach }
{
    match blank {
        Some(first) if is_reached(first.at, reach) => None,
        _ => blank,
    }
}

/// What reaches back so far reaches past an index.
#[inline(always)]
pub(crate) fn is_reached(at: usize, reach: Option<usize>) -> bool
    ensures { result ≡ reached at reach }
{
    match reach {
        Some(enter) => enter <= at,
        None => true,
    }
}
