//! Laying text out in a terminal's columns (docs/READER.md, "What is shown").

ghost use Rattle.std.specs.Prelude.{◌≡◌, ◌≤◌, ◌+◌, ◌++◌, OnOk, IfOk, replicate, string_bytes, chars};
ghost use Rattle.ink_page.specs.Sheet.{added, columns_of, dimmed, sheet_text, is_blank, joined, laid, opened, placed, roomy, with_character, spaced, undimmed};

use std::alloc::{AllocError, Global};
use std::marker::Model;
use unicode_width::UnicodeWidthChar;

/// A paragraph that is being laid out in so many columns: words that one blank parts, each on the line of the word before it where
/// it fits there, else on a line of its own behind a margin. A word that is wider than a line goes on in the next. The one error of
/// its calls is a refused request for memory.
#[derive(Drop)]
pub struct Sheet {
    columns: u16,
    margin: u16,
    done: String,
    column: u32,
    word: String,
    wide: u32,
}

impl Model for Sheet {
    ghost use Rattle.std.specs.Prelude.{string_bytes};
    ghost use Rattle.ink_page.specs.Sheet.{IsNarrow, SheetView};

    ghost Value = { SheetView };

    ghost invariant = { λ s. IsNarrow s.wide s.column };

    ghost view = { λ s. record { columns = s.columns; margin = s.margin; done = string_bytes s.done; column = s.column; word = string_bytes s.word; wide = s.wide } };
}

impl Sheet {
    /// A paragraph that begins with these words, which are so many columns wide, as is its margin.
    pub fn new(alloc: Global, columns: u16, lead: &str, margin: u16) -> Result<Sheet, AllocError>
        ensures { IfOk result (λ sheet. sheet ≡ opened columns lead.now margin) }
    {
        Ok(Sheet {
            columns,
            margin,
            done: String::from_str(alloc, lead)?,
            column: u32::from(margin),
            word: String::new(alloc),
            wide: 0,
        })
    }

    /// Shows a text. Its control characters are shown as blanks are.
    pub fn show(&mut self, text: &str) -> Result<(), AllocError>
        ensures { OnOk result (self.new ≡ laid (chars text.now) self.old) }
    {
        for letter in text.chars() {
            self.put(letter)?;
        }
        Ok(())
    }

    // Shows a character.
    fn put(&mut self, letter: char) -> Result<(), AllocError>
        ensures { OnOk result (self.new ≡ with_character letter self.old) }
    {
        if is_blank(letter) {
            return self.place();
        }
        let columns = columns_of(letter);
        self.make_room(columns)?;
        self.add(letter, columns)
    }

    // Places the word where so many columns more would make it wider than a line.
    fn make_room(&mut self, columns: u32) -> Result<(), AllocError>
        requires { columns ≤ 3 }
        ensures room { OnOk result (self.new ≡ roomy columns self.old) }
        ensures fits { OnOk result (self.new.wide + columns ≤ 65538) }
    {
        if u32::from(self.columns) < u32::from(self.margin) + self.wide + columns {
            return self.place();
        }
        Ok(())
    }

    // Adds a character to the word.
    fn add(&mut self, letter: char, columns: u32) -> Result<(), AllocError>
        requires fits { self.old.wide + columns ≤ 65538 }
        requires value { columns ≡ columns_of letter }
        ensures { OnOk result (self.new ≡ added letter self.old) }
    {
        self.word.push(letter)?;
        self.wide += columns;
        Ok(())
    }

    // Places the word that is open, if one is.
    fn place(&mut self) -> Result<(), AllocError>
        ensures { OnOk result (self.new ≡ placed self.old) }
    {
        self.join()?;
        self.word.clear();
        self.wide = 0;
        Ok(())
    }

    // Puts the word behind what is laid out.
    fn join(&mut self) -> Result<(), AllocError>
        ensures { OnOk result (self.new ≡ joined self.old) }
    {
        if self.word.is_empty() {
            return Ok(());
        }
        self.part()?;
        self.done.push_str(self.word.as_str())?;
        self.column += self.wide;
        Ok(())
    }

    // Parts the word from what stands before it: by nothing at a line's beginning, by a blank where it fits, and else by a new line.
    fn part(&mut self) -> Result<(), AllocError>
        ensures { OnOk result (self.new ≡ spaced self.old) }
    {
        if self.column <= u32::from(self.margin) {
            return Ok(());
        }
        if self.column + 1 + self.wide <= u32::from(self.columns) {
            self.done.push(' ')?;
            self.column += 1;
            return Ok(());
        }
        self.done.push('\n')?;
        indent(&mut self.done, self.margin)?;
        self.column = u32::from(self.margin);
        Ok(())
    }

    /// Dims what comes.
    pub fn dim(&mut self) -> Result<(), AllocError>
        ensures { OnOk result (self.new ≡ dimmed self.old) }
    {
        self.place()?;
        self.done.push_str("\u{1b}[2m")
    }

    /// Dims no longer.
    pub fn undim(&mut self) -> Result<(), AllocError>
        ensures { OnOk result (self.new ≡ undimmed self.old) }
    {
        self.place()?;
        self.done.push_str("\u{1b}[0m")
    }

    /// What was shown, without a newline at its end.
    pub fn end(mut self) -> Result<String, AllocError>
        ensures { IfOk result (λ text. string_bytes text ≡ sheet_text self) }
    {
        self.place()?;
        let Sheet {
            columns: _,
            margin: _,
            done,
            column: _,
            word: _,
            wide: _,
        } = self;
        Ok(done)
    }
}

// Writes so many blanks.
fn indent(text: &mut String, margin: u16) -> Result<(), AllocError>
    ensures { OnOk result (string_bytes text.new ≡ string_bytes text.old ++ replicate margin 32) }
{
    for _blank in 0..margin {
        text.push(' ')?;
    }
    Ok(())
}

// Whether a character is a blank: a space, or a control character.
fn is_blank(letter: char) -> bool
    ensures { result ≡ is_blank letter }
{
    letter == ' ' || letter.is_control()
}

// How many columns a character takes.
fn columns_of(letter: char) -> u32
    ensures value { result ≡ columns_of letter }
    ensures bound { result ≤ 3 }
{
    match letter.width() {
        Some(columns) => columns as u32,
        None => 0,
    }
}
