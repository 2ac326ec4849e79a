//! What a typed line asks for (docs/READER.md, "What is typed").

ghost use Rattle.std.specs.Prelude.{◌≡◌};
ghost use Rattle.std.specs.Str.{trim};
ghost use Rattle.ink_page.specs.Typed.{asked_by, asked_in, choice_in, typed, variable_in};

use ink_protocol::{after, choice_number};

/// What a typed line asks for. A choice has its number, from 1.
#[derive(Clone, Copy)]
pub enum Typed<'a> {
    Choice(u32),
    Save,
    Load,
    Back,
    Restart,
    Variable(&'a str),
    Help,
    Quit,
    Unclear,
}

/// What a line asks for. Blanks around it, and its newline, say nothing.
pub fn read_typed(line: &str) -> Typed<'_>
    ensures { asked_by result ≡ typed line.now }
{
    typed_word(line.trim())
}

// What a line without blanks around it asks for.
fn typed_word(text: &str) -> Typed<'_>
    ensures { asked_by result ≡ asked_in text.now }
{
    if text == "s" {
        return Typed::Save;
    }
    if text == "l" {
        return Typed::Load;
    }
    if text == "b" {
        return Typed::Back;
    }
    if text == "r" {
        return Typed::Restart;
    }
    if text == "?" {
        return Typed::Help;
    }
    if text == "q" {
        return Typed::Quit;
    }
    match after("v ", text) {
        Some(name) => variable(name),
        None => choice(text),
    }
}

// The variable of this name, around which blanks say nothing.
fn variable(name: &str) -> Typed<'_>
    ensures { asked_by result ≡ variable_in name.now }
{
    Typed::Variable(name.trim())
}

// The choice of this number.
fn choice(digits: &str) -> Typed<'_>
    ensures { asked_by result ≡ choice_in digits.now }
{
    match choice_number(digits) {
        Some(number) => Typed::Choice(number),
        None => Typed::Unclear,
    }
}
