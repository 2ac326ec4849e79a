//! The objects that the program binds to names (docs/PROGRAM.md).

ghost use Rattle.std.specs.Prelude.{◌≡◌, [], ◌∷◌, ◌++◌, bytes_eq, length, map, option_map, true, IfOk, OnErr, OnOk};
ghost use Rattle.std.specs.List.{list_all};
ghost use Rattle.ink_host.specs.Desk.{counted};
ghost use Rattle.ink_model.specs.declared.host.HostFault.TheVariants as fault;
ghost use Rattle.ink_protocol.specs.Answers.{values_text};
ghost use Rattle.ink_words.specs.Scripts.{argument_count, gifts, noted};
ghost use Rattle.ink_words.specs.Simple.{is_simple};
ghost use Rattle.ink_words.specs.Tables.{answer_in};

use crate::simple::{are_simple, spells};
use ink_host::{PureFn, TurnFn};
use ink_model::{Given, HostFault, Text, Value};
use ink_protocol::print_values;
use std::alloc::{AllocError, Global};

/// What a script notes of a call, beside its arguments: which event it is, and how many arguments it had.
#[derive(Clone, Copy)]
struct Turn {
    stamp: u64,
    count: usize,
}

/// A turn function that gives its answers in order, each at one call, and refuses once they are used up. It notes its calls: their
/// arguments stand one behind another, so that a call asks for memory only where the lists grow.
#[derive(Drop)]
pub struct Script {
    answers: Vec<Given>,
    turns: Vec<Turn>,
    arguments: Vec<Value>,
    refusals: u64,
    alloc: Global,
    ghost whole: { argument_count turns.items ≡ length arguments.items },
    ghost scripted: { map (λ call. call.gave) (noted answers.items arguments.items turns.items) ≡ gifts answers.items (length turns.items) },
}

impl Script {
    /// A function that was not called yet.
    pub fn new(alloc: Global, answers: Vec<Given>) -> Script
        ensures answers { result.answers.items ≡ answers.items }
        ensures calls { result.turns.items ≡ [] }
    {
        Script {
            answers,
            turns: Vec::new(alloc),
            arguments: Vec::new(alloc),
            refusals: 0,
            alloc,
        }
    }

    // Counts that it was refused memory, before it noted anything.
    fn lack(&mut self) -> HostFault
        ensures fault { result ≡ fault.OutOfMemory }
        ensures answers { self.new.answers.items ≡ self.old.answers.items }
        ensures turns { self.new.turns.items ≡ self.old.turns.items }
        ensures arguments { self.new.arguments.items ≡ self.old.arguments.items }
        ensures counts { self.new.refusals ≡ counted self.old.refusals }
    {
        self.refusals = self.refusals.wrapping_add(1);
        HostFault::OutOfMemory
    }
}

impl TurnFn for Script {
    ghost log = { λ s. noted s.answers.items s.arguments.items s.turns.items };

    ghost refusals = { λ s. s.refusals };

    fn call(&mut self, stamp: u64, arguments: &[Value]) -> Result<Given, HostFault> {
        let turn = self.turns.len();
        if self.turns.reserve(1).is_err() {
            return Err(self.lack());
        }
        let Ok(given) = copied_given(self.alloc, self.answers.get(turn)) else {
            return Err(self.lack());
        };
        let Ok(()) = add_copies(self.alloc, &mut self.arguments, arguments) else {
            return Err(self.lack());
        };
        let count = arguments.len();
        self.turns.push_reserved(Turn { stamp, count });
        match given {
            Some(given) => Ok(given),
            None => Err(HostFault::Refused),
        }
    }
}

// A copy of what is given, if there is something. The one error is a count of owners that is full.
fn copied_given(alloc: Global, given: Option<&Given>) -> Result<Option<Given>, AllocError>
    ensures { IfOk result (λ copy. copy ≡ option_map (λ given. given.now) given.entry) }
{
    match given {
        Some(given) => Ok(Some(given.clone_in(alloc)?)),
        None => Ok(None),
    }
}

// Copies of values, behind those that are there. The one error is a refused request for memory, or a count of owners that is full;
// then nothing has changed.
fn add_copies(alloc: Global, copies: &mut Vec<Value>, values: &[Value]) -> Result<(), AllocError>
    ensures ok { OnOk result (copies.new.items ≡ copies.old.items ++ values.now) }
    ensures err { OnErr result (copies.new.items ≡ copies.old.items) }
{
    let before = copies.len();
    for value in values {
        if add_copy(alloc, copies, value).is_err() {
            copies.truncate(before);
            return Err(AllocError);
        }
    }
    Ok(())
}

// A copy of a value, behind those that are there; none where memory was refused, or a count of owners is full.
fn add_copy(alloc: Global, copies: &mut Vec<Value>, value: &Value) -> Result<(), AllocError>
    ensures ok { OnOk result (copies.new.items ≡ copies.old.items ++ value.now ∷ []) }
    ensures err { OnErr result (copies.new.items ≡ copies.old.items) }
{
    let copy = value.clone_in(alloc)?;
    match copies.push(copy) {
        Ok(()) => Ok(()),
        Err(_) => Err(AllocError),
    }
}

/// One row of a table: the answer to these arguments, which are spelled as a compact JSON array.
#[derive(Drop)]
pub struct Row {
    pub arguments: Text,
    pub answer: Given,
}

/// A pure function that answers what stands in its rows, and refuses all other arguments.
#[derive(Drop)]
pub struct Table {
    rows: Vec<Row>,
    alloc: Global,
}

impl Table {
    /// The function with these rows.
    pub fn new(alloc: Global, rows: Vec<Row>) -> Table
        ensures rows { result.rows.items ≡ rows.items }
    {
        Table { rows, alloc }
    }
}

impl PureFn for Table {
    ghost meaning = { λ t arguments. answer_in (values_text arguments) t.rows.items };

    fn ask(&self, arguments: &[Value]) -> Result<Given, HostFault> {
        let Ok(found) = find(self.alloc, self.rows.as_slice(), arguments) else {
            return Err(HostFault::OutOfMemory);
        };
        let Some(answer) = found else {
            return Err(HostFault::Refused);
        };
        match answer.clone_in(self.alloc) {
            Ok(copy) => Ok(copy),
            Err(_) => Err(HostFault::OutOfMemory),
        }
    }
}

// The answer of the row with these arguments. The one error is a refused request for memory.
fn find<'a>(
    alloc: Global,
    rows: &'a [Row],
    arguments: &[Value],
) -> Result<Option<&'a Given>, AllocError>
    ensures { IfOk result (λ found. option_map (λ answer. answer.now) found ≡ answer_in (values_text arguments.now) rows.now) }
{
    if are_simple(arguments) {
        return Ok(find_simple(rows, arguments));
    }
    let text = print_values(alloc, arguments)?;
    Ok(find_text(rows, text.as_slice()))
}

// The answer of the row with arguments that are spelled so.
fn find_text<'a>(rows: &'a [Row], text: &[u8]) -> Option<&'a Given>
    ensures { option_map (λ answer. answer.now) result ≡ answer_in text.now rows.now }
{
    for row in rows {
        if is_spelled(row, text) {
            return Some(&row.answer);
        }
    }
    None
}

fn is_spelled(row: &Row, text: &[u8]) -> bool
    ensures { result ≡ bytes_eq text.now row.now.arguments }
{
    text == row.arguments.as_str().as_bytes()
}

// The same of integers and truth values, whose text is not made for that.
fn find_simple<'a>(rows: &'a [Row], arguments: &[Value]) -> Option<&'a Given>
    requires { list_all is_simple arguments.now ≡ true }
    ensures { option_map (λ answer. answer.now) result ≡ answer_in (values_text arguments.now) rows.now }
{
    for row in rows {
        if spells(row.arguments.as_str().as_bytes(), arguments) {
            return Some(&row.answer);
        }
    }
    None
}
