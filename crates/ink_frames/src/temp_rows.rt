//! Where the rows of temporaries stand.

ghost use Rattle.std.specs.Prelude.{◌≡◌, ◌≢◌, ◌<◌, ◌≤◌, ℕ, List, [], bytes_eq, get_or, insert, length, remove, true, vec_capacity, IfOk, OnOk, OnErr};
ghost use Rattle.std.specs.Bool.{OnTrue, OnFalse};
ghost use Rattle.ink_model.specs.declared.value.Value.{Value};
ghost use Rattle.ink_frames.specs.Cells.{value_at};
ghost use Rattle.ink_frames.specs.Temps.{rows_of};

use ink_model::{Shared, Text, Value};
use std::alloc::{AllocError, Global};
use std::{mem, slice};

/// Rows. One stands in place, so that a frame with one temporary takes no memory of its own. More stand in a list, which may keep
/// its memory when they go.
pub(crate) enum Rows {
    Empty,
    One((Shared<Text>, Value)),
    Many(Vec<(Shared<Text>, Value)>),
}

impl Drop for Rows {
    #[inline(always)]
    fn drop(self) {
        match self {
            Rows::Empty => {}
            Rows::One(row) => end_row(row),
            Rows::Many(rows) => end_rows(rows),
        }
    }
}

// A row goes.
#[inline(always)]
fn end_row(row: (Shared<Text>, Value)) {
    let (_name, value) = row;
    let_go(value);
}

/// A value goes. Numbers and truths own nothing, so that for them nothing is called.
#[inline(always)]
pub(crate) fn let_go(value: Value) {
    match value {
        Value::Int(_) | Value::Bool(_) => {}
        value => end_value(value),
    }
}

// A value goes. It is a call of its own, so that where it owns nothing nothing is called.
#[inline(never)]
fn end_value(_value: Value) {}

// A list of rows goes, likewise.
#[inline(never)]
fn end_rows(_rows: Vec<(Shared<Text>, Value)>) {}

/// So many rows, or fewer, are looked at one by one, which is faster then. A list with room for no more keeps its memory.
pub(crate) const FEW: usize = 8;

/// So many rows have room in a list that is made for a second one.
const FIRST_ROOM: usize = 4;

impl Rows {
    /// Whether there are none.
    #[inline(always)]
    pub(crate) fn is_empty(&self) -> bool
        ensures none { OnTrue result (rows_of self.now ≡ []) }
        ensures some { OnFalse result (rows_of self.now ≢ []) }
    {
        match self {
            Rows::Empty => true,
            Rows::One(_) => false,
            Rows::Many(rows) => rows.is_empty(),
        }
    }

    /// Whether there are none, and no list that keeps memory for some.
    #[inline(always)]
    pub(crate) fn is_unused(&self) -> bool
        ensures { OnTrue result (rows_of self.now ≡ []) }
    {
        matches!(self, Rows::Empty)
    }

    /// Whether there is one row alone, which stands in place, and it has this name.
    #[inline(always)]
    pub(crate) fn is_only(&self, name: &str) -> bool
        ensures some { OnTrue result (0 < length (rows_of self.now)) }
        ensures same { (d : List ℕ × Value) → OnTrue result (bytes_eq (get_or (rows_of self.now) 0 d).0 name.now ≡ true) }
    {
        match self {
            Rows::One(row) => row.0.as_str() == name,
            Rows::Empty | Rows::Many(_) => false,
        }
    }

    /// The rows.
    #[inline(always)]
    pub(crate) fn as_slice(&self) -> &[(Shared<Text>, Value)]
        ensures { result.now ≡ rows_of self.now }
    {
        match self {
            Rows::Empty => &[],
            Rows::One(row) => slice::from_ref(row),
            Rows::Many(rows) => rows.as_slice(),
        }
    }

    /// No rows any more. A list of few keeps its memory, for those that come next.
    #[inline(never)]
    pub(crate) fn clear(&mut self)
        ensures { rows_of self.new ≡ [] }
    {
        match self {
            Rows::Many(rows) if rows.capacity() <= FEW => rows.clear(),
            _ => *self = Rows::Empty,
        }
    }

    /// A copy of each row. The one error is a refused request for memory, which no rows never make.
    #[inline(always)]
    pub(crate) fn clone_in(&self, alloc: Global) -> Result<Rows, AllocError>
        ensures copy { IfOk result (λ copy. rows_of copy ≡ rows_of self.now) }
        ensures memory { OnErr result (rows_of self.now ≢ []) }
    {
        match self {
            Rows::Empty => Ok(Rows::Empty),
            Rows::One(row) => match copied(alloc, row) {
                Ok(copy) => Ok(Rows::One(copy)),
                Err(_) => Err(AllocError),
            },
            Rows::Many(rows) => match all_copied(alloc, rows.as_slice()) {
                Ok(copies) => Ok(Rows::Many(copies)),
                Err(_) => Err(AllocError),
            },
        }
    }

    /// Puts another value into the row at an index, and answers what that held.
    #[inline(always)]
    pub(crate) fn replace(&mut self, index: usize, value: Value) -> Value
        requires { index < length (rows_of self.old) }
        ensures rows { rows_of self.new ≡ value_at index value (rows_of self.old) }
        ensures was { (d : List ℕ × Value) → result ≡ (get_or (rows_of self.old) index d).1 }
    {
        match self {
            Rows::Empty => value,
            Rows::One(row) => mem::replace(&mut row.1, value),
            Rows::Many(rows) => mem::replace(&mut rows[index].1, value),
        }
    }

    /// Puts a row in between the others. The one error is a refused request for memory, and leaves all as it was.
    #[inline(always)]
    pub(crate) fn insert(
        &mut self,
        alloc: Global,
        index: usize,
        row: (Shared<Text>, Value),
    ) -> Result<(), AllocError>
        requires { index ≤ length (rows_of self.old) }
        ensures ok { OnOk result (rows_of self.new ≡ insert (rows_of self.old) index row) }
        ensures err { OnErr result (rows_of self.new ≡ rows_of self.old) }
    {
        match self {
            Rows::Empty => {
                *self = Rows::One(row);
                Ok(())
            }
            Rows::Many(rows) => {
                rows.insert(index, row)?;
                Ok(())
            }
            Rows::One(_) => self.insert_second(alloc, index, row),
        }
    }

    // The same, in a list from now on.
    #[inline(never)]
    fn insert_second(
        &mut self,
        alloc: Global,
        index: usize,
        row: (Shared<Text>, Value),
    ) -> Result<(), AllocError>
        requires { index ≤ length (rows_of self.old) }
        ensures ok { OnOk result (rows_of self.new ≡ insert (rows_of self.old) index row) }
        ensures err { OnErr result (rows_of self.new ≡ rows_of self.old) }
    {
        let list = Vec::with_capacity(alloc, FIRST_ROOM)?;
        let mut rows = mem::replace(self, Rows::Empty).into_list(list);
        let inserted = rows.insert(index, row).is_ok();
        *self = Rows::Many(rows);
        if inserted { Ok(()) } else { Err(AllocError) }
    }

    // All rows in a list: one is put into this list, which is empty and has room for it.
    fn into_list(self, mut list: Vec<(Shared<Text>, Value)>) -> Vec<(Shared<Text>, Value)>
        requires none { list.items ≡ [] }
        requires room { 0 < vec_capacity list }
        ensures { result.items ≡ rows_of self }
    {
        match self {
            Rows::Empty => list,
            Rows::One(row) => {
                list.push_reserved(row);
                list
            }
            Rows::Many(rows) => rows,
        }
    }

    /// Takes the row at an index away, where there is one.
    pub(crate) fn remove(&mut self, index: usize)
        ensures { rows_of self.new ≡ remove (rows_of self.old) index }
    {
        if index >= self.as_slice().len() {
            return;
        }
        match self {
            Rows::Empty => {}
            Rows::One(_) => *self = Rows::Empty,
            Rows::Many(rows) => {
                let _row = rows.remove(index);
            }
        }
    }
}

// A copy of a row. The one error is a count of owners that is full.
#[inline(always)]
fn copied(alloc: Global, row: &(Shared<Text>, Value)) -> Result<(Shared<Text>, Value), AllocError>
    ensures { IfOk result (λ copy. copy ≡ row.now) }
{
    let Ok(name) = row.0.share() else {
        return Err(AllocError);
    };
    let Ok(value) = copied_value(alloc, &row.1) else {
        return Err(AllocError);
    };
    Ok((name, value))
}

// A copy of a value. Numbers and truths, which own nothing, are copied where they stand, and others by a call.
#[inline(always)]
fn copied_value(alloc: Global, value: &Value) -> Result<Value, AllocError>
    ensures { IfOk result (λ copy. copy ≡ value.now) }
{
    match value {
        Value::Int(number) => Ok(Value::Int(*number)),
        Value::Bool(truth) => Ok(Value::Bool(*truth)),
        _ => value.clone_in(alloc),
    }
}

// Copies of rows. The one error is a refused request for memory.
#[inline(never)]
fn all_copied(
    alloc: Global,
    rows: &[(Shared<Text>, Value)],
) -> Result<Vec<(Shared<Text>, Value)>, AllocError>
    ensures copy { IfOk result (λ copies. copies.items ≡ rows.now) }
    ensures memory { OnErr result (rows.now ≢ []) }
{
    let mut copies = Vec::with_capacity(alloc, rows.len())?;
    for row in rows {
        copies.push_reserved(copied(alloc, row)?);
    }
    Ok(copies)
}
