//! The temporaries of a frame.

ghost use Rattle.std.specs.Prelude.{◌≡◌, ◌≢◌, [], ◌∷◌, None, true, option_map, remove, IfOk, OnOk, OnErr};
ghost use Rattle.std.specs.Bool.{OnTrue, OnFalse};
ghost use Rattle.ink_model.specs.Variables.Rows.{name_order, row, rows_rise, with_row};
ghost use Rattle.ink_frames.specs.Cells.{temps_back, value_at};
ghost use Rattle.ink_frames.specs.Rows.{FindsName};
ghost use Rattle.ink_frames.specs.Temps.{text_of};

use crate::temp_rows::{FEW, Rows, let_go};
use ink_model::{Shared, Text, Value};
use std::alloc::{AllocError, Global};
use std::cmp::Ordering;
use std::marker::Model;
use std::slice;

/// The name of a temporary that is set: one to be copied where it is new, or one that can be shared.
#[derive(Clone, Copy)]
pub enum TempName<'a> {
    Given(&'a str),
    Shared(&'a Shared<Text>),
}

impl TempName<'_> {
    pub(crate) fn as_str(&self) -> &str
        ensures { result.now ≡ text_of self.now }
    {
        match self {
            TempName::Given(name) => name,
            TempName::Shared(name) => name.as_str(),
        }
    }

    // The name, to be kept. The one error is a refused request for memory, or a count of owners that is full.
    fn kept(&self, alloc: Global) -> Result<Shared<Text>, AllocError>
        ensures { IfOk result (λ name. name ≡ text_of self.now) }
    {
        match self {
            TempName::Given(name) => Shared::new(alloc, Text::from_str(alloc, name)?),
            TempName::Shared(name) => name.share(),
        }
    }
}

/// Values by name, in the order of the names. The copies of a frame share the names. A contract sees the rows.
pub struct Temps {
    pub(crate) rows: Rows,
    pub(crate) alloc: Global,
}

impl Drop for Temps {
    #[inline(always)]
    fn drop(self) {
        let Temps { rows: _, alloc: _ } = self;
    }
}

impl Model for Temps {
    ghost use Rattle.std.specs.Prelude.{◌≡◌, true};
    ghost use Rattle.ink_model.specs.Variables.Rows.{name_order, rows_rise};
    ghost use Rattle.ink_model.specs.Variables.Store.{Values};
    ghost use Rattle.ink_frames.specs.Temps.{rows_of};

    ghost Value = { Values };

    ghost view = { λ t. rows_of t.rows };

    ghost invariant = { λ t. rows_rise name_order (rows_of t.rows) ≡ true };
}

impl Temps {
    /// No temporaries, which take no memory.
    pub fn new(alloc: Global) -> Temps
        ensures { result ≡ [] }
    {
        Temps {
            rows: Rows::Empty,
            alloc,
        }
    }

    /// Whether there are none.
    #[inline(always)]
    pub(crate) fn is_empty(&self) -> bool
        ensures none { OnTrue result (self.now ≡ []) }
        ensures some { OnFalse result (self.now ≢ []) }
    {
        self.rows.is_empty()
    }

    /// Whether there are none, and no list that keeps memory for some.
    #[inline(always)]
    pub(crate) fn owns_nothing(&self) -> bool
        ensures { OnTrue result (self.now ≡ []) }
    {
        self.rows.is_unused()
    }

    /// No temporaries any more. A list of few keeps its memory, for those that come next.
    #[inline(always)]
    pub(crate) fn clear(&mut self)
        ensures { self.new ≡ [] }
    {
        if !self.rows.is_empty() {
            self.rows.clear();
        }
    }

    /// A copy. The one error is a refused request for memory, which no temporaries never make.
    #[inline(always)]
    pub(crate) fn clone_in(&self, alloc: Global) -> Result<Temps, AllocError>
        ensures copy { IfOk result (λ copy. copy ≡ self.now) }
        ensures memory { OnErr result (self.now ≢ []) }
    {
        match self.rows.clone_in(alloc) {
            Ok(rows) => Ok(Temps { rows, alloc }),
            Err(_) => Err(AllocError),
        }
    }

    /// The value of a name, none where there is no such temporary. Takes no memory.
    pub(crate) fn get(&self, name: &str) -> Option<&Value>
        ensures { option_map (λ value. value.now) result ≡ row name_order name.now self.now }
    {
        match &self.rows {
            Rows::Empty => None,
            Rows::One(row) => value_of(slice::from_ref(row), name),
            Rows::Many(rows) => value_among(rows, name),
        }
    }

    /// Gives a name a value, and answers the index of its row and what that held; none where it is new. The one error is a
    /// refused request for memory, which is made only for a new name, and leaves all as it was.
    #[inline(always)]
    pub(crate) fn set(
        &mut self,
        name: TempName<'_>,
        value: Value,
    ) -> Result<(usize, Option<Value>), AllocError>
        ensures ok { OnOk result (self.new ≡ with_row name_order (text_of name.entry) value self.old) }
        ensures err { OnErr result (self.new ≡ self.old) }
        ensures memory { OnErr result (row name_order (text_of name.entry) self.old ≡ None) }
        ensures back { IfOk result (λ was. temps_back was.0 was.1 self.new ≡ self.old) }
    {
        match find(self.rows.as_slice(), name.as_str()) {
            Ok(index) => {
                let was = self.rows.replace(index, value);
                Ok((index, Some(was)))
            }
            Err(index) => {
                let name = name.kept(self.alloc)?;
                self.rows.insert(self.alloc, index, (name, value))?;
                Ok((index, None))
            }
        }
    }

    /// The same where what the name had before is not asked for. For a shared name that comes first, or has the only row, no other
    /// function is called.
    #[inline(always)]
    pub(crate) fn put(&mut self, name: TempName<'_>, value: Value) -> Result<(), AllocError>
        ensures ok { OnOk result (self.new ≡ with_row name_order (text_of name.entry) value self.old) }
        ensures err { OnErr result (self.new ≡ self.old) }
        ensures memory { OnErr result (row name_order (text_of name.entry) self.old ≡ None) }
    {
        let TempName::Shared(shared) = name else {
            return self.put_any(name, value);
        };
        if self.rows.is_unused() {
            return self.put_first(shared, value);
        }
        if !self.rows.is_only(shared.as_str()) {
            return self.put_any(name, value);
        }
        let_go(self.rows.replace(0, value));
        Ok(())
    }

    // The same of the first name, which is shared. The one error is a count of owners that is full.
    #[inline(always)]
    fn put_first(&mut self, name: &Shared<Text>, value: Value) -> Result<(), AllocError>
        requires { self.old ≡ [] }
        ensures ok { OnOk result (self.new ≡ (name.now, value) ∷ []) }
        ensures err { OnErr result (self.new ≡ self.old) }
    {
        let Ok(name) = name.share() else {
            return Err(AllocError);
        };
        self.rows = Rows::One((name, value));
        Ok(())
    }

    // The same of any name. It is a call of its own, so that most are put without what others want.
    #[inline(never)]
    fn put_any(&mut self, name: TempName<'_>, value: Value) -> Result<(), AllocError>
        ensures ok { OnOk result (self.new ≡ with_row name_order (text_of name.entry) value self.old) }
        ensures err { OnErr result (self.new ≡ self.old) }
        ensures memory { OnErr result (row name_order (text_of name.entry) self.old ≡ None) }
    {
        match self.set(name, value) {
            Ok(_was) => Ok(()),
            Err(_) => Err(AllocError),
        }
    }

    /// The row at an index holds what it held; where that was nothing it goes. Takes no memory.
    pub(crate) fn put_back(&mut self, index: usize, was: Option<Value>)
        ensures { self.new ≡ temps_back index was self.old }
    {
        match was {
            Some(value) => {
                let _now = self.swap(index, value);
            }
            None => {
                self.rows.remove(index);
            }
        }
    }

    // Another value in the row at an index, where there is one.
    fn swap(&mut self, index: usize, value: Value) -> Value
        ensures { self.new ≡ value_at index value self.old }
    {
        if index >= self.rows.as_slice().len() {
            return value;
        }
        self.rows.replace(index, value)
    }
}

/// Where a name stands among rows that rise by name, or where it would stand.
#[inline(always)]
fn find(rows: &[(Shared<Text>, Value)], name: &str) -> Result<usize, usize>
    requires { rows_rise name_order rows.now ≡ true }
    ensures { FindsName name.now rows.now result }
{
    if rows.len() <= FEW {
        return find_one_by_one(rows, name);
    }
    find_by_halves(rows, name)
}

// The value of a name among rows that may be many. It is a call of its own, so that one row is looked at without what many want.
#[inline(never)]
fn value_among<'a>(rows: &'a [(Shared<Text>, Value)], name: &str) -> Option<&'a Value>
    requires { rows_rise name_order rows.now ≡ true }
    ensures { option_map (λ value. value.now) result ≡ row name_order name.now rows.now }
{
    if rows.len() <= FEW {
        return value_of(rows, name);
    }
    match find_by_halves(rows, name) {
        Ok(index) => Some(&rows[index].1),
        Err(_) => None,
    }
}

// The value of a name among rows that are looked at one by one: whether two names are the same is soon seen.
#[inline(always)]
fn value_of<'a>(rows: &'a [(Shared<Text>, Value)], name: &str) -> Option<&'a Value>
    requires { rows_rise name_order rows.now ≡ true }
    ensures { option_map (λ value. value.now) result ≡ row name_order name.now rows.now }
{
    for row in rows {
        if row.0.as_str() == name {
            return Some(&row.1);
        }
    }
    None
}

fn find_one_by_one(rows: &[(Shared<Text>, Value)], name: &str) -> Result<usize, usize>
    ensures { FindsName name.now rows.now result }
{
    for (index, row) in rows.iter().enumerate() {
        match name.cmp(row.0.as_str()) {
            Ordering::Less => return Err(index),
            Ordering::Equal => return Ok(index),
            Ordering::Greater => {}
        }
    }
    Err(rows.len())
}

fn find_by_halves(rows: &[(Shared<Text>, Value)], name: &str) -> Result<usize, usize>
    requires { rows_rise name_order rows.now ≡ true }
    ensures { FindsName name.now rows.now result }
{
    rows.binary_search_by(|row| row.0.as_str().cmp(name))
}
