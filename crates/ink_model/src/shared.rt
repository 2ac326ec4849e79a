//! What several owners share.

ghost use Rattle.std.specs.Prelude.{◌≡◌, IfErr, IfOk};

use crate::text::Text;
use std::alloc::{AllocError, Global};
use std::marker::Model;
use std::rc::Rc;
use std::{fmt, mem};

/// Something that several owners share, so that a copy copies nothing of it. A contract sees the thing itself.
#[derive(Drop)]
pub struct Shared<T> {
    value: Rc<T>,
}

impl<T> Model for Shared<T> {
    ghost Value = { T };

    ghost view = { λ s. s.value.value };
}

impl<T: Drop> Shared<T> {
    /// Takes a thing, to be shared. The one error is a refused request for memory.
    pub fn new(alloc: Global, value: T) -> Result<Shared<T>, AllocError>
        ensures { IfOk result (λ shared. shared ≡ value) }
    {
        match Rc::new(alloc, value) {
            Ok(value) => Ok(Shared { value }),
            Err(_) => Err(AllocError),
        }
    }

    /// The thing itself.
    pub fn get(&self) -> &T
        ensures { result.now ≡ self.now }
    {
        self.value.as_ref()
    }

    /// Puts another thing in the place of the one that is shared, where there is no other owner, and answers that one. Where there is
    /// another owner nothing has changed, and the new one comes back. Takes no memory.
    pub fn replace(&mut self, value: T) -> Result<T, T>
        ensures ok { IfOk result (λ old. (old ≡ self.old) × (self.new ≡ value)) }
        ensures err { IfErr result (λ back. (back ≡ value) × (self.new ≡ self.old)) }
    {
        match Rc::get_mut(&mut self.value) {
            Some(place) => Ok(mem::replace(place, value)),
            None => Err(value),
        }
    }

    /// One more owner. It asks for no memory; the one error is a count of owners that is full.
    pub fn share(&self) -> Result<Shared<T>, AllocError>
        ensures { IfOk result (λ copy. copy ≡ self.now) }
    {
        let value = self.value.clone()?;
        Ok(Shared { value })
    }
}

impl Shared<Text> {
    /// The text.
    pub fn as_str(&self) -> &str
        ensures { result.now ≡ self.now }
    {
        self.get().as_str()
    }
}

/// What the thing itself prints as.
impl<T: fmt::Display> fmt::Display for Shared<T> {
    ghost output = { T.output };

    ghost styled_output = { T.styled_output };

    fn fmt<W: fmt::Write>(&self, f: &mut fmt::Formatter<W>) -> fmt::Result {
        fmt::Display::fmt(self.value.as_ref(), f)
    }
}

/// As the thing itself.
impl<T: fmt::Debug> fmt::Debug for Shared<T> {
    ghost debug_output = { T.debug_output };

    fn fmt<W: fmt::Write>(&self, f: &mut fmt::Formatter<W>) -> fmt::Result {
        fmt::Debug::fmt(self.value.as_ref(), f)
    }
}

/// Equal where the things themselves are.
impl<T: PartialEq> PartialEq for Shared<T> {
    ghost eq = { T.eq };

    ghost laws = { T.laws };

    fn eq(&self, other: &Shared<T>) -> bool {
        self.value.as_ref() == other.value.as_ref()
    }
}

impl<T: Eq> Eq for Shared<T> {
    ghost laws = { T.Eq.laws };
}
