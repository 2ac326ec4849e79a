//! Places in a story, and paths to them.

ghost use Rattle.std.specs.Prelude.{◌≡◌, [], ◌∷◌, ◌++◌, Some, IfOk, OnOk, OnErr};

use crate::seq::Seq;
use crate::text::Text;
use std::alloc::{AllocError, Global};
use std::fmt;
use std::marker::Model;

/// One step down in a story: to the content at an index, or to a container given by key.
#[derive(Debug, Drop)]
pub enum Part {
    Index(u32),
    Name(Text),
}

impl Part {
    /// A copy. The one error is a refused request for memory.
    pub fn clone_in(&self, alloc: Global) -> Result<Part, AllocError>
        ensures { IfOk result (λ copy. copy ≡ self.now) }
    {
        match self {
            Part::Index(index) => Ok(Part::Index(*index)),
            Part::Name(name) => {
                let copy = name.clone_in(alloc)?;
                Ok(Part::Name(copy))
            }
        }
    }
}

/// The index, or the name.
impl fmt::Display for Part {
    ghost use Rattle.ink_model.specs.Story.Path.{part_text};

    ghost output = { λ part. Some (part_text part) };

    fn fmt<W: fmt::Write>(&self, f: &mut fmt::Formatter<W>) -> fmt::Result {
        match self {
            Part::Index(index) => write!(f, "{index}"),
            Part::Name(name) => f.write_str(name.as_str()),
        }
    }
}

/// A place: the parts that lead to it from the root, which is the empty place. A contract sees the list of parts.
#[derive(Debug, Drop)]
pub struct Place {
    parts: Vec<Part>,
}

impl Model for Place {
    ghost use Rattle.std.specs.Prelude.{List};
    ghost use Rattle.ink_model.specs.declared.place.Part.{Part};

    ghost Value = { List Part };

    ghost view = { λ p. p.parts.items };
}

impl Place {
    /// The root, which takes no memory.
    pub fn root(alloc: Global) -> Place
        ensures { result ≡ [] }
    {
        Place {
            parts: Vec::new(alloc),
        }
    }

    /// The place to which these parts lead, which are copied, with room for one more. The one error is a refused request
    /// for memory.
    pub fn from_parts(alloc: Global, parts: &[Part]) -> Result<Place, AllocError>
        ensures { IfOk result (λ place. place ≡ parts.now) }
    {
        Ok(Place {
            parts: copied_parts(alloc, parts)?,
        })
    }

    /// Goes one part down. The one error is a refused request for memory, and leaves the place as it was.
    pub fn push(&mut self, part: Part) -> Result<(), AllocError>
        ensures ok { OnOk result (self.new ≡ self.old ++ part ∷ []) }
        ensures err { OnErr result (self.new ≡ self.old) }
    {
        self.parts.push(part)?;
        Ok(())
    }

    /// This place inside what stands at a part: the part goes in front. The one error is a refused request for memory.
    pub fn under(self, part: Part) -> Result<Place, AllocError>
        ensures { IfOk result (λ place. place ≡ part ∷ self) }
    {
        let Place { mut parts } = self;
        parts.insert(0, part)?;
        Ok(Place { parts })
    }

    /// The parts, from the root on.
    pub fn parts(&self) -> &[Part]
        ensures { result.now ≡ self.now }
    {
        self.parts.as_slice()
    }
}

/// The parts with dots between, or `root`.
impl fmt::Display for Place {
    ghost use Rattle.ink_model.specs.Story.Path.{place_text};

    ghost output = { λ p. Some (place_text p) };

    fn fmt<W: fmt::Write>(&self, f: &mut fmt::Formatter<W>) -> fmt::Result {
        let Some((first, rest)) = self.parts().split_first() else {
            return f.write_str("root");
        };
        first.fmt(f)?;
        for part in rest {
            write!(f, ".{part}")?;
        }
        Ok(())
    }
}

/// A path as it is written: from the root, or relative to the content that has it.
#[derive(Debug, Drop)]
pub struct Path {
    pub relative: bool,
    pub parts: Seq<Part>,
}

impl Path {
    /// A copy. The one error is a refused request for memory.
    pub fn clone_in(&self, alloc: Global) -> Result<Path, AllocError>
        ensures { IfOk result (λ copy. copy ≡ self.now) }
    {
        Ok(Path {
            relative: self.relative,
            parts: self.parts.clone_in(alloc)?,
        })
    }
}

impl Seq<Part> {
    /// A copy. The one error is a refused request for memory.
    pub fn clone_in(&self, alloc: Global) -> Result<Seq<Part>, AllocError>
        ensures { IfOk result (λ copy. copy ≡ self.now) }
    {
        Ok(Seq::from_vec(copied_parts(alloc, self.as_slice())?))
    }
}

// Copies of parts, in order, with room for one more.
fn copied_parts(alloc: Global, parts: &[Part]) -> Result<Vec<Part>, AllocError>
    ensures { IfOk result (λ copies. copies.items ≡ parts.now) }
{
    let mut copies = Vec::with_capacity(alloc, parts.len() + 1)?;
    for part in parts {
        let copy = part.clone_in(alloc)?;
        copies.push(copy)?;
    }
    Ok(copies)
}
