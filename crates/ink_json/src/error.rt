//! Why reading stops.

ghost use Rattle.std.specs.Prelude.{◌≡◌};
ghost use Rattle.ink_model.specs.Story.Grammar.{here};
ghost use Rattle.ink_model.specs.declared.place.Part.TheVariants.{Index, Name};
ghost use Rattle.ink_json.specs.Reading.{IsUnder};

use ink_model::{Cause, Failure, Part, ReadRefusal, Text};
use std::alloc::Global;

/// A request for memory was refused, or the story is.
pub(crate) type ReadFailure = Failure<ReadRefusal>;

/// What is being read is refused, for this cause.
pub(crate) fn refused(alloc: Global, cause: Cause) -> ReadFailure
    ensures { result ≡ Failure.Refused (here cause) }
{
    Failure::Refused(ReadRefusal::at_root(alloc, cause))
}

/// The same failure, of content that stands at this index.
#[cold]
pub(crate) fn at_index(failure: ReadFailure, index: u32) -> ReadFailure
    ensures { IsUnder (Index index) failure result }
{
    under(failure, Part::Index(index))
}

/// The same failure, of a container that stands at this key.
#[cold]
pub(crate) fn at_name(alloc: Global, failure: ReadFailure, name: &str) -> ReadFailure
    ensures { IsUnder (Name name.now) failure result }
{
    match Text::from_str(alloc, name) {
        Ok(name) => under(failure, Part::Name(name)),
        Err(_) => Failure::OutOfMemory,
    }
}

fn under(failure: ReadFailure, part: Part) -> ReadFailure
    ensures { IsUnder part failure result }
{
    match failure {
        Failure::OutOfMemory => Failure::OutOfMemory,
        Failure::Refused(refusal) => refused_under(refusal, part),
    }
}

fn refused_under(refusal: ReadRefusal, part: Part) -> ReadFailure
    ensures { IsUnder part (Failure.Refused refusal) result }
{
    let ReadRefusal { cause, place } = refusal;
    match place.under(part) {
        Ok(place) => Failure::Refused(ReadRefusal { cause, place }),
        Err(_) => Failure::OutOfMemory,
    }
}
