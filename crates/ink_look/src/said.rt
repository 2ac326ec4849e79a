//! What a running command says (docs/TEXT.md).

ghost use Rattle.std.specs.Prelude.{◌≡◌, true, IfOk, OnErr};
ghost use Rattle.ink_look.specs.Said.{said, said_asks};
ghost use Rattle.ink_model.specs.Story.Tree.{StoryTree};
ghost use Rattle.ink_step.specs.Standing.{config_of};

use ink_model::{Seq, Shared, Text};
use ink_step::Machine;
use std::alloc::AllocError;

/// A cleaned text, and its tags in order.
#[derive(Drop)]
pub struct Said {
    pub text: Text,
    pub tags: Seq<Shared<Text>>,
}

/// What a machine has said since it was settled last, in memory that was given back to it, where that is enough. The one error is
/// a refused request for memory, which is made only where more than blanks is shown, or there are tags.
pub(crate) fn said_by(machine: &mut Machine) -> Result<Said, AllocError>
    ensures said { (s : StoryTree) → IfOk result (λ w. w ≡ said (config_of s machine.old)) }
    ensures memory { (s : StoryTree) → OnErr result (said_asks (config_of s machine.old) ≡ true) }
    ensures same { machine.new ≡ machine.old }
{
    let text = machine.said_text()?;
    let tags = machine.said_tags()?;
    Ok(Said { text, tags })
}
