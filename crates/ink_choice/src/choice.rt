//! A choice.

ghost use Rattle.std.specs.Prelude.{◌≡◌, true, IfOk, OnErr};
ghost use Rattle.ink_model.specs.Choices.Making.{choice_asks, has_any};

use ink_model::{Seq, Shared, Text};
use ink_stack::Thread;
use std::alloc::{AllocError, Global};
use std::marker::Model;

/// A choice: its text and tags, where it leads, whether it is an invisible default, and the thread in which it was offered.
#[derive(Drop)]
pub struct Choice<P> {
    pub text: Text,
    pub tags: Seq<Shared<Text>>,
    pub target: P,
    pub hidden: bool,
    pub thread: Thread<P>,
}

impl<P> Model for Choice<P> {
    ghost use Rattle.ink_model.specs.Run.Configuration.{ChoiceOf};

    ghost Value = { ChoiceOf P };

    ghost view = { λ c. record { text = c.text; tags = c.tags; target = c.target; hidden = c.hidden; thread = c.thread } };
}

impl<P: Copy> Choice<P> {
    /// A copy. The one error is a refused request for memory, which is made only for a text that is not empty, for tags, and
    /// for a thread with temporaries or more than one frame.
    pub fn clone_in(&self, alloc: Global) -> Result<Choice<P>, AllocError>
        ensures copy { IfOk result (λ copy. copy ≡ self.now) }
        ensures memory { OnErr result (choice_asks self.now ≡ true) }
    {
        let text = copied_text(alloc, &self.text)?;
        let tags = copied_tags(alloc, &self.tags)?;
        let thread = self.thread.clone_in(alloc)?;
        Ok(Choice {
            text,
            tags,
            target: self.target,
            hidden: self.hidden,
            thread,
        })
    }
}

/// A copy of a text. The one error is a refused request for memory, which an empty text never makes.
pub(crate) fn copied_text(alloc: Global, text: &Text) -> Result<Text, AllocError>
    ensures copy { IfOk result (λ copy. copy ≡ text.now) }
    ensures memory { OnErr result (has_any text.now ≡ true) }
{
    if text.as_str().is_empty() {
        return Ok(Text::from_string(String::new(alloc)));
    }
    text.clone_in(alloc)
}

/// A list of the same tags, which are shared. The one error is a refused request for memory, which no tags never make.
#[inline(always)]
pub(crate) fn copied_tags(
    alloc: Global,
    tags: &Seq<Shared<Text>>,
) -> Result<Seq<Shared<Text>>, AllocError>
    ensures copy { IfOk result (λ copy. copy ≡ tags.now) }
    ensures memory { OnErr result (has_any tags.now ≡ true) }
{
    let mut copies = Vec::new(alloc);
    for tag in tags.as_slice() {
        let tag = tag.share()?;
        copies.push(tag)?;
    }
    Ok(Seq::from_vec(copies))
}
