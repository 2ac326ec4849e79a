//! What a machine says, handed out, and the memory of it, given back (docs/TEXT.md).

ghost use Rattle.std.specs.Prelude.{◌≡◌, [], IfOk, IsOk, OnErr, true};
ghost use Rattle.ink_model.specs.Text.Clean.{clean};
ghost use Rattle.ink_model.specs.Text.Mark.{tags};
ghost use Rattle.ink_model.specs.Text.Shown.{shown_text, shows_more};
ghost use Rattle.ink_model.specs.Story.Tree.{StoryTree};

use crate::machine::Machine;
use ink_model::{Seq, Shared, Text};
use std::alloc::AllocError;

impl Machine {
    ghost use Rattle.ink_step.specs.Standing.{config_of};

    /// The text of the line, cleaned (docs/TEXT.md, "Cleaning"), in memory that was given back, where that is enough. The one
    /// error is a refused request for memory, which is made only where more than blanks is shown.
    pub fn said_text(&mut self) -> Result<Text, AllocError>
        ensures text { (s : StoryTree) → IfOk result (λ text. text ≡ clean (shown_text (config_of s self.old).page.line)) }
        ensures memory { (s : StoryTree) → OnErr result (shows_more (config_of s self.old).page.line ≡ true) }
        ensures same { self.new ≡ self.old }
    {
        self.output.hand_text()
    }

    /// The tags of the line, in order, as `said_text` gives its text. The one error is a refused request for memory, which is
    /// never made where there are none.
    pub fn said_tags(&mut self) -> Result<Seq<Shared<Text>>, AllocError>
        ensures tags { (s : StoryTree) → IfOk result (λ texts. texts ≡ tags (config_of s self.old).page.line) }
        ensures none { (s : StoryTree) → tags (config_of s self.old).page.line ≡ [] → IsOk result }
        ensures same { self.new ≡ self.old }
    {
        self.output.hand_tags()
    }

    /// Takes the memory of a text and of tags, for what is said later. Nothing else changes. Takes no memory.
    pub fn reuse(&mut self, text: Text, tags: Seq<Shared<Text>>)
        ensures same { self.new ≡ self.old }
    {
        self.output.reuse(text, tags)
    }
}
