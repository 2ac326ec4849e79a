//! What the flags of a choice say (docs/STORY_FORMAT.md, "Content").

ghost use Rattle.std.specs.Prelude.{◌≡◌};
ghost use Rattle.ink_model.specs.Story.Flags as rules;

/// Whether a condition is popped for a choice, by its flags.
pub fn is_conditional(flags: u8) -> bool
    ensures { result ≡ rules.is_conditional flags }
{
    flags % 2 == 1
}

/// Whether a choice has start text, by its flags.
pub fn has_start_text(flags: u8) -> bool
    ensures { result ≡ rules.has_start_text flags }
{
    (flags / 2) % 2 == 1
}

/// Whether a choice has choice-only text, by its flags.
pub fn has_choice_only_text(flags: u8) -> bool
    ensures { result ≡ rules.has_choice_only_text flags }
{
    (flags / 4) % 2 == 1
}

/// Whether a choice is an invisible default, by its flags.
pub fn is_invisible_default(flags: u8) -> bool
    ensures { result ≡ rules.is_invisible_default flags }
{
    (flags / 8) % 2 == 1
}

/// Whether a choice is offered once only, by its flags.
pub fn is_once_only(flags: u8) -> bool
    ensures { result ≡ rules.is_once_only flags }
{
    (flags / 16) % 2 == 1
}
