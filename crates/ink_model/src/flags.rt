//! What the flags of containers say (docs/STORY_FORMAT.md, "Containers").

ghost use Rattle.std.specs.Prelude.{◌≡◌};
ghost use Rattle.ink_model.specs.Story.Flags as rules;

/// Whether a container's visits are counted, by its flags.
pub fn counts_visits(flags: u8) -> bool
    ensures { result ≡ rules.counts_visits flags }
{
    flags % 2 == 1
}

/// Whether the turn of a container's last visit is noted, by its flags.
pub fn notes_turns(flags: u8) -> bool
    ensures { result ≡ rules.notes_turns flags }
{
    (flags / 2) % 2 == 1
}

/// Whether only entry at a container's start counts, by its flags.
pub fn counts_at_start(flags: u8) -> bool
    ensures { result ≡ rules.counts_at_start flags }
{
    (flags / 4) % 2 == 1
}
