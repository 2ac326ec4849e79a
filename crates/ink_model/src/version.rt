//! Versions of compiled ink (docs/STORY_FORMAT.md).

/// A version of compiled ink whose stories are read.
#[derive(Clone, Copy, PartialEq, Eq)]
pub enum InkVersion {
    V20,
    V21,
}

impl InkVersion {
    ghost use Rattle.std.specs.Prelude.{◌≡◌};
    ghost use Rattle.ink_model.specs.Story.Grammar.{version_numbered};

    /// The version that has this number; none where its stories are not read.
    pub fn from_number(number: u64) -> Option<InkVersion>
        ensures { result ≡ version_numbered number }
    {
        match number {
            20 => Some(InkVersion::V20),
            21 => Some(InkVersion::V21),
            _ => None,
        }
    }
}
