//! Where a story stood.

ghost use Rattle.std.specs.Prelude.{◌≡◌, ◌++◌, [], ◌∷◌, List, ℕ, Option, None, MatchOption, OnErr, OnOk, is_some, true};
ghost use Rattle.std.specs.Option.{option_to_list};
ghost use Rattle.ink_reader.specs.Kept.{Noted};

use ink_model::Text;
use std::alloc::{AllocError, Global};

/// The saves of a story: before each choice, and where it stands now, if it stands at a choice and memory for that was found.
#[derive(Drop)]
pub(crate) struct Past {
    before: Vec<Text>,
    here: Option<Text>,
}

impl Past {
    /// Nothing was noted yet.
    pub(crate) fn new(alloc: Global) -> Past
        ensures here { result.here ≡ None }
        ensures before { result.before.items ≡ [] }
    {
        Past {
            before: Vec::new(alloc),
            here: None,
        }
    }

    /// Whether the story stands at a choice that was noted.
    pub(crate) fn is_at_choice(&self) -> bool
        ensures { result ≡ is_some self.now.here }
    {
        self.here.is_some()
    }

    /// The story stands here now.
    pub(crate) fn stand(&mut self, here: Option<Text>)
        ensures here { self.new.here ≡ here }
        ensures before { self.new.before.items ≡ self.old.before.items }
    {
        self.here = here;
    }

    /// The story went on from here, to which it can be gone back. The one error is a refused request for memory, which is made
    /// only where it stood at a choice that was noted.
    pub(crate) fn leave(&mut self) -> Result<(), AllocError>
        ensures here { self.new.here ≡ None }
        ensures before { OnOk result (self.new.before.items ≡ self.old.before.items ++ option_to_list self.old.here) }
        ensures stays { OnErr result (self.new.before.items ≡ self.old.before.items) }
        ensures memory { OnErr result (is_some self.old.here ≡ true) }
        ensures noted { Noted self.old.before.items self.old.here self.new.before.items }
    {
        if let Some(here) = self.here.take() {
            self.before.push(here)?;
        }
        Ok(())
    }

    /// Where it stood before the last choice.
    pub(crate) fn last(&self) -> Option<&Text>
        ensures { MatchOption result (self.now.before.items ≡ []) (λ last. (earlier : List (List ℕ)) × (self.now.before.items ≡ earlier ++ last.now ∷ [])) }
    {
        self.before.last()
    }

    /// That choice is taken back.
    pub(crate) fn take_back(&mut self)
        ensures here { self.new.here ≡ self.old.here }
        ensures before { (last : Option (List ℕ)) × (self.old.before.items ≡ self.new.before.items ++ option_to_list last) }
        ensures takes { (earlier : List (List ℕ)) → (last : List ℕ) → self.old.before.items ≡ earlier ++ last ∷ [] → self.new.before.items ≡ earlier }
    {
        let _last = self.before.pop();
    }
}
