//! Counts and turns as a save lends and gives them.

ghost use Rattle.std.specs.Prelude.{◌≡◌, Some, None, nat_le, if◌then◌else◌};
ghost use Rattle.ink_model.specs.declared.limits.TheConstants.{MAX_COUNT};
ghost use Rattle.ink_vars.specs.Slots.{AreCounts, rows_from};
ghost use Rattle.ink_vars.specs.Undo.{counts_stood};

use crate::counts::Counts;
use crate::turn::Turn;
use ink_model::MAX_COUNT;
use ink_trail::Trail;

impl Turn {
    /// The turn of a number; none above 2,147,483,647.
    pub fn of(number: u32) -> Option<Turn>
        ensures { result ≡ (if nat_le number MAX_COUNT then Some number else None) }
    {
        if number <= MAX_COUNT {
            Some(Turn { number })
        } else {
            None
        }
    }
}

impl Counts {
    /// The counts of these: how often each container was visited, and in which turn it was entered last, by its number. Takes no
    /// memory.
    #[tactic(auto, unfolding(crate::specs::Undo::counts_stood, ink_trail::specs::Undo::stood_at))]
    pub fn from_slots(visits: Vec<Option<u32>>, turns: Vec<Option<u32>>) -> Counts
        requires { AreCounts visits.items × AreCounts turns.items }
        ensures rows { result.rows ≡ record { visits = rows_from 0 visits.items; turns = rows_from 0 turns.items } }
        ensures stood { counts_stood result ≡ None }
    {
        let trail = Trail::new(*visits.allocator());
        Counts {
            visits,
            turns,
            trail,
        }
    }

    /// How often each container was visited, by its number; none where it never was.
    pub fn visits(&self) -> &[Option<u32>]
        ensures { rows_from 0 result.now ≡ self.now.rows.visits }
    {
        self.visits.as_slice()
    }

    /// In which turn each container was entered last, by its number; none where it never was.
    pub fn turns(&self) -> &[Option<u32>]
        ensures { rows_from 0 result.now ≡ self.now.rows.turns }
    {
        self.turns.as_slice()
    }
}
