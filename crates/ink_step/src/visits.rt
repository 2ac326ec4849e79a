//! Visits of a machine's containers: those on the way in, and around where flow has landed (docs/RUNNING.md, "Visits").

ghost use Rattle.std.specs.Prelude.{◌≡◌, Some, true, IfOk, IfErr, OnOk, OnErr, option_map, if◌then◌else◌, ◌&&◌, ◌≤◌, ◌+◌, ◌||◌};
ghost use Rattle.ink_check.specs.Standing as check;
ghost use Rattle.ink_model.specs.Variables.Counts as rules;
ghost use Rattle.ink_model.specs.Run.Entered.{flags_at};
ghost use Rattle.ink_model.specs.Memory.Asks.{going_in_asks};
ghost use Rattle.ink_model.specs.Run.Place.{content_place};
ghost use Rattle.ink_model.specs.Variables.Rows.{place_order};
ghost use Rattle.ink_model.specs.Run.Step.{gone_in};
ghost use Rattle.ink_model.specs.Story.Tree.{at};
ghost use Rattle.ink_model.specs.Run.Visits.{adds_rows, around, entering_around};
ghost use Rattle.ink_stack.specs.Undo.{threads_spare};
ghost use Rattle.ink_step.specs.Marks.{counts_lack, landing_lacks, stood_of};
ghost use Rattle.ink_step.specs.Standing.{aside_in, config_of, start_of};
ghost use Rattle.ink_tree.specs.Kept.{leaf_in};
ghost use Rattle.ink_tree.specs.Nodes.{node_place, place_of, story_tree};

use crate::machine::Machine;
use ink_check::Story;
use ink_effects::{enter_landed, enter_passed, visits_of};
use ink_model::{Fault, Leaf};
use ink_tree::{NodeId, Spot, Tree};

impl Machine {
    /// How often a container was visited. `NotCounted` where its visits are not counted (docs/RUNNING.md, "Visits"). Takes no
    /// memory.
    pub fn visits(&self, story: &Story, container: NodeId) -> Result<i32, Fault>
        ensures { let s = check.story_tree story.now in let q = node_place s container in
            result ≡ rules.visits_of place_order q (flags_at (at s q)) (config_of s self.now).shared.counts }
    {
        visits_of(story.tree(), &self.shared.counts, container)
    }

    /// Flow goes down from its place to the first content that holds no other by index, and enters the containers on the way. And
    /// that content, none for an empty container, and where nothing stands there. The one error is a refused request for memory,
    /// which is made only for a container that is entered for the first time, and where a mark stands and there is no room for the
    /// notes.
    #[inline(always)]
    pub(crate) fn go_in<'a>(
        &mut self,
        tree: &'a Tree,
        place: Spot,
    ) -> Result<(Spot, Option<&'a Leaf>), Fault>
        requires room { 1 ≤ threads_spare self.old.flow.threads }
        ensures here { let s = story_tree tree.now in IfOk result (λ r. place_of s r.0 ≡ content_place s (place_of s place)) }
        ensures at { IfOk result (λ r. self.new.flow.threads.threads.thread.frame.place ≡ Some r.0) }
        ensures found { let s = story_tree tree.now in IfOk result (λ r. option_map (λ l. l.now) r.1 ≡ leaf_in (at s (place_of s r.0))) }
        ensures ok { let s = story_tree tree.now in OnOk result (config_of s self.new ≡ gone_in s (place_of s place) (config_of s self.old)) }
        ensures fault { IfErr result (λ f. f ≡ Fault.OutOfMemory) }
        ensures memory { let s = story_tree tree.now in OnErr result ((counts_lack 2 self.new || going_in_asks s (place_of s place) (config_of s self.old)) ≡ true) }
        ensures globals { self.new.shared.globals.rows ≡ self.old.shared.globals.rows }
        ensures start { start_of self.new ≡ start_of self.old }
        ensures own { self.new.trail ≡ self.old.trail }
        ensures aside { aside_in self.new ≡ aside_in self.old }
        ensures stack { self.new.flow.stack ≡ self.old.flow.stack }
        ensures mark { stood_of self.new ≡ stood_of self.old }
        ensures spare { threads_spare self.old.flow.threads ≤ threads_spare self.new.flow.threads + 1 }
    {
        let Some(node) = tree.node(place) else {
            self.flow.threads.put(Some(place));
            return Ok((place, None));
        };
        let (here, found) = enter_passed(tree, &mut self.shared.counts, node, self.shared.turn)?;
        self.flow.threads.put(Some(here));
        Ok((here, found))
    }

    /// Flow has landed: the containers around are entered, where the landing enters any. The one error is a refused request for
    /// memory, which is made only for a container that is entered for the first time, and where a mark stands and there is no room
    /// for the notes; nothing has changed then.
    #[inline(always)]
    pub(crate) fn enter_around(&mut self, tree: &Tree, enters: bool) -> Result<(), Fault>
        ensures ok { let s = story_tree tree.now in OnOk result (config_of s self.new ≡ (if enters then entering_around s (config_of s self.old) else config_of s self.old)) }
        ensures fault { IfErr result (λ f. f ≡ Fault.OutOfMemory) }
        ensures memory { let s = story_tree tree.now in let c = config_of s self.old in
            OnErr result ((landing_lacks s self.new || (enters && adds_rows s (around s c.flow.threads) c.shared.counts)) ≡ true) }
        ensures kept { let s = story_tree tree.now in OnErr result (config_of s self.new ≡ config_of s self.old) }
        ensures globals { self.new.shared.globals.rows ≡ self.old.shared.globals.rows }
        ensures start { start_of self.new ≡ start_of self.old }
        ensures own { self.new.trail ≡ self.old.trail }
        ensures aside { aside_in self.new ≡ aside_in self.old }
        ensures mark { stood_of self.new ≡ stood_of self.old }
        ensures spare { threads_spare self.old.flow.threads ≤ threads_spare self.new.flow.threads + 0 }
    {
        match self.flow.threads.place() {
            Some(place) if enters => {
                enter_landed(
                    tree,
                    &mut self.shared.counts,
                    self.flow.threads.top().previous(),
                    place,
                    self.shared.turn,
                )
            }
            _ => Ok(()),
        }
    }
}
