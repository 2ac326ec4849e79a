//! Which containers a landing enters (docs/RUNNING.md, "Visits").

ghost use Rattle.std.specs.Prelude.{◌≡◌, ◌≤◌, Option, List, IfOk, IsOk, length, map, option_map};
ghost use Rattle.ink_json.specs.Order.{key_part};
ghost use Rattle.ink_model.specs.Run.Entered.{entered_places, is_first, starts_only};
ghost use Rattle.ink_model.specs.declared.place.Part.{Part as Step};
ghost use Rattle.ink_tree.specs.Walks.{EntersNext, IsUp, still_entered};

use crate::spot::{NodeId, Spot};
use crate::tree::Tree;
use ink_json::Key;
use ink_model::flags::counts_at_start;
use smallvec::SmallVec;
use std::alloc::AllocError;

/// How far a walk upward from a landing place has come: to a content, and whether only first contents led down from there.
#[derive(Clone, Copy)]
pub struct Upward {
    pub node: NodeId,
    at_start: bool,
}

impl Tree {
    ghost use Rattle.ink_tree.specs.Nodes.{story_tree, node_place, place_of, AreNodes};

    /// The containers around a landing place that a landing there enters, the nearest first; `previous` is the place from
    /// which flow comes. The one error is a refused request for memory, which is not made for up to eight containers. The player asks
    /// for them one by one, by `upward` and `next_entered` (`enter_landed` of ink_effects).
    pub fn entered(
        &self,
        previous: Option<Spot>,
        at: Spot,
    ) -> Result<SmallVec<NodeId, 8>, AllocError>
        ensures places { IfOk result (λ nodes. map (node_place (story_tree self.now)) nodes.items
            ≡ entered_places (story_tree self.now) (option_map (place_of (story_tree self.now)) previous) (place_of (story_tree self.now) at)) }
        ensures inside { IfOk result (λ nodes. AreNodes (story_tree self.now) nodes.items) }
        ensures inline { length (entered_places (story_tree self.now) (option_map (place_of (story_tree self.now)) previous) (place_of (story_tree self.now) at)) ≤ 8 → IsOk result }
    {
        let mut entered = SmallVec::new(self.alloc);
        let mut rest = self.upward(at);
        while let Some(next) = self.next_entered(previous, rest) {
            entered.push(next.node)?;
            rest = next;
        }
        Ok(entered)
    }

    /// The walk upward from a landing place, which `next_entered` goes on. In contracts `still_entered` lists what a walk has still to
    /// enter; at its beginning that is all that the landing enters. Takes no memory.
    #[inline(always)]
    pub fn upward(&self, at: Spot) -> Upward
        ensures { (previous : Option (List Step)) → still_entered (story_tree self.now) previous result ≡ entered_places (story_tree self.now) previous (place_of (story_tree self.now) at) }
    {
        let node = match self.node(at) {
            Some(node) => node,
            None => NodeId::ROOT,
        };
        Upward {
            node,
            at_start: true,
        }
    }

    /// The next container that the landing enters, as the node of the walk up to it; none where it enters no more. `previous`
    /// is the place from which flow comes. `EntersNext` says so: it is the first that is `still_entered`, and the others are what is
    /// left. Takes no memory.
    pub fn next_entered(&self, previous: Option<Spot>, rest: Upward) -> Option<Upward>
        ensures { EntersNext (story_tree self.now) (option_map (place_of (story_tree self.now)) previous) rest result }
    {
        let mut below = rest;
        while let Some(here) = self.up(below) {
            if !self.starts_only(here.node) {
                if self.was_inside(here.node, previous) {
                    return None;
                }
                return Some(here);
            }
            if here.at_start {
                return Some(here);
            }
            below = here;
        }
        None
    }

    // One container up, which may be entered or not.
    fn up(&self, rest: Upward) -> Option<Upward>
        ensures { IsUp (story_tree self.now) rest result }
    {
        let (last, container) = self.above(rest.node)?;
        Some(Upward {
            node: container,
            at_start: rest.at_start && is_first(last),
        })
    }

    // Whether only entry at its start counts for a container.
    fn starts_only(&self, container: NodeId) -> bool
        ensures { result ≡ starts_only (story_tree self.now) (node_place (story_tree self.now) container) }
    {
        counts_at_start(self.flags(container))
    }
}

fn is_first(part: Key<'_>) -> bool
    ensures { result ≡ is_first (key_part part.entry) }
{
    match part {
        Key::Index(index) => index == 0,
        Key::Name(_) => false,
    }
}
