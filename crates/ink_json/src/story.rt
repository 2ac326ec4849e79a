//! A story as it was read.

ghost use Rattle.std.specs.Prelude.{◌≡◌, ◌<◌, ◌^◌, length, true, option_map};
ghost use Rattle.ink_model.specs.Story.Grammar.{IsSpelled};
ghost use Rattle.ink_model.specs.Story.Narrow.{is_narrow};
ghost use Rattle.ink_model.specs.Story.Places.{places};
ghost use Rattle.ink_model.specs.Story.Tree.{at, width};
ghost use Rattle.ink_model.specs.Story.View.{own_content};
ghost use Rattle.ink_json.specs.Listing.{IsListed, rebuilt, story_nodes};
ghost use Rattle.ink_json.specs.Order.{keys_rise};

use crate::descent::child;
use crate::key::key_of;
use crate::nodes::Nodes;
use ink_model::{Content, Part};

/// A story as it was read: its content in one list, in reading order.
#[derive(Drop)]
pub struct RawStory {
    pub(crate) nodes: Nodes,
    ghost listed: { IsListed nodes },
    ghost narrow: { is_narrow (rebuilt nodes) ≡ true },
    ghost few: { length (places (rebuilt nodes)) < 2 ^ 32 },
    ghost rising: { keys_rise (rebuilt nodes) ≡ true },
    ghost spelled: { IsSpelled (rebuilt nodes) },
}

impl RawStory {
    ghost use Rattle.ink_json.specs.Story.{tree};

    /// All content, in reading order. Some bytes spell the story, so that all limits hold in it, and in each container the names
    /// of those by key rise. Takes no memory.
    #[inline(always)]
    pub fn nodes(&self) -> &Nodes
        ensures nodes { result.now ≡ story_nodes (tree self.now) }
        ensures few { length (places (tree self.now)) < 2 ^ 32 }
        ensures rising { keys_rise (tree self.now) ≡ true }
        ensures spelled { IsSpelled (tree self.now) }
    {
        &self.nodes
    }

    /// The content at a place, by itself; none where nothing stands there. Takes no memory.
    pub fn at(&self, parts: &[Part]) -> Option<&Content>
        ensures found { option_map (λ c. c.now) result ≡ option_map own_content (at (tree self.now) parts.now) }
        ensures width { width (at (tree self.now) parts.now) < 2 ^ 32 }
        ensures spelled { IsSpelled (tree self.now) }
    {
        let mut here = 0;
        for part in parts {
            here = child(&self.nodes, here, key_of(part))?;
        }
        Some(self.nodes.at(here).content())
    }
}
