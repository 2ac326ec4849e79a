//! Where the paths lead that texts spell (docs/STORY_FORMAT.md, "Paths").

ghost use Rattle.ink_path.specs.Components.{part_of};
ghost use Rattle.ink_tree.specs.Leads.{LastLeads, Leads, LeadsBy};

use crate::spot::{NodeId, Spot};
use crate::tree::Tree;
use ink_path::{Component, Components};

/// Where a path leads, and whether its last component is an index.
#[derive(Clone, Copy)]
pub struct Lead {
    pub spot: Spot,
    pub by_index: bool,
}

impl Tree {
    ghost use Rattle.ink_tree.specs.Nodes.{story_tree, node_place, place_of};

    /// Where the path that a text spells leads from content; none where it leads nowhere, or the text spells none. Takes no memory.
    pub fn lead(&self, from: NodeId, text: &str) -> Option<Lead>
        ensures { Leads (story_tree self.now) (node_place (story_tree self.now) from) text.now result }
    {
        let (relative, components) = Components::of(text);
        let start = if relative { from } else { NodeId::ROOT };
        self.follow(start, components)
    }

    // Where components lead from content.
    fn follow(&self, from: NodeId, components: Components<'_>) -> Option<Lead>
        ensures { LeadsBy (story_tree self.now) (node_place (story_tree self.now) from) components.entry result }
    {
        let mut here = from;
        let mut rest = components;
        while let Some(text) = rest.next() {
            let component = Component::read(text)?;
            if rest.is_empty() {
                return self.last_lead(here, component);
            }
            here = self.step(here, component)?;
        }
        Some(Lead {
            spot: Spot::of(here),
            by_index: false,
        })
    }

    // Where the last component leads.
    fn last_lead(&self, here: NodeId, component: Component<'_>) -> Option<Lead>
        ensures { LastLeads (story_tree self.now) (node_place (story_tree self.now) here) (part_of component.entry) result }
    {
        let spot = self.last_step(here, component)?;
        Some(Lead {
            spot,
            by_index: matches!(component, Component::Index(_)),
        })
    }
}
