//! Walks from a stand to those near by, and visits on the way.

use crate::twin::Twin;
use ink_model::flags::counts_at_start;
use ink_model::{MAX_NESTING, Part};
use ink_tree::NodeId;

impl Twin<'_> {
    /// The container around it.
    pub(crate) fn holder(&self, at: usize) -> Option<usize> {
        self.stands.get(at)?.holder
    }

    /// What stands one part down.
    pub(crate) fn down(&self, holder: usize, part: &Part) -> Option<usize> {
        match part {
            Part::Index(index) => self.at_index(holder, *index),
            Part::Name(name) => self.named(holder, name.as_str()),
        }
    }

    /// What stands at an index in a container, the end too.
    pub(crate) fn at_index(&self, holder: usize, index: u32) -> Option<usize> {
        let stand = self.stands.get(holder)?;
        match stand.list.get(index as usize) {
            Some(inner) => Some(*inner),
            None if index == self.width(holder) => stand.end,
            None => None,
        }
    }

    /// The container in a container by a name: given by key, or else the first in the list that gives itself that name.
    pub(crate) fn named(&self, holder: usize, name: &str) -> Option<usize> {
        let stand = self.stands.get(holder)?;
        if let Some(keyed) = stand.keys.get(name) {
            return Some(*keyed);
        }
        for inner in &stand.list {
            if self.own_name(*inner) == Some(name) {
                return Some(*inner);
            }
        }
        None
    }

    /// The first content in a container.
    pub(crate) fn inside(&self, at: usize) -> Option<usize> {
        self.stands.get(at)?.list.first().copied()
    }

    /// Where flow lands: on a container's first content, and else there.
    pub(crate) fn landed(&self, at: usize) -> usize {
        self.inside(at).unwrap_or(at)
    }

    /// Where a step performs: at the first content from there on that holds no other by index.
    pub(crate) fn performed(&self, at: usize) -> usize {
        let mut here = at;
        for _ in 0..=MAX_NESTING {
            match self.inside(here) {
                Some(first) => here = first,
                None => return here,
            }
        }
        here
    }

    /// What comes after it: the next in the container's list, or what follows the container, as long as that stands by index.
    pub(crate) fn after(&self, at: usize) -> Option<usize> {
        let mut here = at;
        for _ in 0..=MAX_NESTING {
            let stand = self.stands.get(here)?;
            let next = stand.index?.saturating_add(1);
            here = stand.holder?;
            if let Some(next) = self.stands.get(here)?.list.get(next) {
                return Some(*next);
            }
        }
        None
    }

    // ---- visits

    /// Whether a landing on content enters these containers, from the place before, and no others, the nearest first; one where no
    /// content is enters none. `at_start` says whether only first contents led down from a container.
    pub(crate) fn enters(&self, previous: Option<usize>, at: usize, entered: &[NodeId]) -> bool {
        if self.content(at).is_none() {
            return entered.is_empty();
        }
        let mut entered = entered.iter();
        let mut here = at;
        let mut at_start = true;
        for _ in self.parts(at) {
            at_start = at_start && self.is_first(here);
            here = self.holder(here).unwrap_or(0);
            let starts_only = counts_at_start(self.flags(here));
            if !starts_only && self.is_in(here, previous) {
                break;
            }
            if (!starts_only || at_start) && !is_node(entered.next(), here) {
                return false;
            }
        }
        entered.next().is_none()
    }

    fn is_first(&self, at: usize) -> bool {
        match self.stands.get(at) {
            Some(stand) => stand.index == Some(0),
            None => false,
        }
    }

    fn is_in(&self, container: usize, at: Option<usize>) -> bool {
        let mut here = at;
        for _ in 0..=MAX_NESTING + 1 {
            let Some(number) = here else {
                return false;
            };
            if number == container {
                return true;
            }
            here = self.holder(number);
        }
        false
    }
}

fn is_node(node: Option<&NodeId>, number: usize) -> bool {
    match node {
        Some(node) => node.number == number,
        None => false,
    }
}
