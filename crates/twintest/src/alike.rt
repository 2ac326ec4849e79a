//! Whether the answers of calls and of the twin are alike. The first difference is written.

use crate::twins::Twins;
use ink_model::{Content, Leaf, Part};
use ink_tree::{NodeId, Spot};
use inkcases::{Report, show_content, show_leaf};

impl Twins<'_, '_> {
    pub(crate) fn alike(
        &self,
        said: &mut Report,
        call: &str,
        at: usize,
        fast: &Report,
        slow: &Report,
    ) {
        said.note_of(fast);
        said.note_of(slow);
        if fast.as_str() != slow.as_str() {
            self.tell(said, call, at, fast.as_str(), slow.as_str());
        }
    }

    pub(crate) fn hold(&self, said: &mut Report, call: &str, at: usize, is_alike: bool) {
        if !is_alike {
            self.tell(said, call, at, "one answer", "another");
        }
    }

    /// Writes the first difference.
    fn tell(&self, said: &mut Report, call: &str, at: usize, fast: &str, slow: &str) {
        if said.is_empty() {
            said.put(call);
            said.put(" at ");
            said.place(self.twin.parts(at));
            said.put(": ");
            said.put(fast);
            said.put(", and its twin ");
            said.put(slow);
        }
    }

    pub(crate) fn alike_numbers(
        &self,
        said: &mut Report,
        call: &str,
        at: usize,
        fast: Option<usize>,
        slow: Option<usize>,
    ) {
        if fast != slow {
            let mut told = Report::new(self.alloc);
            told.number_or(slow, "none");
            let mut came = Report::new(self.alloc);
            came.number_or(fast, "none");
            self.alike(said, call, at, &came, &told);
        }
    }

    pub(crate) fn alike_nodes(
        &self,
        said: &mut Report,
        call: &str,
        at: usize,
        fast: Option<NodeId>,
        slow: Option<usize>,
    ) {
        let fast = match fast {
            Some(node) => Some(node.number),
            None => None,
        };
        self.alike_numbers(said, call, at, fast, slow);
    }

    pub(crate) fn alike_spots(
        &self,
        said: &mut Report,
        call: &str,
        at: usize,
        fast: Option<Spot>,
        slow: Option<usize>,
    ) {
        let fast = match fast {
            Some(spot) => Some(self.stand_of(spot)),
            None => None,
        };
        self.alike_numbers(said, call, at, fast, slow);
    }

    /// The stand of a spot.
    fn stand_of(&self, spot: Spot) -> usize {
        match spot.index {
            Some(index) => match self.twin.at_index(spot.holder.number, index) {
                Some(stand) => stand,
                None => usize::MAX,
            },
            None => spot.holder.number,
        }
    }

    pub(crate) fn alike_places(&self, said: &mut Report, at: usize, spot: Spot) {
        match self.tree.place(spot) {
            Ok(place) => {
                let is_alike = are_same(place.parts(), self.twin.parts(at));
                self.hold(said, "place", at, is_alike);
            }
            Err(_) => said.refuse(),
        }
    }

    pub(crate) fn alike_contents(
        &self,
        said: &mut Report,
        call: &str,
        at: usize,
        fast: Option<&Content>,
        slow: Option<&Content>,
    ) {
        let mut came = Report::new(self.alloc);
        let mut told = Report::new(self.alloc);
        show_content(&mut came, fast);
        show_content(&mut told, slow);
        self.alike(said, call, at, &came, &told);
    }

    pub(crate) fn alike_leaves(
        &self,
        said: &mut Report,
        call: &str,
        at: usize,
        fast: Option<&Leaf>,
        slow: Option<&Leaf>,
    ) {
        let mut came = Report::new(self.alloc);
        let mut told = Report::new(self.alloc);
        show_leaf(&mut came, fast);
        show_leaf(&mut told, slow);
        self.alike(said, call, at, &came, &told);
    }
}

/// How many parts two places have in common, from the root on.
pub(crate) fn in_common(place: &[Part], other: &[Part]) -> usize {
    let mut common = 0usize;
    for (part, other) in place.iter().zip(other.iter()) {
        if !is_same(part, other) {
            return common;
        }
        common = common.saturating_add(1);
    }
    common
}

fn are_same(place: &[Part], other: &[Part]) -> bool {
    place.len() == other.len() && in_common(place, other) == place.len()
}

fn is_same(part: &Part, other: &Part) -> bool {
    match (part, other) {
        (Part::Index(index), Part::Index(other)) => index == other,
        (Part::Name(name), Part::Name(other)) => name.as_str() == other.as_str(),
        _ => false,
    }
}
