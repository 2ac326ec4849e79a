//! What is kept beside a content: the link to the one after it, and whether flags are around it.

ghost use Rattle.std.specs.Prelude.{◌≡◌, ◌<◌, ◌^◌, Some};
ghost use Rattle.ink_tree.specs.Kept.{is_under_flags, linked_to};
ghost use Rattle.ink_tree.specs.declared.spot.NodeId.{NodeId};

use crate::spot::NodeId;

/// The content after a content, by twice its number, and one more where a container around has flags. The root comes after none,
/// so it stands for none. A story has many contents, so each of these takes four bytes.
#[derive(Clone, Copy)]
pub(crate) struct Link {
    bits: u32,
}

impl Link {
    /// To a content other than the root, or to none.
    pub(crate) fn to(next: Option<NodeId>, flagged: bool) -> Link
        requires { (n : NodeId) → next ≡ Some n → (0 < n.number) × (n.number < 2 ^ 31) }
        ensures next { linked_to result ≡ next }
        ensures flagged { is_under_flags result ≡ flagged }
    {
        let twice = match next {
            Some(next) => 2 * next.number as u32,
            None => 0,
        };
        Link {
            bits: if flagged { twice + 1 } else { twice },
        }
    }

    /// The content after.
    #[inline(always)]
    pub(crate) fn next(&self) -> Option<NodeId>
        ensures { result ≡ linked_to self.now }
    {
        let number = self.bits as usize / 2;
        if number > 0 {
            Some(NodeId { number })
        } else {
            None
        }
    }

    /// Whether a container around has flags.
    pub(crate) fn is_under_flags(&self) -> bool
        ensures { result ≡ is_under_flags self.now }
    {
        self.bits % 2 == 1
    }
}
