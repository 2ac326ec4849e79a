//! Down in the list of a story's nodes.

ghost use Rattle.std.specs.Prelude.{◌≡◌, IfSome, option_map};
ghost use Rattle.ink_model.specs.Story.Tree.{down};
ghost use Rattle.ink_json.specs.Descent.{tree_at, Stands, size_of, leads};
ghost use Rattle.ink_json.specs.Order.{key_part};

use crate::key::{Key, compare_parts};
use crate::node::Node;
use crate::nodes::Nodes;
use ink_model::Content;

/// The number of what stands one part down from the content of a number; none where nothing does.
pub(crate) fn child(nodes: &Nodes, number: usize, part: Key<'_>) -> Option<usize>
    requires { Stands nodes.now number }
    ensures found { option_map (tree_at nodes.now) result ≡ down (key_part part.entry) (tree_at nodes.now number) }
    ensures stands { IfSome result (Stands nodes.now) }
{
    let end = number + size(&nodes.at(number));
    let mut next = number + 1;
    while next < end {
        let node = nodes.at(next);
        if is_at(&node, part) {
            return Some(next);
        }
        next += size(&node);
    }
    None
}

// How many nodes there are of the content of a node and all that is in it.
fn size(node: &Node<'_>) -> usize
    ensures { result ≡ size_of node.now.content }
{
    match node.content() {
        Content::Leaf(_) => 1,
        Content::Container(container) => container.size as usize,
    }
}

// Whether a part leads to the content of a node from the one around it.
fn is_at(node: &Node<'_>, part: Key<'_>) -> bool
    ensures { result ≡ leads (key_part part.entry) node.now.last }
{
    match node.last() {
        Some(last) => compare_parts(part, last).is_eq(),
        None => false,
    }
}
