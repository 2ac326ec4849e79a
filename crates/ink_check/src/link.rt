//! What the written path of a content comes to.

ghost use Rattle.std.specs.Prelude.{◌≡◌, option_map};
ghost use Rattle.ink_check.specs.Links as links;

use ink_model::{Path, Shared};
use ink_tree::{NodeId, Spot};

/// What the written path of a content comes to.
#[derive(Drop)]
pub(crate) enum Link {
    /// There is none.
    Nothing,
    /// A place to which flow goes.
    Flows(Spot),
    /// The same, or a place that is asked about, with the container whose visits the content asks for.
    Counts(Spot, NodeId),
    /// A value, and where it leads.
    Pushes(Spot, Shared<Path>),
    /// No path, but a variable, by its number.
    Variable(usize),
}

impl Link {
    /// Where the path leads or lands.
    pub(crate) fn target(&self) -> Option<Spot>
        ensures { result ≡ links.target_of self.now }
    {
        match self {
            Link::Nothing | Link::Variable(_) => None,
            Link::Flows(target) | Link::Counts(target, _) | Link::Pushes(target, _) => Some(
                *target,
            ),
        }
    }

    /// The container whose visits the content asks for.
    pub(crate) fn counted(&self) -> Option<NodeId>
        ensures { result ≡ links.counted_of self.now }
    {
        match self {
            Link::Counts(_, container) => Some(*container),
            Link::Nothing | Link::Flows(_) | Link::Pushes(..) | Link::Variable(_) => None,
        }
    }

    /// The path that is pushed.
    pub(crate) fn pushed(&self) -> Option<&Shared<Path>>
        ensures { option_map (λ path. path.now) result ≡ links.pushed_of self.now }
    {
        match self {
            Link::Pushes(_, path) => Some(path),
            Link::Nothing | Link::Flows(_) | Link::Counts(..) | Link::Variable(_) => None,
        }
    }

    /// The number of the variable.
    pub(crate) fn variable(&self) -> Option<usize>
        ensures { result ≡ links.number_of self.now }
    {
        match self {
            Link::Variable(number) => Some(*number),
            Link::Nothing | Link::Flows(_) | Link::Counts(..) | Link::Pushes(..) => None,
        }
    }
}

/// What a written path is for.
#[derive(Clone, Copy)]
pub(crate) enum Purpose {
    /// A value, which is not relative.
    Value,
    /// To ask for the visits of a container.
    Count,
    /// To go there.
    Flow,
    /// To go there by a choice that is offered once only.
    OnceOnly,
}
