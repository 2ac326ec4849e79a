//! Nodes and spots: places of a story by number.

ghost use Rattle.std.specs.Prelude.{◌≡◌, None};

/// Content of a story, by its number in reading order, the root's being 0 (docs/STORY_FORMAT.md, "Places"). Every call takes
/// a number beyond the story's content for the root.
#[derive(Clone, Copy, Default, PartialEq, Eq)]
pub struct NodeId {
    pub number: usize,
}

impl NodeId {
    /// The root.
    pub const ROOT: NodeId = NodeId { number: 0 };
}

/// A place of a story: an index in a container, which may be the container's end, or without an index the content itself. Content
/// by index has a spot of either kind, so `==` also tells apart spots of one place.
#[derive(Clone, Copy, PartialEq, Eq)]
pub struct Spot {
    pub holder: NodeId,
    pub index: Option<u32>,
}

impl Spot {
    /// The place of a content itself. Takes no memory.
    #[inline(always)]
    pub fn of(node: NodeId) -> Spot
        ensures holder { result.holder ≡ node }
        ensures index { result.index ≡ None }
    {
        Spot {
            holder: node,
            index: None,
        }
    }
}
