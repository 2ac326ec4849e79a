//! A slow twin of the calls of `Tree` and `Story`: the rules of docs/STORY_FORMAT.md ("Places", "Paths"), docs/RUNNING.md
//! ("Places", "Visits") and docs/VARIABLES.md once more, each by a walk over a tree of the story's content, which is made of what
//! each container says it holds. None of the code is that of the calls.
//!
//! A stand is a place of content or of a container's end. It goes by its number: content by that of the reading order, and behind
//! all content the ends.

use ink_json::{Key, Node, Nodes};
use ink_model::{Container, Content, Leaf, MAX_NESTING, Part, Place, Text};
use std::alloc::{AllocError, Global};
use std::collections::BTreeMap;

/// A story's stands, those of its contents first.
#[derive(Drop)]
pub(crate) struct Twin<'s> {
    pub stands: Vec<Stand<'s>>,
    contents: usize,
}

/// A stand: its place, the content there, the container around it and its index there, what is in it by index and by key, how many
/// of both are yet to be read, and its end.
#[derive(Drop)]
pub(crate) struct Stand<'s> {
    pub place: Place,
    pub content: Option<&'s Content>,
    pub holder: Option<usize>,
    pub index: Option<usize>,
    pub list: Vec<usize>,
    pub keys: BTreeMap<&'s str, usize>,
    list_left: u32,
    keys_left: u32,
    pub end: Option<usize>,
}

// ---- the tree

impl<'s> Stand<'s> {
    fn new(alloc: Global, place: Place, holder: Option<usize>) -> Stand<'s> {
        Stand {
            index: index_in(place.parts()),
            place,
            content: None,
            holder,
            list: Vec::new(alloc),
            keys: BTreeMap::new(alloc),
            list_left: 0,
            keys_left: 0,
            end: None,
        }
    }

    fn hold(&mut self, content: &'s Content) {
        self.content = Some(content);
        if let Content::Container(container) = content {
            self.list_left = container.width;
            self.keys_left = container.keys;
        }
    }

    /// Takes content in: by index as long as the list has not all, and then by the name that leads to it. Its place is handed back.
    fn take(&mut self, alloc: Global, number: usize, name: &'s str) -> Result<Place, AllocError> {
        if self.list_left > 0 {
            self.list_left -= 1;
            let index = u32::try_from(self.list.len()).unwrap_or(u32::MAX);
            self.list.push(number)?;
            return below(alloc, self.place.parts(), index);
        }
        self.keys_left = self.keys_left.saturating_sub(1);
        self.keys.insert(name, number)?;
        under(alloc, self.place.parts(), name)
    }
}

/// The index of a place in the container around it.
fn index_in(place: &[Part]) -> Option<usize> {
    match place.last()? {
        Part::Index(index) => Some(*index as usize),
        Part::Name(_) => None,
    }
}

/// The place at an index in a container.
pub(crate) fn below(alloc: Global, place: &[Part], index: u32) -> Result<Place, AllocError> {
    let mut below = Place::from_parts(alloc, place)?;
    below.push(Part::Index(index))?;
    Ok(below)
}

/// The place of a name in a container.
pub(crate) fn under(alloc: Global, place: &[Part], name: &str) -> Result<Place, AllocError> {
    let mut under = Place::from_parts(alloc, place)?;
    under.push(Part::Name(Text::from_str(alloc, name)?))?;
    Ok(under)
}

/// The name that leads to a content, nothing where that is an index.
fn name_to<'s>(node: &Node<'s>) -> &'s str {
    match node.last() {
        Some(Key::Name(name)) => name,
        _ => "",
    }
}

impl<'s> Twin<'s> {
    /// With no content.
    pub(crate) fn new(alloc: Global) -> Twin<'s> {
        Twin {
            stands: Vec::new(alloc),
            contents: 0,
        }
    }

    /// Reads the list of a story's content.
    pub(crate) fn read(&mut self, alloc: Global, nodes: &'s Nodes) -> Result<(), AllocError> {
        for number in 0..nodes.len() {
            if let Some(node) = nodes.get(number) {
                self.add(alloc, number, &node)?;
            }
        }
        self.contents = self.stands.len();
        for holder in 0..self.contents {
            if self.container(holder).is_some() {
                self.add_end(alloc, holder)?;
            }
        }
        Ok(())
    }

    /// The next content.
    fn add(&mut self, alloc: Global, number: usize, node: &Node<'s>) -> Result<(), AllocError> {
        let holder = self.open_around(number.saturating_sub(1));
        let place = self.take(alloc, holder, number, name_to(node))?;
        let mut stand = Stand::new(alloc, place, holder);
        stand.hold(node.content());
        self.stands.push(stand)?;
        Ok(())
    }

    fn take(
        &mut self,
        alloc: Global,
        holder: Option<usize>,
        number: usize,
        name: &'s str,
    ) -> Result<Place, AllocError> {
        if let Some(holder) = holder {
            if let Some(around) = self.stands.get_mut(holder) {
                return around.take(alloc, number, name);
            }
        }
        Ok(Place::root(alloc))
    }

    /// The nearest container around the content that was read last, or this itself, that has not all that it holds.
    fn open_around(&self, last: usize) -> Option<usize> {
        let mut here = last;
        for _ in 0..=MAX_NESTING {
            let stand = self.stands.get(here)?;
            if stand.list_left > 0 || stand.keys_left > 0 {
                return Some(here);
            }
            here = stand.holder?;
        }
        None
    }

    fn add_end(&mut self, alloc: Global, holder: usize) -> Result<(), AllocError> {
        let end = self.stands.len();
        let place = below(alloc, self.parts(holder), self.width(holder))?;
        if let Some(stand) = self.stands.get_mut(holder) {
            stand.end = Some(end);
        }
        self.stands.push(Stand::new(alloc, place, Some(holder)))?;
        Ok(())
    }

    /// How many contents there are.
    pub(crate) fn contents(&self) -> usize {
        self.contents
    }

    /// How many stands there are.
    pub(crate) fn len(&self) -> usize {
        self.stands.len()
    }

    // ---- what stands there

    /// The place of a stand.
    pub(crate) fn parts(&self, at: usize) -> &[Part] {
        match self.stands.get(at) {
            Some(stand) => stand.place.parts(),
            None => &[],
        }
    }

    /// The content there.
    pub(crate) fn content(&self, at: usize) -> Option<&'s Content> {
        self.stands.get(at)?.content
    }

    /// The number of the content there.
    pub(crate) fn node(&self, at: usize) -> Option<usize> {
        if at < self.contents { Some(at) } else { None }
    }

    /// The content there that holds no other.
    pub(crate) fn leaf(&self, at: usize) -> Option<&'s Leaf> {
        match self.content(at)? {
            Content::Container(_) => None,
            Content::Leaf(leaf) => Some(leaf),
        }
    }

    fn container(&self, at: usize) -> Option<&'s Container> {
        match self.content(at)? {
            Content::Container(container) => Some(container),
            Content::Leaf(_) => None,
        }
    }

    /// The flags of the container there.
    pub(crate) fn flags(&self, at: usize) -> u8 {
        match self.container(at) {
            Some(container) => container.flags,
            None => 0,
        }
    }

    /// How many contents the container there has in its list.
    pub(crate) fn width(&self, at: usize) -> u32 {
        match self.container(at) {
            Some(container) => container.width,
            None => 0,
        }
    }

    /// The name that the container there gives itself.
    pub(crate) fn own_name(&self, at: usize) -> Option<&'s str> {
        match &self.container(at)?.name {
            Some(name) => Some(name.as_str()),
            None => None,
        }
    }
}
