//! Stories, each asked by the calls of `Tree` and `Story` and by their slow twin: at each content and each container's end, and
//! for `entered` from each of these, or from some where they are many, to each. A line is a story. Its answer is how much was
//! compared, and `alike`, or else the first call that differs, with the place that it was asked about, what it gave and what its
//! twin gave; stands are told by their numbers.

use crate::spelling::SPELLED;
use crate::twin::{Twin, below, under};
use crate::written::{is_path, is_spelled};
use ink_check::{Story, check};
use ink_json::{RawStory, read_story};
use ink_model::{Part, Path, Place, ReadRefusal};
use ink_tree::{NodeId, Spot, Tree, read_path};
use inkcases::{NoAnswer, Report};
use std::alloc::{AllocError, Global};
use std::collections::BTreeMap;

/// The most pairs of two places, or of a path and a place, that are compared for one story.
const MOST_PAIRS: usize = 100_000;

/// How many contents are taken to be passed, at most, on the way to a place of a story as it was read: so of the largest story
/// some ten places are compared.
const MOST_PASSED: usize = 10_000;

/// A story by number, the same story as it was read, and its twin.
#[derive(Clone, Copy)]
pub(crate) struct Twins<'s, 'r> {
    pub alloc: Global,
    pub tree: &'s Tree,
    raw: &'s RawStory,
    pub twin: &'s Twin<'r>,
}

/// Writes how much of a story was compared: its content, pairs of a place before and a landing place, and paths from content.
pub(crate) fn answer(said: &mut Report, story: &str) -> Result<(), NoAnswer> {
    let raw = read_story(said.alloc(), story.as_bytes())?;
    compare_read(said, &raw, story)
}

fn compare_read(said: &mut Report, raw: &RawStory, story: &str) -> Result<(), NoAnswer> {
    let tree = Tree::build(said.alloc(), read_story(said.alloc(), story.as_bytes())?)?;
    let checked = check(said.alloc(), read_story(said.alloc(), story.as_bytes())?);
    compare_built(said, raw, &tree, &checked);
    Ok(())
}

fn compare_built(
    said: &mut Report,
    raw: &RawStory,
    tree: &Tree,
    checked: &Result<Story, ReadRefusal>,
) {
    let alloc = said.alloc();
    let mut twin = Twin::new(alloc);
    said.note(twin.read(alloc, raw.nodes()));
    let twins = Twins {
        alloc,
        tree,
        raw,
        twin: &twin,
    };
    twins.compare(said, checked);
}

/// How far apart those of so many are that are taken, so that there are not too many pairs of them and of others.
fn apart(count: usize, others: usize) -> usize {
    (count.saturating_mul(others) / MOST_PAIRS).saturating_add(1)
}

/// How many of so many are taken.
fn taken(count: usize, apart: usize) -> usize {
    count.div_ceil(apart.max(1))
}

/// The spot of a content itself.
fn on(number: usize) -> Spot {
    Spot {
        holder: NodeId { number },
        index: None,
    }
}

impl Twins<'_, '_> {
    fn compare(&self, said: &mut Report, checked: &Result<Story, ReadRefusal>) {
        self.compare_contents(said);
        self.compare_raw(said);
        self.compare_knots(said);
        self.compare_checked(said, checked);
        let landings = self.compare_landings(said);
        let paths = self.compare_paths(said);
        if said.is_empty() {
            said.show(self.twin.contents());
            said.put(" nodes, ");
            said.show(landings);
            said.put(" landings, ");
            said.show(paths);
            said.put(" paths: alike");
        }
    }

    // ---- content

    fn compare_contents(&self, said: &mut Report) {
        let len = self.twin.contents();
        self.alike_numbers(said, "len", 0, Some(self.tree.len()), Some(len));
        for at in 0..len {
            self.compare_content(said, at);
        }
    }

    /// Where a content is, and what it is.
    fn compare_content(&self, said: &mut Report, at: usize) {
        let (tree, twin) = (self.tree, self.twin);
        let node = NodeId { number: at };
        let flags = usize::from(tree.flags(node));
        let slow = usize::from(twin.flags(at));
        self.alike_numbers(said, "number_of", at, Some(tree.number_of(node)), Some(at));
        self.alike_numbers(said, "flags", at, Some(flags), Some(slow));
        self.alike_places(said, at, on(at));
        self.alike_spots(said, "spot", at, tree.spot(twin.parts(at)), Some(at));
        self.alike_nodes(said, "holder", at, tree.holder(node), twin.holder(at));
        self.alike_nodes(said, "first", at, tree.first(node), twin.inside(at));
        self.alike_contents(said, "content", at, tree.content(on(at)), twin.content(at));
        self.alike_leaves(said, "leaf", at, tree.leaf(node), twin.leaf(at));
    }

    /// The content at all places, or the last and some, as it was read, and what stands behind a container's last content and at
    /// no key.
    fn compare_raw(&self, said: &mut Report) {
        let len = self.twin.contents();
        self.compare_raw_in(said, len.saturating_sub(1));
        let apart = apart(len, len.min(MOST_PASSED));
        for turn in 0..taken(len, apart) {
            self.compare_raw_in(said, turn.saturating_mul(apart));
        }
    }

    fn compare_raw_in(&self, said: &mut Report, at: usize) {
        let (parts, twin) = (self.twin.parts(at), self.twin);
        self.alike_contents(said, "at", at, self.raw.at(parts), twin.content(at));
        self.compare_nothing(said, at, below(self.alloc, parts, twin.width(at)));
        if twin.named(at, "nowhere").is_none() {
            self.compare_nothing(said, at, under(self.alloc, parts, "nowhere"));
        }
    }

    /// Nothing stands at a place in a container.
    fn compare_nothing(&self, said: &mut Report, at: usize, place: Result<Place, AllocError>) {
        match place {
            Ok(place) => {
                self.alike_contents(said, "at in", at, self.raw.at(place.parts()), None);
            }
            Err(_) => said.refuse(),
        }
    }

    /// By the name of each container that gives itself one, and by each key.
    fn compare_knots(&self, said: &mut Report) {
        self.compare_knot(said, "nowhere");
        for at in 0..self.twin.contents() {
            if let Some(name) = self.twin.own_name(at) {
                self.compare_knot(said, name);
            }
            if let Some(Part::Name(name)) = self.twin.parts(at).last() {
                self.compare_knot(said, name.as_str());
            }
        }
    }

    fn compare_knot(&self, said: &mut Report, name: &str) {
        self.alike_nodes(
            said,
            "knot",
            0,
            self.tree.knot(name),
            self.twin.named(0, name),
        );
    }

    // ---- what is written

    fn compare_checked(&self, said: &mut Report, checked: &Result<Story, ReadRefusal>) {
        let mut fast = Report::new(self.alloc);
        let mut slow = Report::new(self.alloc);
        self.accept(&mut slow);
        match checked {
            Ok(story) => {
                fast.put("accepted");
                self.compare_written(said, story);
            }
            Err(refusal) => fast.unread(refusal),
        }
        self.alike(said, "check", 0, &fast, &slow);
    }

    /// Whether each path leads where it has to, or the first place where one does not.
    fn accept(&self, said: &mut Report) {
        match self.twin.first_bad() {
            Some(at) => {
                said.put("BadPath ");
                said.place(self.twin.parts(at));
            }
            None => said.put("accepted"),
        }
    }

    fn compare_written(&self, said: &mut Report, story: &Story) {
        let mut variables = BTreeMap::new(self.alloc);
        for at in 0..self.twin.contents() {
            let node = NodeId { number: at };
            let number = self.number_in(said, &mut variables, self.twin.variable(at));
            self.alike_numbers(said, "variable", at, story.variable(node), number);
            self.alike_spots(said, "target", at, story.target(node), self.twin.target(at));
            self.alike_nodes(
                said,
                "counted",
                at,
                story.counted(node),
                self.twin.counted(at),
            );
            self.compare_pushed(said, story, at);
        }
    }

    /// The number of a variable, which is the next where it is new.
    fn number_in<'n>(
        &self,
        said: &mut Report,
        variables: &mut BTreeMap<&'n str, usize>,
        variable: Option<&'n str>,
    ) -> Option<usize> {
        let name = variable?;
        if let Some(number) = variables.get(name) {
            return Some(*number);
        }
        let number = variables.len();
        if variables.insert(name, number).is_err() {
            said.refuse();
        }
        Some(number)
    }

    fn compare_pushed(&self, said: &mut Report, story: &Story, at: usize) {
        let is_alike = match (story.pushed(NodeId { number: at }), self.twin.pushed(at)) {
            (Some(fast), Some(slow)) => is_spelled(fast.get(), slow),
            (None, None) => true,
            _ => false,
        };
        self.hold(said, "pushed", at, is_alike);
    }

    // ---- landings

    /// At each place, and from each, or some, to each. Says how many pairs there are, those without a place before among them.
    fn compare_landings(&self, said: &mut Report) -> usize {
        let start = Some(self.twin.landed(0));
        self.alike_spots(said, "start", 0, Some(self.tree.start()), start);
        let len = self.twin.len();
        let apart = apart(len, len);
        let before = taken(len, apart);
        for at in 0..len {
            self.compare_flow(said, at, self.spot(at));
            self.compare_flow(said, at, self.found(at));
            self.compare_landing(said, None, at);
            for turn in 0..before {
                self.compare_landing(said, Some(turn.saturating_mul(apart)), at);
            }
        }
        before.saturating_add(1).saturating_mul(len)
    }

    /// The spot of a stand: that of its content, or else that of the end.
    fn spot(&self, at: usize) -> Spot {
        if at < self.twin.contents() {
            return on(at);
        }
        let holder = self.twin.holder(at).unwrap_or(0);
        Spot {
            holder: NodeId { number: holder },
            index: Some(self.twin.width(holder)),
        }
    }

    /// The one that the tree finds, which goes by the index of content.
    fn found(&self, at: usize) -> Spot {
        let found = self.tree.spot(self.twin.parts(at));
        found.unwrap_or(self.spot(at))
    }

    fn compare_flow(&self, said: &mut Report, at: usize, spot: Spot) {
        let (tree, twin) = (self.tree, self.twin);
        let (here, number) = (twin.content(at), twin.node(at));
        let there = twin.performed(at);
        let (first, content) = tree.first_content(spot);
        let (first_of_leaf, leaf) = tree.first_leaf(spot);
        self.alike_places(said, at, spot);
        self.alike_nodes(said, "node", at, tree.node(spot), number);
        self.alike_contents(said, "content", at, tree.content(spot), here);
        self.alike_spots(
            said,
            "land",
            at,
            Some(tree.land(spot)),
            Some(twin.landed(at)),
        );
        self.alike_spots(said, "next", at, tree.next(spot), twin.after(at));
        self.alike_leaves(said, "leaf_at", at, tree.leaf_at(spot), twin.leaf(at));
        self.alike_spots(said, "first_content", at, Some(first), Some(there));
        self.alike_contents(said, "first_content", at, content, twin.content(there));
        self.alike_spots(said, "first_leaf", at, Some(first_of_leaf), Some(there));
        self.alike_leaves(said, "first_leaf", at, leaf, twin.leaf(there));
    }

    /// Between spots of which one goes by the index of content.
    fn compare_landing(&self, said: &mut Report, previous: Option<usize>, at: usize) {
        let (spot, found) = match previous {
            Some(previous) => (Some(self.spot(previous)), Some(self.found(previous))),
            None => (None, None),
        };
        self.compare_entered(said, previous, at, spot, self.found(at));
        self.compare_entered(said, previous, at, found, self.spot(at));
    }

    fn compare_entered(
        &self,
        said: &mut Report,
        previous: Option<usize>,
        at: usize,
        from: Option<Spot>,
        to: Spot,
    ) {
        match self.tree.entered(from, to) {
            Ok(entered) => {
                let is_alike = self.twin.enters(previous, at, entered.as_slice());
                self.hold(said, "entered", at, is_alike);
            }
            Err(_) => said.refuse(),
        }
    }

    // ---- paths

    /// From each content by every path that the story has written, or by some, and by those that are spelled from its place and
    /// another. Says how many there are.
    fn compare_paths(&self, said: &mut Report) -> usize {
        let len = self.twin.contents();
        let written = self.written(said);
        let apart = apart(written.len(), len);
        let count = taken(written.len(), apart);
        for from in 0..len {
            for turn in 0..count {
                if let Some(path) = written.get(turn.saturating_mul(apart)) {
                    self.compare_path(said, from, path);
                }
            }
            self.compare_spelled(
                said,
                from,
                from.saturating_mul(7).saturating_add(3) % len.max(1),
            );
        }
        count.saturating_add(SPELLED).saturating_mul(len)
    }

    /// The paths that the story has written.
    fn written(&self, said: &mut Report) -> Vec<&str> {
        let mut paths = Vec::new(self.alloc);
        for at in 0..self.twin.contents() {
            if let Some(path) = self.twin.written(at) {
                if paths.push(path).is_err() {
                    said.refuse();
                }
            }
        }
        paths
    }

    pub(crate) fn compare_path(&self, said: &mut Report, from: usize, path: &str) {
        match read_path(self.alloc, path) {
            Ok(read) => {
                self.hold(said, path, from, is_path(path) && is_spelled(&read, path));
                let fast = self.tree.resolve(NodeId { number: from }, &read);
                self.alike_spots(said, path, from, fast, self.twin.leads(from, path));
                self.compare_lead(said, from, path, &read);
            }
            Err(refusal) => match NoAnswer::from(refusal) {
                NoAnswer::OutOfMemory => said.refuse(),
                _ => {
                    let led = self.tree.lead(NodeId { number: from }, path);
                    self.hold(said, path, from, !is_path(path) && led.is_none());
                }
            },
        }
    }

    // The lead of a text, beside what its path comes to.
    fn compare_lead(&self, said: &mut Report, from: usize, path: &str, read: &Path) {
        let led = self.tree.lead(NodeId { number: from }, path);
        if let Some(lead) = led {
            let by_index = matches!(read.parts.as_slice().last(), Some(Part::Index(_)));
            self.hold(said, path, from, lead.by_index == by_index);
        }
        let spot = match led {
            Some(lead) => Some(lead.spot),
            None => None,
        };
        self.alike_spots(said, path, from, spot, self.twin.leads(from, path));
    }
}
