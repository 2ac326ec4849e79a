//! Paths that are spelled from two places of a story, some of which lead nowhere.

use crate::alike::in_common;
use crate::twins::Twins;
use ink_model::Part;
use inkcases::Report;

/// How many paths are spelled from a content.
pub(crate) const SPELLED: usize = 9;

impl Twins<'_, '_> {
    /// Paths to another content: from the first one and from the root, each by indexes and by names. Then paths that are mostly
    /// wrong: further up than the root; to the other place's end, past the end and on from the end; and by a name that is not there.
    pub(crate) fn compare_spelled(&self, said: &mut Report, from: usize, to: usize) {
        self.compare_right(said, from, to, false);
        self.compare_right(said, from, to, true);
        let mut path = Report::new(self.alloc);
        for _ in 0..=self.twin.parts(from).len() {
            path.put(".^");
        }
        self.compare_spelling(said, from, &path);
        self.compare_ends(said, from, &self.down(to, true), self.twin.width(to));
    }

    fn compare_right(&self, said: &mut Report, from: usize, to: usize, by_name: bool) {
        let mut path = Report::new(self.alloc);
        self.spell(&mut path, from, to, by_name);
        self.compare_spelling(said, from, &path);
        self.compare_end(said, from, &self.down(to, by_name), None, "");
    }

    fn compare_ends(&self, said: &mut Report, from: usize, down: &Report, end: u32) {
        self.compare_end(said, from, down, Some(end), "");
        self.compare_end(said, from, down, Some(end.saturating_add(1)), "");
        self.compare_end(said, from, down, Some(end), ".^");
        self.compare_end(said, from, down, None, ".nowhere");
    }

    /// From the root, of which there is no path.
    fn down(&self, to: usize, by_name: bool) -> Report {
        let mut path = Report::new(self.alloc);
        self.spell(&mut path, 0, to, by_name);
        path
    }

    /// By a path from the root, which has a dot in front there, an index behind it and more.
    fn compare_end(
        &self,
        said: &mut Report,
        from: usize,
        down: &Report,
        index: Option<u32>,
        rest: &str,
    ) {
        let mut path = Report::new(self.alloc);
        path.put(down.as_str().strip_prefix('.').unwrap_or(""));
        if let Some(index) = index {
            path.put(".");
            path.show(index);
        }
        path.put(rest);
        self.compare_spelling(said, from, &path);
    }

    fn compare_spelling(&self, said: &mut Report, from: usize, path: &Report) {
        said.note_of(path);
        self.compare_path(said, from, path.as_str());
    }

    /// Writes a path from a stand up to what is around both, and down from there.
    fn spell(&self, path: &mut Report, from: usize, to: usize, by_name: bool) {
        let (from, to) = (self.twin.parts(from), self.twin.parts(to));
        let common = in_common(from, to);
        for _ in common..from.len() {
            path.put(".^");
        }
        let mut here = 0usize;
        for (depth, part) in to.iter().enumerate() {
            here = self.twin.down(here, part).unwrap_or(0);
            if depth >= common {
                path.put(".");
                self.spell_part(path, here, part, by_name);
            }
        }
    }

    /// Writes a part, or the name that the container there gives itself.
    fn spell_part(&self, path: &mut Report, at: usize, part: &Part, by_name: bool) {
        match (part, self.twin.own_name(at)) {
            (Part::Index(_), Some(name)) if by_name => path.put(name),
            _ => path.part(part),
        }
    }
}
