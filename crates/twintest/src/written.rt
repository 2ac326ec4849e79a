//! Paths and names as they are written, and where they lead.

use crate::twin::Twin;
use ink_model::choice_flags::is_once_only;
use ink_model::flags::counts_visits;
use ink_model::{Destination, Leaf, Part, Path};

/// The largest index of a path.
const MOST: u32 = 2_147_483_647;

impl<'s> Twin<'s> {
    /// Where a path as it is spelled leads from a content: by its indexes and names, and by `^` upward. It goes no further from a
    /// container's end.
    pub(crate) fn leads(&self, from: usize, path: &str) -> Option<usize> {
        if !is_path(path) {
            return None;
        }
        let (mut here, words) = match path.strip_prefix('.') {
            Some(words) => (from, words),
            None => (0, path),
        };
        for word in words.split('.') {
            let _content = self.content(here)?;
            here = self.stepped(here, word)?;
        }
        Some(here)
    }

    fn stepped(&self, at: usize, word: &str) -> Option<usize> {
        match index_of(word) {
            Some(index) => self.at_index(at, index),
            None if word == "^" => self.holder(at),
            None => self.named(at, word),
        }
    }

    /// Where flow lands by it: by an index there, and by a name on the container's first content.
    fn lands(&self, from: usize, path: &str) -> Option<usize> {
        let target = self.leads(from, path)?;
        let last = path.rsplit('.').next().unwrap_or(path);
        if index_of(last).is_some() {
            Some(target)
        } else {
            Some(self.landed(target))
        }
    }

    /// The path that the content there has written.
    pub(crate) fn written(&self, at: usize) -> Option<&'s str> {
        match self.leaf(at)? {
            Leaf::Target(text) | Leaf::Count(text) => Some(text.as_str()),
            Leaf::Choice { target, .. } => Some(target.as_str()),
            Leaf::Divert { to, .. } | Leaf::Call { to, .. } | Leaf::Tunnel { to, .. } => {
                written_to(to).0
            }
            _ => None,
        }
    }

    /// The variable that the content there reads or assigns, or that it declares as a global.
    pub(crate) fn variable(&self, at: usize) -> Option<&'s str> {
        match self.leaf(at)? {
            Leaf::Variable(name) | Leaf::Assign(name) | Leaf::AssignTemp(name) => {
                Some(name.as_str())
            }
            Leaf::Declare(name) => Some(name.as_str()),
            Leaf::Divert { to, .. } | Leaf::Call { to, .. } | Leaf::Tunnel { to, .. } => {
                written_to(to).1
            }
            _ => None,
        }
    }

    /// Where the written path of the content there leads: the target of a value or a count, and else the landing.
    pub(crate) fn target(&self, at: usize) -> Option<usize> {
        let path = self.written(at)?;
        match self.leaf(at)? {
            Leaf::Target(_) | Leaf::Count(_) => self.leads(at, path),
            _ => self.lands(at, path),
        }
    }

    /// The container whose visits the content there asks for: a count does, and a choice that is offered once only.
    pub(crate) fn counted(&self, at: usize) -> Option<usize> {
        match self.leaf(at)? {
            Leaf::Count(text) => self.leads(at, text.as_str()),
            Leaf::Choice { target, flags } if is_once_only(*flags) => {
                self.leads(at, target.as_str())
            }
            _ => None,
        }
    }

    /// The path that the content there pushes.
    pub(crate) fn pushed(&self, at: usize) -> Option<&'s str> {
        match self.leaf(at)? {
            Leaf::Target(text) => Some(text.as_str()),
            _ => None,
        }
    }

    /// The first content whose path does not lead where it has to.
    pub(crate) fn first_bad(&self) -> Option<usize> {
        for at in 0..self.contents() {
            if self.is_bad(at) {
                return Some(at);
            }
        }
        None
    }

    /// The path of a value is not relative, what is counted is a container whose visits are, and every path leads somewhere.
    fn is_bad(&self, at: usize) -> bool {
        let Some(path) = self.written(at) else {
            return false;
        };
        if self.leads(at, path).is_none() {
            return true;
        }
        match self.counted(at) {
            Some(container) => !counts_visits(self.flags(container)),
            None => self.pushed(at).is_some() && path.starts_with('.'),
        }
    }
}

/// What a destination has: the path, or the variable's name.
fn written_to(to: &Destination) -> (Option<&str>, Option<&str>) {
    match to {
        Destination::Path(path) => (Some(path.as_str()), None),
        Destination::Variable(name) => (None, Some(name.as_str())),
    }
}

/// Whether a text spells a path: names and indexes apart by dots.
pub(crate) fn is_path(text: &str) -> bool {
    for word in text.strip_prefix('.').unwrap_or(text).split('.') {
        if word.is_empty() || (is_digits(word) && index_of(word).is_none()) {
            return false;
        }
    }
    true
}

fn is_digits(word: &str) -> bool {
    for character in word.chars() {
        if !character.is_ascii_digit() {
            return false;
        }
    }
    true
}

/// The index that a word spells: digits alone do, of a number that is not too large.
pub(crate) fn index_of(word: &str) -> Option<u32> {
    match word.parse::<u32>() {
        Ok(index) if index <= MOST && is_digits(word) => Some(index),
        _ => None,
    }
}

/// Whether a path is what a text spells.
pub(crate) fn is_spelled(path: &Path, text: &str) -> bool {
    let (relative, text) = match text.strip_prefix('.') {
        Some(rest) => (true, rest),
        None => (false, text),
    };
    let mut words = text.split('.');
    for part in path.parts.as_slice() {
        if !is_word(part, words.next().unwrap_or("")) {
            return false;
        }
    }
    path.relative == relative && words.next().is_none()
}

fn is_word(part: &Part, word: &str) -> bool {
    match (part, index_of(word)) {
        (Part::Index(index), Some(spelled)) => *index == spelled,
        (Part::Name(name), None) => name.as_str() == word,
        _ => false,
    }
}
