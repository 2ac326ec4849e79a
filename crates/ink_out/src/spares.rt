//! Sections that were closed, and may be opened again.

use crate::opened::Opened;
use std::alloc::{AllocError, Global};
use std::marker::Model;

/// So many are kept at the most.
const MOST_SPARES: usize = 16;

/// Strings and tags that were closed: what they held is of no use any more, and their memory is used again.
#[derive(Drop)]
pub(crate) struct Spares {
    list: Vec<Opened>,
}

impl Model for Spares {
    ghost Value = { Unit {0} };

    ghost view = { λ s. tt };
}

impl Spares {
    /// None, which takes no memory.
    pub(crate) fn new(alloc: Global) -> Spares {
        Spares {
            list: Vec::new(alloc),
        }
    }

    /// Makes room for those that will be closed. The one error is a refused request for memory, which is made once.
    #[inline(always)]
    pub(crate) fn make_room(&mut self) -> Result<(), AllocError> {
        if self.list.capacity() > 0 {
            return Ok(());
        }
        self.list.reserve_exact(MOST_SPARES)
    }

    /// Hands one out. Takes no memory.
    #[inline(always)]
    pub(crate) fn take(&mut self) -> Option<Opened> {
        self.list.pop()
    }

    /// Keeps one that was closed, where there is room for it. Takes no memory.
    #[inline(always)]
    pub(crate) fn keep(&mut self, closed: Option<Opened>) {
        let Some(closed) = closed else {
            return;
        };
        if self.list.len() < self.list.capacity() {
            self.list.push_reserved(closed);
        }
    }
}
