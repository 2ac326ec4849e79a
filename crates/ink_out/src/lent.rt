//! Texts that were made to be shared, whose memory is used again.

ghost use Rattle.std.specs.Prelude.{◌≡◌, [], IfOk, string_bytes};

use crate::cleaning::MOST_ROOM;
use ink_model::{Shared, Text};
use std::alloc::{AllocError, Global};
use std::marker::Model;

/// So many are kept at the most.
const MOST_LENT: usize = 8;

/// The texts that strings and tags were joined into. Where such a text has no other owner any more, its memory is used for the
/// next.
#[derive(Drop)]
pub(crate) struct Lent {
    texts: Vec<Shared<Text>>,
}

impl Model for Lent {
    ghost Value = { Unit {0} };

    ghost view = { λ l. tt };
}

impl Lent {
    /// None, which takes no memory.
    pub(crate) fn new(alloc: Global) -> Lent {
        Lent {
            texts: Vec::new(alloc),
        }
    }

    /// Room for a text, of one that has no other owner, where there is such a one. Takes no memory.
    pub(crate) fn take_room(&mut self, alloc: Global) -> String
        ensures { string_bytes result ≡ [] }
    {
        for shared in self.texts.iter_mut() {
            if let Ok(text) = shared.replace(Text::from_string(String::new(alloc))) {
                return emptied(text);
            }
        }
        String::new(alloc)
    }

    /// Shares a text, in the place of one that has no other owner, where there is such a one. The one error is a refused request for
    /// memory, or a count of owners that is full.
    pub(crate) fn share(
        &mut self,
        alloc: Global,
        mut text: Text,
    ) -> Result<Shared<Text>, AllocError>
        ensures { IfOk result (λ shared. shared ≡ text) }
    {
        for shared in self.texts.iter_mut() {
            match shared.replace(text) {
                Ok(_) => return shared.share(),
                Err(back) => text = back,
            }
        }
        let shared = Shared::new(alloc, text)?;
        self.keep(&shared)?;
        Ok(shared)
    }

    // Keeps a text, unless it is a long one. Where there are too many, others are let go. The one error is as above.
    fn keep(&mut self, shared: &Shared<Text>) -> Result<(), AllocError> {
        if shared.as_str().len() > MOST_ROOM {
            return Ok(());
        }
        if self.texts.len() >= MOST_LENT {
            self.texts.clear();
        }
        self.texts.push(shared.share()?)?;
        Ok(())
    }
}

// The memory of a text.
fn emptied(text: Text) -> String
    ensures { string_bytes result ≡ [] }
{
    let mut room = text.into_string();
    room.clear();
    room
}
