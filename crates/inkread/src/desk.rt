//! The desk of a reading: what the words bind, and functions that ask the reader.

use ink_page::{Asked, Turn};
use ink_player::{Bound, Desk, Observer};
use ink_words::{PlayDesk, Script, Table};
use std::alloc::{AllocError, Global};

/// The turn functions of a reading.
pub(crate) type Answering<R> = Turn<Script, Asked<R>>;

/// The desk of a reading.
pub(crate) type ReaderDesk<R> = Desk<Table, Answering<R>, Observer>;

/// The desk with what the words bind.
pub(crate) fn reader_desk<R: Drop>(
    alloc: Global,
    desk: PlayDesk,
) -> Result<ReaderDesk<R>, AllocError> {
    let (functions, watchers) = desk.close();
    let mut desk: ReaderDesk<R> = Desk::new(alloc);
    for (name, function) in functions {
        bind(&mut desk, name.as_str(), function)?;
    }
    for (name, watcher) in watchers {
        if desk.watch(name.as_str(), watcher).is_err() {
            return Err(AllocError);
        }
    }
    Ok(desk)
}

fn bind<R: Drop>(
    desk: &mut ReaderDesk<R>,
    name: &str,
    function: Bound<Table, Script>,
) -> Result<(), AllocError> {
    let bound = match function {
        Bound::Pure(table) => desk.bind_pure(name, table).is_ok(),
        Bound::Turn(script) => desk.bind_turn(name, Turn::Bound(script)).is_ok(),
    };
    if bound { Ok(()) } else { Err(AllocError) }
}
