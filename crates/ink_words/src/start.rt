//! What a program starts from: the words that it was given, and the story's file.

use ink_model::MAX_STORY;
use std::alloc::Global;
use std::env;
use std::fs::{File, Files};
use std::io::{self, Read};
use std::rt::Env;

/// Bytes that are read of a story: as many as it may have, and one more, which tells that there are more.
const MOST: u64 = MAX_STORY as u64 + 1;

/// The words that the program was started with. The error is that they cannot be read, or that there is no memory for them.
pub fn words<R: Env + Alloc>(rt: &R) -> io::Result<Vec<String<R::A>, R::A>> {
    let words = env::args(rt)?.collect(rt.alloc())?;
    Ok(words)
}

/// The bytes of a story's file, of which no more are read than tell that it is over a story's limit. The error is that the file
/// cannot be read, or that there is no memory for it.
pub fn read_story_file(files: &impl Files, alloc: Global, path: &str) -> io::Result<Vec<u8>> {
    let file = File::open(files, path)?;
    let mut bytes = Vec::new(alloc);
    file.take(MOST).read_to_end(&mut bytes)?;
    Ok(bytes)
}
