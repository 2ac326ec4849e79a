//! Tables: the files that hold cases, and running them.

use crate::tally::Tally;
use std::alloc::Global;
use std::env;
use std::fs::{File, Files};
use std::io::{self, ErrorKind, Read};
use std::process::ExitCode;
use std::rt::Env;

/// A table: the name of its file, and its text.
#[derive(Clone, Copy)]
pub struct Table<'t> {
    pub file: &'t str,
    pub text: &'t str,
}

/// The kinds of tables that a program runs.
pub trait Tables: Copy + Drop {
    /// The kind that the beginning of a file's name tells, without its folders.
    fn of_name(name: &str) -> Option<Self>;

    /// Runs the cases of a table of this kind.
    fn run(&self, rt: &impl Print, alloc: Global, table: Table<'_>, tally: &mut Tally);
}

/// Runs the tables that the program's words name, or its own where it has none; prints how they went, and says by the status
/// whether all hold.
pub fn run_tables<T: Tables>(
    rt: &(impl Files + Print + Env + Alloc),
    alloc: Global,
    own: &[&str],
) -> ExitCode {
    let mut tally = Tally::new();
    match arguments(rt) {
        Ok(arguments) => {
            if arguments.len() < 2 {
                for file in own {
                    run_table::<T>(rt, alloc, file, &mut tally);
                }
            }
            if let Some(named) = arguments.as_slice().get(1..) {
                for file in named {
                    run_table::<T>(rt, alloc, file.as_str(), &mut tally);
                }
            }
        }
        Err(_) => tally.refuse(),
    }
    let _ = tally.print(rt);
    if tally.failed == 0 {
        ExitCode::SUCCESS
    } else {
        ExitCode::FAILURE
    }
}

// The words that the program was started with, its own name first.
fn arguments<R: Env + Alloc>(rt: &R) -> io::Result<Vec<String<R::A>, R::A>> {
    let arguments = env::args(rt)?.collect(rt.alloc())?;
    Ok(arguments)
}

// Reads a file and runs its cases. A file that is no table, or that can't be read, is a case that fails.
fn run_table<T: Tables>(rt: &(impl Files + Print), alloc: Global, file: &str, tally: &mut Tally) {
    let Some(kind) = T::of_name(name_of(file)) else {
        let _ = println!(rt; "{file}: no kind of table");
        return tally.fail();
    };
    match read(rt, alloc, file) {
        Ok(bytes) => {
            let text = str::from_utf8(&bytes).unwrap_or("no text");
            kind.run(rt, alloc, Table { file, text }, tally);
        }
        Err(error) => count_error(rt, file, &error, tally),
    }
}

// A file's name without its folders.
fn name_of(file: &str) -> &str {
    match file.rsplit_once('/') {
        Some((_, name)) => name,
        None => file,
    }
}

fn read(files: &impl Files, alloc: Global, file: &str) -> io::Result<Vec<u8>> {
    let mut bytes = Vec::new(alloc);
    File::open(files, file)?.read_to_end(&mut bytes)?;
    Ok(bytes)
}

fn count_error(rt: &impl Print, file: &str, error: &io::Error, tally: &mut Tally) {
    if error.kind() == ErrorKind::OutOfMemory {
        return tally.refuse();
    }
    let _ = println!(rt; "{file}: {error}");
    tally.fail();
}
