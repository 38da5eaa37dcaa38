//! The words that a program was started with.

use std::alloc::Global;
use std::io::ErrorKind;
use std::rt::Env;
use std::{env, io};

/// The words, without the program's name.
fn all_words(alloc: Global, rt: &(impl Env + AllocGlobal)) -> io::Result<Vec<String>> {
    let mut words = Vec::new(alloc);
    for word in env::args(rt)?.skip(1) {
        words.push(word)?;
    }
    Ok(words)
}

/// The words of the command line, without the program's name, where words that are not UTF-8 are none at all: these are no command
/// either.
///
/// # Errors
///
/// Want of memory.
pub fn command_words(alloc: Global, rt: &(impl Env + AllocGlobal)) -> io::Result<Vec<String>> {
    match all_words(alloc, rt) {
        Err(error) if error.kind() == ErrorKind::InvalidData => Ok(Vec::new(alloc)),
        words => words,
    }
}
