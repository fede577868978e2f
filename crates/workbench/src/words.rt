//! The words of the command line, and the files that they name.

use std::env;
use std::fs::File;
use std::io::{self, Read};

/// The words of the command line behind the program's name.
pub fn given_words(rt: &HostRuntime) -> io::Result<Vec<String>> {
    let mut given = Vec::new(rt.alloc());
    for word in env::args(rt)?.skip(1) {
        given.push(word)?;
    }
    Ok(given)
}

/// The bytes of a file.
pub fn text_of(rt: &HostRuntime, file: &str) -> io::Result<Vec<u8>> {
    let mut text = Vec::new(rt.alloc());
    File::open(rt, file)?.read_to_end(&mut text)?;
    Ok(text)
}
