//! `check_certificate FILE CERTIFICATE` says whether a certificate shows that a file's problem has no exact cover:
//! `right`, or `wrong` and the number of the first wrong line. `trials/try_certificates.py` runs it.
#![tactic(auto)]

use cover_certificates::{Checked, check_certificate};
use dlx_reader::read_problem;
use std::env;
use std::fs::File;
use std::io::{self, Read};
use std::process::ExitCode;

/// All bytes of a file.
fn text_of(rt: &HostRuntime, name: &str) -> io::Result<Vec<u8>> {
    let mut text = Vec::new(rt.alloc());
    File::open(rt, name)?.read_to_end(&mut text)?;
    Ok(text)
}

/// Tests a certificate, prints what that came to, and returns the exit status.
fn tell_checked(rt: &HostRuntime, file: &str, certificate: &str) -> io::Result<u8> {
    let text = text_of(rt, file)?;
    let Ok(read) = read_problem(rt.alloc(), &text) else {
        println!(rt; "the file is refused")?;
        return Ok(3);
    };
    match check_certificate(rt.alloc(), &read.problem, &text_of(rt, certificate)?)? {
        Checked::Right => {
            println!(rt; "right")?;
            Ok(0)
        }
        Checked::Wrong(line, expected) => {
            println!(rt; "wrong: line {line}: {expected:?}")?;
            Ok(1)
        }
    }
}

/// The words of the command line behind the program's name.
fn given_words(rt: &HostRuntime) -> io::Result<Vec<String>> {
    let mut given = Vec::new(rt.alloc());
    for word in env::args(rt)?.skip(1) {
        given.push(word)?;
    }
    Ok(given)
}

fn main(rt: HostRuntime) -> io::Result<ExitCode> {
    let words = given_words(&rt)?;
    if let [file, certificate] = words.as_slice() {
        return Ok(ExitCode::from(tell_checked(&rt, file, certificate)?));
    }
    println!(rt; "check_certificate FILE CERTIFICATE")?;
    Ok(ExitCode::from(2))
}
