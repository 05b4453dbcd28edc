//! The command `cheric`, over the system's files and standard streams.
//!
//! Promise: none of its own: it hands the real streams to `cheric` of `cheric_top`, and its status to the caller.
//! Definitions (`specs/`): `Command` of `cheric_top`.
//! Main lemmas (`proofs/`): none.
#![tactic(auto)]

use cheric_top::{Answer, cheric, status_of};
use ck_base::{HostFiles, Sink, StdError, StdInput, StdOutput};
use std::env;
use std::io::{self, BufReader};
use std::process::ExitCode;

/// The words with which the program was called, or none where one isn't UTF-8.
fn words_of(rt: &HostRuntime) -> io::Result<Vec<String>> {
    let mut words = Vec::new(rt.alloc());
    match env::args(rt) {
        Ok(args) => {
            for word in args {
                words.push(word)?;
            }
        }
        Err(e) if e.kind() == io::ErrorKind::OutOfMemory => return Err(e),
        Err(_) => (),
    }
    Ok(words)
}

/// Does what the words say, and gives the status.
fn run(rt: &HostRuntime) -> io::Result<u8> {
    let alloc = rt.alloc();
    let words = words_of(rt)?;
    let mut files = HostFiles::new(rt.clone()?);
    let mut input = StdInput::new(BufReader::new(alloc, rt.reader())?);
    let mut out = StdOutput::new(rt.stdout());
    let mut notes: StdError<_> = StdOutput::new(rt.stderr());
    Ok(cheric(alloc, &words, &mut files, &mut input, &mut out, &mut notes))
}

/// The answer where there is no memory for the words or the input's buffer, so nothing was done.
fn without_memory(rt: &HostRuntime) -> u8 {
    let mut notes: StdError<_> = StdOutput::new(rt.stderr());
    match notes.put(b"memory\n") {
        Ok(()) => status_of(Answer::Memory),
        Err(_) => status_of(Answer::Output),
    }
}

fn main(rt: HostRuntime) -> ExitCode {
    let status = match run(&rt) {
        Ok(status) => status,
        Err(_) => without_memory(&rt),
    };
    ExitCode::from(status)
}
