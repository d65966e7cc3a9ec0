//! The program `repliss`.
#![tactic(auto)]

use repliss_cli::{Status, run};
use rp_io::{OsFiles, OsSink};
use std::env;
use std::io::ErrorKind;
use std::process::ExitCode;

/// The words of the command line. No words come where one of them isn't text, which is a usage refusal.
fn words_of(rt: &HostRuntime) -> Result<Vec<String>, Status> {
    let mut words = Vec::new(rt.alloc());
    let args = match env::args(rt) {
        Ok(args) => args,
        Err(error) if error.kind() == ErrorKind::OutOfMemory => return Err(Status::NoMemory),
        Err(_) => return Ok(words),
    };
    for word in args {
        if words.push(word).is_err() {
            return Err(Status::NoMemory);
        }
    }
    Ok(words)
}

/// What the words ask for is done over the files and the output of the operating system.
fn status(rt: &HostRuntime) -> Status {
    match words_of(rt) {
        Ok(words) => {
            let mut files = OsFiles::new(rt);
            let mut out = OsSink::new(rt);
            run(rt.alloc(), &words, &mut files, &mut out)
        }
        Err(status) => status,
    }
}

fn main(rt: HostRuntime) -> ExitCode {
    ExitCode::from(status(&rt).number())
}
