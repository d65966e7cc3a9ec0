//! Puts, of the programs of a file, the signature, the axioms and the invariants as formulas of logic in another shape,
//! with names for numbers. The gate compares it with what a person has judged. The head of the file says what a program is.
#![tactic(auto)]

mod formulas;
mod names;
mod out;
mod piece;
mod told;

use row_programs::{lines_behind, program_of};
use rp_value::Memory;
use std::alloc::{AllocError, Global};
use std::{fs, io};

/// The file of the programs.
const PROGRAMS: &str = "programs";

/// What is told of the program with this text.
fn told_of_text(alloc: Global, text: &[u8]) -> Result<Vec<u8>, Memory> {
    match program_of(alloc, text) {
        Some(p) => {
            let told = told::told_of(alloc, &p);
            p.let_go();
            told
        }
        None => Ok(b"no program\n".to_vec(alloc)?),
    }
}

fn tell(alloc: Global, programs: &str) -> Result<Vec<u8>, Memory> {
    let mut told = Vec::new(alloc);
    for part in programs.split("\nprogram ").skip(1) {
        let name = part.lines().next().unwrap_or("");
        told.extend_from_slice(b"# ")?;
        told.extend_from_slice(name.as_bytes())?;
        told.extend_from_slice(b"\n")?;
        let text = lines_behind(alloc, part, "| ")?;
        let lines = told_of_text(alloc, text.as_slice())?;
        told.extend_from_slice(lines.as_slice())?;
    }
    Ok(told)
}

fn main(rt: HostRuntime) -> io::Result<()> {
    let programs = fs::read_to_string(&rt, PROGRAMS)?;
    let Ok(told) = tell(rt.alloc(), &programs) else {
        return Err(io::Error::from(AllocError));
    };
    match String::from_utf8(told) {
        Ok(told) => print!(rt; "{told}"),
        Err(_) => Ok(()),
    }
}
