//! Worked rows on schedules: how they end, and what their texts are. Reads two files of rows, prints the rows that differ, and
//! counts those that are met. Each file says how a row is written.
#![tactic(auto)]

mod answers;
mod ends;
mod spelled;
mod texts;
mod values;

use row_programs::Tally;
use rp_value::Memory;
use std::alloc::{AllocError, Global};
use std::{fs, io};

fn tell(alloc: Global, ends: &str, texts: &str) -> Result<String, Memory> {
    let mut tally = Tally::new(alloc);
    ends::tell(alloc, ends, &mut tally)?;
    texts::tell(alloc, texts, &mut tally)?;
    Ok(tally.told(alloc)?)
}

fn main(rt: HostRuntime) -> io::Result<()> {
    let ends = fs::read_to_string(&rt, "ends")?;
    let texts = fs::read_to_string(&rt, "texts")?;
    match tell(rt.alloc(), &ends, &texts) {
        Ok(told) => print!(rt; "{told}"),
        Err(Memory) => Err(io::Error::from(AllocError)),
    }
}
