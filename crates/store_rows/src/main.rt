//! Worked rows on what the store answers: reads a file of cases, prints the rows that differ, and counts those that are
//! met. The file says how a case is written.
#![tactic(auto)]

mod notation;
mod row;

use crate::notation::{Word, cut};
use crate::row::is_met;
use row_programs::{Tally, lines_behind, program_of};
use rp_lang::Program;
use rp_value::Memory;
use std::alloc::{AllocError, Global};
use std::{fs, io};

/// Tells the rows of a block. A row asks the query that is named last before it, else query 0.
fn tell_rows(alloc: Global, p: &Program, block: &str, tally: &mut Tally) -> Result<(), Memory> {
    let (title, rows) = cut(block, '\n');
    let mut query: u32 = 0;
    for line in rows.split('\n') {
        if let Some(number) = line.strip_prefix("query ") {
            match u32::read(number) {
                Some(number) => query = number,
                None => tally.count(title, false, line)?,
            }
        } else if let Some(met) = is_met(alloc, p, query, line)? {
            tally.count(title, met, line)?;
        }
    }
    Ok(())
}

/// Tells a block. A text that is no program counts as a row that differs.
fn tell_block(alloc: Global, block: &str, tally: &mut Tally) -> Result<(), Memory> {
    let text = lines_behind(alloc, block, "| ")?;
    match program_of(alloc, text.as_slice()) {
        Some(p) => {
            let told = tell_rows(alloc, &p, block, tally);
            p.let_go();
            told
        }
        None => Ok(tally.count("a program", false, block)?),
    }
}

fn tell(alloc: Global, text: &str) -> Result<String, Memory> {
    let mut tally = Tally::new(alloc);
    for block in text.split("\nblock ").skip(1) {
        tell_block(alloc, block, &mut tally)?;
    }
    Ok(tally.told(alloc)?)
}

fn main(rt: HostRuntime) -> io::Result<()> {
    let text = fs::read_to_string(&rt, "cases")?;
    match tell(rt.alloc(), &text) {
        Ok(told) => print!(rt; "{told}"),
        Err(Memory) => Err(io::Error::from(AllocError)),
    }
}
