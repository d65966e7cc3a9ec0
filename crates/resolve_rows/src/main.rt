//! Rows on programs of texts, from two files: what a text's program is, which rule it breaks first, or which
//! limit it passes. It prints the rows that differ, with what is told, and counts those that are met. The
//! head of each file says what a row is.
#![tactic(auto)]

mod crdts;
mod exprs;
mod out;
mod piece;
mod row;
mod rule;
mod stmts;
mod tables;
mod told;

use crate::told::{Manner, told_of};
use row_programs::{Tally, lines_behind};
use rp_value::Memory;
use std::alloc::{AllocError, Global};
use std::{fs, io};

/// The file of the rows with a text of several lines.
const ROWS: &str = "cases";

/// The file of the rows on the type rules, each on a line.
const RULES: &str = "rules";

/// What a row wants whose tables aren't compared.
const PROGRAM: &str = "a program\n";

/// Counts a row, with what is told of its text.
fn count_row(alloc: Global, part: &str, tally: &mut Tally) -> Result<(), Memory> {
    let text = row::text_of(alloc, part)?;
    let wanted = lines_behind(alloc, part, "> ")?;
    let is_named = wanted.as_slice() == PROGRAM.as_bytes();
    let manner = if is_named {
        Manner::Named
    } else {
        Manner::Tables
    };
    let told = told_of(alloc, text.as_slice(), manner)?;
    let is_met = told == wanted;
    let told = String::from_utf8(told).map_err(|_| Memory)?;
    tally.count(row::name_of(part), is_met, told.as_str())?;
    Ok(())
}

fn tell(alloc: Global, rows: &str, rules: &str) -> Result<String, Memory> {
    let mut tally = Tally::new(alloc);
    for part in rows.split("\nrow ").skip(1) {
        count_row(alloc, part, &mut tally)?;
    }
    for row in rules.lines() {
        rule::count_row(alloc, row, &mut tally)?;
    }
    Ok(tally.told(alloc)?)
}

fn main(rt: HostRuntime) -> io::Result<()> {
    let rows = fs::read_to_string(&rt, ROWS)?;
    let rules = fs::read_to_string(&rt, RULES)?;
    match tell(rt.alloc(), &rows, &rules) {
        Ok(told) => print!(rt; "{told}"),
        Err(Memory) => Err(io::Error::from(AllocError)),
    }
}
