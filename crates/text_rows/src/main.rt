//! Rows on texts, from a file: what is told of each text is compared with what is wanted. It prints the names
//! of the rows that differ, and counts those that are met. The head of the file says what a row's lines mean.
#![tactic(auto)]

mod commands;
mod names;
mod row;
mod told;

use row::Row;
use rp_value::Memory;
use std::alloc::{AllocError, Global};
use std::{fs, io};

/// The file of the rows.
const ROWS: &str = "cases";

/// Whether what is told of the row's text is what it wants. A row that wants nothing isn't met.
fn is_met(alloc: Global, row: &Row) -> Result<bool, Memory> {
    let text = row.text(alloc)?;
    Ok(
        row.wants_something()
            && told::has_tokens(alloc, row, &text)?
            && told::has_names(row, &text)
            && told::has_tree(alloc, row, &text)?
            && commands::has_report(alloc, row, &text)?,
    )
}

fn main(rt: HostRuntime) -> io::Result<()> {
    let text = fs::read_to_string(&rt, ROWS)?;
    let mut count: u64 = 0;
    let mut met: u64 = 0;
    for part in text.split("\nrow ").skip(1) {
        let row = Row::new(part);
        count = count.saturating_add(1);
        match is_met(rt.alloc(), &row) {
            Ok(true) => met = met.saturating_add(1),
            Ok(false) => println!(rt; "differs: {}", row.name)?,
            Err(Memory) => return Err(io::Error::from(AllocError)),
        }
    }
    println!(rt; "{met} of {count} rows are met")
}
