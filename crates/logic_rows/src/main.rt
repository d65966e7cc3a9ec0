//! Runs the rows of a file of cases on the logic and on the checker of refutations, prints those that differ, and
//! counts them. The file says how rows are written.
#![tactic(auto)]

mod reader;
mod row;
mod signature;

use row::is_met;
use std::{fs, io};

/// Prints the names of the rows over one signature that differ, and answers how many are met, and how many there are.
fn run_rows(rt: &HostRuntime, section: &str) -> io::Result<(u64, u64)> {
    let mut rows = section.split("\ncase ");
    let symbols = rows.next().unwrap_or("");
    let symbols = symbols.lines().next().unwrap_or("");
    let mut met: u64 = 0;
    let mut count: u64 = 0;
    for row in rows {
        count = count.saturating_add(1);
        if is_met(rt.alloc(), symbols, row).unwrap_or(false) {
            met = met.saturating_add(1);
        } else {
            let name = row.lines().next().unwrap_or("");
            println!(rt; "differs: {name}")?;
        }
    }
    Ok((met, count))
}

fn main(rt: HostRuntime) -> io::Result<()> {
    let text = fs::read_to_string(&rt, "cases")?;
    let mut met: u64 = 0;
    let mut count: u64 = 0;
    for section in text.split("\nsig ").skip(1) {
        let (section_met, section_count) = run_rows(&rt, section)?;
        met = met.saturating_add(section_met);
        count = count.saturating_add(section_count);
    }
    println!(rt; "{met} of {count} rows are met")
}
