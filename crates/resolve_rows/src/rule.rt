//! Rows on the type rules, each on a line.

use crate::told::{Manner, told_of};
use row_programs::Tally;
use rp_value::Memory;
use std::alloc::Global;

/// The text of a row: what stands behind `lawful`, or behind the rule and the place.
fn text_of(row: &str) -> &str {
    if let Some(text) = row.strip_prefix("lawful ") {
        return text;
    }
    let behind_rule = row.split_once(' ').map_or("", |parts| parts.1);
    behind_rule.split_once(' ').map_or("", |parts| parts.1)
}

/// Counts a row, with what is told of its text. A remark and an empty line are none.
pub fn count_row(alloc: Global, row: &str, tally: &mut Tally) -> Result<(), Memory> {
    if row.is_empty() || row.starts_with('#') {
        return Ok(());
    }
    let text = text_of(row);
    let told = told_of(alloc, text.as_bytes(), Manner::Bytes)?;
    let told = String::from_utf8(told).map_err(|_| Memory)?;
    let told = told.as_str().trim_end();
    let whole = format!(in alloc; "{told} {text}")?;
    tally.count(row, whole.as_str() == row, told)?;
    Ok(())
}
