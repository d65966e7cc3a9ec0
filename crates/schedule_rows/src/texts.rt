//! Rows on texts of schedules and values: a program, and rows of a line each.
use crate::{answers, values};
use row_programs::{Tally, lines_behind, program_of};
use rp_lang::Program;
use rp_value::Memory;
use std::alloc::Global;

/// Appends what a row gives. A row of no kind gives nothing.
fn answer(
    alloc: Global,
    p: &Program,
    kind: &str,
    given: &str,
    out: &mut String,
) -> Result<(), Memory> {
    match kind {
        "read" => answers::whole(alloc, p, given, out),
        "line" => answers::line(alloc, p, given, out),
        "fronts" => answers::fronts(alloc, p, given, out),
        "means" => values::meant(alloc, p, given, out),
        "longest" => values::longest(alloc, p, given, out),
        "text" => values::text(alloc, p, given, out),
        _ => Ok(()),
    }
}

/// Tells a row, `KIND GIVEN = ANSWER`.
fn tell_row(
    alloc: Global,
    p: &Program,
    name: &str,
    row: &str,
    tally: &mut Tally,
) -> Result<(), Memory> {
    let (asked, wanted) = row.split_once(" = ").unwrap_or((row, "an answer"));
    let (kind, given) = asked.split_once(' ').unwrap_or((asked, ""));
    let mut out = String::new(alloc);
    answer(alloc, p, kind, given, &mut out)?;
    tally.count(name, out.as_str() == wanted, out.as_str())?;
    Ok(())
}

/// Tells rows, a line each: a name, and the row behind a colon.
fn tell_rows(alloc: Global, p: &Program, rows: &str, tally: &mut Tally) -> Result<(), Memory> {
    for line in rows.split('\n') {
        if let Some((name, row)) = line.split_once(": ") {
            tell_row(alloc, p, name, row, tally)?;
        }
    }
    Ok(())
}

/// Tells a program's rows, behind the line `rows`. A text that is no program counts as a row that differs.
fn tell_program(alloc: Global, block: &str, tally: &mut Tally) -> Result<(), Memory> {
    let (head, rows) = block.split_once("\nrows\n").unwrap_or((block, ""));
    let text = lines_behind(alloc, head, "| ")?;
    match program_of(alloc, text.as_slice()) {
        Some(p) => {
            let told = tell_rows(alloc, &p, rows, tally);
            p.let_go();
            told
        }
        None => Ok(tally.count("a program", false, head)?),
    }
}

/// Tells the programs of a file and their rows.
pub(crate) fn tell(alloc: Global, text: &str, tally: &mut Tally) -> Result<(), Memory> {
    for part in text.split("\nprogram ").skip(1) {
        tell_program(alloc, part, tally)?;
    }
    Ok(())
}
