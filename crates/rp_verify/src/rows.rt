// Rows of truth values at which formulas are evaluated.
ghost use Rattle.std.specs.Prelude.{◌≡◌, ◌≤◌, ◌-◌, ◌++◌, map, filter, length, OnOk, IfOk, replicate, false};
ghost use Rattle.std.specs.List.{list_all};
ghost use Rattle.event_machine.specs.Tests.{all_values};
ghost use Rattle.rp_lang.specs.Views.{formula_view};
ghost use Rattle.rp_verify.specs.means.Rows.{with_values, holds, fails};

use crate::truth::is_true;
use rp_lang::Formula;
use rp_value::Memory;
use std::alloc::Global;

/// The values of a procedure's parameters, of which there are at most eight. Those behind them are `false`.
pub type Row = [bool; 8];

/// Adds the row with all values at the places `from` to `params`.
fn add_rows(rows: &mut Vec<Row>, row: Row, from: usize, params: usize) -> Result<(), Memory>
    requires within { from ≤ params }
    requires eight { params ≤ 8 }
    ensures { OnOk result (rows.new.items ≡ rows.old.items ++ map (with_values row from) (all_values (params - from))) }
{
    if from == params {
        rows.push(row)?;
        return Ok(());
    }
    let mut row = row;
    row[from] = false;
    add_rows(rows, row, from + 1, params)?;
    row[from] = true;
    add_rows(rows, row, from + 1, params)
}

/// All rows of so many parameters.
pub fn all_rows(alloc: Global, params: usize) -> Result<Vec<Row>, Memory>
    requires eight { params ≤ 8 }
    ensures { IfOk result (λ rows. rows.items ≡ map (with_values (replicate 8 false) 0) (all_values params)) }
{
    let mut rows = Vec::new(alloc);
    add_rows(&mut rows, [false; 8], 0, params)?;
    Ok(rows)
}

/// Whether the formula holds at each row.
pub fn holds_at_all(formula: &Formula, rows: &[Row]) -> bool
    ensures { result ≡ list_all (holds (formula_view formula.now)) rows.now }
{
    for row in rows {
        if !is_true(formula, row) {
            return false;
        }
    }
    true
}

/// The rows at which a formula holds, and those at which it doesn't.
#[derive(Drop)]
pub struct Split {
    pub holding: Vec<Row>,
    pub failing: Vec<Row>,
}

pub fn divided(alloc: Global, formula: &Formula, rows: &[Row]) -> Result<Split, Memory>
    ensures holding { IfOk result (λ split. split.holding.items ≡ filter (holds (formula_view formula.now)) rows.now) }
    ensures failing { IfOk result (λ split. split.failing.items ≡ filter (fails (formula_view formula.now)) rows.now) }
{
    let mut holding = Vec::new(alloc);
    let mut failing = Vec::new(alloc);
    for row in rows {
        if is_true(formula, row) {
            holding.push(*row)?;
        } else {
            failing.push(*row)?;
        }
    }
    Ok(Split { holding, failing })
}
