// The truth of formulas at truth values of the parameters.
ghost use Rattle.std.specs.Prelude.{◌≡◌, slice_get, unwrap_or, false};
ghost use Rattle.event_machine.specs.Propositions.{truth, all_true, any_true, value, is_true};
ghost use Rattle.event_machine.specs.Goals.{slots_of};
ghost use Rattle.rp_lang.specs.Views.{expr_view};
ghost use Rattle.rp_lang.specs.Views.{formula_view, formulas_view};

use rp_lang::{Expr, Formula};

/// The value of the parameter in the slot; no other slot has one.
fn value_at(values: &[bool], slot: u32) -> bool
    ensures { result ≡ unwrap_or (slice_get values.now slot) false }
{
    values.get(slot as usize).copied().unwrap_or(false)
}

/// Whether the term is `true`.
fn term_is_true(term: &Expr, values: &[bool]) -> bool
    ensures { result ≡ is_true (value (slots_of values.now) (expr_view term.now)) }
{
    match term {
        Expr::Slot(slot) => value_at(values, *slot),
        Expr::Con(con, args) => *con == 1 && args.is_empty(),
        _ => false,
    }
}

#[cycle(truth)]
pub fn is_true(formula: &Formula, values: &[bool]) -> bool
    ensures { result ≡ truth (slots_of values.now) (formula_view formula.now) }
{
    match formula {
        Formula::And(parts) => all_true(parts.as_slice(), values),
        Formula::Or(parts) => any_true(parts.as_slice(), values),
        Formula::Not(part) => !is_true(part.get(), values),
        Formula::Implies(left, right) => !is_true(left.get(), values)
            || is_true(right.get(), values),
        Formula::Holds(term) => term_is_true(term, values),
        _ => false,
    }
}

#[cycle(truth)]
fn all_true(parts: &[Formula], values: &[bool]) -> bool
    ensures { result ≡ all_true (slots_of values.now) (formulas_view parts.now) }
{
    for part in parts {
        if !is_true(part, values) {
            return false;
        }
    }
    true
}

#[cycle(truth)]
fn any_true(parts: &[Formula], values: &[bool]) -> bool
    ensures { result ≡ any_true (slots_of values.now) (formulas_view parts.now) }
{
    for part in parts {
        if is_true(part, values) {
            return true;
        }
    }
    false
}
