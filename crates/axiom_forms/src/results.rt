//! What invocations give, and the markers of transactions.
ghost use Rattle.std.specs.Prelude.{◌≡◌, OnOk, IfOk, ◌++◌, ◌∷◌, [], map, Option, suc};
ghost use Rattle.rp_lang.specs.ProgramView.{program_view};
ghost use Rattle.rp_lang.specs.Views.{proc_view};
ghost use Rattle.rp_logic.specs.Views.{formula_view};
ghost use Rattle.rp_symbols.specs.Numbers as number;
ghost use Rattle.hist_struct.specs.Conditions as condition;
ghost use Rattle.hist_struct.specs.Axioms as spec;
ghost use Rattle.axiom_forms.specs.Together as together;

use crate::clauses::{clause, push, push_each, push_formula};
use crate::literal::{Literal, formula};
use program_sigs::{info_con, op_con, outcome_con, plus, unreturned_con};
use rp_lang::{ProcDecl, Program};
use rp_logic::Fml;
use rp_value::{Boxed, List, Memory, Ty};
use std::alloc::Global;

/// How many values a result has.
fn values_of(given: Option<Ty>) -> u32
    ensures { result ≡ condition.values_of given }
{
    match given {
        Some(_) => 1,
        None => 0,
    }
}

/// An invocation of this procedure that has returned has an outcome of it.
fn push_result_fits(
    alloc: Global,
    axioms: &mut List<Fml>,
    p: &Program,
    f: u32,
    n: u32,
    q: &ProcDecl,
) -> Result<(), Memory>
    ensures { OnOk result (map formula_view axioms.new ≡ map formula_view axioms.old ++ spec.results_fit (program_view p.now) f n (proc_view q.now ∷ [])) }
{
    let of_proc = Literal::NotBuilt(info_con(p, n)?, q.params.count(), 2, 0);
    let is_open = Literal::Built(unreturned_con(p)?, 0, f, 0);
    let fits = Literal::Built(outcome_con(p, n)?, values_of(q.result), f, 0);
    push_each(alloc, axioms, 1, 1, &[of_proc, is_open, fits])
}

/// So for each of these procedures.
fn push_results_fit(
    alloc: Global,
    axioms: &mut List<Fml>,
    p: &Program,
    f: u32,
    procs: &[ProcDecl],
) -> Result<(), Memory>
    ensures { OnOk result (map formula_view axioms.new ≡ map formula_view axioms.old ++ spec.results_fit (program_view p.now) f 0 (map proc_view procs.now)) }
{
    let mut n = 0;
    for q in procs {
        push_result_fits(alloc, axioms, p, f, n, q)?;
        n = plus(n, 1)?;
    }
    Ok(())
}

/// Who had returned keeps its outcome.
fn push_outcomes_stay(alloc: Global, axioms: &mut List<Fml>, p: &Program) -> Result<(), Memory>
    ensures { OnOk result (map formula_view axioms.new ≡ map formula_view axioms.old ++ together.outcomes_stay (program_view p.now)) }
{
    let is_open = Literal::Built(unreturned_con(p)?, 0, 3, 0);
    push_each(alloc, axioms, 1, 1, &[is_open, Literal::Equal(3, 0, 4, 0)])
}

/// Outcomes stay, and are those of the procedures.
pub fn push_results_stay(alloc: Global, axioms: &mut List<Fml>, p: &Program) -> Result<(), Memory>
    ensures { OnOk result (map formula_view axioms.new ≡ map formula_view axioms.old ++ spec.results_stay (program_view p.now)) }
{
    push_outcomes_stay(alloc, axioms, p)?;
    push_results_fit(alloc, axioms, p, 3, p.procs.as_slice())?;
    push_results_fit(alloc, axioms, p, 4, p.procs.as_slice())?;
    Ok(())
}

/// The other call opens this one's transaction: it is of the transaction, a marker, and this call or before it.
#[tactic(auto, using(rp_logic::proofs::FormulaViews::formula_views))]
fn marks(alloc: Global, con: u32) -> Result<Boxed<Fml>, Memory>
    ensures { IfOk result (λ f. formula_view f ≡ together.marks con) }
{
    let mut parts = List::new(alloc);
    parts.push(formula(alloc, Literal::Rel(6, 1, 0))?)?;
    parts.push(formula(alloc, Literal::Built(con, 0, 0, 0))?)?;
    push(
        &mut parts,
        clause(alloc, &[Literal::Same(1, 0), Literal::Rel(4, 0, 1)])?,
    )?;
    Ok(Boxed::new(alloc, Fml::And(parts))?)
}

/// Each call has a marker in its transaction.
#[tactic(auto, using(rp_logic::proofs::FormulaViews::formula_views))]
fn is_marked(alloc: Global, con: u32) -> Result<Boxed<Fml>, Memory>
    ensures { IfOk result (λ f. formula_view f ≡ together.is_marked con) }
{
    let some = Boxed::new(alloc, Fml::Ex(0, marks(alloc, con)?))?;
    Ok(Boxed::new(alloc, Fml::All(0, some))?)
}

/// Each call has a marker in its transaction, and of one transaction there is one.
pub fn push_markers_stand(alloc: Global, axioms: &mut List<Fml>, p: &Program) -> Result<(), Memory>
    ensures { OnOk result (map formula_view axioms.new ≡ map formula_view axioms.old ++ spec.markers_stand (program_view p.now)) }
{
    let con = op_con(p, 0)?;
    push_formula(axioms, is_marked(alloc, con)?)?;
    let first = Literal::NotBuilt(con, 0, 0, 1);
    let second = Literal::NotBuilt(con, 0, 0, 0);
    push_each(
        alloc,
        axioms,
        0,
        2,
        &[Literal::NotRel(6, 1, 0), first, second, Literal::Same(1, 0)],
    )?;
    Ok(())
}
