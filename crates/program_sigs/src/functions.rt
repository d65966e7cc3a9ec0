//! The constants and functions of a program's signatures.
ghost use Rattle.std.specs.Prelude.{◌≡◌, ◌++◌, ◌∷◌, [], map, filter, IfOk, OnOk};
ghost use Rattle.rp_lang.specs.declared.query.QueryDecl.{QueryDecl as Query};
ghost use Rattle.rp_lang.specs.ProgramView.{program_view};
ghost use Rattle.rp_lang.specs.Typing.{is_get as gives_value};
ghost use Rattle.rp_symbols.specs.Numbers as number;
ghost use Rattle.rp_symbols.specs.Signatures as spec;

use crate::numbers::{info_sort, op_sort, outcome_sort, plus, sort_of};
use crate::relations::one;
use crate::sorts::sorts_of_types;
use rp_lang::{Program, QueryDecl, QueryKind};
use rp_logic::FnDecl;
use rp_value::{List, Memory, Ty, copy_list};
use std::alloc::Global;

/// The invocation that acts, where there is one.
pub fn const_decls(alloc: Global, views: u32) -> Result<List<u32>, Memory>
    ensures { IfOk result (λ consts. consts ≡ spec.const_decls views) }
{
    if views == 0 {
        Ok(List::new(alloc))
    } else {
        one(alloc, 1)
    }
}

/// A query that gives a value.
pub fn is_get(kind: QueryKind) -> bool
    ensures { result ≡ gives_value kind }
{
    match kind {
        QueryKind::GetReg => true,
        QueryKind::GetSum => true,
        QueryKind::Contains => false,
        QueryKind::HasKey => false,
    }
}

/// The function of a query's values.
fn val_decl(alloc: Global, p: &Program, query: &QueryDecl) -> Result<FnDecl, Memory>
    ensures { IfOk result (λ decl. decl ≡ spec.fn_of (map (spec.sort_of (program_view p.now)) query.now.args) (spec.sort_of (program_view p.now) query.now.result)) }
{
    let result = sort_of(p, query.result)?;
    let args = sorts_of_types(alloc, p, query.args.as_slice())?;
    Ok(FnDecl { args, result })
}

/// That function, if the query gives a value.
fn push_val(
    alloc: Global,
    vals: &mut List<FnDecl>,
    p: &Program,
    query: &QueryDecl,
) -> Result<(), Memory>
    ensures { OnOk result (vals.new ≡ vals.old ++ map (λ (query : Query). spec.fn_of (map (spec.sort_of (program_view p.now)) query.args) (spec.sort_of (program_view p.now) query.result)) (filter (λ (query : Query). gives_value query.kind) (query.now ∷ []))) }
{
    if !is_get(query.kind) {
        return Ok(());
    }
    vals.push(val_decl(alloc, p, query)?)?;
    Ok(())
}

/// The functions of the values of queries, at one view.
pub fn val_decls(alloc: Global, p: &Program) -> Result<List<FnDecl>, Memory>
    ensures { IfOk result (λ vals. vals ≡ spec.val_decls (program_view p.now)) }
{
    let mut vals = List::new(alloc);
    for query in p.queries.as_slice() {
        push_val(alloc, &mut vals, p, query)?;
    }
    Ok(vals)
}

fn push_copies(alloc: Global, fns: &mut List<FnDecl>, vals: &[FnDecl]) -> Result<(), Memory>
    ensures { OnOk result (fns.new ≡ fns.old ++ vals.now) }
{
    for decl in vals {
        fns.push(decl.copy(alloc)?)?;
    }
    Ok(())
}

/// The functions of the values of queries, at so many views.
pub fn push_vals(
    alloc: Global,
    fns: &mut List<FnDecl>,
    p: &Program,
    views: u32,
) -> Result<(), Memory>
    ensures { OnOk result (fns.new ≡ fns.old ++ spec.val_decls_at (program_view p.now) views) }
{
    let vals = val_decls(alloc, p)?;
    for _view in 0..views {
        push_copies(alloc, fns, vals.as_slice())?;
    }
    Ok(())
}

/// The function over these sorts.
fn push_fn(fns: &mut List<FnDecl>, args: List<u32>, sort: u32) -> Result<(), Memory>
    ensures { OnOk result (fns.new ≡ fns.old ++ spec.fn_of args sort ∷ []) }
{
    fns.push(FnDecl { args, result: sort })?;
    Ok(())
}

/// The operation and the invocation of a call, the record of an invocation.
fn push_records(alloc: Global, fns: &mut List<FnDecl>, p: &Program) -> Result<(), Memory>
    ensures { OnOk result (fns.new ≡ fns.old ++ spec.fn_of (number.call_sort ∷ []) (number.op_sort (program_view p.now)) ∷ spec.fn_of (number.call_sort ∷ []) number.inv_sort ∷ spec.fn_of (number.inv_sort ∷ []) (number.info_sort (program_view p.now)) ∷ []) }
{
    push_fn(fns, one(alloc, 0)?, op_sort(p)?)?;
    push_fn(fns, one(alloc, 0)?, 1)?;
    push_fn(fns, one(alloc, 1)?, info_sort(p)?)?;
    Ok(())
}

/// The function over these sorts, two times.
fn push_twice(alloc: Global, fns: &mut List<FnDecl>, args: &[u32], sort: u32) -> Result<(), Memory>
    ensures { OnOk result (fns.new ≡ fns.old ++ spec.fn_of args.now sort ∷ spec.fn_of args.now sort ∷ []) }
{
    push_fn(fns, copy_list(alloc, args)?, sort)?;
    push_fn(fns, copy_list(alloc, args)?, sort)?;
    Ok(())
}

/// The functions of the program's signatures with so many begins.
pub fn fn_decls(alloc: Global, p: &Program, begins: u32) -> Result<List<FnDecl>, Memory>
    ensures { IfOk result (λ fns. fns ≡ spec.fn_decls (program_view p.now) begins) }
{
    let mut fns = List::new(alloc);
    push_records(alloc, &mut fns, p)?;
    push_twice(alloc, &mut fns, &[1], outcome_sort(p)?)?;
    let int = sort_of(p, Ty::Int)?;
    push_twice(alloc, &mut fns, &[int, int], int)?;
    push_vals(alloc, &mut fns, p, plus(3, plus(begins, begins)?)?)?;
    Ok(fns)
}
