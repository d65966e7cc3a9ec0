//! What a signature keeps.
ghost use Rattle.std.specs.Prelude.{◌≡◌, Some, slice_get, length, nat_le};
ghost use Rattle.std.specs.List.{list_all, count_by};
ghost use Rattle.rp_logic.specs.Signatures as spec;

use crate::sort::{FnDecl, LogicCon, Sort};
use rp_value::List;

/// Whether a signature of these parts keeps what each keeps.
pub fn is_signature(
    sorts: &[Sort],
    consts: &[u32],
    fns: &[FnDecl],
    rels: &[List<u32>],
    cons: &[LogicCon],
) -> bool
    ensures { result ≡ spec.is_signature sorts.now consts.now fns.now rels.now cons.now }
{
    are_of_sorts(sorts.len(), consts, fns, rels, cons)
        && has_one_int_and_str(sorts)
        && list_their_own(cons, sorts)
        && are_listed(sorts, cons)
}

fn are_of_sorts(
    sorts: usize,
    consts: &[u32],
    fns: &[FnDecl],
    rels: &[List<u32>],
    cons: &[LogicCon],
) -> bool
    ensures { result ≡ spec.are_of_sorts sorts consts.now fns.now rels.now cons.now }
{
    are_below(sorts, consts)
        && are_fns_within(sorts, fns)
        && are_rels_within(sorts, rels)
        && are_cons_within(sorts, cons)
}

fn are_below(n: usize, numbers: &[u32]) -> bool
    ensures { result ≡ spec.are_below n numbers.now }
{
    numbers.iter().all(|k| (*k as usize) < n)
}

fn is_fn_within(sorts: usize, decl: &FnDecl) -> bool
    ensures { result ≡ spec.is_fn_within sorts decl.now }
{
    are_below(sorts, decl.args.as_slice()) && (decl.result as usize) < sorts
}

fn are_fns_within(sorts: usize, fns: &[FnDecl]) -> bool
    ensures { result ≡ list_all (spec.is_fn_within sorts) fns.now }
{
    for decl in fns {
        if !is_fn_within(sorts, decl) {
            return false;
        }
    }
    true
}

fn are_rels_within(sorts: usize, rels: &[List<u32>]) -> bool
    ensures { result ≡ list_all (spec.are_below sorts) rels.now }
{
    for args in rels {
        if !are_below(sorts, args.as_slice()) {
            return false;
        }
    }
    true
}

fn is_con_within(sorts: usize, con: &LogicCon) -> bool
    ensures { result ≡ spec.is_con_within sorts con.now }
{
    (con.sort as usize) < sorts && are_below(sorts, con.args.as_slice())
}

fn are_cons_within(sorts: usize, cons: &[LogicCon]) -> bool
    ensures { result ≡ list_all (spec.is_con_within sorts) cons.now }
{
    for con in cons {
        if !is_con_within(sorts, con) {
            return false;
        }
    }
    true
}

fn is_int(sort: &Sort) -> bool
    ensures { result ≡ spec.is_int (Some sort.now) }
{
    match sort {
        Sort::Int => true,
        _ => false,
    }
}

fn is_str(sort: &Sort) -> bool
    ensures { result ≡ spec.is_str (Some sort.now) }
{
    match sort {
        Sort::Str => true,
        _ => false,
    }
}

fn has_one_int_and_str(sorts: &[Sort]) -> bool
    ensures { result ≡ spec.has_one_int_and_str sorts.now }
{
    has_one_int(sorts) && has_one_str(sorts)
}

fn has_one_int(sorts: &[Sort]) -> bool
    ensures { result ≡ nat_le (count_by (λ sort. spec.is_int (Some sort)) sorts.now) 1 }
{
    sorts.iter().filter(|sort| is_int(sort)).count() <= 1
}

fn has_one_str(sorts: &[Sort]) -> bool
    ensures { result ≡ nat_le (count_by (λ sort. spec.is_str (Some sort)) sorts.now) 1 }
{
    sorts.iter().filter(|sort| is_str(sort)).count() <= 1
}

fn contains(numbers: &[u32], n: usize) -> bool
    ensures { result ≡ spec.contains numbers.now n }
{
    numbers.iter().any(|k| *k as usize == n)
}

fn are_distinct(numbers: &[u32]) -> bool
    ensures { result ≡ spec.are_distinct numbers.now }
{
    let mut left = numbers;
    while let [first, rest @ ..] = left {
        if contains(rest, *first as usize) {
            return false;
        }
        left = rest;
    }
    true
}

fn is_con_of(cons: &[LogicCon], c: u32, sort: usize) -> bool
    ensures { result ≡ spec.is_con_of (slice_get cons.now c) sort }
{
    match cons.get(c as usize) {
        Some(con) => con.sort as usize == sort,
        None => false,
    }
}

fn are_own(cons: &[LogicCon], sort: usize, numbers: &[u32]) -> bool
    ensures { result ≡ spec.are_own cons.now sort numbers.now }
{
    are_cons_of(cons, sort, numbers) && are_distinct(numbers)
}

fn are_cons_of(cons: &[LogicCon], sort: usize, numbers: &[u32]) -> bool
    ensures { result ≡ list_all (λ c. spec.is_con_of (slice_get cons.now c) sort) numbers.now }
{
    numbers.iter().all(|c| is_con_of(cons, *c, sort))
}

fn list_their_own(cons: &[LogicCon], sorts: &[Sort]) -> bool
    ensures { result ≡ spec.list_their_own cons.now 0 sorts.now }
{
    for s in 0..sorts.len() {
        if !are_own(cons, s, listed(sorts, s)) {
            return false;
        }
    }
    true
}

/// The constructors that the sort lists.
fn listed(sorts: &[Sort], sort: usize) -> &[u32]
    ensures { result.now ≡ spec.listed (slice_get sorts.now sort) }
{
    match sorts.get(sort) {
        Some(Sort::Datatype(cons)) => cons.as_slice(),
        _ => &[],
    }
}

fn are_listed(sorts: &[Sort], cons: &[LogicCon]) -> bool
    ensures { result ≡ spec.are_listed sorts.now 0 cons.now }
{
    for c in 0..cons.len() {
        if !contains(listed(sorts, cons[c].sort as usize), c) {
            return false;
        }
    }
    true
}
