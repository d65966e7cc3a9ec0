ghost use Rattle.std.specs.Prelude.{◌≡◌, ◌↔◌, Some, IsTrue, slice_get};
ghost use Rattle.rp_logic.specs.Signatures as symbols;
ghost use Rattle.rp_logic.specs.SigView.{sig_view};
ghost use Rattle.rp_logic.specs.Scopes.{scope_view};
ghost use Rattle.rp_logic.specs.Sorted as spec;
ghost use Rattle.rp_logic.specs.SortTests as test;
ghost use Rattle.rp_logic.specs.means.FormulaTests.{sort_test, sort_tests};
ghost use Rattle.rp_logic.specs.Views.{term_view, terms_view, atom_view, formula_view, formulas_view};

use crate::atom::Atom;
use crate::formula::Fml;
use crate::scope::Scope;
use crate::sig::Sig;
use crate::sort::{NewConst, Sort};
use crate::term::Term;

/// Whether the formula is a closed one over the signature. It takes no memory.
pub fn well_sorted(sig: &Sig, f: &Fml) -> bool
    ensures { IsTrue result ↔ spec.IsWellSorted (sig_view sig.now) (formula_view f.now) }
{
    is_sorted(sig, &[], &Scope::Closed, f)
}

#[cycle(is_sorted)]
#[tactic(auto, using(crate::proofs::FormulaViews::formula_views, crate::proofs::ScopeViews::scope_views))]
fn is_sorted(sig: &Sig, added: &[NewConst], scope: &Scope, f: &Fml) -> bool
    ensures { result ≡ sort_test (sig_view sig.now) added.now (scope_view scope.now) (formula_view f.now) }
{
    match f {
        Fml::And(parts) | Fml::Or(parts) => are_sorted(sig, added, scope, parts.as_slice()),
        Fml::All(sort, body) | Fml::Ex(sort, body) => *sort < sig.sorts.count()
            && is_sorted(sig, added, &Scope::Under(*sort, &*scope), body.get()),
        Fml::Lit(_, atom) => is_sorted_atom(sig, added, scope, atom),
    }
}

#[cycle(is_sorted)]
#[tactic(auto, using(crate::proofs::FormulaViews::formula_views, crate::proofs::ScopeViews::scope_views))]
fn are_sorted(sig: &Sig, added: &[NewConst], scope: &Scope, formulas: &[Fml]) -> bool
    ensures { result ≡ sort_tests (sig_view sig.now) added.now (scope_view scope.now) (formulas_view formulas.now) }
{
    for f in formulas {
        if !is_sorted(sig, added, scope, f) {
            return false;
        }
    }
    true
}

/// Whether the atom is over the signature, under quantifiers of these sorts, and with these
/// constants beside the signature's.
pub fn is_sorted_atom(sig: &Sig, added: &[NewConst], scope: &Scope, atom: &Atom) -> bool
    ensures { result ≡ test.atom_test (sig_view sig.now) added.now (scope_view scope.now) (atom_view atom.now) }
{
    match atom {
        Atom::Equal(a, b) => have_one_sort(
            sig,
            added,
            scope,
            head_sort(sig, added, scope, a),
            a,
            b,
        ),
        Atom::Le { a, b, k: _ } => have_one_sort(sig, added, scope, int_sort(sig), a, b),
        Atom::Rel(r, args) => match sig.rels.as_slice().get(*r as usize) {
            Some(sorts) => have_sorts(sig, added, scope, sorts.as_slice(), args.as_slice()),
            None => false,
        },
    }
}

fn have_one_sort(
    sig: &Sig,
    added: &[NewConst],
    scope: &Scope,
    sort: Option<u32>,
    a: &Term,
    b: &Term,
) -> bool
    ensures { result ≡ test.have_one_sort (sig_view sig.now) added.now (scope_view scope.now) sort (term_view a.now) (term_view b.now) }
{
    match sort {
        Some(sort) => has_sort(sig, added, scope, sort, a) && has_sort(sig, added, scope, sort, b),
        None => false,
    }
}

/// Whether the term has the sort, under quantifiers of these sorts, and with these constants beside the signature's.
#[cycle(has_sort)]
#[tactic(auto, using(crate::proofs::TermViews::term_views, crate::proofs::SortLaws::lengths_differ))]
pub fn has_sort(sig: &Sig, added: &[NewConst], scope: &Scope, sort: u32, t: &Term) -> bool
    ensures { result ≡ spec.has_sort (sig_view sig.now) added.now (scope_view scope.now) sort (term_view t.now) }
{
    match t {
        Term::Var(n) => is_sort(scope.sort_of(*n), sort),
        Term::Const(c) => is_sort(const_sort(sig, added, *c), sort),
        Term::Fn(f, args) => gives(sig, *f, sort)
            && have_sorts(sig, added, scope, takes(sig, *f), args.as_slice()),
        Term::Int(_) => is_int_sort(sig, sort),
        Term::Str(_) => is_str_sort(sig, sort),
        Term::Con(c, args) => is_con_of(sig, *c, sort)
            && have_sorts(sig, added, scope, fields_of(sig, *c), args.as_slice()),
        Term::Sel(c, i, t) => is_sort(field_sort(sig, *c, *i), sort)
            && has_sort(sig, added, scope, sort_of_con(sig, *c), t.get()),
        Term::Plus(t, _) => is_int_sort(sig, sort) && has_sort(sig, added, scope, sort, t.get()),
    }
}

/// Whether the terms are as many as the sorts, and have them in order.
#[cycle(has_sort)]
#[tactic(auto, using(crate::proofs::TermViews::term_views, crate::proofs::SortLaws::lengths_differ))]
fn have_sorts(sig: &Sig, added: &[NewConst], scope: &Scope, sorts: &[u32], terms: &[Term]) -> bool
    ensures { result ≡ spec.have_sorts (sig_view sig.now) added.now (scope_view scope.now) sorts.now (terms_view terms.now) }
{
    if sorts.len() != terms.len() {
        return false;
    }
    for i in 0..terms.len() {
        if !has_sort(sig, added, scope, sorts[i], &terms[i]) {
            return false;
        }
    }
    true
}

fn gives(sig: &Sig, f: u32, sort: u32) -> bool
    ensures { result ≡ spec.gives (slice_get sig.now.fns f) sort }
{
    match sig.fns.as_slice().get(f as usize) {
        Some(decl) => decl.result == sort,
        None => false,
    }
}

/// The sorts of a function's arguments.
fn takes(sig: &Sig, f: u32) -> &[u32]
    ensures { result.now ≡ spec.takes (slice_get sig.now.fns f) }
{
    match sig.fns.as_slice().get(f as usize) {
        Some(decl) => decl.args.as_slice(),
        None => &[],
    }
}

fn is_con_of(sig: &Sig, c: u32, sort: u32) -> bool
    ensures { result ≡ symbols.is_con_of (slice_get sig.now.cons c) sort }
{
    match sig.cons.as_slice().get(c as usize) {
        Some(con) => con.sort == sort,
        None => false,
    }
}

/// The sorts of a constructor's arguments.
fn fields_of(sig: &Sig, c: u32) -> &[u32]
    ensures { result.now ≡ symbols.fields_of (slice_get sig.now.cons c) }
{
    match sig.cons.as_slice().get(c as usize) {
        Some(con) => con.args.as_slice(),
        None => &[],
    }
}

fn sort_of_con(sig: &Sig, c: u32) -> u32
    ensures { result ≡ spec.sort_of_con (slice_get sig.now.cons c) }
{
    match sig.cons.as_slice().get(c as usize) {
        Some(con) => con.sort,
        None => 0,
    }
}

fn is_sort(found: Option<u32>, sort: u32) -> bool
    ensures { result ≡ spec.is_sort found sort }
{
    match found {
        Some(s) => s == sort,
        None => false,
    }
}

/// The only sort that a term of this form can have.
#[tactic(auto, using(crate::proofs::TermViews::term_views))]
pub fn head_sort(sig: &Sig, added: &[NewConst], scope: &Scope, t: &Term) -> Option<u32>
    ensures { result ≡ test.head_sort (sig_view sig.now) added.now (scope_view scope.now) (term_view t.now) }
{
    match t {
        Term::Var(n) => scope.sort_of(*n),
        Term::Const(c) => const_sort(sig, added, *c),
        Term::Fn(f, _) => result_of(sig, *f),
        Term::Int(_) | Term::Plus(_, _) => int_sort(sig),
        Term::Str(_) => str_sort(sig),
        Term::Con(c, _) => datatype_of(sig, *c),
        Term::Sel(c, i, _) => field_sort(sig, *c, *i),
    }
}

fn result_of(sig: &Sig, f: u32) -> Option<u32>
    ensures { result ≡ test.result_of (slice_get sig.now.fns f) }
{
    match sig.fns.as_slice().get(f as usize) {
        Some(decl) => Some(decl.result),
        None => None,
    }
}

fn datatype_of(sig: &Sig, c: u32) -> Option<u32>
    ensures { result ≡ test.datatype_of (slice_get sig.now.cons c) }
{
    match sig.cons.as_slice().get(c as usize) {
        Some(con) => Some(con.sort),
        None => None,
    }
}

fn field_sort(sig: &Sig, c: u32, i: u32) -> Option<u32>
    ensures { result ≡ slice_get (symbols.fields_of (slice_get sig.now.cons c)) i }
{
    match sig.cons.as_slice().get(c as usize) {
        Some(con) => con.args.as_slice().get(i as usize).copied(),
        None => None,
    }
}

/// The sort of a constant of the signature, or of one that was added. Of several with one number the last counts.
fn const_sort(sig: &Sig, added: &[NewConst], c: u32) -> Option<u32>
    ensures { result ≡ spec.const_sort (sig_view sig.now) added.now c }
{
    if c < sig.consts.count() {
        Some(sig.consts[c as usize])
    } else {
        added_sort(added, c)
    }
}

#[tactic(auto, using(crate::proofs::SortLaws::or_assoc))]
fn added_sort(added: &[NewConst], c: u32) -> Option<u32>
    ensures { result ≡ spec.added_sort added.now c }
{
    let mut found = None;
    for new in added {
        if new.number == c {
            found = Some(new.sort);
        }
    }
    found
}

fn is_int_sort(sig: &Sig, sort: u32) -> bool
    ensures { result ≡ symbols.is_int (slice_get sig.now.sorts sort) }
{
    match sig.sorts.as_slice().get(sort as usize) {
        Some(Sort::Int) => true,
        _ => false,
    }
}

fn is_str_sort(sig: &Sig, sort: u32) -> bool
    ensures { result ≡ symbols.is_str (slice_get sig.now.sorts sort) }
{
    match sig.sorts.as_slice().get(sort as usize) {
        Some(Sort::Str) => true,
        _ => false,
    }
}

fn int_sort(sig: &Sig) -> Option<u32>
    ensures { result ≡ test.int_sort (sig_view sig.now) }
{
    for s in 0..sig.sorts.count() {
        if is_int_sort(sig, s) {
            return Some(s);
        }
    }
    None
}

fn str_sort(sig: &Sig) -> Option<u32>
    ensures { result ≡ test.str_sort (sig_view sig.now) }
{
    for s in 0..sig.sorts.count() {
        if is_str_sort(sig, s) {
            return Some(s);
        }
    }
    None
}
