//! What is added for the children of a node.
ghost use Rattle.std.specs.Prelude.{◌≡◌, IfOk, map, length, slice_get};
ghost use Rattle.rp_logic.specs.Signatures.{fields_of};
ghost use Rattle.rp_logic.specs.SigView.{sig_view};
ghost use Rattle.rp_logic.specs.Terms as tm;
ghost use Rattle.rp_logic.specs.Instance.{instance};
ghost use Rattle.rp_logic.specs.Views.{term_view, terms_view, atom_view, formula_view, formulas_view};
ghost use Rattle.refute_defs.specs.Children as spec;
ghost use Rattle.refute_defs.specs.Parts as parts_spec;
ghost use Rattle.refute_rules.specs.means.Conclusions.{concluded, cut_children, bounds_formula};
ghost use Rattle.refute_rules.specs.Added.{addition_view};

use crate::conclusion::Conclusion;
use refute_branch::Order;
use rp_logic::{Atom, Fml, NewConst, Sig, Term, substitute};
use rp_value::{Boxed, List, Memory};
use std::alloc::Global;

/// A formula that a node adds for one of its children, and the constant that comes with it.
#[derive(Drop)]
pub struct Addition {
    pub formula: Fml,
    pub brings: Option<NewConst>,
}

/// One child, with the formula.
pub(crate) fn one_child(alloc: Global, formula: Fml) -> Result<List<Addition>, Memory>
    ensures { IfOk result (λ adds. map addition_view adds ≡ spec.one_child (formula_view formula)) }
{
    let mut adds = List::new(alloc);
    adds.push(Addition {
        formula,
        brings: None,
    })?;
    Ok(adds)
}

fn one_for_each(alloc: Global, parts: &[Fml]) -> Result<List<Addition>, Memory>
    ensures { IfOk result
        (λ adds. map addition_view adds ≡ spec.child_for_each (formulas_view parts.now)) }
{
    let mut adds = List::new(alloc);
    for f in parts {
        adds.push(Addition {
            formula: f.copy(alloc)?,
            brings: None,
        })?;
    }
    Ok(adds)
}

fn named(alloc: Global, body: &Fml, c: u32, sort: u32) -> Result<List<Addition>, Memory>
    ensures { IfOk result
        (λ adds. map addition_view adds
        ≡ spec.bringing c sort (instance (tm.Const c) (formula_view body.now))) }
{
    let t = Term::Const(c);
    let mut adds = List::new(alloc);
    adds.push(Addition {
        formula: substitute(alloc, body, &t)?,
        brings: Some(NewConst { number: c, sort }),
    })?;
    Ok(adds)
}

fn cut(alloc: Global, atom: &Atom) -> Result<List<Addition>, Memory>
    ensures { IfOk result (λ adds. map addition_view adds ≡ cut_children (atom_view atom.now)) }
{
    let mut adds = List::new(alloc);
    adds.push(Addition {
        formula: Fml::Lit(true, atom.copy(alloc)?),
        brings: None,
    })?;
    adds.push(Addition {
        formula: Fml::Lit(false, atom.copy(alloc)?),
        brings: None,
    })?;
    Ok(adds)
}

#[tactic(auto, using(rp_logic::proofs::FormulaViews::formula_views))]
fn equal(alloc: Global, a: &Term, b: &Term) -> Result<Fml, Memory>
    ensures { IfOk result
        (λ f. formula_view f ≡ parts_spec.equal (term_view a.now) (term_view b.now)) }
{
    Ok(Fml::Lit(true, Atom::Equal(a.copy(alloc)?, b.copy(alloc)?)))
}

#[tactic(auto, using(rp_logic::proofs::FormulaViews::formula_views))]
fn at_most(alloc: Global, o: &Order) -> Result<Fml, Memory>
    ensures { IfOk result (λ f. formula_view f ≡ bounds_formula o.now) }
{
    Ok(Fml::Lit(
        true,
        Atom::Le {
            a: o.a.copy(alloc)?,
            b: o.b.copy(alloc)?,
            k: o.k,
        },
    ))
}

/// The number of the constructor's arguments.
fn fields(sig: &Sig, con: u32) -> u32
    ensures { result ≡ length (fields_of (slice_get sig.now.cons con)) }
{
    match sig.cons.as_slice().get(con as usize) {
        Some(con) => con.args.count(),
        None => 0,
    }
}

/// The term's selections from the constructor, n of them.
#[tactic(auto, using(crate::proofs::Added::one_selection_more, rp_logic::proofs::TermViews::term_views))]
fn selections(alloc: Global, con: u32, n: u32, t: &Term) -> Result<List<Term>, Memory>
    ensures { IfOk result (λ ts. terms_view ts ≡ parts_spec.selections con 0 n (term_view t.now)) }
{
    let mut made = List::new(alloc);
    for i in 0..n {
        made.push(Term::Sel(con, i, Boxed::new(alloc, t.copy(alloc)?)?))?;
    }
    Ok(made)
}

/// The term was built with the constructor.
#[tactic(auto, using(rp_logic::proofs::FormulaViews::formula_views, rp_logic::proofs::TermViews::term_views))]
fn built_with(alloc: Global, sig: &Sig, t: &Term, con: u32) -> Result<Fml, Memory>
    ensures { IfOk result
        (λ f. formula_view f ≡ parts_spec.built_with (sig_view sig.now) (term_view t.now) con) }
{
    let selected = selections(alloc, con, fields(sig, con), t)?;
    Ok(Fml::Lit(true, Atom::Equal(t.copy(alloc)?, Term::Con(con, selected))))
}

fn one_for_each_con(
    alloc: Global,
    sig: &Sig,
    t: &Term,
    cons: &[u32],
) -> Result<List<Addition>, Memory>
    ensures { IfOk result
        (λ adds. map addition_view adds
        ≡ spec.child_for_each_con (sig_view sig.now) (term_view t.now) cons.now) }
{
    let mut adds = List::new(alloc);
    for con in cons {
        adds.push(Addition {
            formula: built_with(alloc, sig, t, *con)?,
            brings: None,
        })?;
    }
    Ok(adds)
}

/// What the conclusion of a rule adds for the children.
pub(crate) fn additions(alloc: Global, what: &Conclusion) -> Result<List<Addition>, Memory>
    ensures { IfOk result (λ adds. map addition_view adds ≡ concluded what.now) }
{
    match what {
        Conclusion::Closed => Ok(List::new(alloc)),
        Conclusion::Part(f) => one_child(alloc, f.copy(alloc)?),
        Conclusion::Each(parts) => one_for_each(alloc, parts.as_slice()),
        Conclusion::Instance { body, t } => one_child(alloc, substitute(alloc, body, t)?),
        Conclusion::Named { body, c, sort } => named(alloc, body, *c, *sort),
        Conclusion::Cut(atom) => cut(alloc, atom),
        Conclusion::Equal(a, b) => one_child(alloc, equal(alloc, a, b)?),
        Conclusion::AtMost(o) => one_child(alloc, at_most(alloc, o)?),
        Conclusion::Built { sig, t, cons } => one_for_each_con(alloc, sig, t, cons.as_slice()),
    }
}
