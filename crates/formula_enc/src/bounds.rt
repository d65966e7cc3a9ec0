//! The terms of open variables.
ghost use Rattle.std.specs.Prelude.{◌≡◌, ◌<◌, ◌-◌, IfOk, Some, length, slice_get};
ghost use Rattle.rp_logic.specs.Filling.{raised};
ghost use Rattle.rp_logic.specs.Terms as tm;
ghost use Rattle.rp_logic.specs.Views.{term_view};
ghost use Rattle.crdt_enc.specs.FormulaFormulas as spec;
ghost use Rattle.formula_enc.specs.Settings.{bounds_view};

use program_sigs::plus;
use query_enc::raise;
use rp_logic::Term;
use rp_value::{Boxed, List, Memory, Ty};
use std::alloc::Global;

/// The open variables of a formula, the innermost first.
#[derive(Drop)]
pub enum Bounds<'a> {
    Closed,
    /// A quantifier's variable.
    Quantified(Ty, &'a Bounds<'a>),
    /// An arm's variables, one a field of the constructor, the last field innermost, and the matched term.
    Fields(u32, &'a [Ty], &'a Term, &'a Bounds<'a>),
}

/// What stands for what has no meaning: `false`.
#[tactic(auto, using(rp_logic::proofs::TermViews::term_views))]
pub fn false_term(alloc: Global) -> Term
    ensures { term_view result ≡ spec.false_tm }
{
    Term::Con(0, List::new(alloc))
}

/// How many types there are.
pub fn count_of(types: &[Ty]) -> Result<u32, Memory>
    ensures { IfOk result (λ n. n ≡ length types.now) }
{
    if types.len() > u32::MAX as usize {
        return Err(Memory);
    }
    Ok(types.len() as u32)
}

/// The field that the n-th variable of an arm is, under k more quantifiers.
#[tactic(auto, using(rp_logic::proofs::TermViews::term_views))]
fn field_term(
    alloc: Global,
    con: u32,
    fields: &[Ty],
    on: &Term,
    n: u32,
    k: u32,
) -> Result<Term, Memory>
    requires within { n < length fields.now }
    ensures { IfOk result (λ t. term_view t ≡ tm.Sel con (length fields.now - 1 - n) (raised k (term_view on.now))) }
{
    let count = count_of(fields)?;
    let raised = Boxed::new(alloc, raise(alloc, k, on)?)?;
    Ok(Term::Sel(con, count - 1 - n, raised))
}

/// The n-th type from the end.
fn from_end(fields: &[Ty], n: u32) -> Ty
    requires within { n < length fields.now }
    ensures { slice_get fields.now (length fields.now - 1 - n) ≡ Some result }
{
    fields[fields.len() - 1 - n as usize]
}

fn is_inv_type(ty: Ty) -> bool
    ensures { result ≡ spec.is_inv_type ty }
{
    match ty {
        Ty::Inv => true,
        Ty::Int => false,
        Ty::Str => false,
        Ty::Atom(_) => false,
        Ty::Datatype(_) => false,
        Ty::Call => false,
        Ty::Operation => false,
        Ty::Info => false,
        Ty::Outcome => false,
    }
}

impl<'a> Bounds<'a> {
    /// The term of the n-th enclosing variable, under k more quantifiers.
    #[tactic(auto, using(crate::proofs::BoundsViews::bounds_views, rp_logic::proofs::TermViews::term_views))]
    fn raised_term(&self, alloc: Global, n: u32, k: u32) -> Result<Term, Memory>
        ensures { IfOk result (λ t. term_view t ≡ raised k (spec.bound_tm (slice_get (bounds_view self.now) n))) }
    {
        match self {
            Bounds::Closed => Ok(false_term(alloc)),
            Bounds::Quantified(_, outer) => if n == 0 {
                Ok(Term::Var(k))
            } else {
                outer.raised_term(alloc, n - 1, plus(k, 1)?)
            },
            Bounds::Fields(con, fields, on, outer) => if (n as usize) < fields.len() {
                field_term(alloc, *con, *fields, *on, n, k)
            } else {
                outer.raised_term(alloc, n - fields.len() as u32, k)
            },
        }
    }

    /// The term of the n-th enclosing variable.
    pub fn term(&self, alloc: Global, n: u32) -> Result<Term, Memory>
        ensures { IfOk result (λ t. term_view t ≡ spec.bound_tm (slice_get (bounds_view self.now) n)) }
    {
        self.raised_term(alloc, n, 0)
    }

    /// Whether the n-th enclosing variable stands for an invocation.
    #[tactic(auto, using(crate::proofs::BoundsViews::bounds_views))]
    pub fn is_inv(&self, n: u32) -> bool
        ensures { result ≡ spec.is_inv (slice_get (bounds_view self.now) n) }
    {
        match self {
            Bounds::Closed => false,
            Bounds::Quantified(ty, outer) => if n == 0 {
                is_inv_type(*ty)
            } else {
                outer.is_inv(n - 1)
            },
            Bounds::Fields(_, fields, _, outer) => if (n as usize) < fields.len() {
                is_inv_type(from_end(*fields, n))
            } else {
                outer.is_inv(n - fields.len() as u32)
            },
        }
    }
}
