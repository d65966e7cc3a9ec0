//! Terms inside of terms, and the constructors that they stand under.
ghost use Rattle.std.specs.Prelude.{◌≡◌, ◌++◌, ◌∷◌, [], IfOk, OnOk, true};
ghost use Rattle.rp_logic.specs.Terms as tm;
ghost use Rattle.rp_logic.specs.Formulas as fm;
ghost use Rattle.rp_logic.specs.Dual.{dual, duals};
ghost use Rattle.rp_logic.specs.Views.{term_view, formula_view, formulas_view};
ghost use Rattle.reshape.specs.Joined.{joined};
ghost use Rattle.crdt_enc.specs.Builders as builders;
ghost use Rattle.hist_struct.specs.Axioms as spec;
ghost use Rattle.place_axioms.specs.Spots.{spot_view};

use query_enc::{applied, over_two, push_selectors};
use rp_logic::{Atom, Fml, Term};
use rp_value::{Boxed, List, Memory};
use std::alloc::Global;

/// A term inside of a function's value, reached by constructors.
#[derive(Drop)]
pub enum Spot<'a> {
    /// What the function gives at the nearest variable.
    Whole(u32),
    /// Of what stands at the spot, where it is built with the constructor, which has so many places, the argument at this place.
    Part(u32, u32, u32, &'a Spot<'a>),
}

/// The term as it is where it is built with the constructor, which has so many places.
fn built(alloc: Global, con: u32, places: u32, t: &Term) -> Result<Term, Memory>
    ensures { IfOk result (λ u. term_view u ≡ builders.built con places [] (term_view t.now)) }
{
    let mut parts = List::new(alloc);
    push_selectors(alloc, &mut parts, con, 0, places, t)?;
    Ok(Term::Con(con, parts))
}

/// The term isn't built with the constructor, which has so many places.
#[tactic(auto, using(rp_logic::proofs::FormulaViews::formula_views))]
fn not_built(alloc: Global, con: u32, places: u32, t: Boxed<Term>) -> Result<Fml, Memory>
    ensures { IfOk result (λ f. formula_view f ≡ dual (spec.is_built con places (term_view t))) }
{
    let whole = Boxed::new(alloc, built(alloc, con, places, t.get())?)?;
    Ok(Fml::Lit(false, Atom::Equal(t.into_inner(), whole.into_inner())))
}

impl<'a> Spot<'a> {
    /// The term.
    #[tactic(auto, using(crate::proofs::SpotViews::spot_views, rp_logic::proofs::TermViews::term_views))]
    pub fn term(&self, alloc: Global) -> Result<Term, Memory>
        ensures { IfOk result (λ t. term_view t ≡ (spot_view self.now).term) }
    {
        match self {
            Spot::Whole(f) => applied(alloc, *f, Term::Var(0)),
            Spot::Part(con, _, i, whole) => {
                let inner = Boxed::new(alloc, whole.term(alloc)?)?;
                Ok(Term::Sel(*con, *i, inner))
            }
        }
    }

    /// Of each constructor that the term stands under, that something else is there, the innermost first.
    #[tactic(auto, using(crate::proofs::SpotViews::spot_views, crate::proofs::Denials::denials))]
    pub fn push_denials(&self, alloc: Global, out: &mut List<Fml>) -> Result<(), Memory>
        ensures { OnOk result (formulas_view out.new ≡ joined (formulas_view out.old) (duals (spot_view self.now).given)) }
    {
        match self {
            Spot::Whole(_) => Ok(()),
            Spot::Part(con, places, _, whole) => {
                let on = Boxed::new(alloc, whole.term(alloc)?)?;
                out.push(not_built(alloc, *con, *places, on)?)?;
                whole.push_denials(alloc, out)
            }
        }
    }

    /// The formula, where all constructors are there that the term stands under.
    #[tactic(auto, using(crate::proofs::SpotViews::spot_views, rp_logic::proofs::FormulaViews::formula_views))]
    fn implied(&self, alloc: Global, f: Boxed<Fml>) -> Result<Boxed<Fml>, Memory>
        ensures { IfOk result (λ g. formula_view g ≡ spec.implied (spot_view self.now).given (formula_view f)) }
    {
        match self {
            Spot::Whole(_) => Ok(f),
            Spot::Part(_, _, _, _) => {
                let mut parts = List::new(alloc);
                self.push_denials(alloc, &mut parts)?;
                parts.push(f.into_inner())?;
                Ok(Boxed::new(alloc, Fml::Or(parts))?)
            }
        }
    }

    /// The relation holds of each element of the sort and the term.
    #[tactic(auto, using(rp_logic::proofs::FormulaViews::formula_views, rp_logic::proofs::TermViews::term_views))]
    pub fn told(&self, alloc: Global, sort: u32, rel: u32) -> Result<Fml, Memory>
        ensures { IfOk result (λ f. formula_view f ≡ fm.All sort (spec.implied (spot_view self.now).given (builders.over_two true rel (tm.Var 0) (spot_view self.now).term))) }
    {
        let element = Boxed::new(alloc, Term::Var(0))?;
        let identifier = Boxed::new(alloc, self.term(alloc)?)?;
        let stands = over_two(alloc, true, rel, element, identifier)?;
        let body = self.implied(alloc, Boxed::new(alloc, stands)?)?;
        Ok(Fml::All(sort, body))
    }
}
