//! What is told of a program: its signature with one begin, the axioms, and its invariants at the snapshot of a step.

use crate::out::Out;
use crate::piece::Piece;
use axiom_forms::{
    push_arguments_were_results, push_markers_stand, push_of_calls, push_own_calls_in_line,
    push_results_stay, push_views_grow,
};
use formula_enc::{Place, Setting, encode_formula};
use kept_sigs::sig_of;
use place_axioms::push_places_are_told;
use reshaped::reshape;
use rp_lang::Program;
use rp_logic::{Fml, Sig, Sort, well_sorted};
use rp_value::{List, Memory};
use std::alloc::Global;

/// No invocation begins more often on the way to the step.
const BEGINS: u32 = 1;

/// The snapshot after the step, the calls and the invocations then, and the outcomes.
const AFTER: Place = Place {
    view: 7,
    calls: 1,
    invs: 3,
    results: 4,
};

fn axioms_of(alloc: Global, p: &Program) -> Result<List<Fml>, Memory> {
    let mut axioms = List::new(alloc);
    push_of_calls(alloc, &mut axioms)?;
    push_views_grow(alloc, &mut axioms, p, BEGINS)?;
    push_own_calls_in_line(alloc, &mut axioms)?;
    push_results_stay(alloc, &mut axioms, p)?;
    push_places_are_told(alloc, &mut axioms, p)?;
    push_arguments_were_results(alloc, &mut axioms, p)?;
    push_markers_stand(alloc, &mut axioms, p)?;
    Ok(axioms)
}

fn invariants_of(alloc: Global, p: &Program) -> Result<List<Fml>, Memory> {
    let setting = Setting {
        program: p,
        at: AFTER,
        slots: &[],
    };
    let mut made = List::new(alloc);
    for inv in p.invs.as_slice() {
        let plain = encode_formula(alloc, &setting, &inv.body)?;
        let shaped = reshape(alloc, plain.get())?;
        made.push(shaped.into_inner())?;
    }
    Ok(made)
}

impl<'a> Out<'a> {
    fn sorts_told(&mut self, sig: &'a Sig) -> Result<(), Memory> {
        for (n, sort) in sig.sorts.as_slice().iter().enumerate() {
            let name = Piece::Sort(n as u32);
            match sort {
                Sort::Plain => self.line(&[Piece::Text(b"sort "), name])?,
                Sort::Int => self.line(&[Piece::Text(b"whole numbers "), name])?,
                Sort::Str => self.line(&[Piece::Text(b"strings "), name])?,
                Sort::Datatype(cons) => self.line(&[
                    Piece::Text(b"datatype "),
                    name,
                    Piece::Text(b":"),
                    Piece::Cons(b" ", cons.as_slice()),
                ])?,
            }
        }
        Ok(())
    }

    fn symbols_told(&mut self, sig: &'a Sig) -> Result<(), Memory> {
        for (n, con) in sig.cons.as_slice().iter().enumerate() {
            self.line(&[
                Piece::Text(b"constructor "),
                Piece::Con(n as u32),
                Piece::Text(b":"),
                Piece::Sorts(b" ", con.args.as_slice()),
                Piece::Text(b" -> "),
                Piece::Sort(con.sort),
            ])?;
        }
        for (n, decl) in sig.fns.as_slice().iter().enumerate() {
            self.line(&[
                Piece::Text(b"function "),
                Piece::Fun(n as u32),
                Piece::Text(b":"),
                Piece::Sorts(b" ", decl.args.as_slice()),
                Piece::Text(b" -> "),
                Piece::Sort(decl.result),
            ])?;
        }
        for (n, args) in sig.rels.as_slice().iter().enumerate() {
            self.line(&[
                Piece::Text(b"relation "),
                Piece::Rel(n as u32),
                Piece::Text(b":"),
                Piece::Sorts(b" ", args.as_slice()),
            ])?;
        }
        Ok(())
    }

    /// A formula a line. Behind the word stands what is wrong with one that isn't well sorted.
    fn formulas_told(
        &mut self,
        word: &'a [u8],
        sig: &'a Sig,
        formulas: &'a [Fml],
    ) -> Result<(), Memory> {
        for f in formulas {
            let sorted: &'a [u8] = if well_sorted(sig, f) {
                b": "
            } else {
                b" (ill sorted): "
            };
            self.line(&[Piece::Text(word), Piece::Text(sorted), Piece::Formula(f, 0)])?;
        }
        Ok(())
    }
}

fn lines_of<'a>(
    alloc: Global,
    p: &'a Program,
    sig: &'a Sig,
    axioms: &'a List<Fml>,
    invariants: &'a List<Fml>,
) -> Result<Vec<u8>, Memory> {
    let mut out = Out::new(alloc, p);
    out.sorts_told(sig)?;
    out.symbols_told(sig)?;
    out.formulas_told(b"axiom", sig, axioms.as_slice())?;
    out.formulas_told(b"invariant", sig, invariants.as_slice())?;
    Ok(out.into_bytes())
}

/// What is told of a program, a line for each symbol, axiom and invariant.
pub fn told_of(alloc: Global, p: &Program) -> Result<Vec<u8>, Memory> {
    let sig = sig_of(alloc, p, BEGINS + 1)?;
    let axioms = axioms_of(alloc, p)?;
    let invariants = invariants_of(alloc, p)?;
    lines_of(alloc, p, &sig, &axioms, &invariants)
}
