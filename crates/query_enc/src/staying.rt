//! Calls that count at the end of a way.
ghost use Rattle.std.specs.Prelude.{◌≡◌, ◌++◌, ◌∷◌, [], suc, IfOk, OnOk};
ghost use Rattle.rp_lang.specs.ProgramView.{program_view};
ghost use Rattle.rp_logic.specs.Terms as tm;
ghost use Rattle.rp_logic.specs.Views.{term_view, formula_view, formulas_view};
ghost use Rattle.reshape.specs.Joined.{joined};
ghost use Rattle.crdt_enc.specs.Builders.{one_fm};
ghost use Rattle.crdt_enc.specs.QueryFormulas as spec;
ghost use Rattle.crdt_enc.specs.Ways.{depth};
ghost use Rattle.query_enc.specs.means.Such as such;
ghost use Rattle.query_enc.specs.TestView.{test_view};
ghost use Rattle.query_enc.specs.WayView.{way_view};

use crate::counting::{Such, push_ones};
use crate::lists::{all_of, any_of};
use crate::literals::is_before;
use crate::tests::Test;
use crate::ways::Way;
use crdt_defs::Winner;
use program_sigs::plus;
use rp_lang::Program;
use rp_logic::{Fml, Term};
use rp_value::{List, Memory};
use std::alloc::Global;

/// The call outside isn't deleted by the innermost variable.
fn wins(alloc: Global, winner: Winner) -> Result<Fml, Memory>
    ensures { IfOk result (λ f. formula_view f ≡ spec.wins winner (tm.Var 1)) }
{
    match winner {
        Winner::Update => is_before(alloc, false, 1, 0),
        Winner::Delete => is_before(alloc, true, 0, 1),
    }
}

/// Each delete of the key that counts doesn't take the innermost variable's call away. `kept` says which deletes count.
fn push_deletes(
    alloc: Global,
    out: &mut List<Fml>,
    p: &Program,
    view: u32,
    n: u32,
    winner: Winner,
    key: &Term,
    way: &Way,
    kept: &[Fml],
) -> Result<(), Memory>
    ensures { OnOk result (formulas_view out.new ≡ joined (formulas_view out.old) (spec.each_such (program_view p.now) view n (way_view way.now) (spec.is_delete (depth (way_view way.now))) (term_view key.now ∷ []) (formulas_view kept.now) (one_fm (spec.wins winner (tm.Var 1))))) }
{
    let mut rest = List::new(alloc);
    rest.push(wins(alloc, winner)?)?;
    let such = Such {
        program: &*p,
        view,
        around: n,
        way: &*way,
        test: Test::Delete(way.depth()?),
        own: Some(&*key),
    };
    push_ones(alloc, out, &such, false, kept, rest.as_slice())
}

/// No delete of a key on the way makes the innermost variable's call not count.
#[tactic(auto, using(crate::proofs::WayViews::way_views))]
pub fn push_stays(
    alloc: Global,
    out: &mut List<Fml>,
    p: &Program,
    view: u32,
    n: u32,
    way: &Way,
) -> Result<(), Memory>
    ensures { OnOk result (formulas_view out.new ≡ joined (formulas_view out.old) (spec.stays (program_view p.now) view n (way_view way.now) (tm.Var 0))) }
{
    match way {
        Way::Root(_) => Ok(()),
        Way::AtField(_, before) => push_stays(alloc, out, p, view, n, *before),
        Way::AtKey(winner, key, before) => {
            push_stays(alloc, out, p, view, n, *before)?;
            let mut kept = List::new(alloc);
            push_stays(alloc, &mut kept, p, view, plus(n, 1)?, *before)?;
            push_deletes(
                alloc,
                out,
                p,
                view,
                n,
                *winner,
                *key,
                *before,
                kept.as_slice(),
            )
        }
    }
}

/// Some call that counts, as is asked for, meets the rest.
pub fn some_call(alloc: Global, s: &Such, rest: &[Fml]) -> Result<Fml, Memory>
    ensures { IfOk result (λ f. formula_view f ≡ such.some_of (such.such_view s.now) (formulas_view rest.now)) }
{
    let mut kept = List::new(alloc);
    push_stays(
        alloc,
        &mut kept,
        s.program,
        s.view,
        plus(s.around, 1)?,
        s.way,
    )?;
    let mut fs = List::new(alloc);
    push_ones(alloc, &mut fs, s, true, kept.as_slice(), rest)?;
    Ok(any_of(fs))
}

/// Each call that counts, as is asked for, meets a part of the rest.
pub fn each_call(alloc: Global, s: &Such, rest: &[Fml]) -> Result<Fml, Memory>
    ensures { IfOk result (λ f. formula_view f ≡ such.each_of (such.such_view s.now) (formulas_view rest.now)) }
{
    let mut kept = List::new(alloc);
    push_stays(
        alloc,
        &mut kept,
        s.program,
        s.view,
        plus(s.around, 1)?,
        s.way,
    )?;
    let mut fs = List::new(alloc);
    push_ones(alloc, &mut fs, s, false, kept.as_slice(), rest)?;
    Ok(all_of(fs))
}
