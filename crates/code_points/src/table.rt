//! The points of a procedure, each with what comes next there.
ghost use Rattle.std.specs.Prelude.{◌≡◌, ◌<◌, ◌+◌, ◌++◌, IfOk, OnOk, None, map, option_map, slice_get};
ghost use Rattle.rp_lang.specs.declared.stmt.StmtKind.TheViews.{out-StmtArm};
ghost use Rattle.rp_lang.specs.Views.{stmt_view, stmts_view, stmt_arms_view};
ghost use Rattle.code_points.specs.Actions.{spot_action};
ghost use Rattle.code_points.specs.ActionView.{action_view};
ghost use Rattle.code_points.specs.Points as points;
ghost use Rattle.code_points.specs.PointView.{place_view, spot_view};
ghost use Rattle.code_points.specs.Places as spec;

use crate::action::action_of;
use crate::point::{Spot, inner, size};
use rp_lang::{Action, Stmt, StmtArm, StmtKind};
use rp_value::{List, Memory};
use std::alloc::Global;

/// What is known of a point.
#[derive(Clone, Copy)]
pub struct Place<'a> {
    /// What comes next there; nothing where the procedure ends.
    pub spot: Option<Spot<'a>>,
    /// How many points its block has from there to its end.
    pub rest: u64,
}

/// Adds the points inside the statement, the first of which is number `base`, with what comes next behind it.
#[cycle(places)]
#[tactic(auto, using(rp_lang::proofs::StmtViews::stmt_views))]
fn add_inside<'a>(
    places: &mut List<Place<'a>>,
    stmt: &'a Stmt,
    base: u64,
    next: Option<Spot<'a>>,
) -> Result<(), Memory>
    requires room { base + points.inner (stmt_view stmt.now) < 18446744073709551615 }
    ensures { OnOk result (map place_view places.new
        ≡ map place_view places.old ++ spec.places_inside (stmt_view stmt.now) base (option_map spot_view next.entry)) }
{
    match &stmt.what {
        StmtKind::Put(_, _) => Ok(()),
        StmtKind::Decide(_, _) => Ok(()),
        StmtKind::New(_, _) => Ok(()),
        StmtKind::Operate(_, _) => Ok(()),
        StmtKind::If(_, then_, else_) => {
            let other = base + (size(then_.as_slice()) + 1);
            add_block(places, then_.as_slice(), base, next)?;
            add_block(places, else_.as_slice(), other, next)
        }
        StmtKind::Match(_, arms) => add_arms(places, arms.as_slice(), base, next),
        StmtKind::Atomic(body) => {
            let end = base + size(body.as_slice());
            add_block(
                places,
                body.as_slice(),
                base,
                Some(Spot::Closing(end, stmt.at)),
            )
        }
        StmtKind::Assert(_) => Ok(()),
        StmtKind::Return(None) => Ok(()),
        StmtKind::Return(Some(_)) => Ok(()),
    }
}

/// Adds the points of the block and its end.
#[cycle(places)]
#[tactic(auto, using(rp_lang::proofs::StmtViews::stmt_views))]
fn add_block<'a>(
    places: &mut List<Place<'a>>,
    stmts: &'a [Stmt],
    base: u64,
    behind: Option<Spot<'a>>,
) -> Result<(), Memory>
    requires room { base + points.size (stmts_view stmts.now) < 18446744073709551615 }
    ensures { OnOk result (map place_view places.new
        ≡ map place_view places.old ++ spec.block_places (stmts_view stmts.now) base (option_map spot_view behind.entry)) }
{
    let mut at = base;
    let mut rest = size(stmts);
    let mut left = stmts;
    while let [first, others @ ..] = left {
        let spot = Some(Spot::Before(at, first));
        places.push(Place { spot, rest })?;
        let points = inner(first) + 1;
        let next = first_spot(others, at + points, behind);
        add_inside(places, first, at + 1, next)?;
        at += points;
        rest -= points;
        left = others;
    }
    places.push(Place { spot: behind, rest })
}

/// What comes next at the first point of the block.
fn first_spot<'a>(stmts: &'a [Stmt], base: u64, behind: Option<Spot<'a>>) -> Option<Spot<'a>>
    ensures { option_map spot_view result ≡ spec.first_spot (stmts_view stmts.now) base (option_map spot_view behind.entry) }
{
    match stmts.split_first() {
        Some((first, _)) => Some(Spot::Before(base, first)),
        None => behind,
    }
}

/// Adds the points of the arms.
#[cycle(places)]
#[tactic(auto, using(rp_lang::proofs::StmtViews::stmt_views))]
fn add_arms<'a>(
    places: &mut List<Place<'a>>,
    arms: &'a [StmtArm],
    base: u64,
    next: Option<Spot<'a>>,
) -> Result<(), Memory>
    requires room { base + points.arms_size (stmt_arms_view arms.now) < 18446744073709551615 }
    ensures { OnOk result (map place_view places.new
        ≡ map place_view places.old ++ spec.arms_places (stmt_arms_view arms.now) base (option_map spot_view next.entry)) }
{
    let mut at = base;
    for arm in arms {
        let end = size(arm.body.as_slice());
        add_block(places, arm.body.as_slice(), at, next)?;
        at += end + 1;
    }
    Ok(())
}

/// The points of a procedure's body, from the first to its end. Takes memory for as many.
pub fn places_of<'a>(alloc: Global, body: &'a [Stmt]) -> Result<List<Place<'a>>, Memory>
    requires room { points.size (stmts_view body.now) < 18446744073709551615 }
    ensures { IfOk result (λ places. map place_view places ≡ spec.block_places (stmts_view body.now) 0 None) }
{
    let mut places = List::new(alloc);
    add_block(&mut places, body, 0, None)?;
    Ok(places)
}

/// What is known of point n.
fn place_at<'p, 'a>(places: &'p List<Place<'a>>, n: u64) -> Option<&'p Place<'a>>
    ensures { option_map (λ place. place_view place.now) result ≡ slice_get (map place_view places.now) n }
{
    if n < places.len() as u64 {
        Some(places.get(n as usize))
    } else {
        None
    }
}

/// What comes next from point n on.
pub fn spot_at<'a>(places: &List<Place<'a>>, n: u64) -> Option<Spot<'a>>
    ensures { option_map spot_view result ≡ spec.look (map place_view places.now) n }
{
    match place_at(places, n) {
        Some(place) => place.spot,
        None => None,
    }
}

/// How many points the block of point n has from there to its end; 0 where there is no such point.
pub fn rest_at(places: &List<Place>, n: u64) -> u64
    ensures { result ≡ spec.rest_at (map place_view places.now) n }
{
    match place_at(places, n) {
        Some(place) => place.rest,
        None => 0,
    }
}

/// What is done next from point n of a body on.
pub fn next_at(places: &List<Place>, n: u64) -> Action
    ensures { action_view result ≡ spot_action (spec.look (map place_view places.now) n) }
{
    match spot_at(places, n) {
        Some(Spot::Before(_, stmt)) => action_of(stmt),
        Some(Spot::Closing(_, _)) => Action::Commit,
        None => Action::Return,
    }
}
