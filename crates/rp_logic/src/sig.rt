ghost use Rattle.std.specs.Prelude.{IsTrue};
ghost use Rattle.rp_logic.specs.Signatures.{is_signature};

use crate::kept;
use crate::sort::{FnDecl, LogicCon, Sort, copy_cons, copy_fns, copy_rels, copy_sorts};
use rp_value::{List, Memory, copy_list};
use std::alloc::Global;

/// The sorts, constants, functions, relations and constructors that formulas are over, each named by its number.
#[derive(Drop)]
pub struct Sig {
    pub sorts: List<Sort>,
    /// The sort of each constant.
    pub consts: List<u32>,
    pub fns: List<FnDecl>,
    /// The sorts of each relation's arguments.
    pub rels: List<List<u32>>,
    pub cons: List<LogicCon>,
    pub ghost kept: { IsTrue (is_signature sorts consts fns rels cons) },
}

impl Sig {
    ghost use Rattle.std.specs.Prelude.{◌≡◌, ◌↔◌, IsSome, IfSome, IfOk};
    ghost use Rattle.rp_logic.specs.SigView.{sig_view};

    /// The signature of these parts, where they keep what a signature keeps: numbers are in range, at most one sort is
    /// `Int` and at most one is `Str`, and each constructor is listed once, by its sort, which is a `Datatype`.
    pub fn new(
        sorts: List<Sort>,
        consts: List<u32>,
        fns: List<FnDecl>,
        rels: List<List<u32>>,
        cons: List<LogicCon>,
    ) -> Option<Sig>
        ensures some { IsSome result ↔ IsTrue (is_signature sorts consts fns rels cons) }
        ensures parts { IfSome result (λ sig. sig_view sig ≡ record { sorts = sorts; consts = consts; fns = fns; rels = rels; cons = cons }) }
    {
        let is_kept = kept::is_signature(
            sorts.as_slice(),
            consts.as_slice(),
            fns.as_slice(),
            rels.as_slice(),
            cons.as_slice(),
        );
        if !is_kept {
            return None;
        }
        Some(Sig {
            sorts,
            consts,
            fns,
            rels,
            cons,
        })
    }

    /// An equal signature.
    pub fn copy(&self, alloc: Global) -> Result<Sig, Memory>
        ensures { IfOk result (λ copy. sig_view copy ≡ sig_view self.now) }
    {
        Ok(Sig {
            sorts: copy_sorts(alloc, self.sorts.as_slice())?,
            consts: copy_list(alloc, self.consts.as_slice())?,
            fns: copy_fns(alloc, self.fns.as_slice())?,
            rels: copy_rels(alloc, self.rels.as_slice())?,
            cons: copy_cons(alloc, self.cons.as_slice())?,
        })
    }
}
