ghost use Rattle.std.specs.Prelude.{◌≡◌, [], ◌∷◌, IsTrue, IfOk};
ghost use Rattle.rp_lang.specs.FirstForm as spec;
ghost use Rattle.rp_lang.specs.Views.{parts_view};
ghost use Rattle.rp_lang.specs.WellFormed.{is_well_formed};

use crate::inv::InvDecl;
use crate::op::{OpDecl, OpKind};
use crate::proc::ProcDecl;
use crate::query::QueryDecl;
use crate::root::Root;
use rp_value::{ConTable, List, Memory, TypeTable};
use std::alloc::Global;

/// A well-formed program: all numbers in it are in range, it is well typed, and it is within the limits.
#[derive(Drop)]
pub struct Program {
    pub types: TypeTable,
    pub cons: ConTable,
    pub roots: List<Root>,
    pub ops: List<OpDecl>,
    pub queries: List<QueryDecl>,
    pub invs: List<InvDecl>,
    pub procs: List<ProcDecl>,
    pub ghost well_formed: { IsTrue (is_well_formed (parts_view types cons roots ops queries invs procs)) },
}

impl Program {
    /// Lets go of the program. A crate that calls this doesn't prove again how programs are let go of.
    pub fn let_go(self) {}
}

/// The operations of a program without replicated objects.
pub fn only_tx(alloc: Global) -> Result<List<OpDecl>, Memory>
    ensures { IfOk result (λ ops. ops ≡ spec.tx ∷ []) }
{
    let mut ops = List::new(alloc);
    ops.push(OpDecl {
        root: 0,
        path: List::new(alloc),
        kind: OpKind::Tx,
        args: List::new(alloc),
    })?;
    Ok(ops)
}
