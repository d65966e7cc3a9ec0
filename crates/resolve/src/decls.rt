//! The invariants and the procedures of a text.

ghost use Rattle.std.specs.Prelude.{◌≡◌, ◌∷◌, [], true, IfOk, IsErrOf, List as Items, OnOk};
ghost use Rattle.rp_ast.specs.View.{decl_view, decls_view};
ghost use Rattle.rp_lang.specs.Programs.{Inv, Proc};
ghost use Rattle.lower_exprs.specs.declared.stop.Stop.TheVariants as stop;
ghost use Rattle.lower_procs.specs.Whole.{is_large_in};
ghost use Rattle.resolve.specs.Adds.{Adds, AreWanted, Declares, IsTooLarge, nothing, some_passes};

use lower_exprs::{Passed, Stop, Work};
use lower_procs::{invariant, procedure};
use rp_ast::{Decl, DeclForm};
use rp_lang::{InvDecl, ProcDecl};
use rp_value::List;

/// The invariants and the procedures of a text, with what their expressions pass.
#[derive(Drop)]
pub(crate) struct Declared {
    pub(crate) invs: List<InvDecl>,
    pub(crate) procs: List<ProcDecl>,
    pub(crate) passed: Passed,
}

/// Adds what a declaration declares.
fn declare<'a>(work: Work<'_, '_, 'a>, made: &mut Declared, decl: &'a Decl) -> Result<(), Stop>
    ensures made { OnOk result (Declares work.entry made.old (decl_view decl.now ∷ []) made.new) }
    ensures nodes { IsErrOf result stop.Nodes → IsTooLarge work.entry made.old (decl_view decl.now ∷ []) }
{
    match &decl.what {
        DeclForm::Invariant(name, e) => {
            let number = made.invs.count() + 1;
            let inv = invariant(work, &mut made.passed, number, decl.span, name, e)?;
            made.invs.push(inv)?;
            Ok(())
        }
        DeclForm::Proc(proc) => {
            let proc = procedure(work, &mut made.passed, decl.span, proc)?;
            made.procs.push(proc)?;
            Ok(())
        }
        DeclForm::IdType(_) => Ok(()),
        DeclForm::Opaque(_) => Ok(()),
        DeclForm::Datatype(_, _) => Ok(()),
        DeclForm::Crdt(_, _) => Ok(()),
        DeclForm::Query(_) => Ok(()),
    }
}

/// Makes the invariants and the procedures, or without `building` leaves their expressions blank.
pub(crate) fn declare_all<'a>(work: Work<'_, '_, 'a>, decls: &'a [Decl]) -> Result<Declared, Stop>
    ensures made { (invs : Items Inv) (procs : Items Proc) → AreWanted work.entry (decls_view decls.now) invs procs
        → IfOk result (Adds work.entry nothing invs procs) }
    ensures nodes { (invs : Items Inv) (procs : Items Proc) → AreWanted work.entry (decls_view decls.now) invs procs
        → IsErrOf result stop.Nodes → some_passes (is_large_in work.entry.cons.now) invs procs ≡ true }
{
    let mut made = Declared {
        invs: List::new(work.alloc),
        procs: List::new(work.alloc),
        passed: Passed {
            depth: 0,
            binders: 0,
        },
    };
    for decl in decls {
        declare(work, &mut made, decl)?;
    }
    Ok(made)
}
