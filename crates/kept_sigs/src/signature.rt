ghost use Rattle.std.specs.Prelude.{◌≡◌, IfOk};
ghost use Rattle.rp_lang.specs.ProgramView.{program_view};
ghost use Rattle.rp_logic.specs.SigView.{sig_view};
ghost use Rattle.rp_symbols.specs.Signatures as spec;

use program_sigs::{con_decls, const_decls, fn_decls, rel_decls, sorts_of};
use rp_lang::Program;
use rp_logic::Sig;
use rp_value::Memory;
use std::alloc::Global;
use well_sorted::signatures_are_kept;

/// The signature of the program's formulas. `views` is 0 where no invocation acts, and else one more than the begins on the
/// path.
pub fn sig_of(alloc: Global, p: &Program, views: u32) -> Result<Sig, Memory>
    ensures { IfOk result (λ sig. sig_view sig ≡ spec.sig_of (program_view p.now) views) }
{
    let begins = views.saturating_sub(1);
    let sorts = sorts_of(alloc, p)?;
    let consts = const_decls(alloc, views)?;
    let fns = fn_decls(alloc, p, begins)?;
    let rels = rel_decls(alloc, p, begins)?;
    let cons = con_decls(alloc, p)?;
    signatures_are_kept();
    Ok(Sig {
        sorts,
        consts,
        fns,
        rels,
        cons,
    })
}
