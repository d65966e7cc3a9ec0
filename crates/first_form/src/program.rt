ghost use Rattle.std.specs.Prelude.{◌≡◌, ◌↔◌, ◌&&◌, IsTrue};
ghost use Rattle.std.specs.List.{list_all};
ghost use Rattle.rp_lang.specs.FirstForm.{IsFirstForm, is_over_truth_values};
ghost use Rattle.rp_lang.specs.ProgramView.{program_view};
ghost use Rattle.first_form.specs.means.Tests.{has_procs_alone};

use crate::procs::are_over_truth_values;
use rp_lang::Program;

/// Whether there is nothing but `Bool` and procedures.
fn has_procs_alone(program: &Program) -> bool
    ensures { result ≡ has_procs_alone (program_view program.now) }
{
    program.types.atoms.len() == 0
        && program.types.datatypes.len() == 1
        && program.roots.len() == 0
        && program.ops.len() == 1
        && program.queries.len() == 0
        && program.invs.len() == 0
}

/// Whether there are but procedures over truth values.
fn has_such_procs_alone(program: &Program) -> bool
    ensures { result ≡ (has_procs_alone (program_view program.now)
        && list_all is_over_truth_values (program_view program.now).procs) }
{
    has_procs_alone(program) && are_over_truth_values(program.procs.as_slice())
}

/// Whether the program is over truth values.
pub fn is_first_form(program: &Program) -> bool
    ensures { IsTrue result ↔ IsFirstForm (program_view program.now) }
{
    has_such_procs_alone(program)
}
