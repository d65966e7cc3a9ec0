//! Worked rows of the definitions, as functions with nothing to run.
ghost use Rattle.hist_struct.specs.rows.OneRegister.{Tells};

/// The axiom of registers, for one register without keys.
pub fn axiom_of_a_register()
    ensures { Tells }
{}
