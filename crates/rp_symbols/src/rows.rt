//! Worked rows of the definitions, as functions with nothing to run.
ghost use Rattle.rp_symbols.specs.rows.OneRegister.{OneBegin, OwnCall, Numbers};

/// The signature of a program with a register of identifiers, and what a path adds.
pub fn signature_of_a_register()
    ensures one_begin { OneBegin }
    ensures own_call { OwnCall }
    ensures numbers { Numbers }
{}
