//! Worked rows of the definitions, as functions with nothing to run.
ghost use Rattle.crdt_enc.specs.rows.AddWins.{Contains, ContainsBelow};
ghost use Rattle.crdt_enc.specs.rows.Forms.{Plain, EachCall, InvocationsBefore, Matched};

/// The formula of a query: of an add-wins set, by itself and below a map.
pub fn formulas_of_contains()
    ensures of_a_set { Contains }
    ensures below_a_map { ContainsBelow }
{}

/// Formulas over truth values, over calls, of invocations one before the other, and of `match`.
pub fn shapes_of_formulas()
    ensures plain { Plain }
    ensures each_call { EachCall }
    ensures invocations_before { InvocationsBefore }
    ensures matched { Matched }
{}
