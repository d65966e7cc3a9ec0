//! Worked rows of the definitions, as functions with nothing to run.
ghost use Rattle.reshaped.specs.rows.Shapes.{ToldThroughAll, PulledThenTold, SomeTold, AllStaysInAnd, UnusedStays, PlainStays};

/// What the pass makes.
pub fn worked_rows()
    ensures told_through_all { ToldThroughAll }
    ensures pulled_then_told { PulledThenTold }
    ensures some_told { SomeTold }
    ensures all_stays_in_and { AllStaysInAnd }
    ensures unused_stays { UnusedStays }
    ensures plain_stays { PlainStays }
{}
