//! Worked rows of the definitions, as functions with nothing to run.
ghost use Rattle.rp_logic.specs.rows.EmptySorts.{EmptySort, SortOfAConstant};

/// Sorts may be empty, and those of constants aren't.
pub fn worked_rows()
    ensures empty_sort { EmptySort }
    ensures sort_of_a_constant { SortOfAConstant }
{}
