//! The machine that runs a program's invocations side by side, its runs, and the goals of a program.
#![tactic(auto)]

mod histories;
mod laws;
mod samples;
mod states;
mod worked;

pub use histories::{longer_histories, own_calls, own_privacy, quiet_labels, snapshots};
pub use laws::{false_by_trying, false_goals_violate, safe_by_goals, safe_by_outcomes};
pub use samples::{
    asserted_parameter, false_goals, order_of_goals, refusals, rows_of_choices, two_invocations,
};
pub use states::{
    growth, local_safety, programs_fit, safe_by_invocations, typed_code, typed_states,
    well_formed_states,
};
pub use worked::{
    arms, crashes, earlier_view, identifiers, inside_values, next_actions, post_after_remove,
    post_beside_remove, stamps, what_is_seen,
};
