//! Formulas brought into another shape with the same meaning.
#![tactic(auto)]

mod clauses;
mod determining;
mod eliminating;
mod filling;
mod missing;
mod reshaping;
pub mod rows;
mod terms;

pub use filling::Filling;
pub use missing::Missing;
pub use reshaping::reshape;
