//! Programs, their steps and the names of their goals.
#![tactic(auto)]

mod crdt;
mod event;
mod expr;
mod formula;
mod goal;
mod inv;
mod limit;
mod lookup;
mod op;
mod proc;
mod program;
mod query;
mod refusal;
mod root;
pub mod rows;
mod step;
mod stmt;

pub use crdt::{Crdt, Field};
pub use event::{Event, What};
pub use expr::Expr;
pub use formula::{Arm, Formula};
pub use goal::{GoalKind, GoalName};
pub use inv::InvDecl;
pub use limit::LimitName;
pub use lookup::{field_in, root_crdt};
pub use op::{OpDecl, OpKind, PathStep};
pub use proc::ProcDecl;
pub use program::{Program, only_tx};
pub use query::{QueryDecl, QueryKind};
pub use refusal::Refusal;
pub use root::Root;
pub use step::{Action, Step};
pub use stmt::{Stmt, StmtArm, StmtKind, count_all};
