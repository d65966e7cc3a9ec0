//! Files and sinks that are handed in, with counts of their faults.
#![tactic(auto)]

mod buffer;
mod failed;
mod files;
mod lines;
mod mem_files;
mod mem_sinks;
mod os;
mod sinks;
mod whole;

pub use failed::Failed;
pub use files::Files;
pub use lines::put_lines;
pub use mem_files::{MemFiles, SureFiles};
pub use mem_sinks::{MemSink, SureSink};
pub use os::{OsFiles, OsSink};
pub use sinks::Sink;
pub use whole::{ReadErr, read_all};
