//! Files and sinks: what the tool asks of the outside, in memory and on the host.
#![tactic(auto)]

mod failing;
mod host;
mod memory_files;
mod outside;
mod sinks;

pub use failing::Failing;
pub use host::{HostFiles, OutSink};
pub use memory_files::MemoryFiles;
pub use outside::{Files, LoadError, PutError, SaveError, Sink};
pub use sinks::{MemorySink, NeverFails};
