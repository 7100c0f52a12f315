//! What the words of a command line are.
#![tactic(auto)]

mod commands;
mod found;
mod numbers;
mod syntax;
mod words;

pub use commands::{
    CertifyFiles, Command, CompileFiles, ConfigureFiles, GradeFiles, HardwareNumbers, JobNumbers,
    ReplayFiles, ScanFiles, SeekFiles,
};
pub use words::command;
