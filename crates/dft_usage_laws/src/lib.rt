//! The law that a fault of words is told exactly where they are no command.
#![tactic(auto)]

mod laws;

pub use laws::faults_are_usage;
