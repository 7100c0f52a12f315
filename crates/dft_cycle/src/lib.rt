//! The machine of the abstract cycle: it computes the cycle's values for every design, vector by vector.
#![tactic(auto)]

mod flops;
mod laws;
mod laying;
mod looking;
mod looks;
mod machine;
mod phases;
mod planning;
mod plans;
mod preparing;
mod rounds;
mod steps;
mod sweeping;

pub use laws::calls_are_round;
pub use machine::AbstractMachine;
