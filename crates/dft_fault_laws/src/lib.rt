//! Laws of stuck nets: what a design with one does, and the round of a vector in one pass.
#![tactic(auto)]

mod laws;

pub use laws::{faulty_means, rounds_have_passes, still_stays};
