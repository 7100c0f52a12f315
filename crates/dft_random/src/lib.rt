//! Words drawn from a seed: the generator PCG XSH RR 64/32 (O'Neill, PCG, 2014).
#![tactic(auto)]

mod words;

pub use words::drawn;
