//! Runs of the tool over files in memory, as tests want them: what is held, how a run ends, what is printed and saved, and texts that
//! more than one test takes.
#![tactic(auto)]

mod runs;
mod shelves;
mod small_case;
mod unlike;

pub use runs::{Ended, prints, ran};
pub use shelves::{holds, shelf};
pub use small_case::{
    COLD, COLD_HEAD, FIVE, FIVE_COMPILED, PAIR, PARTED, PARTED_TOLD, WARM, WARM_HEAD,
};
pub use unlike::Unlike;
