//! What a design with scan chains does in every run: facts about its scan cells and what leads into them, and the laws
//! of shifting and of scan off that follow from them alone.
#![tactic(auto)]

mod laws;

pub use laws::{chains_shift, chains_stay, pins_keep, scan_off_agrees};
