//! Test cubes for stuck nets: the tree of a search, and what it tells.
#![tactic(auto)]

mod assigning;
mod cones;
mod evaluating;
mod examples;
mod found;
mod laws;
mod listing;
mod looking;
mod marking;
mod pins;
mod preparing;
mod rig;
mod searching;
mod seeker;
mod showing;
mod steps;
mod tables;

pub use examples::worked_reset;
pub use found::Found;
pub use laws::{
    cubes_detect, few_dead_nodes, none_detects, sought_is_one, sought_is_true, tree_is_one,
};
pub use listing::seek_faults;
pub use seeker::Seeker;
