//! Netlists of several modules as one: the flat design of a hierarchy, or why it has none (IEEE 1364, structural part).
#![tactic(auto)]

mod children;
mod components;
mod descent;
mod error;
mod fitting;
mod flat_items;
mod flat_joins;
mod flat_nets;
mod flattening;
mod laws;
mod reach;
mod tops;
mod weights;

pub use error::HierError;
pub use flattening::{flatten, told};
pub use laws::{
    flat_designs_are_one_for_one, given_designs_are_over, one_module_gives_its_design,
    texts_give_one_design,
};
