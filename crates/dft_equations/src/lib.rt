//! The load equations of a ring generator: for each scan cell the variables of the channels that it sums after a load.
#![tactic(auto)]

mod chain_rows;
mod impulses;
mod making;
mod row;
mod table;

pub use making::equations;
pub use table::Equations;
