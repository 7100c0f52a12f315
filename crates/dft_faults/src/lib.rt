//! Single stuck-at faults: which a design has, and the design with one of them.
#![tactic(auto)]

mod examples;
mod fault;
mod laws;
mod listing;
mod stuck;

pub use examples::worked_faults;
pub use fault::Fault;
pub use laws::{faulty_can_finish, faulty_drivers};
pub use listing::faults;
pub use stuck::faulty;
