//! What pattern texts stand for (IEEE 1450-1999, in a subset of its forms), as definitions and laws on them; and why a text is
//! not read, or not written.
#![tactic(auto)]

mod error;
mod laws;
mod limits;

pub use error::StilError;
pub use laws::{one_reading, read_within, refused_beyond, well_formed};
pub use limits::MAX_VECTORS;
