//! Cube files: test cubes, and their reader.
#![tactic(auto)]

mod cube;
mod draft;
mod error;
mod giving;
mod here;
mod laws;
mod limits;
mod looking;
mod name_set;
mod reader;
mod said;
mod stamps;
mod taken;

pub use cube::{Cube, Domains, Merged};
pub use error::CubeError;
pub use laws::cubes_are_sound;
pub use limits::MAX_CUBES;
pub use reader::read;
