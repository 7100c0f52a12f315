//! Test cubes as patterns: their placement, the channel bits, what they capture, and their vectors.
#![tactic(auto)]

mod bits;
mod captures;
mod encoding;
mod filling;
mod finder;
mod found;
mod laws;
mod loads;
mod placing;
mod settings;

pub use encoding::{Encoded, encode};
pub use laws::vectors_have_width;
pub use placing::place_all;
