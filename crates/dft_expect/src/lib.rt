//! What patterns capture, which chains are masked, and the bits that outputs show.
#![tactic(auto)]

mod capturer;
mod fixed;
mod laws;
mod loading;
mod masking;
mod moving;
mod pattern;
mod policy;
mod pulsing;
mod reading;
mod reads;
mod response;
mod ring;
mod settings;
mod sources;
mod unloading;

pub use capturer::Capturer;
pub use laws::{
    capture_is_one, settled_stands_above, unmasked_are_known, worked_captures, worked_patterns,
};
pub use loading::loaded;
pub use masking::masks;
pub use pattern::Pattern;
pub use policy::MaskPolicy;
pub use response::Response;
pub use unloading::expected;
