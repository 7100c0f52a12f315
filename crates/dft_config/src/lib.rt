//! The configuration of a compiler run: domains, chains, ring, compactor and the names of ports.
#![tactic(auto)]

mod config;
mod cycles;
mod draft;
mod laws;

pub use config::{CompactorConfig, Config, FillRule, Injector, PortNames, RingConfig, Tap};
pub use cycles::{delay, load_cycles};
pub use dft_base::Listed;
pub use draft::{Clocking, Draft, Loading};
pub use laws::{loads_are_sums, worked_loads};
