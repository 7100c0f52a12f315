use dft_base::Place;
use dft_config::Config;
use dft_netlist::Design;
use std::alloc::Global;

// Where a line stands, and what its names are looked up in.
#[derive(Clone, Copy)]
pub(crate) struct Here<'a> {
    pub(crate) alloc: Global,
    pub(crate) design: &'a Design,
    pub(crate) config: &'a Config,
    pub(crate) place: Place,
}
