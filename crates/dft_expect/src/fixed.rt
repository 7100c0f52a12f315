//! What captures go by that is the same for all patterns.

use crate::reads::Read;
use crate::settings::Setting;
use dft_config::Config;
use dft_netlist::{Design, NetId};

// A design and its configuration, what each net is set to, where the next values of the cells are read, the bits of the output ports, and
// whether a cell takes its bit at falls.
#[derive(Clone, Copy)]
pub(crate) struct Fixed<'a> {
    pub design: &'a Design,
    pub config: &'a Config,
    pub settings: &'a [Setting],
    pub reads: &'a [Read],
    pub outputs: &'a [NetId],
    pub falls: bool,
}
