//! The parts of a made configuration as they are written.

ghost use Rattle.std.specs.Prelude.{◌≡◌, ◌++◌, OnOk};
ghost use Rattle.dft_config_out.specs.Written as spec;

use crate::lists::{add_groups, add_injectors, add_names, add_sets, add_taps};
use crate::made::Made;
use crate::names::add_name;
use crate::numbers::{add_numbered, add_short, add_small};
use dft_base::Name;
use dft_config::{CompactorConfig, PortNames, RingConfig};
use std::alloc::AllocError;

// Adds the line that tells what the configuration is for.
#[tactic(auto, unfolding(crate::specs::Written::head_text))]
fn add_head(out: &mut Vec<u8>, cells: u32, chains: u16) -> Result<(), AllocError>
    ensures { OnOk result (out.new.items ≡ out.old.items ++ spec.head_text cells chains) }
{
    add_numbered(out, b"# Made by dft configure: ", cells)?;
    add_short(out, b" flip-flops in ", chains)?;
    out.extend_from_slice(b" chains.\n")
}

// Adds a key and names behind it.
fn add_names_line(out: &mut Vec<u8>, key: &[u8], names: &[Name]) -> Result<(), AllocError>
    ensures { OnOk result (out.new.items ≡ out.old.items ++ spec.names_line key.now names.now) }
{
    out.extend_from_slice(key)?;
    add_names(out, names)
}

// Adds the lines of clocks and resets.
#[tactic(auto, unfolding(crate::specs::Written::clocking_text))]
fn add_clocking(out: &mut Vec<u8>, made: &Made) -> Result<(), AllocError>
    ensures { OnOk result (out.new.items ≡ out.old.items ++ spec.clocking_text made.now) }
{
    add_names_line(out, b"version = 1\ndomains = ", made.domains.as_slice())?;
    add_names_line(out, b"\nresets = ", made.resets.as_slice())?;
    Ok(())
}

// Adds the lines of chains and loads.
#[tactic(auto, unfolding(crate::specs::Written::loading_text))]
fn add_loading(out: &mut Vec<u8>, made: &Made) -> Result<(), AllocError>
    ensures { OnOk result (out.new.items ≡ out.old.items ++ spec.loading_text made.now) }
{
    add_short(out, b"\nchains = ", made.chains)?;
    add_short(out, b"\nwarm = ", made.warm)?;
    out.extend_from_slice(b"\nwindow = 16\nfill = \"seed\"\nseed = 1\n")?;
    Ok(())
}

// Adds what stands above the tables.
#[tactic(auto, unfolding(crate::specs::Written::front_text))]
pub(crate) fn add_front(out: &mut Vec<u8>, cells: u32, made: &Made) -> Result<(), AllocError>
    ensures { OnOk result (out.new.items ≡ out.old.items ++ spec.front_text cells made.now) }
{
    add_head(out, cells, made.chains)?;
    add_clocking(out, made)?;
    add_loading(out, made)
}

// Adds the size of the ring.
#[tactic(auto, unfolding(crate::specs::Written::sizes_text))]
fn add_sizes(out: &mut Vec<u8>, ring: &RingConfig) -> Result<(), AllocError>
    ensures { OnOk result (out.new.items ≡ out.old.items ++ spec.sizes_text ring.now) }
{
    add_small(out, b"\n[ring]\nstages = ", ring.stages)?;
    add_small(out, b"\nchannels = ", ring.channels)?;
    Ok(())
}

// Adds the taps and the injectors.
#[tactic(auto, unfolding(crate::specs::Written::wires_text))]
fn add_wires(out: &mut Vec<u8>, ring: &RingConfig) -> Result<(), AllocError>
    ensures { OnOk result (out.new.items ≡ out.old.items ++ spec.wires_text ring.now) }
{
    out.extend_from_slice(b"\ntaps = ")?;
    add_taps(out, ring.taps.as_slice())?;
    out.extend_from_slice(b"\ninjectors = ")?;
    add_injectors(out, ring.injectors.as_slice())
}

// Adds the phase sets.
#[tactic(auto, unfolding(crate::specs::Written::phase_text))]
fn add_phase(out: &mut Vec<u8>, ring: &RingConfig) -> Result<(), AllocError>
    ensures { OnOk result (out.new.items ≡ out.old.items ++ spec.phase_text ring.now) }
{
    out.extend_from_slice(b"\nphase = ")?;
    add_sets(out, ring.phase.as_slice())?;
    out.extend_from_slice(b"\n")
}

// Adds the table of the ring.
#[tactic(auto, unfolding(crate::specs::Written::ring_text))]
pub(crate) fn add_ring(out: &mut Vec<u8>, ring: &RingConfig) -> Result<(), AllocError>
    ensures { OnOk result (out.new.items ≡ out.old.items ++ spec.ring_text ring.now) }
{
    add_sizes(out, ring)?;
    add_wires(out, ring)?;
    add_phase(out, ring)
}

// Adds the groups of chains.
#[tactic(auto, unfolding(crate::specs::Written::groups_text))]
fn add_listed_groups(out: &mut Vec<u8>, compactor: &CompactorConfig) -> Result<(), AllocError>
    ensures { OnOk result (out.new.items ≡ out.old.items ++ spec.groups_text compactor.now) }
{
    out.extend_from_slice(b"\n[compactor]\ngroups = ")?;
    add_groups(out, compactor.groups.as_slice())
}

// Adds the table of the compactor.
#[tactic(auto, unfolding(crate::specs::Written::compactor_text))]
pub(crate) fn add_compactor(
    out: &mut Vec<u8>,
    compactor: &CompactorConfig,
) -> Result<(), AllocError>
    ensures { OnOk result (out.new.items ≡ out.old.items ++ spec.compactor_text compactor.now) }
{
    add_listed_groups(out, compactor)?;
    add_small(out, b"\nmask_inputs = ", compactor.mask_inputs)?;
    out.extend_from_slice(b"\n")?;
    Ok(())
}

// Adds the line of a port's name.
fn add_port(out: &mut Vec<u8>, key: &[u8], name: &[u8]) -> Result<(), AllocError>
    ensures { OnOk result (out.new.items ≡ out.old.items ++ spec.port_line key.now name.now) }
{
    out.extend_from_slice(key)?;
    add_name(out, name)?;
    out.extend_from_slice(b"\n")
}

// Adds the names of the ports that steer a load.
#[tactic(auto, unfolding(crate::specs::Written::steering_text))]
fn add_steering(out: &mut Vec<u8>, names: &PortNames) -> Result<(), AllocError>
    ensures { OnOk result (out.new.items ≡ out.old.items ++ spec.steering_text names.now) }
{
    add_port(
        out,
        b"\n[names]\nscan_enable = ",
        names.scan_enable.as_slice(),
    )?;
    add_port(out, b"edt_clock = ", names.edt_clock.as_slice())?;
    add_port(out, b"edt_update = ", names.edt_update.as_slice())?;
    Ok(())
}

// Adds the names of the ports of the compression hardware.
#[tactic(auto, unfolding(crate::specs::Written::carrying_text))]
fn add_carrying(out: &mut Vec<u8>, names: &PortNames) -> Result<(), AllocError>
    ensures { OnOk result (out.new.items ≡ out.old.items ++ spec.carrying_text names.now) }
{
    add_port(out, b"channel = ", names.channel.as_slice())?;
    add_port(out, b"mask = ", names.mask.as_slice())?;
    add_port(out, b"output = ", names.output.as_slice())?;
    Ok(())
}

// Adds the names of the ports of plain chains.
#[tactic(auto, unfolding(crate::specs::Written::scanning_text))]
fn add_scanning(out: &mut Vec<u8>, names: &PortNames) -> Result<(), AllocError>
    ensures { OnOk result (out.new.items ≡ out.old.items ++ spec.scanning_text names.now) }
{
    add_port(out, b"scan_in = ", names.scan_in.as_slice())?;
    add_port(out, b"scan_out = ", names.scan_out.as_slice())
}

// Adds the table of the names of ports.
#[tactic(auto, unfolding(crate::specs::Written::ports_text))]
pub(crate) fn add_ports(out: &mut Vec<u8>, names: &PortNames) -> Result<(), AllocError>
    ensures { OnOk result (out.new.items ≡ out.old.items ++ spec.ports_text names.now) }
{
    add_steering(out, names)?;
    add_carrying(out, names)?;
    add_scanning(out, names)
}
