//! The ports that are added.

ghost use Rattle.std.specs.Prelude.{◌≡◌, ◌++◌, ◌∷◌, [], IfOk, OnOk};
ghost use Rattle.dft_scan_frame.specs.AddedPorts.{new_port, numbered_ports, plain_ports};
ghost use Rattle.dft_insert.specs.Ports as spec;

use crate::new_port::NewPort;
use crate::style::Style;
use dft_base::{Dir, Name};
use dft_config::Config;
use dft_parts::numbered;
use std::alloc::{AllocError, Global};

// The ports that a style adds, in order.
pub(crate) fn added_ports(
    alloc: Global,
    style: Style,
    config: &Config,
) -> Result<Vec<NewPort>, AllocError>
    ensures { IfOk result (λ ports. ports.items ≡ spec.added_ports style config.now) }
{
    let mut ports = Vec::new(alloc);
    push_ports(alloc, &mut ports, style, config)?;
    Ok(ports)
}

fn push_ports(
    alloc: Global,
    ports: &mut Vec<NewPort>,
    style: Style,
    config: &Config,
) -> Result<(), AllocError>
    ensures { OnOk result (ports.new.items ≡ ports.old.items ++ spec.added_ports style config.now) }
{
    match style {
        Style::Plain => push_plain(alloc, ports, config),
        Style::Edt => push_edt(alloc, ports, config),
    }
}

// Those of style Plain: scan_enable, then a scan input and then a scan output for each chain.
fn push_plain(alloc: Global, ports: &mut Vec<NewPort>, config: &Config) -> Result<(), AllocError>
    ensures { OnOk result (ports.new.items ≡ ports.old.items ++ plain_ports config.now) }
{
    let names = config.names();
    let chains = usize::from(config.chains());
    push_port(ports, names.scan_enable.copy(alloc)?, Dir::Input)?;
    push_numbered(alloc, ports, &names.scan_in, Dir::Input, chains)?;
    push_numbered(alloc, ports, &names.scan_out, Dir::Output, chains)
}

// Those of style Edt: scan_enable, edt_clock and edt_update, then channels, mask ports and outputs.
fn push_edt(alloc: Global, ports: &mut Vec<NewPort>, config: &Config) -> Result<(), AllocError>
    ensures { OnOk result (ports.new.items ≡ ports.old.items ++ spec.edt_ports config.now) }
{
    let names = config.names();
    push_port(ports, names.scan_enable.copy(alloc)?, Dir::Input)?;
    push_port(ports, names.edt_clock.copy(alloc)?, Dir::Input)?;
    push_port(ports, names.edt_update.copy(alloc)?, Dir::Input)?;
    push_compression(alloc, ports, config)
}

// The channels, the mask ports and the outputs.
fn push_compression(
    alloc: Global,
    ports: &mut Vec<NewPort>,
    config: &Config,
) -> Result<(), AllocError>
    ensures { OnOk result (ports.new.items ≡ ports.old.items ++ spec.compression_ports config.now) }
{
    let names = config.names();
    let channels = usize::from(config.ring().channels);
    let masks = usize::from(config.compactor().mask_inputs);
    let outputs = config.compactor().groups.as_slice().len();
    push_numbered(alloc, ports, &names.channel, Dir::Input, channels)?;
    push_numbered(alloc, ports, &names.mask, Dir::Input, masks)?;
    push_numbered(alloc, ports, &names.output, Dir::Output, outputs)
}

fn push_port(ports: &mut Vec<NewPort>, name: Name, dir: Dir) -> Result<(), AllocError>
    ensures { OnOk result (ports.new.items ≡ ports.old.items ++ new_port dir name ∷ []) }
{
    ports.push(NewPort { name, dir })?;
    Ok(())
}

// So many ports of one name, numbered from 0 on.
fn push_numbered(
    alloc: Global,
    ports: &mut Vec<NewPort>,
    name: &Name,
    dir: Dir,
    count: usize,
) -> Result<(), AllocError>
    ensures { OnOk result (ports.new.items ≡ ports.old.items ++ numbered_ports dir name.now count) }
{
    for number in 0..count {
        push_port(ports, numbered(alloc, name.as_slice(), number)?, dir)?;
    }
    Ok(())
}
