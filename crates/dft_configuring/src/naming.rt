//! Free names of ports.

ghost use Rattle.std.specs.Prelude.{◌≡◌, IfOk, Some};
ghost use Rattle.dft_base.specs.Name.{IsName};
ghost use Rattle.dft_configuring.specs.Names as spec;

use dft_base::Name;
use dft_config::PortNames;
use dft_netlist::Design;
use dft_parts::numbered;
use std::alloc::{AllocError, Global};

// Whether the design has no name of the port with this name and number.
fn is_port_free(
    alloc: Global,
    design: &Design,
    name: &[u8],
    number: u16,
) -> Result<bool, AllocError>
    requires { IsName name.now }
    ensures { IfOk result (λ free. free ≡ spec.is_port_free design.now name.now number) }
{
    let port = numbered(alloc, name, usize::from(number))?;
    Ok(!design.is_taken(port.as_slice()))
}

// Whether the design has none of so many ports with this name and their numbers.
fn are_ports_free(
    alloc: Global,
    design: &Design,
    count: u16,
    name: &[u8],
) -> Result<bool, AllocError>
    requires { IsName name.now }
    ensures { IfOk result (λ free. free ≡ spec.are_free design.now (Some count) name.now) }
{
    for number in 0..count {
        let free = is_port_free(alloc, design, name, number)?;
        if !free {
            return Ok(false);
        }
    }
    Ok(true)
}

// Whether the design has no name of the ports with this name.
fn are_free(
    alloc: Global,
    design: &Design,
    count: Option<u16>,
    name: &[u8],
) -> Result<bool, AllocError>
    requires { IsName name.now }
    ensures { IfOk result (λ free. free ≡ spec.are_free design.now count name.now) }
{
    match count {
        Some(count) => are_ports_free(alloc, design, count, name),
        None => Ok(!design.is_taken(name)),
    }
}

// As many as a design has names.
fn most_bars(design: &Design) -> usize
    ensures { result ≡ spec.most_bars design.now }
{
    design.net_count() as usize + (design.ports().len() + design.instances().len())
}

// The bytes of the name with the fewest `_` behind it that is free.
fn free_bytes(
    alloc: Global,
    design: &Design,
    count: Option<u16>,
    name: &[u8],
) -> Result<Vec<u8>, AllocError>
    requires { IsName name.now }
    ensures free { IfOk result (λ bytes. bytes.items ≡ spec.free_name design.now count name.now) }
    ensures name { IfOk result (λ bytes. IsName bytes.items) }
{
    let mut bytes = Vec::from_slice(alloc, name)?;
    for _bars in 0..most_bars(design) {
        let free = are_free(alloc, design, count, &bytes)?;
        if free {
            return Ok(bytes);
        }
        bytes.push(b'_')?;
    }
    Ok(bytes)
}

// The name with the fewest `_` behind it that is free.
fn free_name(
    alloc: Global,
    design: &Design,
    count: Option<u16>,
    name: &[u8],
) -> Result<Name, AllocError>
    requires { IsName name.now }
    ensures { IfOk result (λ free. free ≡ spec.free_name design.now count name.now) }
{
    let bytes = free_bytes(alloc, design, count, name)?;
    Name::from_slice(alloc, &bytes)
}

// How many ports of each name there are.
#[derive(Clone, Copy)]
pub(crate) struct Counts {
    pub(crate) channels: u8,
    pub(crate) masks: u8,
    pub(crate) outputs: u8,
    pub(crate) chains: u16,
}

// The names of the added ports.
pub(crate) fn names_for(
    alloc: Global,
    design: &Design,
    counts: Counts,
) -> Result<PortNames, AllocError>
    ensures { IfOk result (λ names. names ≡ spec.names_for design.now counts.channels counts.masks counts.outputs counts.chains) }
{
    let channels = u16::from(counts.channels);
    let masks = u16::from(counts.masks);
    let outputs = u16::from(counts.outputs);
    let chains = counts.chains;
    Ok(PortNames {
        scan_enable: free_name(alloc, design, None, b"scan_enable")?,
        edt_clock: free_name(alloc, design, None, b"edt_clock")?,
        edt_update: free_name(alloc, design, None, b"edt_update")?,
        channel: free_name(alloc, design, Some(channels), b"edt_in")?,
        mask: free_name(alloc, design, Some(masks), b"edt_mask")?,
        output: free_name(alloc, design, Some(outputs), b"edt_out")?,
        scan_in: free_name(alloc, design, Some(chains), b"scan_in")?,
        scan_out: free_name(alloc, design, Some(chains), b"scan_out")?,
    })
}
