//! Nets and constants as they are written.

ghost use Rattle.std.specs.Prelude.{◌≡◌, ◌≤◌, ◌++◌, IfOk, OnOk, drop, flat_map, length, map};
ghost use Rattle.dft_netlist.specs.Names.{indices_of};
ghost use Rattle.dft_netlist.specs.Sound.{IsLive};
ghost use Rattle.dft_verilog_out.specs.Written as form;

use crate::names::{add_name, add_number};
use dft_base::{Name, Range};
use dft_netlist::{Design, NetId, Port, Signal, index_at};
use std::alloc::{AllocError, Global};
use std::marker::Model;

// A net as it is written. A clause sees it as its bytes.
#[derive(Debug)]
pub(crate) struct NetText {
    bytes: Vec<u8>,
}

// One call for all fields, so that the proof of what owns a value stays short.
impl Drop for NetText {
    fn drop(self) {
        let NetText { bytes: _ } = self;
    }
}

impl Model for NetText {
    ghost use Rattle.std.specs.Prelude.{List, ℕ};

    ghost Value = { List ℕ };

    ghost view = { λ t. t.bytes.items };
}

impl NetText {
    // Its bytes.
    pub(crate) fn as_slice(&self) -> &[u8]
        ensures { result.now ≡ self.now }
    {
        &self.bytes
    }
}

// A net by its own name.
fn whole(alloc: Global, name: &Name) -> Result<NetText, AllocError>
    ensures { IfOk result (λ text. text ≡ form.name_text name.now) }
{
    let mut bytes = Vec::new(alloc);
    add_name(&mut bytes, name)?;
    Ok(NetText { bytes })
}

// A bit of a vector, by its index.
fn bit(alloc: Global, name: &Name, index: u16) -> Result<NetText, AllocError>
    ensures { IfOk result (λ text. text ≡ form.bit_select_text name.now index) }
{
    let mut bytes = Vec::new(alloc);
    add_name(&mut bytes, name)?;
    bytes.push(b'[')?;
    add_number(&mut bytes, index)?;
    bytes.push(b']')?;
    Ok(NetText { bytes })
}

// Adds the bits of a vector, leftmost first.
fn add_bits(
    alloc: Global,
    texts: &mut Vec<NetText>,
    name: &Name,
    range: Range,
) -> Result<(), AllocError>
    ensures { OnOk result (texts.new.items ≡ texts.old.items ++ map (form.bit_select_text name.now) (indices_of range)) }
{
    let count = u32::from(range.left.abs_diff(range.right)) + 1;
    for place in 0..count {
        texts.push(bit(alloc, name, index_at(range, place))?)?;
    }
    Ok(())
}

// Adds the bits of a port, leftmost first.
fn add_port_texts(alloc: Global, texts: &mut Vec<NetText>, port: &Port) -> Result<(), AllocError>
    ensures { OnOk result (texts.new.items ≡ texts.old.items ++ form.port_texts port.now) }
{
    match port.range {
        Some(range) => add_bits(alloc, texts, &port.name, range),
        None => {
            texts.push(whole(alloc, &port.name)?)?;
            Ok(())
        }
    }
}

// The bits of the ports, one port after another.
pub(crate) fn port_texts(alloc: Global, ports: &[Port]) -> Result<Vec<NetText>, AllocError>
    ensures { IfOk result (λ texts. texts.items ≡ flat_map form.port_texts ports.now) }
{
    let mut texts = Vec::new(alloc);
    for port in ports {
        add_port_texts(alloc, &mut texts, port)?;
    }
    Ok(texts)
}

// Adds the nets behind those that are there.
pub(crate) fn add_other_texts(
    alloc: Global,
    texts: &mut Vec<NetText>,
    design: &Design,
) -> Result<(), AllocError>
    requires { length texts.old.items ≤ length design.now.nets }
    ensures { OnOk result (texts.new.items ≡ texts.old.items ++ map form.name_text (drop (length texts.old.items) design.now.nets)) }
{
    let count = design.net_count();
    for net in texts.len() as u32..count {
        texts.push(whole(alloc, design.net_name(NetId(net)))?)?;
    }
    Ok(())
}

// Adds a net or a constant.
pub(crate) fn add_signal(
    out: &mut Vec<u8>,
    texts: &[NetText],
    signal: Signal,
) -> Result<(), AllocError>
    requires { IsLive (length texts.now) signal }
    ensures { OnOk result (out.new.items ≡ out.old.items ++ form.signal_text texts.now signal) }
{
    match signal {
        Signal::Net(net) => out.extend_from_slice(texts[net.0 as usize].as_slice()),
        Signal::Constant(false) => out.extend_from_slice(b"1'b0"),
        Signal::Constant(true) => out.extend_from_slice(b"1'b1"),
        Signal::Unconnected => Ok(()),
    }
}
