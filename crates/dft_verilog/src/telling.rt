//! How the first fault of a netlist text is told.

ghost use Rattle.std.specs.Prelude.{◌≡◌, ◌≤◌, length, pos};
ghost use Rattle.dft_verilog.specs.Refusals.{told_of, most};
ghost use Rattle.dft_base.specs.Lexing.{place_of as place_in};

use crate::error::VerilogError;
use dft_base::{Place, place_of};
use dft_netlist::{Counted, MAX_INSTANCES, MAX_NETS, MAX_PORTS, NetlistError};
use dft_netlist_text::{Cause, Fault};
use dft_verilog_tokens::MAX_TEXT;

// There are as many as there may be.
fn too_many(what: Counted) -> NetlistError
    ensures { result ≡ NetlistError.TooMany what (pos (most what)) }
{
    let limit = match what {
        Counted::Ports => MAX_PORTS,
        Counted::Nets => MAX_NETS,
        Counted::Instances => MAX_INSTANCES,
    };
    NetlistError::TooMany {
        what,
        limit: limit as i64,
    }
}

// How a cause is told of a place.
fn told_at(cause: Cause, place: Place) -> VerilogError
    ensures { result ≡ told_of cause place }
{
    match cause {
        Cause::Byte => VerilogError::V1 { place },
        Cause::Token => VerilogError::V2 { place },
        Cause::Unsupported(name) => VerilogError::V3 { place, name },
        Cause::NoPin(name) => VerilogError::V5 { place, name },
        Cause::Misfit => VerilogError::V6 { place },
        Cause::Inout => VerilogError::V7 { place },
        Cause::Ended => VerilogError::V9 { place },
        Cause::TooLarge => VerilogError::V10 { place },
        Cause::Undeclared(name) => VerilogError::V11 { place, name },
        Cause::JoinedTwice(name) => VerilogError::V12 { place, name },
        Cause::Taken(name) => VerilogError::Netlist(NetlistError::DuplicateName { name }),
        Cause::Full(what) => VerilogError::Netlist(too_many(what)),
    }
}

#[tactic(auto, using(crate::proofs::FaultLemmas::places))]
// How a fault of a text is told: with the line and column of its place.
pub(crate) fn told(bytes: &[u8], fault: Fault) -> VerilogError
    requires { length bytes.now ≤ MAX_TEXT }
    ensures { result ≡ told_of fault.cause (place_in bytes.now fault.left) }
{
    let left = fault.left.min(bytes.len());
    told_at(fault.cause, place_of(bytes, left))
}
