//! Why a netlist text was not read.

use dft_base::{Name, Place};
use dft_netlist::NetlistError;
use std::alloc::AllocError;
use thiserror::Error;

/// Why a netlist text was not read. Each place is where the refused token begins.
#[derive(Debug, Error, Drop)]
pub enum VerilogError {
    /// A byte that no text may have there.
    #[error("a byte that no netlist text may have there")]
    V1 { place: Place },
    /// A token that stands where none such may, or a constant that is driven.
    #[error("a token that stands where none such may, or a constant that is driven")]
    V2 { place: Place },
    /// A word or directive that the structural part leaves out.
    #[error("a word or directive that the structural part leaves out")]
    V3 { place: Place, name: Name },
    /// A pin that the cell has not.
    #[error("a pin that the cell has not")]
    V5 { place: Place, name: Name },
    /// Widths, numbers of terminals, bits or sizes that do not fit.
    #[error("widths, numbers of terminals, bits or sizes that do not fit")]
    V6 { place: Place },
    /// `inout`.
    #[error("an inout port")]
    V7 { place: Place },
    /// The text ends too early.
    #[error("the text ends too early")]
    V9 { place: Place },
    /// A number that is too large.
    #[error("a number that is too large")]
    V10 { place: Place },
    /// A name that was not declared.
    #[error("a name that was not declared")]
    V11 { place: Place, name: Name },
    /// A pin that was connected before.
    #[error("a pin that was connected before")]
    V12 { place: Place, name: Name },
    /// The netlist is refused: a name that is taken, one more than there may be, two drivers, or a loop.
    #[error("the module is refused")]
    Netlist(NetlistError),
    /// Memory ran out.
    #[error("out of memory")]
    Memory(AllocError),
}

/// Why a netlist text of several modules was not read.
#[derive(Debug, Error, Drop)]
pub enum ModulesError {
    /// The first fault of the text stands in a module, or memory ran out.
    #[error("a module is refused")]
    Module(VerilogError),
    /// H1: a module has the name of a module before it or of a cell of the library.
    #[error("a module has the name of a module before it, or of a cell of the library")]
    Repeated { name: Name },
}
