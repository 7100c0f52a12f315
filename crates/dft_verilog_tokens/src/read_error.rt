use dft_netlist_text::Fault;

/// Why a netlist text was not read: its first fault, or memory ran out.
pub type ReadError = dft_lexing::ReadError<Fault>;
