use crate::text::Fault;

/// Why a pattern text was not read: its first fault, or memory ran out.
pub type ReadError = dft_lexing::ReadError<Fault>;
