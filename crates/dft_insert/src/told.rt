ghost use Rattle.std.specs.Prelude.{◌≡◌};
ghost use Rattle.dft_insert.specs.Refusals.{as_told};

use dft_netlist::NetlistError;
use dft_scan_frame::InsertError;

// A refusal of the builder, as it is told.
pub(crate) fn told(error: NetlistError) -> InsertError
    ensures { result ≡ as_told error }
{
    match error {
        NetlistError::DuplicateName { name } => InsertError::NameClash { name },
        NetlistError::TooMany { what, limit } => InsertError::TooMany { what, limit },
        NetlistError::Memory(error) => InsertError::Memory(error),
        NetlistError::MultipleDrivers { net } => InsertError::NameClash { name: net },
        NetlistError::Loop { net } => InsertError::NameClash { name: net },
    }
}
