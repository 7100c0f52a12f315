//! Why a pattern text is not read, or not written.

ghost use Rattle.std.specs.Prelude.{◌≡◌};
ghost use Rattle.dft_stil_text.specs.declared.error.StilError.TheVariants.{Memory};

use dft_base::{Name, Place};
use std::alloc::AllocError;
use thiserror::Error;

/// Why a pattern text is not read, or not written (P6). Each place is where the refused token begins.
#[derive(Debug, Error, Drop)]
pub enum StilError {
    /// A byte that no text may have there, or a token that stands where none such may; or the text ends too early.
    #[error("a token that stands where none such may, or the text ends too early; where one character or an event's letter must stand, what follows it in its token")]
    P1 { place: Place },
    /// A word, a letter or a waveform that the profile leaves out.
    #[error("a word, a letter or a waveform that is left out of the subset (Procedures, MacroDefs, Loop, Call, ScanStructures, InOut ..), or a run of letters and digits where one must stand")]
    P2 { place: Place, name: Name },
    /// A name that was not given.
    #[error("a name that is not given before")]
    P3 { place: Place, name: Name },
    /// More or fewer characters than signals, or one vector more than there may be.
    #[error("a number or a length that does not fit; vector 4,194,305")]
    P4 { place: Place },
    /// A character without a waveform.
    #[error("a character or an act that its signal has not, or no W yet")]
    P5 { place: Place },
    /// The text would have so many bytes, which are more than there may be.
    #[error("the patterns of a compilation would be longer than a file may be")]
    P6 { first: i64 },
    /// Times of a table that do not fit.
    #[error("times that do not fit, at the last brace of their table")]
    P8 { place: Place },
    /// A name, or a waveform, that was given before.
    #[error("a name that is given twice, a second waveform of a character, a signal twice in a vector")]
    P9 { place: Place, name: Name },
    /// A signal that pulses in some vector is high or was never set in this one, numbered from 0.
    #[error("a signal that pulses in a vector is high or unset in another")]
    P10 { first: i64, name: Name },
    /// Memory ran out.
    #[error("out of memory")]
    Memory(AllocError),
}

impl From<AllocError> for StilError {
    ghost from_gives = { λ a e. e ≡ Memory a };

    fn from(error: AllocError) -> StilError {
        StilError::Memory(error)
    }
}
