//! Reads pattern texts (IEEE 1450-1999, in a subset of its forms): the signals and vectors, or the first fault.
#![tactic(auto)]

mod characters;
mod execution;
mod known_names;
mod members;
mod names;
mod pattern_text;
mod reader;
mod signal_groups;
mod statements;
mod timing;
mod vector;
mod waveform_table;
mod waveform_tables;
mod waveforms;

pub use dft_stil_text::StilError;
pub use dft_stil_tokens::MAX_TEXT;
pub use reader::read;
