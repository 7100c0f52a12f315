//! Texts worked by hand, as tests of the readers: they call what the readers' crates offer to everybody.
#![tactic(auto)]

#[cfg(test)]
mod cube_files;
mod designs;
#[cfg(test)]
mod netlist_limits;
#[cfg(test)]
mod netlist_lines;
#[cfg(test)]
mod netlist_texts;
#[cfg(test)]
mod netlist_written;
#[cfg(test)]
mod pattern_lines;
#[cfg(test)]
mod patterns;

pub use designs::ring_of_forty;
