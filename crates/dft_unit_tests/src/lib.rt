//! Cases worked by hand, as tests of the reader of TOML, row kernels, elimination and the outside.
#![tactic(auto)]

#[cfg(test)]
mod cells;
#[cfg(test)]
mod endings;
#[cfg(test)]
mod keys;
#[cfg(test)]
mod lanes;
#[cfg(test)]
mod outside;
#[cfg(test)]
mod registers;
#[cfg(test)]
mod systems;
#[cfg(test)]
mod words;
