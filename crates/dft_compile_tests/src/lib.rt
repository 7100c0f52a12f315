//! Compilations that no stored file can show: calls of the outside that fail, and more cubes than are stored.
#![tactic(auto)]

#[cfg(test)]
mod faults;
#[cfg(test)]
mod many;
