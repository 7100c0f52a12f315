//! Runs that no stored file can show: calls of the outside that fail, and texts that are cut off or too long to be stored.
#![tactic(auto)]

#[cfg(test)]
mod cut;
#[cfg(test)]
mod faults;
#[cfg(test)]
mod inverters;
#[cfg(test)]
mod large;
#[cfg(test)]
mod plans;
