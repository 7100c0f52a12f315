//! Calls that take memory, each with what it answers where there is enough.
#![tactic(auto)]

#[cfg(test)]
mod builders;
#[cfg(test)]
mod given;
#[cfg(test)]
mod readers;
#[cfg(test)]
mod reports;
#[cfg(test)]
mod sweeps;
