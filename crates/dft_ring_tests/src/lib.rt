//! Rings by another program, and load equations of rings worked by hand.
#![tactic(auto)]

#[cfg(test)]
mod equations;
#[cfg(test)]
mod rings;
