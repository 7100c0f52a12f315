//! Texts of libraries, by cases worked by hand.
#![tactic(auto)]

#[cfg(test)]
mod libraries;
