//! Texts of configurations, and configurations that are made, worked by hand.
#![tactic(auto)]

#[cfg(test)]
mod configurations;
#[cfg(test)]
mod long;
#[cfg(test)]
mod texts;
