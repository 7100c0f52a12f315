//! Captures of many patterns, in groups and one by one, and the fill of a seed.
#![tactic(auto)]

#[cfg(test)]
mod fills;
#[cfg(test)]
mod groups;
#[cfg(test)]
mod lines;
#[cfg(test)]
mod texts;
