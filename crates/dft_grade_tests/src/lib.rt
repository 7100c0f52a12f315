//! Grades and vectors worked by hand, as tests of the calls that give them.
#![tactic(auto)]

#[cfg(test)]
mod alike;
#[cfg(test)]
mod grades;
#[cfg(test)]
mod machines;
