//! Tests of certificates and generated jobs that no stored file can show: calls of the outside that fail, and a large job.
#![tactic(auto)]

#[cfg(test)]
mod faults;
#[cfg(test)]
mod jobs;
