//! Netlist texts (IEEE 1364): their tokens, their rules, and the netlist that a text stands for.
#![tactic(auto)]

mod text;

pub use text::{Cause, Declared, Fault, Meaning, Select, Shape, Site, TokenKind};
