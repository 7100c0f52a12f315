//! Reads what a module of a netlist text says (IEEE 1364).
#![tactic(auto)]

mod assignments;
mod concatenations;
mod connections;
mod declarations;
mod gates;
mod header;
mod instances;
mod joined_pins;
mod module;
mod module_instances;
mod module_items;
mod modules;
mod operands;
mod single_bits;

pub use modules::{ModulesReadError, SaidModule, in_module, next_module};
