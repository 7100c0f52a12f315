//! Modules of netlist texts that have several (IEEE 1364, structural part): what each says, and its instances of others.
#![tactic(auto)]

mod connections;
mod fault;
mod module;

pub use connections::{Connection, Connections};
pub use fault::ModulesFault;
pub use module::{Item, Module, SubInstance};
