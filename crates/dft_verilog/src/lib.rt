//! Reads the modules of Verilog texts (IEEE 1364).
#![tactic(auto)]

mod error;
mod final_nets;
mod finishing;
mod laws;
mod module_items;
mod module_nets;
mod modules;
mod places;
mod telling;
mod texts;

pub use dft_verilog_tokens::MAX_TEXT;
pub use error::{ModulesError, VerilogError};
pub use finishing::finished;
pub use laws::{
    distinct_names_are_built, modules_are_buildable, said_modules_are_sound,
    texts_stand_for_one_netlist,
};
pub use texts::{TextSaid, read_text};
