//! What a module of a netlist text has said so far: its names, ports, nets, instances and joins.
#![tactic(auto)]

mod bits;
mod declaring;
mod draft_instance;
mod draft_sub;
mod header_port;
mod module_draft;
mod name_set;
mod naming;
mod selects;
mod sub_connection;
mod sub_connections;
mod taken_names;

pub use bits::width;
pub use draft_instance::DraftInstance;
pub use draft_sub::DraftSub;
pub use header_port::HeaderPort;
pub use module_draft::ModuleDraft;
pub use name_set::NameSet;
pub use selects::Spot;
pub use sub_connection::SubConnection;
pub use sub_connections::SubConnections;
