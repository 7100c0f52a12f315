//! What a scanned netlist is framed with: where the nets of a design move, the parts that are carried over, and its scan cells.
#![tactic(auto)]

mod carrying;
mod cells;
mod counting;
mod domains;
mod error;
mod gap;
mod growing;
mod ids;
mod outputs;

pub use carrying::{bare_module, carry_joins, carry_nets, carry_ports, moved_pins};
pub use cells::{own_name, pins_of, pins_taken, scan_cell, signal_at};
pub use domains::domain_net;
pub use error::InsertError;
pub use gap::Gap;
pub use growing::{add_instance, memory};
pub use ids::port_ids;
pub use outputs::own_output;
