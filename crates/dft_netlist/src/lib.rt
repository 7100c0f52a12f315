//! Gate-level netlists: their parts, what drives each net, and an order of the nets.
#![tactic(auto)]

mod bits;
mod builder;
mod cells;
mod design;
mod driver_notes;
mod drivers;
mod error;
mod ids;
mod instance;
mod key;
mod known;
mod laws;
mod limits;
mod look_ups;
mod name_store;
mod name_table;
mod named;
mod net_driver;
mod order;
mod pins;
mod port;
mod progress;

pub use bits::index_at;
pub use builder::DesignBuilder;
pub use cells::{is_role, kind_of, role_at, signal_of};
pub use design::Design;
pub use dft_base::Dir;
pub use error::{Counted, NetlistError};
pub use ids::{InstanceId, NetId, PortId};
pub use instance::{CellRef, Instance, Join, Signal};
pub use laws::{listed_drivers_drive, orders_rank};
pub use limits::{MAX_INSTANCES, MAX_NETS, MAX_PORTS};
pub use named::Named;
pub use net_driver::NetDriver;
pub use pins::PinSignals;
pub use port::{NetIds, Port};
