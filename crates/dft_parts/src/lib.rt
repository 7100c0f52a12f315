//! Nets and instances that are made beside a design, one part after another: recipes, their builder, and laws of growing.
#![tactic(auto)]

mod edt_ports;
mod gates;
mod laws;
mod lists;
mod made;
mod made_names;
mod parts_builder;
mod pins;
mod sums;

pub use edt_ports::EdtPorts;
pub use laws::{
    made_parts_drive, order_stays, parts_grow, parts_stay_single, ranks_order, sums_add_up,
};
pub use lists::push_net;
pub use made::Made;
pub use made_names::{made_instance, made_net, numbered};
pub use parts_builder::PartsBuilder;
