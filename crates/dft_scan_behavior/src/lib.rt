//! Laws of scanned netlists of both styles: they have the scan chains and the hardware of their style, and what these do in every run.
#![tactic(auto)]

mod laws;

pub use laws::{edt_acts, edt_captures, edt_loads, events_run, plain_shifts, scanned_has};
