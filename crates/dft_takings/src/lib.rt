//! Settling a circuit, and plans of what has to be settled for a vector, with their laws.
#![tactic(auto)]

mod entries;
mod laws;
mod lists;
mod marks;
mod needs;
mod origins;
mod settling;
mod shown;
mod takings;

pub use entries::{Entry, Sights, find_entries};
pub use laws::{
    entries_tell, lists_settle, lockup_shows_input, needed_is_settled, next_at_strobe,
    one_assignment, still_has_one_pass, views_rise,
};
pub use lists::{has_row, read_list, settle_list};
pub use marks::{lower, mark_entries, mark_forces, mark_nets};
pub use needs::{list_marked, mark_needed};
pub use origins::find_origins;
pub use settling::{Pulse, View, inverted, is_wire, op_before, op_value, settle, strobe_view};
pub use shown::{Shown, show_all};
pub use takings::{Taking, find_moves, find_values, is_unforced, list_takings, put_all};
