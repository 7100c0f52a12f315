//! Elimination over GF(2) by words: which equations are kept, why one contradicts them, and the solution nearest to a fill.
#![tactic(auto)]

mod bits;
mod fill;
mod laws;
mod mark;
mod row;
mod rows;
mod system;

pub use fill::Fill;
pub use laws::{
    certified_is_unsolvable, chosen_is_one, stated_is_one, stated_is_unsolvable,
    unsolvable_is_stated,
};
pub use mark::Mark;
pub use system::{Outcome, System};
