//! What every crate of the tool speaks of: three-valued bits, names, directions, lists, scan rules, and places in texts.
#![tactic(auto)]

mod bytes;
mod dir;
mod listed;
mod name;
mod names;
mod place;
mod reserved;
mod rule;
mod tri;
mod words;

pub use bytes::is_printed;
pub use dir::Dir;
pub use listed::Listed;
pub use name::Name;
pub use names::{Names, is_name, name_of, printable};
pub use place::{Place, Range, place_of};
pub use reserved::is_reserved;
pub use rule::Rule;
pub use tri::Tri;
pub use words::{
    begins_word, continues_word, is_later_reserved, is_simple_name, is_word, needs_escape,
};
