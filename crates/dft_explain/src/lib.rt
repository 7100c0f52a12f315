//! What a person is told beside the line that a command prints: help, the version, and what is wrong.
#![tactic(auto)]

mod asking;
mod ending;
mod explaining;
mod fault;
mod fault_lines;
mod faults;
mod forms;
mod helping;
mod options;
mod page;
mod pieces;
mod sentences;
mod texts;
mod windows;

pub use asking::{Request, Topic, asked};
pub use ending::{Ending, Refusal};
pub use explaining::explanation;
pub use fault_lines::fault_of_words;
pub use helping::help;
pub use options::{file_of, value_of};
pub use page::Page;
pub use sentences::{Said, said_of};
pub use texts::line_at;
