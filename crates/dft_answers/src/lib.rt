//! What the tool's commands answer: how they end, what errors come to as refusals, and the line that is printed.
#![tactic(auto)]

mod answer;
mod outcome;
mod printing;
mod putting;
mod refusal;
mod refusing;
mod stop;
mod text;

pub use answer::{Answer, Code, Refusal, Status, Unpassed};
pub use outcome::{Outcome, Replayed, Work};
pub use printing::{code_text, line};
pub use putting::put_line;
pub use refusing::{
    certify_refusal, compile_refusal, config_refusal, configure_refusal, cube_refusal,
    design_refusal, library_refusal, read_refusal, report_refusal, scan_refusal, seek_refusal,
    stil_refusal,
};
pub use stop::Stop;
pub use text::{check_length, load_text};
