// The lines that a session prints, each written into the caller's bytes.
#![tactic(auto)]

mod lines;
mod space;

pub use lines::{fault_line, refusal_line, tick_line, verdict_line};
pub use space::{MIN_SPACE, NoSpace};
