// The rules of a dispatcher as definitions, and what they guarantee over its whole life. The types are those that the
// dispatcher's calls answer with and that its state is made of.
#![tactic(auto)]

pub mod laws;
mod refusal;
mod state;

pub use refusal::Refusal;
pub use state::{JobState, Pending, RowState, Tick};
