// The dispatcher: it gives each tick to the job that the rule names, over any ready list.
#![tactic(auto)]

mod dispatcher;

pub use dispatcher::Dispatcher;
pub use guarantee::{JobState, Refusal};
