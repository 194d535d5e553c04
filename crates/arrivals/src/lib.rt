// The arrivals of a session that are still to come, in the order in which they are released.
#![tactic(auto)]

mod coming;
mod order;

pub use coming::Coming;
pub use order::PlacedArrival;
