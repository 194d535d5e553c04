// A heap queue in cells that the caller lends, for every kind of element that has a lawful order.
#![tactic(auto)]

mod cells;
mod full;
mod order;
mod queue;
mod sift;

pub use full::Full;
pub use order::Order;
pub use queue::Queue;
