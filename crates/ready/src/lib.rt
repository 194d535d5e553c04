// Ready lists: the unfinished jobs in the order in which they are to be served.
#![tactic(auto)]

mod entry;
mod flat;
mod heap;
mod list;
mod refusal;
mod slots;

pub use entry::{Entry, Slot};
pub use flat::FlatList;
pub use heap::HeapList;
pub use list::ReadyList;
pub use refusal::ListRefusal;
