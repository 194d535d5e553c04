// Session files: a reader that names every fault, and one call for a host in C.
#![tactic(auto)]

mod arrival;
mod arrivals;
mod bytes;
mod fault;
mod field;
pub mod host;
pub mod laws;
mod reader;
mod rows;
mod session;

pub use arrival::Arrival;
pub use arrivals::Arrivals;
pub use bytes::{Kind, classify};
pub use fault::{Fault, LineFault, PlacedFault};
pub use field::{Field, FieldFault, number};
pub use reader::Reader;
pub use session::{Session, read};
