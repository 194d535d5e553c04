// The job table and the exact verdict on it.
#![tactic(auto)]

mod divisors;
mod draft;
pub mod laws;
mod row;
mod rows;
mod table;
mod verdict;

pub use draft::Draft;
pub use row::{MAX_HYPERPERIOD, MAX_PERIOD, MAX_ROWS, MAX_STORE, Row, RowRefusal};
pub use rows::Rows;
pub use table::Table;
pub use verdict::Verdict;
