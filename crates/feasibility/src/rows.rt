// The rows of a table, draft or sealed.
ghost use Rattle.std.specs.Prelude.{◌≡◌, ◌≤◌, length, take};
ghost use Rattle.feasibility.specs.Limits.{max_rows, max_hyperperiod};
ghost use Rattle.feasibility.specs.Tables.{Sound, Hyperperiod, LeastPeriods};

use crate::row::Row;

// At most 32 rows within their limits, with what later calls ask of them again and again: their true hyperperiod, and
// for each store the least period of its users, if it has any (at store 0: of the rows that use no store).
// The cells from `count` on hold no row. A table has no heap and can be copied, so the rows are no `Vec`.
#[derive(Clone, Copy)]
pub struct Rows {
    cells: [Row; 32],
    count: u32,
    hyperperiod: u32,
    least: [Option<u32>; 9],
    ghost few: { count ≤ max_rows },
    ghost counted: { length (take count cells) ≡ count },
    ghost sound: { Sound (take count cells) },
    ghost exact: { Hyperperiod (take count cells) hyperperiod },
    ghost within: { hyperperiod ≤ max_hyperperiod },
    ghost shortest: { LeastPeriods least (take count cells) },
}

mod blocking;
mod growth;
mod questions;
