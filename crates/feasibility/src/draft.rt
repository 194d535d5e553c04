// A table that still takes rows.
ghost use Rattle.std.specs.Prelude.{◌≡◌, [], MatchResult};
ghost use Rattle.feasibility.specs.Contents.{rows_of, hyperperiod_of};
ghost use Rattle.feasibility.specs.Drafts.{Taken, Refused};
ghost use Rattle.feasibility.specs.Refusals.{refusal_number};

use crate::row::{MAX_ROWS, Row, RowRefusal};
use crate::rows::Rows;
use crate::table::Table;
use std::ops::Deref;

#[derive(Drop)]
pub struct Draft {
    rows: Rows,
}

impl Draft {
    // A table with no rows yet.
    pub fn new() -> Draft
        ensures { rows_of result.rows ≡ [] }
    {
        Draft { rows: Rows::new() }
    }

    // Adds a row at the end, or refuses it and stays as it was.
    pub fn add(&mut self, row: Row) -> Result<(), RowRefusal>
        ensures { MatchResult result (λ _. Taken (rows_of self.old.rows) row (rows_of self.new.rows) (hyperperiod_of self.new.rows)) (λ e. Refused (rows_of self.old.rows) row (refusal_number e) × (self.new ≡ self.old)) }
    {
        if self.rows.count() == MAX_ROWS {
            return Err(RowRefusal::Full);
        }
        row.check_limits()?;
        let hyperperiod = self.rows.hyperperiod_with(row)?;
        self.rows.push(row, hyperperiod);
        Ok(())
    }

    // Uses the draft up: its rows are a table, which takes no more.
    pub fn seal(self) -> Table
        ensures { result.rows ≡ self.rows }
    {
        let Draft { rows } = self;
        Table::of(rows)
    }
}

// A draft answers what its rows do.
impl Deref for Draft {
    type Target = Rows;

    ghost deref_gives = { λ d rows. rows ≡ d.rows };

    fn deref(&self) -> &Rows {
        &self.rows
    }
}
