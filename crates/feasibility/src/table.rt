// A sealed table: it takes no more rows, and can be judged.
ghost use Rattle.std.specs.Prelude.{◌≡◌};
ghost use Rattle.feasibility.specs.Contents.{rows_of, hyperperiod_of};
ghost use Rattle.feasibility.specs.Hopeless.{Deserved};
ghost use Rattle.feasibility.specs.Tables.{Hyperperiod};
ghost use Rattle.feasibility.specs.Told.{told};
ghost use Rattle.feasibility.specs.Verdicts.{Judged};

use crate::rows::Rows;
use crate::verdict::Verdict;
use std::ops::Deref;

#[derive(Clone, Copy)]
pub struct Table {
    rows: Rows,
}

impl Table {
    // The table of a draft's rows.
    pub(crate) fn of(rows: Rows) -> Table
        ensures { result.rows ≡ rows }
    {
        Table { rows }
    }

    // Judges the table by its load and by how long each row can keep others from its store.
    pub fn judge(&self) -> Verdict
        ensures judged { Judged (rows_of self.now.rows) (hyperperiod_of self.now.rows) (told result) }
        ensures exact { Hyperperiod (rows_of self.now.rows) (hyperperiod_of self.now.rows) }
        ensures deserved { Deserved (rows_of self.now.rows) (told result) }
    {
        let hyperperiod = self.rows.hyperperiod();
        let load = self.rows.load();
        if load > u64::from(hyperperiod) {
            return Verdict::Overloaded { hyperperiod, load };
        }
        match self.rows.first_failing() {
            None => Verdict::Fit,
            Some((place, length)) => Verdict::Blocked {
                row: place as u32 + 1,
                length,
            },
        }
    }
}

// A sealed table answers what its rows do.
impl Deref for Table {
    type Target = Rows;

    ghost deref_gives = { λ t rows. rows ≡ t.rows };

    fn deref(&self) -> &Rows {
        &self.rows
    }
}
