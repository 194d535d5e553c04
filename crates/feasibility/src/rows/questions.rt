// What can be asked of a table, draft or sealed.
ghost use Rattle.std.specs.Prelude.{◌≡◌, ◌<◌, ◌≤◌, length, IfSome, MatchOption};
ghost use Rattle.feasibility.specs.Contents.{rows_of, hyperperiod_of, numbered, least_told};
ghost use Rattle.feasibility.specs.Hopeless.{OverloadIsHopeless};
ghost use Rattle.feasibility.specs.Limits.{max_rows, max_period, max_store, max_hyperperiod};
ghost use Rattle.feasibility.specs.Tables.{Limited, Sound, Hyperperiod, least_kept, Least, Unused, load_of};

use crate::row::{MAX_STORE, Row};
use crate::rows::Rows;

impl Rows {
    // How many rows there are.
    pub fn count(&self) -> u32
        ensures { result ≡ length (rows_of self.now) }
    {
        self.count
    }

    // The row under a number, from 1.
    pub fn row(&self, number: u32) -> Option<Row>
        ensures value { result ≡ numbered (rows_of self.now) number }
        ensures limits { IfSome result Limited }
    {
        let place = number.checked_sub(1)?;
        self.as_slice().get(place as usize).copied()
    }

    // The least positive number that every period divides.
    pub fn hyperperiod(&self) -> u32
        ensures value { result ≡ hyperperiod_of self.now }
        ensures law { Hyperperiod (rows_of self.now) result }
        ensures bound { result ≤ max_hyperperiod }
    {
        self.hyperperiod
    }

    // The units that all rows ask for in one hyperperiod.
    #[tactic(auto, using(crate::proofs::Refused::loads_are_worth))]
    pub fn load(&self) -> u64
        ensures value { result ≡ load_of (rows_of self.now) (hyperperiod_of self.now) }
        ensures worth { hyperperiod_of self.now < result → OverloadIsHopeless (rows_of self.now) (hyperperiod_of self.now) }
    {
        self.sum_of_shares(self.hyperperiod)
    }

    // The least period among the rows that use a store from 1 to 8.
    pub fn least_period(&self, store: u32) -> Option<u32>
        ensures value { result ≡ least_told (rows_of self.now) store }
        ensures law { MatchOption result (Unused (rows_of self.now) store) (λ p. Least (rows_of self.now) store p) }
        ensures bound { IfSome result (λ p. p ≤ max_period) }
    {
        if store == 0 || store > MAX_STORE {
            return None;
        }
        self.kept_period(store)
    }

    // The least period that is kept for a store, if a row uses it.
    #[tactic(auto, using(crate::proofs::Stores::kept_law, crate::proofs::Stores::kept_short))]
    fn kept_period(&self, store: u32) -> Option<u32>
        requires { store ≤ max_store }
        ensures value { result ≡ least_kept (rows_of self.now) store }
        ensures law { MatchOption result (Unused (rows_of self.now) store) (λ p. Least (rows_of self.now) store p) }
        ensures bound { IfSome result (λ p. p ≤ max_period) }
    {
        self.least[store as usize]
    }

    // Adds each row's share of a hyperperiod: a loop for the reason that `units_asked` is one.
    #[tactic(auto, using(crate::proofs::Totals::sum_more))]
    fn sum_of_shares(&self, hyperperiod: u32) -> u64
        ensures { result ≡ load_of (rows_of self.now) hyperperiod }
    {
        let mut sum: u64 = 0;
        for row in self.as_slice() {
            sum += u64::from(row.share(hyperperiod));
        }
        sum
    }

    pub(crate) fn as_slice(&self) -> &[Row]
        ensures rows { result.now ≡ rows_of self.now }
        ensures sound { Sound result.now }
        ensures few { length result.now ≤ max_rows }
    {
        &self.cells[0..self.count as usize]
    }
}
