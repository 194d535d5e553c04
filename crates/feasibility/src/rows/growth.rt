// How rows come to be: none at first, then one after another.
ghost use Rattle.std.specs.Prelude.{◌≡◌, ℕ, ◌<◌, ◌≤◌, List, [], ◌∷◌, ◌++◌, length, MatchOption, MatchResult, min, slice_set};
ghost use Rattle.feasibility.specs.Contents.{rows_of, hyperperiod_of};
ghost use Rattle.feasibility.specs.Drafts.{IsTooLong};
ghost use Rattle.feasibility.specs.Limits.{max_rows, max_store, max_hyperperiod};
ghost use Rattle.feasibility.specs.Refusals.{refusal_number};
ghost use Rattle.feasibility.specs.Tables.{Limited, Hyperperiod, LeastPeriods};

use crate::divisors::least_common_multiple;
use crate::row::{MAX_HYPERPERIOD, Row, RowRefusal};
use crate::rows::Rows;

impl Rows {
    pub(crate) fn new() -> Rows
        ensures { rows_of result ≡ [] }
    {
        Rows {
            cells: [Row {
                cost: 0,
                period: 0,
                store: 0,
            }; 32],
            count: 0,
            hyperperiod: 1,
            least: [None; 9],
        }
    }

    // The hyperperiod of these rows and one more, if it stays within its limit.
    pub(crate) fn hyperperiod_with(&self, row: Row) -> Result<u32, RowRefusal>
        requires { 0 < row.period }
        ensures { MatchResult result (λ h. Hyperperiod (rows_of self.now ++ row ∷ []) h × (h ≤ max_hyperperiod)) (λ e. (refusal_number e ≡ 5) × IsTooLong (rows_of self.now ++ row ∷ [])) }
    {
        let hyperperiod = least_common_multiple(self.hyperperiod, row.period);
        if hyperperiod > u64::from(MAX_HYPERPERIOD) {
            return Err(RowRefusal::Hyperperiod);
        }
        Ok(hyperperiod as u32)
    }

    // One row more at the end.
    #[tactic(auto, using(crate::proofs::Pushes::rows_after, crate::proofs::Pushes::sound_push))]
    pub(crate) fn push(&mut self, row: Row, hyperperiod: u32)
        requires room { length (rows_of self.old) < max_rows }
        requires limited { Limited row }
        requires exact { Hyperperiod (rows_of self.old ++ row ∷ []) hyperperiod }
        requires within { hyperperiod ≤ max_hyperperiod }
        ensures rows { rows_of self.new ≡ rows_of self.old ++ row ∷ [] }
        ensures exact { Hyperperiod (rows_of self.old ++ row ∷ []) (hyperperiod_of self.new) }
        ensures within { hyperperiod_of self.new ≤ max_hyperperiod }
    {
        write_row(&mut self.cells, self.count, row);
        note_period(&mut self.least, row);
        self.count += 1;
        self.hyperperiod = hyperperiod;
    }
}

// Puts a row after the first `count`.
fn write_row(cells: &mut [Row; 32], count: u32, row: Row)
    requires { count < max_rows }
    ensures { cells.new ≡ slice_set cells.old count row }
{
    cells[count as usize] = row;
}

// The least periods after one row more.
#[tactic(auto, using(crate::proofs::Pushes::least_with))]
fn note_period(least: &mut [Option<u32>; 9], row: Row)
    requires { Limited row }
    ensures { (rows : List Row) → LeastPeriods least.old rows → LeastPeriods least.new (rows ++ row ∷ []) }
{
    let store = row.store as usize;
    least[store] = Some(lower_of(least[store], row.period));
}

// The lower of the least period so far, if there is one, and another.
fn lower_of(least: Option<u32>, period: u32) -> u32
    ensures { MatchOption least (result ≡ period) (λ p. result ≡ min p period) }
{
    least.map_or(period, |p| p.min(period))
}
