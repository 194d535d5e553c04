// The search for a row whose jobs can keep others from their store too long.
ghost use Rattle.std.specs.Prelude.{◌≡◌, ℕ, ◌+◌, ◌*◌, ◌<◌, ◌≤◌, length, IfSome, MatchOption};
ghost use Rattle.feasibility.specs.Contents.{rows_of};
ghost use Rattle.feasibility.specs.Hopeless.{BlockingIsHopeless};
ghost use Rattle.feasibility.specs.Limits.{max_rows, max_period};
ghost use Rattle.feasibility.specs.Sums.{Σ<};
ghost use Rattle.feasibility.specs.Tables.{row_at};
ghost use Rattle.feasibility.specs.Verdicts.{demand, needed, Unblocked, FirstFailing};

use crate::rows::Rows;

impl Rows {
    // The place of the first row that fails, with its first failing length; what such a find is worth. A row that uses no
    // store is tried at no length.
    #[tactic(auto, using(crate::proofs::Refused::finds_are_worth))]
    pub(crate) fn first_failing(&self) -> Option<(usize, u32)>
        ensures found { MatchOption result (Unblocked (rows_of self.now)) (λ b. FirstFailing (rows_of self.now) b.0 b.1) }
        ensures worth { IfSome result (λ b. BlockingIsHopeless (rows_of self.now) b.0 b.1) }
    {
        let mut found = None;
        'search: for (place, row) in self.as_slice().iter().enumerate() {
            if let Some(shortest) = self.least_period(row.store) {
                for length in shortest + 1..row.period {
                    if length < self.units_needed(place, length) {
                        found = Some((place, length));
                        break 'search;
                    }
                }
            }
        }
        found
    }

    // What the row at a place and the others need within `span` ticks. It asks itself for nothing again below its period.
    #[tactic(auto, using(crate::proofs::Totals::sum_split, crate::proofs::Demands::demand_none))]
    fn units_needed(&self, place: usize, span: u32) -> u32
        requires within { place < length (rows_of self.now) }
        requires some { 0 < span }
        requires below { span < (row_at (rows_of self.now) place).period }
        ensures { result ≡ needed (rows_of self.now) place span }
    {
        self.as_slice()[place].cost + self.units_asked(span - 1)
    }

    // What all jobs ask for that are requested and due within `span` ticks. In a chain with `sum` the proof would not know
    // that each row is within its limits.
    #[tactic(auto, using(crate::proofs::Totals::sum_more))]
    fn units_asked(&self, span: u32) -> u32
        requires { span ≤ max_period }
        ensures value { result ≡ Σ< (length (rows_of self.now)) (λ j. demand (row_at (rows_of self.now) j) span) }
        ensures bound { result ≤ max_period * max_rows }
    {
        let mut sum = 0;
        for row in self.as_slice() {
            sum += row.demand(span);
        }
        sum
    }
}
