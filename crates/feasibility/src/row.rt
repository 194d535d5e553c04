// A row of the job table, and why a table refuses one.
ghost use Rattle.std.specs.Prelude.{◌≡◌, ◌<◌, ◌≤◌, MatchResult};
ghost use Rattle.feasibility.specs.Drafts.{own_fault};
ghost use Rattle.feasibility.specs.Refusals.{refusal_number};
ghost use Rattle.feasibility.specs.Tables.{Limited, share};
ghost use Rattle.feasibility.specs.Verdicts.{demand};

pub const MAX_ROWS: u32 = 32;

pub const MAX_PERIOD: u32 = 65_535;

pub const MAX_STORE: u32 = 8;

pub const MAX_HYPERPERIOD: u32 = 1_000_000_000;

// A job that comes again and again: each request wants `cost` ticks and is due one `period` after it. From its first
// tick until it is finished it holds `store`, or none for 0, as a session file writes it. Any numbers make a row; a table
// takes only rows within its limits.
#[derive(Clone, Copy, PartialEq, Eq, Debug)]
pub struct Row {
    pub cost: u32,
    pub period: u32,
    pub store: u32,
}

// Why a table does not take a row, with the number by which that is told.
#[derive(Clone, Copy, PartialEq, Eq, Debug)]
pub enum RowRefusal {
    Cost = 1,
    Period = 2,
    Store = 3,
    Full = 4,
    Hyperperiod = 5,
}

impl Row {
    // The limits of a row by itself, in the order in which they are tested.
    pub(crate) fn check_limits(self) -> Result<(), RowRefusal>
        ensures { MatchResult result (λ _. Limited self × (own_fault self ≡ 0)) (λ e. (refusal_number e ≡ own_fault self) × (0 < refusal_number e)) }
    {
        if self.period == 0 || self.period > MAX_PERIOD {
            return Err(RowRefusal::Period);
        }
        if self.cost == 0 || self.cost > self.period {
            return Err(RowRefusal::Cost);
        }
        if self.store > MAX_STORE {
            return Err(RowRefusal::Store);
        }
        Ok(())
    }

    // The units that it asks for in one hyperperiod.
    #[tactic(auto, using(crate::proofs::Demands::share_le))]
    pub(crate) fn share(self, hyperperiod: u32) -> u32
        requires { Limited self }
        ensures value { result ≡ share self hyperperiod }
        ensures bound { result ≤ hyperperiod }
    {
        self.cost * (hyperperiod / self.period)
    }

    // The units that its jobs ask for that are requested and due within `span` ticks.
    #[tactic(auto, using(crate::proofs::Demands::demand_le))]
    pub(crate) fn demand(self, span: u32) -> u32
        requires { Limited self }
        ensures value { result ≡ demand self span }
        ensures bound { result ≤ span }
    {
        span / self.period * self.cost
    }
}

impl RowRefusal {
    // The number by which a refusal is told.
    pub fn number(self) -> u32
        ensures { result ≡ refusal_number self }
    {
        self as u32
    }
}
