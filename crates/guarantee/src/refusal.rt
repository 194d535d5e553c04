// Why a dispatcher refuses a call, with the number by which that is told.
ghost use Rattle.std.specs.Prelude.{◌≡◌};
ghost use Rattle.guarantee.specs.Numbers.{refusal_number};

#[derive(Clone, Copy, PartialEq, Eq, Debug)]
pub enum Refusal {
    // A table is taken already.
    TableTaken = 8,
    // The ready list has an entry.
    ListNotEmpty = 9,
    // The ready list has fewer cells than the table has rows.
    CapacityBelowRows = 10,
    // No table is taken yet.
    NoTable = 11,
    // The table has no row of this number.
    UnknownRow = 12,
    // A tick is open.
    TickOpen = 13,
    // The row's last request is less than its period ago.
    TooEarly = 14,
    // The row's earlier job is unfinished.
    EarlierUnfinished = 15,
    // No tick is open.
    NoTickOpen = 16,
    // The clock has reached its limit.
    ClockAtLimit = 17,
}

impl Refusal {
    // The number by which a refusal is told.
    pub fn number(self) -> u32
        ensures { result ≡ refusal_number self }
    {
        self as u32
    }
}
