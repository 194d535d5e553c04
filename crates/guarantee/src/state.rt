// What a dispatcher keeps of its ticks and of each row, and how it tells of a job.
ghost use Rattle.std.specs.Prelude.{◌≡◌};
ghost use Rattle.guarantee.specs.Numbers.{state_number};

// A tick is closed, or open on a row: 0 for an idle one, as the calls answer it. The calls match on it by these names.
#[derive(Clone, Copy, PartialEq, Eq, Debug)]
pub enum Tick {
    Closed,
    Open(u32),
}

// An unfinished job: its due time and the units that it lacks.
#[derive(Clone, Copy, PartialEq, Eq, Debug)]
pub struct Pending {
    pub due: u32,
    pub left: u32,
}

// When a row was last requested, and its job if that is unfinished.
#[derive(Clone, Copy, PartialEq, Eq, Debug)]
pub struct RowState {
    pub last: Option<u32>,
    pub job: Option<Pending>,
}

// What has become of a job at the end of a tick, with the number by which that is told.
#[derive(Clone, Copy, PartialEq, Eq, Debug)]
pub enum JobState {
    Unfinished = 0,
    // Finished with the clock at most its due time.
    InTime = 1,
    // Finished later.
    Late = 2,
}

impl JobState {
    // The number by which the state is told.
    pub fn number(self) -> u32
        ensures { result ≡ state_number self }
    {
        self as u32
    }
}
