// The verdict on a table.
ghost use Rattle.std.specs.Prelude.{◌≡◌};
ghost use Rattle.feasibility.specs.Told.{told};

#[derive(Clone, Copy, PartialEq, Eq, Debug)]
pub enum Verdict {
    // The load fits, and no row fails at any length.
    Fit,
    // The rows ask for more units in one hyperperiod than it has ticks.
    Overloaded { hyperperiod: u32, load: u64 },
    // The first row, by its number, that fails, and the first length at which it does: its jobs can keep others from
    // their store for too long.
    Blocked { row: u32, length: u32 },
}

impl Verdict {
    // The number by which the verdict is told. A variant with values can have no discriminant.
    pub fn number(self) -> u32
        ensures { result ≡ (told self).number }
    {
        match self {
            Verdict::Fit => 0,
            Verdict::Overloaded { .. } => 6,
            Verdict::Blocked { .. } => 7,
        }
    }
}
