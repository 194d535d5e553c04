// Why a ready list refuses a call.
ghost use Rattle.std.specs.Prelude.{◌≡◌};
ghost use Rattle.ready.specs.Refusals.{list_refusal_number};

// Each stands for the number by which it is told.
#[derive(Clone, Copy, PartialEq, Eq, Debug)]
pub enum ListRefusal {
    // The row is not from 1 to 32.
    RowOutside = 18,
    // The row has an entry already.
    HasEntry = 19,
    // The row has no entry.
    NoEntry = 20,
    // All cells are in use.
    Full = 21,
}

impl ListRefusal {
    // The number by which a refusal is told.
    pub fn number(self) -> u32
        ensures { result ≡ list_refusal_number self }
    {
        self as u32
    }
}
