// Why a queue refuses an element.
ghost use Rattle.std.specs.Prelude.{◌≡◌};
ghost use Rattle.queue.specs.Refusals.{full_number};

// All cells are in use.
#[derive(Clone, Copy, PartialEq, Eq, Debug)]
pub struct Full;

impl Full {
    // The number by which the refusal is told.
    pub fn number(self) -> u32
        ensures { result ≡ full_number }
    {
        21
    }
}
