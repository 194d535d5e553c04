// The space that a line is written into.
ghost use Rattle.std.specs.Prelude.{◌≡◌};
ghost use Rattle.report.specs.Limits.{no_space_number};

// No line is written into fewer bytes. They hold every line but that of a verdict whose load no table has.
pub const MIN_SPACE: usize = 40;

// There is too little space, and nothing was written.
#[derive(Clone, Copy, PartialEq, Eq, Debug)]
pub struct NoSpace;

impl NoSpace {
    // The number by which the refusal is told.
    pub fn number(self) -> u32
        ensures { result ≡ no_space_number }
    {
        27
    }
}
