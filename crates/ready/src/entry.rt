// Ready entries and their order.
ghost use Rattle.ready.specs.Order as order;
ghost use Rattle.std.proofs.Common.{rules};

use queue::Order;

// An unfinished job: its row, the deadline that it is ranked by, and whether it has begun.
#[derive(Clone, Copy, PartialEq, Eq, Debug)]
pub struct Entry {
    pub row: u32,
    pub deadline: u32,
    pub begun: bool,
}

// What a list holds for a row that has an entry.
#[derive(Clone, Copy, PartialEq, Eq, Debug)]
pub struct Slot {
    pub deadline: u32,
    pub begun: bool,
}

impl Order for Entry {
    ghost before = { order.before };

    ghost transitive = { Prim.search rules };

    ghost one = { Prim.search rules };

    ghost irreflexive = { Prim.search rules };

    // Lower deadline first, then begun before not begun, then lower row.
    fn precedes(&self, other: &Entry) -> bool {
        (self.deadline, !self.begun, self.row) < (other.deadline, !other.begun, other.row)
    }
}
