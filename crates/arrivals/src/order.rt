// Arrivals and their order.
ghost use Rattle.arrivals.specs.Order.{earlier};
ghost use Rattle.std.proofs.Common.{rules};

use queue::Order;

// An arrival with its place in the file. The derived order goes by the fields as they stand here.
#[derive(Clone, Copy, PartialEq, Eq, PartialOrd, Ord, Debug)]
pub struct PlacedArrival {
    pub time: u32,
    pub row: u32,
    pub place: u32,
}

// Lower time first, then lower row, then lower place.
impl Order for PlacedArrival {
    ghost before = { earlier };

    ghost transitive = { Prim.search rules };

    ghost one = { Prim.search rules };

    ghost irreflexive = { Prim.search rules };

    fn precedes(&self, other: &PlacedArrival) -> bool {
        self < other
    }
}
