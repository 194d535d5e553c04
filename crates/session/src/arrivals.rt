// The arrivals of a session, in file order.
ghost use Rattle.std.specs.Prelude.{◌≡◌, ◌≤◌, length, take};
ghost use Rattle.session.specs.Limits.{max_arrivals};

mod reading;

use crate::arrival::Arrival;
pub(crate) use reading::read_arrivals;

// How many of them a session has at most.
pub(crate) const MAX_ARRIVALS: usize = 256;

// In place, since a call from C has no heap; no `ArrayVec` of the kit, since a session can be copied.
#[derive(Clone, Copy)]
pub struct Arrivals {
    cells: [Arrival; MAX_ARRIVALS],
    count: u32,
    ghost few: { count ≤ max_arrivals },
    ghost counted: { length (take count cells) ≡ count },
}
