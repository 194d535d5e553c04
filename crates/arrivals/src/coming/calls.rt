// What can be done with the arrivals that are to come.
ghost use Rattle.std.specs.Prelude.{◌≡◌, [], is_ok};
ghost use Rattle.arrivals.specs.Coming.{contents, IsNext};
ghost use Rattle.queue.specs.Contents.{lent, has_room, Adds};

use crate::coming::Coming;
use crate::order::PlacedArrival;
use queue::{Full, Queue};

impl<'a> Coming<'a> {
    // None yet.
    pub fn new(cells: &'a mut [PlacedArrival]) -> Coming<'a>
        ensures lent { lent result.queue ≡ cells.old }
        ensures contents { contents result ≡ [] }
    {
        Coming {
            queue: Queue::new(cells),
        }
    }

    // One more, unless all cells are in use.
    pub fn add(&mut self, arrival: PlacedArrival) -> Result<(), Full>
        ensures answer { is_ok result ≡ has_room self.old.queue }
        ensures contents { Adds arrival result self.old.queue self.new.queue }
    {
        self.queue.add(arrival)
    }

    // Takes out the first that is due at the clock, if one is.
    #[tactic(auto, using(crate::proofs::Firsts::firsts))]
    pub fn take_due(&mut self, clock: u32) -> Option<PlacedArrival>
        ensures { IsNext clock self.old self.new result }
    {
        match self.queue.first() {
            Some(first) if first.time <= clock => self.queue.take_first(),
            _ => None,
        }
    }
}
