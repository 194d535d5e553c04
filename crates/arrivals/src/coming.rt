// The arrivals that are to come.
ghost use Rattle.arrivals.specs.Order.{earlier};
ghost use Rattle.queue.specs.Contents as queues;
ghost use Rattle.queue.specs.Heaps.{Heaped};

use crate::order::PlacedArrival;
use queue::Queue;

mod calls;

// In the caller's cells, which stand in heap order at all times.
#[derive(Drop)]
pub struct Coming<'a> {
    queue: Queue<'a, PlacedArrival>,
    ghost heaped: { Heaped earlier (queues.contents queue) },
}
