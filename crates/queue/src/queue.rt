// The queue.
ghost use Rattle.std.specs.Prelude.{◌≤◌, length};

mod calls;

// The first `used` cells are in use: the caller lends them, since a queue has no heap. Heap order can be an invariant of
// the type that holds the queue.
#[derive(Drop)]
pub struct Queue<'a, T> {
    cells: &'a mut [T],
    used: usize,
    ghost fits: { used ≤ length cells.now },
}
