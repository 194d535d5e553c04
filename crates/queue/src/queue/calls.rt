// The queue. Each call that alters it tells, in this order, what it answers, what the elements are then, and that heap
// order is kept. Which cell holds which element is free, and so is what a cell holds that is not in use.
ghost use Rattle.std.specs.Prelude.{◌≡◌, [], length, is_ok};
ghost use Rattle.queue.specs.Contents.{lent, contents, capacity, has_room, Adds, Takes, StaysHeaped};
ghost use Rattle.queue.specs.Heaps.{Heaped, IsAt, IsFirst};

use crate::cells::{put, take_out};
use crate::full::Full;
use crate::order::Order;
use crate::queue::Queue;

impl<'a, T: Order + Copy> Queue<'a, T> {
    // An empty queue.
    pub fn new(cells: &'a mut [T]) -> Queue<'a, T>
        ensures lent { lent result ≡ cells.old }
        ensures contents { contents result ≡ [] }
        ensures order { Heaped T.before (contents result) }
    {
        Queue { cells, used: 0 }
    }

    // How many elements there are.
    pub fn len(&self) -> usize
        ensures { result ≡ length (contents self.now) }
    {
        self.as_slice().len()
    }

    // How many there can be.
    pub fn capacity(&self) -> usize
        ensures { result ≡ capacity self.now }
    {
        self.cells.len()
    }

    // The elements, as they stand in the cells.
    pub fn as_slice(&self) -> &[T]
        ensures { result.now ≡ contents self.now }
    {
        &self.cells[..self.used]
    }

    // An element that none comes before, if the elements stand in heap order.
    #[tactic(auto, using(crate::proofs::Tops::first_at))]
    pub fn first(&self) -> Option<T>
        ensures { IsFirst T.before (contents self.now) result }
    {
        self.as_slice().first().copied()
    }

    // The element in a cell, if that cell is in use.
    pub fn at(&self, cell: usize) -> Option<T>
        ensures { IsAt (contents self.now) cell result }
    {
        self.as_slice().get(cell).copied()
    }

    // Adds an element, or refuses it if all cells are in use.
    pub fn add(&mut self, x: T) -> Result<(), Full>
        ensures answer { is_ok result ≡ has_room self.old }
        ensures contents { Adds x result self.old self.new }
        ensures order { StaysHeaped T.before self.old self.new }
    {
        if self.used >= self.cells.len() {
            return Err(Full);
        }
        put(self.cells, self.used, x);
        self.used += 1;
        Ok(())
    }

    // Takes the first element out.
    #[tactic(auto, using(crate::proofs::Tops::first_at))]
    pub fn take_first(&mut self) -> Option<T>
        ensures answer { IsFirst T.before (contents self.old) result }
        ensures contents { Takes result self.old self.new }
        ensures order { StaysHeaped T.before self.old self.new }
    {
        self.take_at(0)
    }

    // Takes the element in a cell out, if that cell is in use.
    pub fn take_at(&mut self, cell: usize) -> Option<T>
        ensures answer { IsAt (contents self.old) cell result }
        ensures contents { Takes result self.old self.new }
        ensures order { StaysHeaped T.before self.old self.new }
    {
        if cell >= self.used {
            return None;
        }
        let x = take_out(self.cells, self.used, cell);
        self.used -= 1;
        Some(x)
    }
}
