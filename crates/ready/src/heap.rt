// A ready list in cells that the caller lends: a queue of entries.
ghost use Rattle.std.specs.Prelude.{◌≡◌, ◌==◌, position, ◌-◌, [], false, length, Some, ◌≢◌, slice_set};
ghost use Rattle.queue.specs.Contents.{contents, capacity};
ghost use Rattle.queue.specs.Heaps.{Heaped};
ghost use Rattle.ready.specs.ByRow.{RowsOnce, by_row, length_by_row, found_cell, capacity_of};
ghost use Rattle.ready.specs.Entries.{outside, has, filled, slot};
ghost use Rattle.ready.specs.Order.{before};

use crate::entry::Entry;
use crate::list::ReadyList;
use crate::refusal::ListRefusal;
use crate::slots::place_of;
use queue::Queue;

// The elements of the queue are the entries. Every row is from 1 to 32 and no two have the same, and they stand in heap
// order.
#[derive(Drop)]
pub struct HeapList<'a> {
    queue: Queue<'a, Entry>,
    ghost once: { RowsOnce (contents queue) },
    ghost heaped: { Heaped before (contents queue) },
}

impl<'a> HeapList<'a> {
    // An empty list. Its capacity is the number of cells, or 32 if that is lower.
    pub fn new(cells: &'a mut [Entry]) -> HeapList<'a>
        ensures entries { contents result.queue ≡ [] }
        ensures cells { capacity result.queue ≡ length cells.old }
    {
        HeapList {
            queue: Queue::new(cells),
        }
    }

    // The cell of a row's entry.
    fn cell_of(&self, row: u32) -> Result<usize, ListRefusal>
        ensures { result ≡ found_cell (contents self.now.queue) row }
    {
        place_of(row)?;
        self.position(row).ok_or(ListRefusal::NoEntry)
    }

    // The first cell whose entry has the row.
    fn position(&self, row: u32) -> Option<usize>
        ensures { result ≡ position (λ e. e.row == row) (contents self.now.queue) }
    {
        self.queue
            .as_slice()
            .iter()
            .position(|entry| entry.row == row)
    }

    // Adds the entry of a row that has none.
    #[tactic(auto, using(crate::proofs::RowCells::additions))]
    fn insert(&mut self, entry: Entry)
        requires row { outside entry.row ≡ false }
        requires none { has (by_row (contents self.old.queue)) entry.row ≡ false }
        requires room { filled (by_row (contents self.old.queue)) ≢ capacity_of (capacity self.old.queue) }
        ensures entries { by_row (contents self.new.queue) ≡ slice_set (by_row (contents self.old.queue)) (entry.row - 1) (Some (slot entry.deadline entry.begun)) }
        ensures cells { capacity self.new.queue ≡ capacity self.old.queue }
    {
        let _ = self.queue.add(entry);
    }
}

impl<'a> ReadyList for HeapList<'a> {
    ghost entries = { λ s. by_row (contents s.queue) };

    ghost cells = { λ s. capacity_of (capacity s.queue) };

    ghost long = { λ s. length_by_row (contents s.queue) };

    fn put(&mut self, row: u32, deadline: u32) -> Result<(), ListRefusal> {
        place_of(row)?;
        if self.has(row) {
            return Err(ListRefusal::HasEntry);
        }
        if self.count() == self.capacity() {
            return Err(ListRefusal::Full);
        }
        self.insert(Entry {
            row,
            deadline,
            begun: false,
        });
        Ok(())
    }

    #[tactic(auto, using(crate::proofs::RowCells::replacements))]
    fn mark(&mut self, row: u32, deadline: u32) -> Result<(), ListRefusal> {
        self.remove(row)?;
        self.insert(Entry {
            row,
            deadline,
            begun: true,
        });
        Ok(())
    }

    #[tactic(auto, using(crate::proofs::RowCells::removals))]
    fn remove(&mut self, row: u32) -> Result<(), ListRefusal> {
        let cell = self.cell_of(row)?;
        let _ = self.queue.take_at(cell);
        Ok(())
    }

    #[tactic(auto, using(crate::proofs::RowFirsts::is_first))]
    fn first(&self) -> Option<Entry> {
        self.queue.first()
    }

    #[tactic(auto, using(crate::proofs::RowCells::has_told))]
    fn has(&self, row: u32) -> bool {
        self.cell_of(row).is_ok()
    }

    #[tactic(auto, using(crate::proofs::ByRows::filled_by_row))]
    fn count(&self) -> usize {
        self.queue.len()
    }

    fn capacity(&self) -> usize {
        self.queue.capacity().min(32)
    }
}
