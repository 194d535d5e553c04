// What a ready list is, by its meaning. All that is built on lists is proved against this alone, so it holds for every
// list that shows these effects.
ghost use Rattle.std.specs.Prelude.{◌≡◌, ℕ, true, false, not, ◌&&◌, length, Some, None};
ghost use Rattle.ready.specs.Entries.{Entries, put_answer, found_answer, after, slot, IsFirst, has, filled, outside};
ghost use Rattle.ready.specs.Limits.{max_row};

use crate::entry::Entry;
use crate::refusal::ListRefusal;

pub trait ReadyList {
    // The entries, by row, and the capacity.
    ghost entries: { Self → Entries };

    ghost cells: { Self → ℕ };

    ghost long: { (s : Self) → length (entries s) ≡ max_row };

    // Adds an entry that is not begun.
    fn put(&mut self, row: u32, deadline: u32) -> Result<(), ListRefusal>
        ensures answer { result ≡ put_answer (cells self.old) (entries self.old) row }
        ensures after { entries self.new ≡ after result (entries self.old) row (Some (slot deadline false)) }
        ensures cells { cells self.new ≡ cells self.old };

    // Replaces a row's deadline and makes its entry begun.
    fn mark(&mut self, row: u32, deadline: u32) -> Result<(), ListRefusal>
        ensures answer { result ≡ found_answer (entries self.old) row }
        ensures after { entries self.new ≡ after result (entries self.old) row (Some (slot deadline true)) }
        ensures cells { cells self.new ≡ cells self.old };

    // Takes a row's entry out.
    fn remove(&mut self, row: u32) -> Result<(), ListRefusal>
        ensures answer { result ≡ found_answer (entries self.old) row }
        ensures after { entries self.new ≡ after result (entries self.old) row None }
        ensures cells { cells self.new ≡ cells self.old };

    // The entry that no other comes before.
    fn first(&self) -> Option<Entry>
        ensures { IsFirst (entries self.now) result };

    // Whether a row has an entry.
    fn has(&self, row: u32) -> bool
        ensures { result ≡ not (outside row) && has (entries self.now) row };

    // How many entries there are.
    fn count(&self) -> usize
        ensures { result ≡ filled (entries self.now) };

    // How many there can be.
    fn capacity(&self) -> usize
        ensures { result ≡ cells self.now };
}
