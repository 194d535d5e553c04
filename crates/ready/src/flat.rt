// A ready list with a slot for each row.
ghost use Rattle.std.specs.Prelude.{◌≡◌, length, replicate, None};
ghost use Rattle.ready.specs.Limits.{max_row};
ghost use Rattle.ready.specs.Places.{found_place};

use crate::entry::{Entry, Slot};
use crate::list::ReadyList;
use crate::refusal::ListRefusal;
use crate::slots::{earliest, place_of};

#[derive(Drop)]
pub struct FlatList {
    slots: [Option<Slot>; 32],
    ghost long: { length slots ≡ max_row },
}

impl FlatList {
    // An empty list of capacity 32.
    pub fn new() -> FlatList
        ensures { result.slots ≡ replicate max_row None }
    {
        FlatList { slots: [None; 32] }
    }

    // The place of a row that has an entry.
    fn found(&self, row: u32) -> Result<usize, ListRefusal>
        ensures { result ≡ found_place self.now.slots row }
    {
        let place = place_of(row)?;
        match self.slots[place] {
            Some(_) => Ok(place),
            None => Err(ListRefusal::NoEntry),
        }
    }
}

impl ReadyList for FlatList {
    ghost entries = { λ s. s.slots };

    ghost cells = { λ _. max_row };

    ghost long = { λ s. s.long };

    fn put(&mut self, row: u32, deadline: u32) -> Result<(), ListRefusal> {
        let place = place_of(row)?;
        if self.slots[place].is_some() {
            return Err(ListRefusal::HasEntry);
        }
        if self.count() == self.capacity() {
            return Err(ListRefusal::Full);
        }
        self.slots[place] = Some(Slot {
            deadline,
            begun: false,
        });
        Ok(())
    }

    fn mark(&mut self, row: u32, deadline: u32) -> Result<(), ListRefusal> {
        let place = self.found(row)?;
        self.slots[place] = Some(Slot {
            deadline,
            begun: true,
        });
        Ok(())
    }

    fn remove(&mut self, row: u32) -> Result<(), ListRefusal> {
        let place = self.found(row)?;
        self.slots[place] = None;
        Ok(())
    }

    #[tactic(auto, using(crate::proofs::Firsts::earliest_first))]
    fn first(&self) -> Option<Entry> {
        earliest(&self.slots)
    }

    fn has(&self, row: u32) -> bool {
        self.found(row).is_ok()
    }

    // A sum over the places, since a filtered count takes several times the steps.
    #[tactic(auto, using(crate::proofs::Counts::filled_is))]
    fn count(&self) -> usize {
        self.slots
            .iter()
            .map(|slot| match slot {
                Some(_) => 1,
                None => 0,
            })
            .sum()
    }

    fn capacity(&self) -> usize {
        32
    }
}
