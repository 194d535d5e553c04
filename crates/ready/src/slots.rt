// Slots by row: what row k has stands at place k - 1.
ghost use Rattle.std.specs.Prelude.{◌≡◌, ◌<◌, ◌+◌, option_map, length};
ghost use Rattle.ready.specs.Entries.{entry};
ghost use Rattle.ready.specs.Places.{place_of, earliest};
ghost use Rattle.ready.specs.Limits.{max_row};
ghost use Rattle.ready.specs.Order.{sooner};

use crate::entry::{Entry, Slot};
use crate::refusal::ListRefusal;
use queue::Order;

const MAX_ROW: u32 = 32;

// The place of a row's slot, if the row is from 1 to 32.
pub(crate) fn place_of(row: u32) -> Result<usize, ListRefusal>
    ensures { result ≡ place_of row }
{
    if (1..=MAX_ROW).contains(&row) {
        Ok(row as usize - 1)
    } else {
        Err(ListRefusal::RowOutside)
    }
}

// The entry that no other comes before.
pub(crate) fn earliest(slots: &[Option<Slot>]) -> Option<Entry>
    requires { length slots.now ≡ max_row }
    ensures { result ≡ earliest slots.now }
{
    let mut best = None;
    for (place, slot) in slots.iter().enumerate() {
        if let Some(entry) = entry_at(place, *slot) {
            best = earlier(best, entry);
        }
    }
    best
}

// The entry whose slot stands at a place.
fn entry_at(place: usize, slot: Option<Slot>) -> Option<Entry>
    requires { place < max_row }
    ensures { result ≡ option_map (λ x. entry (place + 1) x) slot }
{
    let slot = slot?;
    Some(Entry {
        row: place as u32 + 1,
        deadline: slot.deadline,
        begun: slot.begun,
    })
}

// The entry, unless the best so far stays ahead of it.
fn earlier(best: Option<Entry>, entry: Entry) -> Option<Entry>
    ensures { result ≡ sooner best entry }
{
    match best {
        Some(best) if !entry.precedes(&best) => Some(best),
        _ => Some(entry),
    }
}
