// Ready lists: every list through the same calls.
use ready::{Entry, FlatList, HeapList, ListRefusal, ReadyList};
use std::process::Abort;

// What a cell holds that is not in use is free: here an entry that would come before every other.
pub(crate) const CELL: Entry = Entry {
    row: 1,
    deadline: 0,
    begun: true,
};

#[derive(Clone, Copy)]
pub(crate) enum Ask {
    Put(u32, u32),
    Mark(u32, u32),
    Remove(u32),
}

// Whether a call is refused, and the number by which.
pub(crate) fn answer<L: ReadyList>(list: &mut L, ask: Ask) -> Result<(), u32> {
    match ask {
        Ask::Put(row, deadline) => list.put(row, deadline),
        Ask::Mark(row, deadline) => list.mark(row, deadline),
        Ask::Remove(row) => list.remove(row),
    }
    .map_err(ListRefusal::number)
}

// An entry as its row, deadline and mark.
pub(crate) type First = Option<(u32, u32, bool)>;

pub(crate) fn first<L: ReadyList>(list: &L) -> First {
    list.first()
        .map(|entry| (entry.row, entry.deadline, entry.begun))
}

// Each call, its answer, and the first entry and the count after it.
const CALLS: [(Ask, Result<(), u32>, First, usize); 23] = [
    (Ask::Remove(2), Err(20), None, 0),
    (Ask::Mark(2, 5), Err(20), None, 0),
    (Ask::Put(0, 1), Err(18), None, 0),
    (Ask::Put(33, 1), Err(18), None, 0),
    (Ask::Mark(0, 1), Err(18), None, 0),
    (Ask::Remove(33), Err(18), None, 0),
    (Ask::Put(2, 10), Ok(()), Some((2, 10, false)), 1),
    (Ask::Put(2, 4), Err(19), Some((2, 10, false)), 1),
    (Ask::Put(5, 10), Ok(()), Some((2, 10, false)), 2),
    (Ask::Mark(5, 10), Ok(()), Some((5, 10, true)), 2),
    (Ask::Put(1, 10), Ok(()), Some((5, 10, true)), 3),
    (Ask::Mark(1, 10), Ok(()), Some((1, 10, true)), 3),
    (Ask::Put(32, 3), Ok(()), Some((32, 3, false)), 4),
    (Ask::Mark(33, 3), Err(18), Some((32, 3, false)), 4),
    (Ask::Remove(32), Ok(()), Some((1, 10, true)), 3),
    (Ask::Remove(32), Err(20), Some((1, 10, true)), 3),
    (Ask::Mark(2, 1), Ok(()), Some((2, 1, true)), 3),
    (Ask::Mark(2, u32::MAX), Ok(()), Some((1, 10, true)), 3),
    (Ask::Remove(1), Ok(()), Some((5, 10, true)), 2),
    (Ask::Put(1, 9), Ok(()), Some((1, 9, false)), 3),
    (Ask::Remove(1), Ok(()), Some((5, 10, true)), 2),
    (Ask::Remove(5), Ok(()), Some((2, u32::MAX, true)), 1),
    (Ask::Remove(2), Ok(()), None, 0),
];

fn answers<L: ReadyList>(rt: &impl Abort, list: &mut L) {
    for (ask, expected, entry, count) in CALLS {
        assert_eq!(rt; answer(list, ask), expected);
        assert_eq!(rt; first(list), entry);
        assert_eq!(rt; list.count(), count);
    }
}

// A list with a cell for each row takes them all, each once, and then has room for none.
fn takes_every_row<L: ReadyList>(rt: &impl Abort, list: &mut L) {
    assert_eq!(rt; list.capacity(), 32);
    for row in 1..=32 {
        assert!(rt; !list.has(row));
        assert_eq!(rt; answer(list, Ask::Put(row, 100 - row)), Ok(()));
        assert!(rt; list.has(row));
        assert_eq!(rt; first(list), Some((row, 100 - row, false)));
    }
    assert_eq!(rt; list.count(), 32);
    for row in 1..=32 {
        assert_eq!(rt; answer(list, Ask::Put(row, 0)), Err(19));
    }
    assert_eq!(rt; answer(list, Ask::Put(33, 0)), Err(18));
    assert!(rt; !list.has(0));
    assert!(rt; !list.has(33));
    assert_eq!(rt; first(list), Some((32, 68, false)));
}

#[test]
fn flat_list_answers(rt: HostRuntime) {
    answers(&rt, &mut FlatList::new());
}

#[test]
fn flat_list_takes_every_row(rt: HostRuntime) {
    takes_every_row(&rt, &mut FlatList::new());
}

#[test]
fn heap_list_answers(rt: HostRuntime) {
    let mut cells = [CELL; 32];
    answers(&rt, &mut HeapList::new(&mut cells));
}

#[test]
fn heap_list_takes_every_row(rt: HostRuntime) {
    let mut cells = [CELL; 32];
    takes_every_row(&rt, &mut HeapList::new(&mut cells));
}

// Each call and its answer.
fn refuses<L: ReadyList>(
    rt: &impl Abort,
    list: &mut L,
    capacity: usize,
    calls: &[(Ask, Result<(), u32>)],
) {
    assert_eq!(rt; list.capacity(), capacity);
    for (ask, expected) in calls {
        assert_eq!(rt; answer(list, *ask), *expected);
    }
}

const TWO_CELLS: [(Ask, Result<(), u32>); 8] = [
    (Ask::Put(7, 5), Ok(())),
    (Ask::Put(3, 5), Ok(())),
    (Ask::Put(4, 5), Err(21)),
    (Ask::Put(7, 5), Err(19)),
    (Ask::Mark(3, 9), Ok(())),
    (Ask::Put(4, 5), Err(21)),
    (Ask::Remove(7), Ok(())),
    (Ask::Put(4, 5), Ok(())),
];

#[test]
fn two_cells_hold_two_entries(rt: HostRuntime) {
    let mut cells = [CELL; 2];
    refuses(&rt, &mut HeapList::new(&mut cells), 2, &TWO_CELLS);
}

const NO_CELLS: [(Ask, Result<(), u32>); 5] = [
    (Ask::Put(0, 5), Err(18)),
    (Ask::Put(1, 5), Err(21)),
    (Ask::Put(32, 5), Err(21)),
    (Ask::Mark(1, 5), Err(20)),
    (Ask::Remove(1), Err(20)),
];

#[test]
fn no_cells_hold_none(rt: HostRuntime) {
    refuses(&rt, &mut HeapList::new(&mut []), 0, &NO_CELLS);
}

// More cells than rows: the capacity is 32.
#[test]
fn the_capacity_is_at_most_32(rt: HostRuntime) {
    let mut cells = [CELL; 40];
    takes_every_row(&rt, &mut HeapList::new(&mut cells));
}
