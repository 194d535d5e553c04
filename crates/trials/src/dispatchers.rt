// The dispatcher: each call in each state of the tick, and whole runs.
use crate::tables::sealed;
use dispatch::{Dispatcher, Refusal};
use feasibility::Table;
use ready::{Entry, FlatList, HeapList, ReadyList};
use std::process::Abort;

#[derive(Clone, Copy)]
enum Call {
    Take,
    Release(u32),
    Begin,
    End,
}

// What a call answers: nothing, the row that a tick is given to, or that row with the number of its job's state.
#[derive(Clone, Copy, PartialEq, Eq, Debug)]
enum Told {
    Done,
    Begun(u32),
    Ended(u32, u32),
}

// That, or the number of the refusal.
type Answer = Result<Told, u32>;

const DONE: Answer = Ok(Told::Done);

fn answer<L: ReadyList + Drop>(
    dispatcher: &mut Dispatcher<L>,
    table: &Table,
    call: Call,
) -> Answer {
    match call {
        Call::Take => dispatcher.take(table).map(|()| Told::Done),
        Call::Release(row) => dispatcher.release(row).map(|()| Told::Done),
        Call::Begin => dispatcher.begin().map(|row| Told::Begun(row)),
        Call::End => dispatcher
            .end()
            .map(|(row, state)| Told::Ended(row, state.number())),
    }
    .map_err(Refusal::number)
}

fn follows<L: ReadyList + Drop>(
    rt: &impl Abort,
    list: L,
    rows: &[(u32, u32, u32)],
    calls: &[(Call, Answer)],
) {
    let table = sealed(rt, rows);
    let mut dispatcher = Dispatcher::new(list);
    for (call, expected) in calls {
        assert_eq!(rt; answer(&mut dispatcher, &table, *call), *expected);
    }
}

const EXAMPLE: [(u32, u32, u32); 3] = [(1, 4, 0), (2, 6, 1), (2, 12, 1)];

const EXAMPLE_CALLS: [(Call, Answer); 19] = [
    (Call::Take, DONE),
    (Call::Release(3), DONE),
    (Call::Begin, Ok(Told::Begun(3))),
    (Call::End, Ok(Told::Ended(3, 0))),
    (Call::Release(1), DONE),
    (Call::Release(2), DONE),
    (Call::Begin, Ok(Told::Begun(1))),
    (Call::End, Ok(Told::Ended(1, 1))),
    (Call::Begin, Ok(Told::Begun(3))),
    (Call::End, Ok(Told::Ended(3, 1))),
    (Call::Release(1), Err(14)),
    (Call::Begin, Ok(Told::Begun(2))),
    (Call::End, Ok(Told::Ended(2, 0))),
    (Call::Begin, Ok(Told::Begun(2))),
    (Call::End, Ok(Told::Ended(2, 1))),
    (Call::Begin, Ok(Told::Begun(0))),
    (Call::End, Ok(Told::Ended(0, 0))),
    (Call::Begin, Ok(Told::Begun(0))),
    (Call::End, Ok(Told::Ended(0, 0))),
];

#[test]
fn runs_the_example(rt: HostRuntime) {
    follows(&rt, FlatList::new(), &EXAMPLE, &EXAMPLE_CALLS);
}

const CELL: Entry = Entry {
    row: 0,
    deadline: 0,
    begun: false,
};

#[test]
fn runs_the_example_in_lent_cells(rt: HostRuntime) {
    let mut cells = [CELL; 3];
    follows(&rt, HeapList::new(&mut cells), &EXAMPLE, &EXAMPLE_CALLS);
}

const FEW_CELLS: [(Call, Answer); 2] = [(Call::Take, Err(10)), (Call::Release(1), Err(11))];

// Three rows need three cells.
#[test]
fn refuses_a_list_of_few_cells(rt: HostRuntime) {
    let mut cells = [CELL; 2];
    follows(&rt, HeapList::new(&mut cells), &EXAMPLE, &FEW_CELLS);
}

const REFUSALS: [(Call, Answer); 24] = [
    (Call::Release(1), Err(11)),
    (Call::Release(9), Err(11)),
    (Call::Begin, Err(11)),
    (Call::End, Err(11)),
    (Call::Take, DONE),
    (Call::Take, Err(8)),
    (Call::End, Err(16)),
    (Call::Release(0), Err(12)),
    (Call::Release(4), Err(12)),
    (Call::Release(u32::MAX), Err(12)),
    (Call::Release(2), DONE),
    (Call::Release(2), Err(14)),
    (Call::Begin, Ok(Told::Begun(2))),
    (Call::Begin, Err(13)),
    (Call::Take, Err(8)),
    (Call::Release(1), Err(13)),
    (Call::Release(2), Err(13)),
    (Call::Release(4), Err(12)),
    (Call::End, Ok(Told::Ended(2, 0))),
    (Call::End, Err(16)),
    (Call::Release(2), Err(14)),
    (Call::Release(1), DONE),
    (Call::Begin, Ok(Told::Begun(1))),
    (Call::End, Ok(Told::Ended(1, 1))),
];

// In each state of the tick, and of two refusals that apply the one that is tested first.
#[test]
fn refuses_in_order(rt: HostRuntime) {
    follows(&rt, FlatList::new(), &EXAMPLE, &REFUSALS);
}

const IDLE_CALLS: [(Call, Answer); 4] = [
    (Call::Take, DONE),
    (Call::Release(1), Err(12)),
    (Call::Begin, Ok(Told::Begun(0))),
    (Call::End, Ok(Told::Ended(0, 0))),
];

// A table of no rows is taken too, and then every tick is idle.
#[test]
fn idles_on_an_empty_table(rt: HostRuntime) {
    follows(&rt, FlatList::new(), &[], &IDLE_CALLS);
}

const NOT_EMPTY: [(Call, Answer); 5] = [
    (Call::Take, Err(9)),
    (Call::Release(1), Err(11)),
    (Call::Begin, Err(11)),
    (Call::End, Err(11)),
    (Call::Take, Err(9)),
];

// A list that had an entry before: the table is refused for ever, and so is all else.
#[test]
fn refuses_a_list_that_is_not_empty(rt: HostRuntime) {
    let mut list = FlatList::new();
    assert!(rt; list.put(7, 7).is_ok());
    follows(&rt, list, &EXAMPLE, &NOT_EMPTY);
}

const OVERLOADED: [(u32, u32, u32); 4] = [(1, 2, 0), (1, 3, 0), (1, 6, 0), (1, 6, 0)];

fn release_all<L: ReadyList + Drop>(rt: &impl Abort, dispatcher: &mut Dispatcher<L>, clock: u32) {
    for (row, (_, period, _)) in (1..).zip(OVERLOADED) {
        if period > 0 && clock % period == 0 {
            let late = clock == 6 && row == 4;
            assert_eq!(rt; dispatcher.release(row).is_err(), late);
        }
    }
}

// Every row at each of its periods: row 4 is the late one, and its request at 6 finds the earlier job unfinished.
fn runs_late<L: ReadyList + Drop>(rt: &impl Abort, list: L) {
    let table = sealed(rt, &OVERLOADED);
    let mut dispatcher = Dispatcher::new(list);
    assert_eq!(rt; dispatcher.spare(1).map_err(Refusal::number), Err(11));
    assert_eq!(rt; answer(&mut dispatcher, &table, Call::Take), DONE);
    assert_eq!(rt; dispatcher.spare(4).map_err(Refusal::number), Ok(None));
    let ticks = [(1, 1), (2, 1), (1, 1), (2, 1), (1, 1), (3, 1), (4, 2)];
    for (clock, (row, state)) in (0..).zip(ticks) {
        release_all(rt, &mut dispatcher, clock);
        assert_eq!(rt;
            dispatcher.spare(4).map_err(Refusal::number),
            Ok(Some(5 - i64::from(clock)))
        );
        assert_eq!(rt;
            answer(&mut dispatcher, &table, Call::Begin),
            Ok(Told::Begun(row))
        );
        assert_eq!(rt;
            answer(&mut dispatcher, &table, Call::End),
            Ok(Told::Ended(row, state))
        );
    }
    assert_eq!(rt; answer(&mut dispatcher, &table, Call::Release(4)), DONE);
    assert_eq!(rt; answer(&mut dispatcher, &table, Call::Release(3)), Err(14));
    assert_eq!(rt; dispatcher.spare(5).map_err(Refusal::number), Err(12));
    assert_eq!(rt; dispatcher.spare(0).map_err(Refusal::number), Err(12));
}

// A begun job keeps its tick against a newcomer with the same deadline, and is late; meanwhile both rows are asked for
// again.
const EARLIER_JOB: [(Call, Answer); 15] = [
    (Call::Take, DONE),
    (Call::Release(2), DONE),
    (Call::Begin, Ok(Told::Begun(2))),
    (Call::End, Ok(Told::Ended(2, 0))),
    (Call::Release(1), DONE),
    (Call::Begin, Ok(Told::Begun(1))),
    (Call::End, Ok(Told::Ended(1, 1))),
    (Call::Release(1), DONE),
    (Call::Begin, Ok(Told::Begun(2))),
    (Call::End, Ok(Told::Ended(2, 0))),
    (Call::Release(2), Err(15)),
    (Call::Release(1), Err(15)),
    (Call::Begin, Ok(Told::Begun(2))),
    (Call::End, Ok(Told::Ended(2, 2))),
    (Call::Release(2), DONE),
];

#[test]
fn tells_the_earlier_job(rt: HostRuntime) {
    follows(&rt, FlatList::new(), &[(1, 1, 0), (3, 3, 0)], &EARLIER_JOB);
}

#[test]
fn runs_late_on_an_overloaded_table(rt: HostRuntime) {
    runs_late(&rt, FlatList::new());
}
