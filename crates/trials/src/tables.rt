// The job table, its limits and its verdict.
use feasibility::{Draft, Row, RowRefusal, Table, Verdict};
use std::process::Abort;

fn row(cost: u32, period: u32, store: u32) -> Row {
    Row {
        cost,
        period,
        store,
    }
}

pub(crate) fn sealed(rt: &impl Abort, rows: &[(u32, u32, u32)]) -> Table {
    let mut draft = Draft::new();
    for (cost, period, store) in rows {
        assert_eq!(rt; answer(&mut draft, row(*cost, *period, *store)), Ok(()));
    }
    draft.seal()
}

// Whether a row is refused, and the number by which.
fn answer(draft: &mut Draft, row: Row) -> Result<(), u32> {
    draft.add(row).map_err(RowRefusal::number)
}

// The rows of a case, its hyperperiod, its load, its verdict and the number by which that is told.
type Case<'a> = (&'a [(u32, u32, u32)], u32, u64, Verdict, u32);

const CASES: [Case<'static>; 9] = [
    (&[], 1, 0, Verdict::Fit, 0),
    (&[(1, 1, 1)], 1, 1, Verdict::Fit, 0),
    (&[(1, 2, 0), (1, 3, 0), (1, 6, 0)], 6, 6, Verdict::Fit, 0),
    (
        &[(1, 2, 0), (1, 3, 0), (1, 6, 0), (1, 6, 0)],
        6,
        7,
        Verdict::Overloaded {
            hyperperiod: 6,
            load: 7,
        },
        6,
    ),
    (&[(1, 2, 1), (2, 4, 1)], 4, 4, Verdict::Fit, 0),
    (
        &[(1, 2, 1), (3, 6, 1)],
        6,
        6,
        Verdict::Blocked { row: 2, length: 3 },
        7,
    ),
    (&[(1, 2, 1), (2, 6, 1)], 6, 5, Verdict::Fit, 0),
    (
        &[(1, 4, 0), (1, 5, 1), (1, 6, 1), (5, 25, 2), (5, 28, 2)],
        2100,
        2090,
        Verdict::Fit,
        0,
    ),
    (
        &[(1, 4, 0), (1, 5, 1), (1, 6, 1), (5, 25, 1), (5, 28, 1)],
        2100,
        2090,
        Verdict::Blocked { row: 4, length: 6 },
        7,
    ),
];

#[test]
fn judges_the_cases(rt: HostRuntime) {
    for (rows, hyperperiod, load, verdict, number) in CASES {
        let table = sealed(&rt, rows);
        assert_eq!(rt; table.hyperperiod(), hyperperiod);
        assert_eq!(rt; table.load(), load);
        assert_eq!(rt; table.judge(), verdict);
        assert_eq!(rt; table.judge().number(), number);
    }
}

// The table of the example session.
#[test]
fn judges_the_example(rt: HostRuntime) {
    let table = sealed(&rt, &[(1, 4, 0), (2, 6, 1), (2, 12, 1)]);
    assert_eq!(rt; table.hyperperiod(), 12);
    assert_eq!(rt; table.load(), 9);
    assert_eq!(rt; table.judge(), Verdict::Fit);
    assert_eq!(rt; table.judge().number(), 0);
}

// Of several faults the one that is tested first is told, and the draft stays as it was.
#[test]
fn tests_the_limits_in_order(rt: HostRuntime) {
    let mut draft = Draft::new();
    assert_eq!(rt; answer(&mut draft, row(0, 0, 0)), Err(2));
    assert_eq!(rt; answer(&mut draft, row(1, 65536, 9)), Err(2));
    assert_eq!(rt; answer(&mut draft, row(0, 4, 9)), Err(1));
    assert_eq!(rt; answer(&mut draft, row(5, 4, 9)), Err(1));
    assert_eq!(rt; answer(&mut draft, row(1, 4, 9)), Err(3));
    assert_eq!(rt;
        answer(&mut draft, row(u32::MAX, u32::MAX, u32::MAX)),
        Err(2)
    );
    assert_eq!(rt; draft.count(), 0);
    assert_eq!(rt; answer(&mut draft, row(65535, 65535, 8)), Ok(()));
    assert_eq!(rt; draft.count(), 1);
}

#[test]
fn keeps_the_hyperperiod_within_its_limit(rt: HostRuntime) {
    let mut draft = Draft::new();
    assert_eq!(rt; answer(&mut draft, row(1, 31623, 0)), Ok(()));
    assert_eq!(rt; answer(&mut draft, row(1, 31624, 0)), Err(5));
    assert_eq!(rt; answer(&mut draft, row(0, 31624, 0)), Err(1));
    assert_eq!(rt; answer(&mut draft, row(1, 31624, 9)), Err(3));
    assert_eq!(rt; draft.count(), 1);
    assert_eq!(rt; draft.hyperperiod(), 31623);
    assert_eq!(rt; answer(&mut draft, row(1, 31622, 0)), Ok(()));
    assert_eq!(rt; draft.hyperperiod(), 999_982_506);
}

#[test]
fn takes_32_rows(rt: HostRuntime) {
    let mut draft = Draft::new();
    for _ in 0..32 {
        assert_eq!(rt; answer(&mut draft, row(1, 31623, 0)), Ok(()));
    }
    assert_eq!(rt; answer(&mut draft, row(1, 31623, 0)), Err(4));
    assert_eq!(rt; answer(&mut draft, row(1, 0, 0)), Err(4));
    assert_eq!(rt; answer(&mut draft, row(0, 4, 0)), Err(4));
    assert_eq!(rt; answer(&mut draft, row(1, 4, 9)), Err(4));
    assert_eq!(rt; answer(&mut draft, row(1, 31624, 0)), Err(4));
    let table = draft.seal();
    assert_eq!(rt; table.count(), 32);
    assert_eq!(rt; table.load(), 32);
    assert_eq!(rt; table.judge(), Verdict::Fit);
}

#[test]
fn answers_questions(rt: HostRuntime) {
    let table = sealed(&rt, CASES[7].0);
    assert_eq!(rt; table.count(), 5);
    assert_eq!(rt; table.row(0), None);
    assert_eq!(rt; table.row(1), Some(row(1, 4, 0)));
    assert_eq!(rt; table.row(5), Some(row(5, 28, 2)));
    assert_eq!(rt; table.row(6), None);
    assert_eq!(rt; table.least_period(0), None);
    assert_eq!(rt; table.least_period(1), Some(5));
    assert_eq!(rt; table.least_period(2), Some(25));
    assert_eq!(rt; table.least_period(3), None);
    assert_eq!(rt; table.least_period(9), None);
}

// The load passes 32 bits: 32 rows that each ask for every tick of a hyperperiod of nearly 1,000,000,000.
#[test]
fn adds_a_long_load(rt: HostRuntime) {
    let mut draft = Draft::new();
    for i in 0..32u32 {
        let period = 31622 + i % 2;
        assert_eq!(rt; answer(&mut draft, row(period, period, 0)), Ok(()));
    }
    let overloaded = Verdict::Overloaded {
        hyperperiod: 999_982_506,
        load: 31_999_440_192,
    };
    assert_eq!(rt; draft.seal().judge(), overloaded);
}
