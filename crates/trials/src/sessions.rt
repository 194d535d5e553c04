// Session files: what is read, and the fault that is told of each that is wrong.
use session::host::lovagetower_judge;
use session::{Arrival, Session, read};
use std::alloc::AllocError;
use std::process::Abort;
use std::test::Fail;

// Number, line and cause of a fault.
type Told = (u32, u32, u32);

// That a file is a session, or the fault that is told of it.
fn answer(bytes: &[u8]) -> Result<(), Told> {
    match read(bytes) {
        Ok(_) => Ok(()),
        Err(fault) => Err((fault.number(), fault.line(), fault.cause())),
    }
}

fn good(bytes: &[u8]) -> Result<Session, Fail> {
    read(bytes).map_err(|_| Fail::new("a good session is refused"))
}

#[test]
fn reads_the_example(rt: HostRuntime) -> Result<(), Fail> {
    let text = b"rows 3\n1 4 0\n2 6 1\n2 12 1\nticks 7\narrivals 4\n0 3\n1 1\n1 2\n3 1\n";
    let session = good(text)?;
    assert_eq!(rt; session.table.count(), 3);
    assert_eq!(rt; session.table.hyperperiod(), 12);
    assert_eq!(rt; session.table.judge().number(), 0);
    assert_eq!(rt; session.ticks, 7);
    let arrivals = session.arrivals.as_slice();
    assert!(rt; arrivals.len() == 4);
    assert_eq!(rt; arrivals[0], Arrival { time: 0, row: 3 });
    assert_eq!(rt; arrivals[1], Arrival { time: 1, row: 1 });
    assert_eq!(rt; arrivals[2], Arrival { time: 1, row: 2 });
    assert_eq!(rt; arrivals[3], Arrival { time: 3, row: 1 });
    assert_eq!(rt; lovagetower_judge(text), 0);
    Ok(())
}

const GOOD: [&[u8]; 6] = [
    b"rows 0\nticks 0\narrivals 0\n",
    b"  rows   1 \n 1  4   0\nticks 4096  \n   arrivals 1\n4095     1   \n",
    b"rows 000000001\n0001 00004 0\nticks 000000000\narrivals 0\n",
    b"rows 1\n65535 65535 8\nticks 1\narrivals 0\n",
    b"rows 2\n1 2 1\n3 6 1\nticks 0\narrivals 0\n",
    b"rows 4\n1 2 0\n1 3 0\n1 6 0\n1 6 0\nticks 0\narrivals 0\n",
];

#[test]
fn reads_good_sessions(rt: HostRuntime) {
    for text in GOOD {
        assert_eq!(rt; answer(text), Ok(()));
    }
    assert_eq!(rt; lovagetower_judge(GOOD[4]), 7);
    assert_eq!(rt; lovagetower_judge(GOOD[5]), 6);
}

// The text of a file, and the fault that is told of it.
type Case<'a> = (&'a [u8], Told);

const HEADINGS: [Case<'static>; 18] = [
    (b"", (24, 1, 0)),
    (b" ", (24, 1, 0)),
    (b"\n", (24, 1, 0)),
    (b"row 3\n", (24, 1, 0)),
    (b"Rows 0\n", (24, 1, 0)),
    (b"rows\n", (24, 1, 0)),
    (b"rows 1 2\n", (24, 1, 0)),
    (b"rows 1", (24, 1, 0)),
    (b"rows\t0\n", (24, 1, 0)),
    (b"rowz x\n", (24, 1, 0)),
    (b"rows x y\n", (24, 1, 0)),
    (b"rows x\n", (23, 1, 0)),
    (b"rows 0\r\n", (23, 1, 0)),
    (b"rows 1234567890\n", (23, 1, 0)),
    (b"rows 0000000001\n", (23, 1, 0)),
    (b"rows 999999999\n", (24, 2, 0)),
    (b"rows -1\n", (23, 1, 0)),
    (b"\xff\xfe\n", (24, 1, 0)),
];

const ROWS: [Case<'static>; 19] = [
    (b"rows 1\n", (24, 2, 0)),
    (b"rows 1\n1 4 0", (24, 2, 0)),
    (b"rows 1\n1 4\n", (24, 2, 0)),
    (b"rows 1\n1 4 0 0\n", (24, 2, 0)),
    (b"rows 1\n1 x\n", (24, 2, 0)),
    (b"rows 1\n\n", (24, 2, 0)),
    (b"rows 1\n1 x 0\n", (23, 2, 0)),
    (b"rows 1\n5 4 x\n", (23, 2, 0)),
    (b"rows 1\n5 4 9\n", (25, 2, 1)),
    (b"rows 1\n1 0 0\n", (25, 2, 2)),
    (b"rows 1\n1 4 9\n", (25, 2, 3)),
    (b"rows 2\n1 31623 0\n1 31624 0\n", (25, 3, 5)),
    (b"rows 2\n5 4 0\n1 x 0\n", (25, 2, 1)),
    (b"rows 2\n1 4 0\n1 x 0\n", (23, 3, 0)),
    (
        b"rows 3\n1 4 0\n1 x 0\n1 4 0\nticks 0\narrivals 0\n",
        (23, 3, 0),
    ),
    (
        b"rows 3\n1 4 0\n1 4\n1 4 0\nticks 0\narrivals 0\n",
        (24, 3, 0),
    ),
    (
        b"rows 3\n1 4 0\n1 0 0\n1 4 0\nticks 0\narrivals 0\n",
        (25, 3, 2),
    ),
    (b"rows 1\n1 999999999 0\n", (25, 2, 2)),
    (b"rows 1\n1 4 \xff\n", (23, 2, 0)),
];

const REST: [Case<'static>; 26] = [
    (b"rows 1\n1 4 0\n", (24, 3, 0)),
    (b"rows 1\n1 4 0\nticks\n", (24, 3, 0)),
    (b"rows 0\ntick 1\n", (24, 2, 0)),
    (b"rows 0\nticks x\n", (23, 2, 0)),
    (b"rows 0\nticks 4097\n", (26, 2, 0)),
    (b"rows 0\nticks 4097\narrivals x y\n", (26, 2, 0)),
    (b"rows 0\nticks 0\n", (24, 3, 0)),
    (b"rows 0\nticks 0\narrivals x\n", (23, 3, 0)),
    (b"rows 0\nticks 0\narrivals 257\n", (26, 3, 0)),
    (b"rows 1\n1 4 0\nticks 7\narrivals 1\n", (24, 5, 0)),
    (b"rows 1\n1 4 0\nticks 7\narrivals 1\n4096 1\n", (26, 5, 0)),
    (b"rows 1\n1 4 0\nticks 7\narrivals 1\n0 0\n", (26, 5, 0)),
    (b"rows 1\n1 4 0\nticks 7\narrivals 1\n0 2\n", (26, 5, 0)),
    (b"rows 1\n1 4 0\nticks 7\narrivals 1\n0 1 1\n", (24, 5, 0)),
    (
        b"rows 1\n1 4 0\nticks 7\narrivals 2\n0 1\n0 x\n",
        (23, 6, 0),
    ),
    (b"rows 1\n1 4 0\nticks 7\narrivals 2\n0 1\n0 1", (24, 6, 0)),
    (b"rows 0\nticks 0\narrivals 0\n\n", (24, 4, 0)),
    (b"rows 1\n1 4 0\nticks 0\narrivals 1\n0 1\n ", (24, 6, 0)),
    (
        b"rows 1\n1 4 0\nticks 7\narrivals 3\n0 1\n0 x\n0 1\n",
        (23, 6, 0),
    ),
    (
        b"rows 1\n1 4 0\nticks 7\narrivals 3\n0 1\n0\n0 1\n",
        (24, 6, 0),
    ),
    (
        b"rows 1\n1 4 0\nticks 7\narrivals 3\n0 1\n0 9\n0 1\n",
        (26, 6, 0),
    ),
    (
        b"rows 1\n1 4 0\nticks 7\narrivals 2\n0 1\n5000 1\n",
        (26, 6, 0),
    ),
    (b"rows 1\n1 4 0\nticks 7\narrivals 1\n4096 x\n", (23, 5, 0)),
    (b"rows 0\nticks 4097 1\n", (24, 2, 0)),
    (b"rows 0\nticks 999999999\n", (26, 2, 0)),
    (b"rows 0\nticks 0\narrivals 0", (24, 3, 0)),
];

fn check_all(rt: &impl Abort, cases: &[Case]) {
    for (text, fault) in cases {
        assert_eq!(rt; answer(text), Err(*fault));
        assert_eq!(rt; lovagetower_judge(text), fault.0);
    }
}

#[test]
fn names_the_faults_of_headings(rt: HostRuntime) {
    check_all(&rt, &HEADINGS);
}

#[test]
fn names_the_faults_of_rows(rt: HostRuntime) {
    check_all(&rt, &ROWS);
}

#[test]
fn names_the_faults_of_the_rest(rt: HostRuntime) {
    check_all(&rt, &REST);
}

// The 33rd row is refused by the table.
#[test]
fn takes_32_rows(rt: HostRuntime) -> Result<(), AllocError> {
    let mut text = String::from_str(rt.alloc(), "rows 33\n")?;
    for _ in 0..33 {
        text.push_str("1 1 0\n")?;
    }
    for _ in text.len()..256 {
        text.push_str(" ")?;
    }
    assert_eq!(rt; answer(text.as_bytes()), Err((25, 34, 4)));
    Ok(())
}

// A session of 16,384 bytes is read; with one byte more it is too long, whatever it holds.
#[test]
fn reads_at_most_16384_bytes(rt: HostRuntime) -> Result<(), AllocError> {
    let end = b"rows 0\nticks 0\narrivals 0\n";
    let mut longest = vec![in rt.alloc(); b' '; 16_358]?;
    longest.extend_from_slice(end)?;
    assert_eq!(rt; answer(&longest), Ok(()));
    let mut longer = vec![in rt.alloc(); b' '; 16_359]?;
    longer.extend_from_slice(end)?;
    assert_eq!(rt; answer(&longer), Err((22, 0, 0)));
    assert_eq!(rt; answer(&[b'\n'; 16_385]), Err((22, 0, 0)));
    assert_eq!(rt; answer(&[b' '; 16_384]), Err((24, 1, 0)));
    Ok(())
}
