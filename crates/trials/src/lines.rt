// The lines, in every space from none to more than enough.
use feasibility::Verdict;
use report::{MIN_SPACE, NoSpace, fault_line, refusal_line, tick_line, verdict_line};
use std::process::Abort;

const MAX_SPACE: usize = 48;

// What stands in the space before a call: a byte that no line has.
const UNTOUCHED: u8 = b'#';

// With less space than `least` the call refuses its line and touches no byte; else it writes the text, and answers its
// length.
fn tells<F: Fn(&mut [u8]) -> Result<usize, NoSpace>>(
    rt: &impl Abort,
    write: F,
    least: usize,
    text: &[u8],
)
    requires { F.IsAlwaysCallable write }
{
    for space in 0..=MAX_SPACE {
        let mut out = [UNTOUCHED; MAX_SPACE];
        let answer = write(&mut out[..space]);
        if space < least {
            assert_eq!(rt; answer, Err(NoSpace));
            assert!(rt; starts_with(&out, b""));
        } else {
            assert_eq!(rt; answer, Ok(text.len()));
            assert!(rt; starts_with(&out, text));
        }
    }
}

// Whether the text stands at the front, and after it no byte that was touched.
fn starts_with(out: &[u8], text: &[u8]) -> bool {
    match out.strip_prefix(text) {
        Some(rest) => rest.iter().all(|byte| *byte == UNTOUCHED),
        None => false,
    }
}

#[test]
fn refuses_below_40_bytes_with_27(rt: HostRuntime) {
    assert_eq!(rt; MIN_SPACE, 40);
    assert_eq!(rt; NoSpace.number(), 27);
}

#[test]
fn tells_verdicts(rt: HostRuntime) {
    let verdicts = [
        (Verdict::Fit, "verdict 0\n"),
        (
            Verdict::Overloaded {
                hyperperiod: 6,
                load: 7,
            },
            "verdict 6 6 7\n",
        ),
        (Verdict::Blocked { row: 4, length: 6 }, "verdict 7 4 6\n"),
        (
            Verdict::Blocked {
                row: u32::MAX,
                length: u32::MAX,
            },
            "verdict 7 4294967295 4294967295\n",
        ),
    ];
    for (verdict, text) in verdicts {
        tells(&rt, |out| verdict_line(out, verdict), 40, text.as_bytes());
    }
}

// No table has a load of 18 digits or more.
#[test]
fn tells_made_up_verdicts(rt: HostRuntime) {
    let loads = [
        (
            999_999_999_999_999_999,
            40,
            "verdict 6 4294967295 999999999999999999\n",
        ),
        (
            1_000_000_000_000_000_000,
            41,
            "verdict 6 4294967295 1000000000000000000\n",
        ),
        (u64::MAX, 42, "verdict 6 4294967295 18446744073709551615\n"),
    ];
    for (load, least, text) in loads {
        let verdict = Verdict::Overloaded {
            hyperperiod: u32::MAX,
            load,
        };
        tells(
            &rt,
            |out| verdict_line(out, verdict),
            least,
            text.as_bytes(),
        );
    }
}

const MAX: u32 = u32::MAX;

// Three numbers, and the text of the line that has them.
type Numbers<'a> = (u32, u32, u32, &'a str);

#[test]
fn tells_faults(rt: HostRuntime) {
    let faults: [Numbers; 2] = [
        (20, 3, 1, "fault 20 3 1\n"),
        (MAX, MAX, MAX, "fault 4294967295 4294967295 4294967295\n"),
    ];
    for (number, line, cause, text) in faults {
        tells(
            &rt,
            |out| fault_line(out, number, line, cause),
            40,
            text.as_bytes(),
        );
    }
}

#[test]
fn tells_ticks(rt: HostRuntime) {
    let ticks: [Numbers; 3] = [
        (0, 0, 0, "t 0 0 0\n"),
        (9, 10, 100, "t 9 10 100\n"),
        (MAX, MAX, MAX, "t 4294967295 4294967295 4294967295\n"),
    ];
    for (clock, row, state, text) in ticks {
        tells(
            &rt,
            |out| tick_line(out, clock, row, state),
            40,
            text.as_bytes(),
        );
    }
}

#[test]
fn tells_refusals(rt: HostRuntime) {
    let refusals: [Numbers; 2] = [
        (12, 2, 11, "no 12 2 11\n"),
        (MAX, MAX, MAX, "no 4294967295 4294967295 4294967295\n"),
    ];
    for (time, row, refusal, text) in refusals {
        tells(
            &rt,
            |out| refusal_line(out, time, row, refusal),
            40,
            text.as_bytes(),
        );
    }
}
