// Reads a session from standard input and prints the verdict on its table and its run tick by tick, or the fault in the
// file.
#![tactic(auto)]

ghost use Rattle.std.specs.Prelude.{◌≤◌, length, IfOk};

use ready::{Entry, HeapList};
use report::{fault_line, verdict_line};
use session::read;
use std::io;
use std::io::Read;

mod print;
mod run;

use print::print;
use run::run;

// One byte more than the longest session, so that a file that is too long is seen without reading it to its end.
const INPUT_SPACE: usize = 16_385;

// What stands in a cell of the ready list before its first entry.
const NO_ENTRY: Entry = Entry {
    row: 0,
    deadline: 0,
    begun: false,
};

fn main(rt: HostRuntime) -> io::Result<()> {
    let mut input = [0; INPUT_SPACE];
    let length = fill(&mut rt.stdin(), &mut input)?;
    let mut out = rt.stdout();
    match read(&input[..length]) {
        Ok(session) => {
            let verdict = session.table.judge();
            print(&mut out, |line| verdict_line(line, verdict))?;
            let mut cells = [NO_ENTRY; 32];
            run(HeapList::new(&mut cells), &session, &mut out)
        }
        Err(fault) => print(&mut out, |line| {
            fault_line(line, fault.number(), fault.line(), fault.cause())
        }),
    }
}

// Reads until the input ends or the space is full, and answers how much was read. A read asks for all the space that is
// left, and is not tried again: `io::copy` asks for 8 KiB at most, which cuts a longer message of a socket off.
fn fill<R: Read>(input: &mut R, space: &mut [u8]) -> io::Result<usize>
    ensures { IfOk result (λ n. n ≤ length space.old) }
{
    let mut at = 0;
    for _ in 0..space.len() {
        let more = input.read(&mut space[at..])?;
        if more == 0 {
            break;
        }
        at += more;
    }
    Ok(at)
}
