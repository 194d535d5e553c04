// Reads a session from standard input and prints the verdict on its table, or the fault in the file.
#![tactic(auto)]

ghost use Rattle.std.specs.Prelude.{◌≤◌, length, IfOk};

use report::{MIN_SPACE, fault_line, verdict_line};
use session::read;
use std::io;
use std::io::{Read, Write};

// One byte more than the longest session, so that a file that is too long is seen without reading it to its end.
const INPUT_SPACE: usize = 16_385;

fn main(rt: HostRuntime) -> io::Result<()> {
    let mut input = [0; INPUT_SPACE];
    let length = fill(&mut rt.stdin(), &mut input)?;
    let mut line = [0; MIN_SPACE];
    let written = match read(&input[..length]) {
        Ok(session) => verdict_line(&mut line, session.table.judge()),
        Err(fault) => fault_line(&mut line, fault.number(), fault.line(), fault.cause()),
    };
    match written {
        Ok(end) => rt.stdout().write_all(&line[..end]),
        Err(_) => Ok(()),
    }
}

// Reads until the input ends or the space is full, and answers how much was read. A read asks for all the space that is
// left, and is not tried again: `io::copy` asks for 8 KiB at most, which cuts a longer message of a socket off.
fn fill<R: Read>(input: &mut R, space: &mut [u8]) -> io::Result<usize>
    ensures { IfOk result (λ n. n ≤ length space.old) }
{
    let mut at = 0;
    for _ in 0..space.len() {
        let more = input.read(&mut space[at..])?;
        if more == 0 {
            break;
        }
        at += more;
    }
    Ok(at)
}
