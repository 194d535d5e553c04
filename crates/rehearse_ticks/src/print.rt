// Lines that are printed.
use report::{MIN_SPACE, NoSpace};
use std::io;
use std::io::Write;

// Prints the line that a call writes. A line for which the space is too short prints nothing; no line of a session is,
// and none is longer than its space.
pub(crate) fn print<W: Write, F: FnOnce(&mut [u8]) -> Result<usize, NoSpace>>(
    out: &mut W,
    write: F,
) -> io::Result<()>
    requires { F.IsAlwaysCallable write }
{
    let mut line = [0; MIN_SPACE];
    match write(&mut line) {
        Ok(end) if end <= line.len() => out.write_all(&line[..end]),
        _ => Ok(()),
    }
}
