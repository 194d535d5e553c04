// The one call of the frame's host, which is written in C: the crate `session_c` exports it.
ghost use Rattle.session.specs.Hosts.{HostNumber};

use crate::session::read;

// The number of the verdict on the session that the bytes are (0, 6 or 7), or of the fault in them (22 to 26).
pub fn lovagetower_judge(bytes: &[u8]) -> u32
    ensures { HostNumber bytes.now result }
{
    match read(bytes) {
        Ok(session) => session.table.judge().number(),
        Err(fault) => fault.number(),
    }
}
