// The one call of the frame's host, which is written in C, as a static library over `session`.
#![tactic(auto)]

ghost use Rattle.session.specs.Hosts.{HostNumber};

use session::host;

// The number of the verdict on the session that the bytes are (0, 6 or 7), or of the fault in them (22 to 26).
#[unsafe(no_mangle)]
pub extern "C" fn lovagetower_judge(bytes: &[u8]) -> u32
    ensures { HostNumber bytes.now result }
{
    host::lovagetower_judge(bytes)
}
