//! How much of a stack threads have.

use libc::types::rlimit;
use libc::{RLIMIT_STACK, getrlimit};

/// The stack of a server's thread, in bytes, whatever limit the process was started under.
pub const STACK: usize = 1_048_576;

/// Whether a thread for which no stack is asked has as much: it has what the process was started
/// under.
pub fn has_roomy_stacks() -> bool {
    let mut limit = rlimit {
        rlim_cur: 0,
        rlim_max: 0,
    };
    getrlimit(RLIMIT_STACK, &mut limit) == 0 && limit.rlim_cur >= STACK as u64
}
