//! How many connections the system's limit of descriptors allows.

use libc::types::rlimit;
use libc::{RLIMIT_NOFILE, getrlimit};

/// How many descriptors are kept for the rest of the process.
const KEPT: u64 = 32;

/// How many descriptors a loop waits by: its poll's, and those which wake it for clients, for
/// workers' answers, and where others lack memory.
const EACH_LOOP: u64 = 4;

/// The most connections for which there are descriptors beside what so many loops wait by, and
/// those that others have.
pub fn most_connections(loops: usize, others: u64) -> u64 {
    let mut limit = rlimit {
        rlim_cur: u64::MAX,
        rlim_max: u64::MAX,
    };
    if getrlimit(RLIMIT_NOFILE, &mut limit) != 0 {
        return u64::MAX;
    }
    let waits = EACH_LOOP.saturating_mul(loops as u64);
    limit
        .rlim_cur
        .saturating_sub(KEPT.saturating_add(waits))
        .saturating_sub(others)
        .max(1)
}
