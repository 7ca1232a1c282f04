//! Bounds that each server of a daemon has for its connections.

/// How many connections at most come into loops at a time in place of others.
pub const DISPLACING_MAX: usize = 16;

/// How many reads behind the last reply drop what comes.
pub const DROPPED_READS: usize = 64;

/// How many microseconds a peer has to end after each of these reads.
pub const DROPPED_MICROS: u64 = 100_000;

/// How many milliseconds to wait where the system accepts no connection, for want of descriptors.
pub const REFUSED_MILLIS: u64 = 100;
