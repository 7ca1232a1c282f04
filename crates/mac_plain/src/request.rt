//! The requests of a round, where they lie.

use mac_board::Current;

/// One request: whose it is, and where its payload lies in what was read.
#[derive(Clone, Copy)]
pub struct RoundRequest {
    /// The index of its client.
    pub owner: usize,
    /// Where its payload begins.
    pub start: usize,
    /// Where its payload ends.
    pub end: usize,
}

/// Requests of a round, where they lie, and what is up as they are answered.
#[derive(Clone, Copy)]
pub struct RoundView<'a> {
    /// The key table and the moment.
    pub current: Current<'a>,
    /// What was read, in which the payloads lie.
    pub arena: &'a [u8],
    /// The requests.
    pub requests: &'a [RoundRequest],
}
