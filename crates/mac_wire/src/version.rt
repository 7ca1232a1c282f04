//! The versions of the wire.

/// The first byte of a stream of version two: it takes no place, and the frames follow it. No
/// frame of version one that is allowed begins with it.
pub const HELLO: u8 = 2;

/// Which wire a stream is of: what a client sends first tells it.
#[derive(Clone, Copy, Debug, PartialEq, Eq)]
pub enum Version {
    /// A reply's frame holds the reply alone.
    One,
    /// A reply's frame holds the reply's place, and then the reply.
    Two,
}
