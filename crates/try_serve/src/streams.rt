//! The streams that are served, and the key table.

use crate::fault::RunFault;
use mac_keys::KeyTable;
use mac_wire::{FRAME_MAX, HELLO, Version};
use std::alloc::{AllocError, Global};

const KEYS: &[u8] = b"key bank 746869732069732\
    06f757220737570657220736563726574206b65793b206f6e6c79207765\
    2073686f756c64206b6e6f77206974\n";

/// A mint, and an empty payload: frames of 52 and of 4 bytes.
pub(crate) const TWO_FRAMES: &[u8] = b"\x00\x00\x00\x30\x01\x01\x04bank\x00\x0ehttp://mybank/\
    \x00\x16we used our secret key\x00\x00\x00\x00\x00";

/// The token of the mint, which another library computed, and BadRequest: frames of 156 and of 5
/// bytes.
pub(crate) const TWO_REPLIES: &[u8] = b"\x00\x00\x00\x98\x01\
    MDAxY2xvY2F0aW9uIGh0dHA6Ly9teWJhbmsvCjAwMjZpZGVudGlmaWVy\
    IHdlIHVzZWQgb3VyIHNlY3JldCBrZXkKMDAyZnNpZ25hdHVyZSDj2eAp\
    CFJsTAA5rhURQRXZf91ovyujebNCqvD2F9BVLwo\
    \x00\x00\x00\x01\x10";

/// The same replies in version two: frames of 164 and of 13 bytes.
const TWO_PLACED_REPLIES: &[u8] = b"\x00\x00\x00\xa0\0\0\0\0\0\0\0\0\x01\
    MDAxY2xvY2F0aW9uIGh0dHA6Ly9teWJhbmsvCjAwMjZpZGVudGlmaWVy\
    IHdlIHVzZWQgb3VyIHNlY3JldCBrZXkKMDAyZnNpZ25hdHVyZSDj2eAp\
    CFJsTAA5rhURQRXZf91ovyujebNCqvD2F9BVLwo\
    \x00\x00\x00\x09\0\0\0\0\0\0\0\x01\x10";

/// How many bytes the first of the two replies has.
pub(crate) const FIRST_REPLY: usize = 156;

/// The table of the one key.
pub(crate) fn key_table(alloc: Global) -> Result<KeyTable, RunFault> {
    match KeyTable::read(alloc, KEYS) {
        Ok(keys) => Ok(keys),
        Err(_) => Err(RunFault::Refused),
    }
}

/// A stream, and the replies to it.
#[derive(Drop)]
pub(crate) struct Exchange {
    pub stream: Vec<u8>,
    pub replies: Vec<u8>,
}

impl Exchange {
    /// The two frames, in a stream of this version.
    pub(crate) fn of_two(alloc: Global, version: Version) -> Result<Exchange, AllocError> {
        Ok(match version {
            Version::One => Exchange {
                stream: Vec::from_slice(alloc, TWO_FRAMES)?,
                replies: Vec::from_slice(alloc, TWO_REPLIES)?,
            },
            Version::Two => Exchange {
                stream: behind_hello(alloc, TWO_FRAMES)?,
                replies: Vec::from_slice(alloc, TWO_PLACED_REPLIES)?,
            },
        })
    }
}

/// A stream of version two with these frames.
fn behind_hello(alloc: Global, frames: &[u8]) -> Result<Vec<u8>, AllocError> {
    let mut stream = Vec::from_slice(alloc, &[HELLO])?;
    stream.extend_from_slice(frames)?;
    Ok(stream)
}

/// The streams: a name, the version, what stands behind its front, and how many zeros behind that.
const STREAMS: &[(&str, Version, &[u8], usize)] = &[
    // A mint, and an empty payload.
    ("two_frames", Version::One, TWO_FRAMES, 0),
    // Two empty payloads.
    ("empty_frames", Version::One, &[], 8),
    // A payload of 65,536 zeros.
    ("greatest_frame", Version::One, &[0, 1, 0, 0], FRAME_MAX),
    // The length of a payload of 65,537 bytes, and an empty payload.
    ("longer_frame", Version::One, &[0, 1, 0, 1], 4),
    // Three bytes of a length.
    ("half_length", Version::One, &[], 3),
    // A stream of version two without a frame.
    ("hello", Version::Two, &[], 0),
    // A stream of version two with the two frames.
    ("hello_two", Version::Two, TWO_FRAMES, 0),
    // One with the length of a payload of 65,537 bytes.
    ("hello_longer", Version::Two, &[0, 1, 0, 1], 0),
    // One with a byte of a length.
    ("hello_torn", Version::Two, &[0], 0),
];

/// The stream of a name.
pub(crate) fn stream_of(alloc: Global, name: &str) -> Result<Vec<u8>, RunFault> {
    for (known, version, bytes, zeros) in STREAMS {
        if *known == name {
            return Ok(made_stream(alloc, *version, bytes, *zeros)?);
        }
    }
    Err(RunFault::NoRun)
}

/// A stream of this version, with these bytes and so many zeros.
fn made_stream(
    alloc: Global,
    version: Version,
    bytes: &[u8],
    zeros: usize,
) -> Result<Vec<u8>, AllocError> {
    let mut stream = match version {
        Version::One => Vec::from_slice(alloc, bytes)?,
        Version::Two => behind_hello(alloc, bytes)?,
    };
    stream.resize(stream.len().saturating_add(zeros), 0)?;
    Ok(stream)
}
