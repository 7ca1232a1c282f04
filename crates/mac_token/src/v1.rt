//! V1 packets.
//!
//! A packet begins with its own length, in four hexadecimal digits of lower case; behind it stand a
//! key name, a space, a value and a line feed. A token's packets come in this order:
//!
//! ```text
//! location
//! identifier
//! for each caveat: cid; vid, if it has one; cl, if it has one
//! signature, of 32 bytes
//! ```

mod key;
mod reading;
mod writing;

pub(crate) use reading::{after_caveats, next_section, view};
pub(crate) use writing::{
    BESIDE_CAVEAT, BESIDE_PARTS, put_caveat, put_head, put_signature, written_len,
};
