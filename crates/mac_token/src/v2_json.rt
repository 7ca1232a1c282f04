//! V2 JSON: an object whose members are the token's parts.
//!
//! ```text
//! token  = { "v"?: 2, "l"?: text, "i" | "i64": bytes, "c"?: [caveat, ..],
//!            "s" | "s64": bytes of 32 }
//! caveat = { "i" | "i64": bytes, "v" | "v64"?: bytes, "l"?: text }
//! ```
//!
//! `i`, `s` and a caveat's `v` stand for the UTF-8 of their text, the names with `64` for what
//! their base64 text decodes to.

mod reading;
mod writing;

pub(crate) use reading::read;
pub(crate) use writing::write;
