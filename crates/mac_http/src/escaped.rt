//! The bytes of a token as the value of a field.

ghost use Rattle.std.specs.Prelude.{◌≡◌, IfOk};
ghost use Rattle.http_header.specs.FieldValue.{plain_value};
ghost use Rattle.mac_http.specs.Escaped.{escaped};

use http::header::{HeaderValue, HeaderValueError};
use percent_encoding::{AsciiSet, CONTROLS, ascii_set, percent_encode};
use std::alloc::{AllocError, Global};

/// What is escaped beside what isn't ASCII: controls, the blank and `%` itself.
pub const ESCAPED: AsciiSet = ascii_set!(CONTROLS.add(b' ').add(b'%'));

/// The bytes, where a byte that isn't visible ASCII, and each `%`, stands as `%` and two digits.
pub(crate) fn escaped(alloc: Global, bytes: &[u8]) -> Result<HeaderValue, AllocError>
    ensures { IfOk result (λ v. v ≡ plain_value (escaped bytes.now)) }
{
    let mut text = String::new(alloc);
    percent_encode(bytes, ESCAPED).append_to(&mut text)?;
    match HeaderValue::from_string(text) {
        Ok(value) => Ok(value),
        Err(HeaderValueError::OutOfMemory) => Err(AllocError),
        Err(HeaderValueError::Invalid) => unreachable!(),
    }
}
