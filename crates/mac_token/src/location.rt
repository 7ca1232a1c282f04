//! Locations, which are texts; the empty one counts as absent.

ghost use Rattle.std.specs.Prelude.{◌≡◌, option_map};
ghost use Rattle.mac_token.specs.Location.{text_at, location_at};
ghost use Rattle.mac_token.specs.RawToken.{text_of};
ghost use Rattle.mac_token.specs.Reads.{Answers};

use crate::fault::{TokenFault, TokenRefusal};
use std::alloc::Global;

/// The text of these bytes, where they are UTF-8.
pub(crate) fn text(bytes: &[u8]) -> Option<&str>
    ensures { option_map (λ text. text.now) result ≡ text_at bytes.now }
{
    match str::from_utf8(bytes) {
        Ok(text) => Some(text),
        Err(_) => None,
    }
}

/// A copy of the location of these bytes, none where there are none; `Malformed` where they are not
/// UTF-8.
pub(crate) fn copied_location(alloc: Global, bytes: &[u8]) -> Result<Option<String>, TokenFault>
    ensures { Answers text_of result (location_at bytes.now) }
{
    if bytes.is_empty() {
        return Ok(None);
    }
    match text(bytes) {
        Some(text) => Ok(Some(String::from_str(alloc, text)?)),
        None => Err(TokenFault::Refused(TokenRefusal::Malformed)),
    }
}
