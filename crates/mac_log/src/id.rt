//! Which ids of requests a line tells.

ghost use Rattle.std.specs.Prelude.{◌≡◌};
ghost use Rattle.mac_log.specs.Id.{is_told_id};

use mac_keys::is_name;

/// How many bytes an id has at most that a line tells. A UUID has 36. No secret of 32 bytes fits,
/// as a signature is: base64 spells it in 43 letters, hexadecimal digits in 64.
pub const ID_MAX: usize = 40;

/// Whether a line tells these bytes as the id of a request: letters and digits of ASCII, dots,
/// underscores and dashes, of which there are some and few.
pub fn is_told_id(id: &[u8]) -> bool
    ensures { result ≡ is_told_id id.now }
{
    is_name(id) && id.len() <= ID_MAX
}
