//! Which names a line tells.

ghost use Rattle.std.specs.Prelude.{◌≡◌};
ghost use Rattle.mac_log.specs.Name.{is_told_name};

use mac_keys::is_name;

/// How many letters the shortest token has that base64 spells: one in V2 binary, without a
/// location, an identifier and caveats.
pub const TOKEN_MIN: usize = 52;

/// Whether a line tells these bytes as the name of a key: a key file may have them as a name, and
/// no token begins so and is as long.
pub fn is_told_name(name: &[u8]) -> bool
    ensures { result ≡ is_told_name name.now }
{
    is_name(name) && (name.len() < TOKEN_MIN || !name.starts_with(b"Ag"))
}
