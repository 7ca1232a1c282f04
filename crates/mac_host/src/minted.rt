//! What a line tells of a token that was minted.

ghost use Rattle.std.specs.Prelude.{◌≡◌, IfOk};
ghost use Rattle.mac_host.specs.Minted.{with_minted, with_name};

use mac_log::{Fields, Key, NoMemory, is_told_name};

/// The fields, behind those that there are: the name of the key, and the identifier, by which the
/// token can be taken back. Nothing else of the token is told.
pub(crate) fn minted_fields(
    fields: Fields,
    name: &[u8],
    identifier: &[u8],
) -> Result<Fields, NoMemory>
    ensures { IfOk result (λ told. told ≡ with_minted fields name.now identifier.now) }
{
    with_name(fields, name)?.with_text(Key::Identifier, identifier)
}

/// The same with the name, where it is one that a line tells.
pub(crate) fn with_name(fields: Fields, name: &[u8]) -> Result<Fields, NoMemory>
    ensures { IfOk result (λ told. told ≡ with_name fields name.now) }
{
    if is_told_name(name) {
        fields.with_text(Key::Name, name)
    } else {
        Ok(fields)
    }
}
