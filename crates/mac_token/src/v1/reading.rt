//! Packets read, from left to right.

ghost use Rattle.std.specs.Prelude.{◌≡◌, ◌<◌, option_map, IfSome};
ghost use Rattle.std.specs.Option.{option_copied};
ghost use Rattle.mac_token.specs.V1Reading.{hex_value, hex_number, line_at, field_at, has_key, optional_at, signature_at, v1_of};
ghost use Rattle.mac_token.specs.CaveatsIn.{section_in, end_in};
ghost use Rattle.mac_token.specs.declared.version.Version.TheVariants as Version;

use super::key::PacketKey;
use crate::location::text;
use crate::raw_view::RawView;
use crate::section::Section;
use crate::signature::signature_of;
use crate::tally::Tally;
use crate::version::Version;

fn hex_value(digit: u8) -> Option<usize>
    ensures value { result ≡ hex_value digit }
    ensures bound { IfSome result (λ n. n < 16) }
{
    match digit {
        b'0'..=b'9' => Some(usize::from(digit - b'0')),
        b'a'..=b'f' => Some(usize::from(digit - b'a') + 10),
        _ => None,
    }
}

#[tactic(auto, unfolding(crate::specs::V1Reading::hex_number))]
fn hex_number(a: u8, b: u8, c: u8, d: u8) -> Option<usize>
    ensures { result ≡ hex_number a b c d }
{
    let h = hex_value(a)?;
    let i = hex_value(b)?;
    let j = hex_value(c)?;
    let k = hex_value(d)?;
    Some(4096 * h + 256 * i + 16 * j + k)
}

/// What stands between the digits and the line feed of the first packet, and what follows it.
#[tactic(auto, unfolding(crate::specs::V1Reading::line_at))]
fn line(bytes: &[u8]) -> Option<(&[u8], &[u8])>
    ensures { option_map (λ x. (x.0.now, x.1.now)) result ≡ line_at bytes.now }
{
    let [a, b, c, d, after @ ..] = bytes else {
        return None;
    };
    let len = hex_number(*a, *b, *c, *d)?;
    if len < 5 || after.len() < len - 5 {
        return None;
    }
    let (line, end) = after.split_at(len - 5);
    match end {
        [b'\n', rest @ ..] => Some((line, rest)),
        _ => None,
    }
}

/// The value of the packet at the front, which has this key, and what follows it.
#[tactic(auto, unfolding(crate::specs::V1Reading::field_at))]
fn field(key: PacketKey, bytes: &[u8]) -> Option<(&[u8], &[u8])>
    ensures { option_map (λ x. (x.0.now, x.1.now)) result ≡ field_at key bytes.now }
{
    let (line, rest) = line(bytes)?;
    let front = key.name_and_space();
    if !line.starts_with(front) {
        return None;
    }
    Some((&line[front.len()..], rest))
}

#[tactic(auto, unfolding(crate::specs::V1Reading::has_key))]
fn has_key(key: PacketKey, bytes: &[u8]) -> bool
    ensures { result ≡ has_key key bytes.now }
{
    match bytes {
        [_, _, _, _, after @ ..] => after.starts_with(key.name_and_space()),
        _ => false,
    }
}

/// The value of the packet at the front, if it has this key, and what follows it.
#[tactic(auto, unfolding(crate::specs::V1Reading::optional_at))]
fn optional(key: PacketKey, bytes: &[u8]) -> Option<(Option<&[u8]>, &[u8])>
    ensures { option_map (λ x. (option_copied x.0, x.1.now)) result ≡ optional_at key bytes.now }
{
    if !has_key(key, bytes) {
        return Some((None, bytes));
    }
    let (value, rest) = field(key, bytes)?;
    Some((Some(value), rest))
}

/// The fields of the caveat that comes next, where one does, and what follows them.
#[tactic(auto, unfolding(crate::specs::V1Reading::section_at))]
pub(crate) fn next_section(bytes: &[u8]) -> Option<(Section<'_>, &[u8])>
    ensures { option_map (λ x. (x.0, x.1.now)) result ≡ section_in Version.V1 bytes.now }
{
    if !has_key(PacketKey::Cid, bytes) {
        return None;
    }
    let (identifier, rest) = field(PacketKey::Cid, bytes)?;
    let (vid, rest) = optional(PacketKey::Vid, rest)?;
    let (location, rest) = optional(PacketKey::Cl, rest)?;
    Some((
        Section {
            location,
            identifier,
            vid,
        },
        rest,
    ))
}

/// The bytes, where no caveat comes next.
pub(crate) fn after_caveats(bytes: &[u8]) -> Option<&[u8]>
    ensures { option_map (λ rest. rest.now) result ≡ end_in Version.V1 bytes.now }
{
    if has_key(PacketKey::Cid, bytes) {
        return None;
    }
    Some(bytes)
}

/// The signature, of 32 bytes, with nothing behind it.
#[tactic(auto, unfolding(crate::specs::V1Reading::signature_at))]
fn signature(bytes: &[u8]) -> Option<[u8; 32]>
    ensures { result ≡ signature_at bytes.now }
{
    let (value, rest) = field(PacketKey::Signature, bytes)?;
    if !rest.is_empty() {
        return None;
    }
    signature_of(value)
}

/// The raw token that these packets spell, all of the bytes; `None` where they spell none. The work
/// is linear in the bytes, and no memory is taken.
#[tactic(auto, unfolding(crate::specs::V1Reading::v1_of))]
pub(crate) fn view(bytes: &[u8]) -> Option<RawView<'_>>
    ensures { result ≡ v1_of bytes.now }
{
    let (location, rest) = field(PacketKey::Location, bytes)?;
    let location = text(location)?;
    let (identifier, caveats) = field(PacketKey::Identifier, rest)?;
    let (tally, rest) = Tally::of(Version::V1, caveats)?;
    let sig = signature(rest)?;
    Some(RawView {
        version: Version::V1,
        location,
        identifier,
        caveats,
        tally,
        sig,
    })
}
