//! Reading V2 binary: each function takes its part from the front and gives the bytes after it.

ghost use Rattle.std.specs.Prelude.{◌≡◌, option_map};
ghost use Rattle.std.specs.Option.{option_copied};
ghost use Rattle.mac_token.specs.V2Whole.{v2_of};
ghost use Rattle.mac_token.specs.V2Reading.{counted_at, field_at, optional_at, end_at, section_at, head_at, signature_at};

use crate::location::text;
use crate::raw_view::RawView;
use crate::section::Section;
use crate::signature::signature_of;
use crate::tally::Tally;
use crate::v2::{END, FieldType, VERSION};
use crate::varint::read_varint;
use crate::version::Version;

/// A length, and that many bytes.
fn counted(bytes: &[u8]) -> Option<(&[u8], &[u8])>
    ensures { option_map (λ x. (x.0.now, x.1.now)) result ≡ counted_at bytes.now }
{
    let (length, rest) = read_varint(bytes)?;
    if (rest.len() as u64) < length {
        return None;
    }
    Some(rest.split_at(length as usize))
}

/// A field of this type: its bytes, and those after it.
#[tactic(auto, unfolding(crate::specs::V2Reading::field_at))]
fn field(kind: FieldType, bytes: &[u8]) -> Option<(&[u8], &[u8])>
    ensures { option_map (λ x. (x.0.now, x.1.now)) result ≡ field_at kind bytes.now }
{
    let (first, rest) = bytes.split_first()?;
    if *first != kind.number() {
        return None;
    }
    counted(rest)
}

/// A field that may be left out: it is there where its type comes next.
#[tactic(auto, unfolding(crate::specs::V2Reading::optional_at))]
fn optional(kind: FieldType, bytes: &[u8]) -> Option<(Option<&[u8]>, &[u8])>
    ensures { option_map (λ x. (option_copied x.0, x.1.now)) result ≡ optional_at kind bytes.now }
{
    match bytes.split_first() {
        Some((first, rest)) if *first == kind.number() => {
            let (value, rest) = counted(rest)?;
            Some((Some(value), rest))
        }
        _ => Some((None, bytes)),
    }
}

/// The end mark: the bytes after it.
#[tactic(auto, unfolding(crate::specs::V2Reading::end_at))]
pub(crate) fn end(bytes: &[u8]) -> Option<&[u8]>
    ensures { option_map (λ rest. rest.now) result ≡ end_at bytes.now }
{
    match bytes {
        [END, rest @ ..] => Some(rest),
        _ => None,
    }
}

/// A section: its fields, and the bytes after it.
#[tactic(auto, unfolding(crate::specs::V2Reading::section_at))]
pub(crate) fn section(bytes: &[u8]) -> Option<(Section<'_>, &[u8])>
    ensures { option_map (λ x. (x.0, x.1.now)) result ≡ section_at bytes.now }
{
    let (location, rest) = optional(FieldType::Location, bytes)?;
    let (identifier, rest) = field(FieldType::Identifier, rest)?;
    let (vid, rest) = optional(FieldType::Vid, rest)?;
    let rest = end(rest)?;
    Some((
        Section {
            location,
            identifier,
            vid,
        },
        rest,
    ))
}

/// The version byte and the token's own section, which has no verifier's id.
#[tactic(auto, unfolding(crate::specs::V2Reading::head_at))]
fn head(bytes: &[u8]) -> Option<(Section<'_>, &[u8])>
    ensures { option_map (λ x. (x.0, x.1.now)) result ≡ head_at bytes.now }
{
    let (version, rest) = bytes.split_first()?;
    if *version != VERSION {
        return None;
    }
    let (head, rest) = section(rest)?;
    if head.vid.is_some() {
        return None;
    }
    Some((head, rest))
}

/// The signature's field, up to the end of the bytes.
#[tactic(auto, unfolding(crate::specs::V2Reading::signature_at))]
fn signature(bytes: &[u8]) -> Option<[u8; 32]>
    ensures { result ≡ signature_at bytes.now }
{
    let (value, rest) = field(FieldType::Signature, bytes)?;
    if !rest.is_empty() {
        return None;
    }
    signature_of(value)
}

/// The raw token that these bytes spell in V2 binary, all of them; `None` where they spell none.
/// The work is linear in the bytes, and no memory is taken.
#[tactic(auto, unfolding(crate::specs::V2Whole::v2_of))]
pub(crate) fn view(bytes: &[u8]) -> Option<RawView<'_>>
    ensures { result ≡ v2_of bytes.now }
{
    let (own, caveats) = head(bytes)?;
    let location = text(own.location_or_empty())?;
    let (tally, rest) = Tally::of(Version::V2, caveats)?;
    let sig = signature(rest)?;
    Some(RawView {
        version: Version::V2,
        location,
        identifier: own.identifier,
        caveats,
        tally,
        sig,
    })
}
