//! Writing V2 binary: the exact length first, so that one reserve is enough.

ghost use Rattle.std.specs.Prelude.{◌≡◌, ◌+◌, ◌*◌, ◌<◌, ◌≤◌, ◌^◌, ◌++◌, [], Some, None, length, map, IfOk, OnOk};
ghost use Rattle.std.specs.List.{flat_map};
ghost use Rattle.mac_token.specs.Draft.{v2_head, v2_end};
ghost use Rattle.mac_token.specs.Limits.{AreShort, token_or_limit};
ghost use Rattle.mac_token.specs.RawToken.{byte_lists, raw_of, token_parts};
ghost use Rattle.mac_token.specs.Read.{bare_of, or_malformed, token_of_read};
ghost use Rattle.mac_token.specs.V2.{field, optional, section, written_location, written_section, v2_bytes};
ghost use Rattle.mac_token.specs.V2Whole.{v2_of};
ghost use Rattle.mac_token.specs.declared.v2.FieldType.TheVariants.{Location};

use crate::fault::NoMemory;
use crate::limits::{CAVEAT_MAX, CAVEATS_MAX};
use crate::raw::RawCaveat;
use crate::token::Token;
use crate::v2::{END, FieldType, VERSION};
use crate::varint::{push_varint, varint_len};
use std::alloc::Global;

/// How many bytes a caveat's section has beside the caveat, at most: the type, a length below 2^14,
/// the end mark.
pub(crate) const BESIDE_CAVEAT: usize = 4;

/// How many bytes a token has beside its parts, at most, the signature counted: the version, types
/// and lengths of its location and identifier (6), two end marks, the signature's field (34).
pub(crate) const BESIDE_PARTS: usize = 43;

/// How many bytes a field of these bytes has.
fn field_len(kind: FieldType, bytes: &[u8]) -> usize
    requires { length bytes.now < 2 ^ 32 }
    ensures value { result ≡ length (field kind bytes.now) }
    ensures bound { result ≤ length bytes.now + 11 }
{
    1 + varint_len(bytes.len() as u64) + bytes.len()
}

/// How many bytes a location has, which is left out where it is empty.
fn location_len(location: &[u8]) -> usize
    requires { length location.now < 2 ^ 32 }
    ensures value { result ≡ length (optional Location (written_location location.now)) }
    ensures bound { result ≤ length location.now + 11 }
{
    if location.is_empty() {
        0
    } else {
        field_len(FieldType::Location, location)
    }
}

/// How many bytes the caveats' sections have.
fn caveats_len(caveats: &[Vec<u8>]) -> usize
    requires count { length caveats.now ≤ CAVEATS_MAX }
    requires each { AreShort (byte_lists caveats.now) }
    ensures value { result
        ≡ length (flat_map section (map (written_section None) (byte_lists caveats.now))) }
    ensures bound { result ≤ CAVEATS_MAX * (CAVEAT_MAX + 12) }
{
    let mut len = 0;
    for caveat in caveats {
        len += field_len(FieldType::Identifier, caveat) + 1;
    }
    len
}

/// How many bytes the token has in V2 binary; linear in the number of its caveats.
pub(crate) fn written_len(token: &Token) -> usize
    ensures { result ≡ length (v2_bytes token.now) }
{
    let caveats = caveats_len(token.caveat_list());
    let location = location_len(token.location().as_bytes());
    let identifier = field_len(FieldType::Identifier, token.identifier());
    let signature = field_len(FieldType::Signature, &token.sig());
    1 + location + identifier + 1 + caveats + 1 + signature
}

/// Appends a field.
fn put_field(out: &mut Vec<u8>, kind: FieldType, bytes: &[u8]) -> Result<(), NoMemory>
    ensures { OnOk result (out.new.items ≡ out.old.items ++ field kind bytes.now) }
{
    out.push(kind.number())?;
    push_varint(out, bytes.len() as u64)?;
    out.extend_from_slice(bytes)
}

/// Appends a location, which is left out where it is empty.
fn put_location(out: &mut Vec<u8>, location: &[u8]) -> Result<(), NoMemory>
    ensures { OnOk result (out.new.items
        ≡ out.old.items ++ optional Location (written_location location.now)) }
{
    if location.is_empty() {
        Ok(())
    } else {
        put_field(out, FieldType::Location, location)
    }
}

/// Appends a section without a verifier's id.
fn put_section(out: &mut Vec<u8>, location: &[u8], identifier: &[u8]) -> Result<(), NoMemory>
    ensures { OnOk result (out.new.items ≡ out.old.items
        ++ section (written_section (written_location location.now) identifier.now)) }
{
    put_location(out, location)?;
    put_field(out, FieldType::Identifier, identifier)?;
    out.push(END)?;
    Ok(())
}

/// Appends the version and a token's own section.
pub(crate) fn put_head(
    out: &mut Vec<u8>,
    location: &[u8],
    identifier: &[u8],
) -> Result<(), NoMemory>
    ensures { OnOk result (out.new.items ≡ out.old.items ++ v2_head location.now identifier.now) }
{
    out.push(VERSION)?;
    put_section(out, location, identifier)
}

/// Appends a caveat's section.
pub(crate) fn put_caveat(out: &mut Vec<u8>, caveat: &[u8]) -> Result<(), NoMemory>
    ensures { OnOk result (out.new.items
        ≡ out.old.items ++ section (written_section None caveat.now)) }
{
    put_section(out, &[], caveat)
}

/// Appends the end of the caveats and the signature's field.
pub(crate) fn put_signature(out: &mut Vec<u8>, sig: &[u8]) -> Result<(), NoMemory>
    ensures { OnOk result (out.new.items ≡ out.old.items ++ v2_end sig.now) }
{
    out.push(END)?;
    put_field(out, FieldType::Signature, sig)
}

/// Appends the sections of raw caveats, by their own bytes alone.
fn put_ids(out: &mut Vec<u8>, caveats: &[RawCaveat]) -> Result<(), NoMemory>
    ensures { OnOk result (out.new.items ≡ out.old.items
        ++ flat_map section (map (written_section None) (map (λ c. c.id) caveats.now))) }
{
    for caveat in caveats {
        put_caveat(out, &caveat.id)?;
    }
    Ok(())
}

/// Puts these parts of a raw token into an empty vector, of its caveats their own bytes alone.
pub(crate) fn put_parts(
    out: &mut Vec<u8>,
    location: &str,
    identifier: &[u8],
    caveats: &[RawCaveat],
    sig: [u8; 32],
) -> Result<(), NoMemory>
    requires { out.old.items ≡ [] }
    ensures written { OnOk result (out.new.items ≡ v2_bytes
        (token_parts location.now identifier.now (map (λ c. c.id) caveats.now) sig)) }
    ensures seen { OnOk result (token_of_read (or_malformed (bare_of out.new.items))
        ≡ token_or_limit
        (token_parts location.now identifier.now (map (λ c. c.id) caveats.now) sig)) }
{
    put_head(out, location.as_bytes(), identifier)?;
    put_ids(out, caveats)?;
    put_signature(out, &sig)?;
    Ok(())
}
