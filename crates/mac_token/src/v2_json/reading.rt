//! The members of a value that `serde_json` has read.

ghost use Rattle.std.specs.Prelude.{◌≡◌, ◌↔◌, Some, None, MatchResult, codes, length, IsTrue, option_map, string_bytes};
ghost use Rattle.serde_json.specs.Find.{get};
ghost use Rattle.serde_json.specs.View.{view};
ghost use Rattle.mac_token.specs.Json.{HasBytes, MayHaveBytes, HasText, MayHaveText, HasVersion, HasCaveats, IsCaveat, Json, JsonText};
ghost use Rattle.mac_token.specs.JsonReading.{json_text_of};
ghost use Rattle.mac_token.specs.JsonMembers.{text_member_of};
ghost use Rattle.mac_token.specs.RawToken.{bytes_of, text_of};
ghost use Rattle.mac_token.specs.Reads.{Answers, Fails, Reads};

use crate::base64_text;
use crate::fault::{TokenFault, TokenRefusal};
use crate::raw::{RawCaveat, RawToken};
use crate::signature::signature_of;
use serde_json::Value;
use std::alloc::Global;

/// The text of a member, `None` where there is no such member.
fn text_member<'v>(object: &'v Value, name: &str) -> Result<Option<&'v str>, TokenFault>
    ensures { let member = text_member_of (get name.now (view object.now)) in MatchResult result
        (λ text. member ≡ Some (option_map (λ t. t.now) text)) (λ fault. Fails fault member) }
{
    match object.get(name) {
        None => Ok(None),
        Some(value) => match value.as_str() {
            Some(text) => Ok(Some(text)),
            None => Err(TokenFault::Refused(TokenRefusal::Malformed)),
        },
    }
}

/// The bytes of the one member that is there of two: `plain` has them as text, `coded` as base64.
fn bytes_member(
    alloc: Global,
    object: &Value,
    plain: &str,
    coded: &str,
) -> Result<Vec<u8>, TokenFault>
    ensures { Reads (λ bytes. bytes.items)
        (HasBytes (get plain.now (view object.now)) (get coded.now (view object.now))) result }
{
    match (text_member(object, plain)?, text_member(object, coded)?) {
        (Some(text), None) => Ok(Vec::from_slice(alloc, text.as_bytes())?),
        (None, Some(letters)) => match base64_text::decode(alloc, letters.as_bytes())? {
            Some(bytes) => Ok(bytes),
            None => Err(TokenFault::Refused(TokenRefusal::Malformed)),
        },
        _ => Err(TokenFault::Refused(TokenRefusal::Malformed)),
    }
}

/// The bytes of one of two members, `None` where neither is there.
fn optional_bytes_member(
    alloc: Global,
    object: &Value,
    plain: &str,
    coded: &str,
) -> Result<Option<Vec<u8>>, TokenFault>
    ensures { Reads (λ bytes. bytes_of bytes)
        (MayHaveBytes (get plain.now (view object.now)) (get coded.now (view object.now))) result }
{
    match (object.get(plain), object.get(coded)) {
        (None, None) => Ok(None),
        _ => Ok(Some(bytes_member(alloc, object, plain, coded)?)),
    }
}

/// A token's location, which is empty where the member is absent.
fn location_member(alloc: Global, object: &Value) -> Result<String, TokenFault>
    ensures { Reads (λ text. string_bytes text)
        (HasText (get (codes "l") (view object.now))) result }
{
    let text = text_member(object, "l")?.unwrap_or("");
    Ok(String::from_str(alloc, text)?)
}

/// A caveat's location, `None` where the member is absent or empty.
fn caveat_location_member(alloc: Global, object: &Value) -> Result<Option<String>, TokenFault>
    ensures { Reads (λ text. text_of text)
        (MayHaveText (get (codes "l") (view object.now))) result }
{
    let text = text_member(object, "l")?.unwrap_or("");
    if text.is_empty() {
        return Ok(None);
    }
    Ok(Some(String::from_str(alloc, text)?))
}

/// The caveat that an object is.
fn caveat_of(alloc: Global, object: &Value) -> Result<RawCaveat, TokenFault>
    ensures { Reads (λ caveat. caveat) (IsCaveat (view object.now)) result }
{
    Ok(RawCaveat {
        id: bytes_member(alloc, object, "i", "i64")?,
        vid: optional_bytes_member(alloc, object, "v", "v64")?,
        location: caveat_location_member(alloc, object)?,
    })
}

/// The caveats, none where the member is absent.
fn caveats_member(alloc: Global, object: &Value) -> Result<Vec<RawCaveat>, TokenFault>
    ensures { Reads (λ caveats. caveats.items)
        (HasCaveats (get (codes "c") (view object.now))) result }
{
    let Some(value) = object.get("c") else {
        return Ok(Vec::new(alloc));
    };
    let Some(list) = value.as_array() else {
        return Err(TokenFault::Refused(TokenRefusal::Malformed));
    };
    let mut caveats = Vec::with_capacity(alloc, list.len())?;
    for item in list {
        caveats.push(caveat_of(alloc, item)?)?;
    }
    Ok(caveats)
}

/// The signature, 32 bytes.
fn signature_member(alloc: Global, object: &Value) -> Result<[u8; 32], TokenFault>
    ensures { Reads (λ sig. sig) (λ sig. HasBytes (get (codes "s") (view object.now))
        (get (codes "s64") (view object.now)) sig × (length sig ≡ 32)) result }
{
    let bytes = bytes_member(alloc, object, "s", "s64")?;
    match signature_of(bytes.as_slice()) {
        Some(sig) => Ok(sig),
        None => Err(TokenFault::Refused(TokenRefusal::Malformed)),
    }
}

/// Whether the version is the whole number 2 or left out.
fn has_version(object: &Value) -> bool
    ensures { IsTrue result ↔ HasVersion (get (codes "v") (view object.now)) }
{
    match object.get("v") {
        None => true,
        Some(version) => version.as_u64() == Some(2),
    }
}

/// The token that an object is.
fn token_of(alloc: Global, object: &Value) -> Result<RawToken, TokenFault>
    ensures { Reads (λ token. token) (Json (view object.now)) result }
{
    if !has_version(object) {
        return Err(TokenFault::Refused(TokenRefusal::Malformed));
    }
    Ok(RawToken {
        location: location_member(alloc, object)?,
        identifier: bytes_member(alloc, object, "i", "i64")?,
        caveats: caveats_member(alloc, object)?,
        sig: signature_member(alloc, object)?,
    })
}

fn read_text(alloc: Global, bytes: &[u8]) -> Result<RawToken, TokenFault>
    ensures { Reads (λ token. token) (JsonText bytes.now) result }
{
    match Value::from_slice(alloc, bytes) {
        Ok(value) => token_of(alloc, &value),
        Err(error) if error.is_memory() => Err(TokenFault::Memory),
        Err(_) => Err(TokenFault::Refused(TokenRefusal::Malformed)),
    }
}

/// The token that the bytes are in V2 JSON: one object, with white space as JSON has it, of nesting
/// at most 127. Of a name that stands twice the last value counts. Time is linear in the bytes.
pub(crate) fn read(alloc: Global, bytes: &[u8]) -> Result<RawToken, TokenFault>
    ensures exact { Answers (λ token. token) result (json_text_of bytes.now) }
    ensures read { Reads (λ token. token) (JsonText bytes.now) result }
{
    read_text(alloc, bytes)
}
