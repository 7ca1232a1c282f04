//! An object without white space, its members sorted by name.

ghost use Rattle.std.specs.Prelude.{◌≡◌, ◌∷◌, [], IfOk};
ghost use Rattle.std.specs.List.{flat_map};
ghost use Rattle.json.specs.Token.{key, string};
ghost use Rattle.json.specs.Tree.{json_tokens};
ghost use Rattle.serde_json.specs.Written.{outline};
ghost use Rattle.mac_token.specs.Json.{json_bytes, token_object};
ghost use Rattle.mac_token.specs.JsonMembers.{Puts, caveat_tokens, identifier_tokens, location_tokens};
ghost use Rattle.mac_token.specs.RawToken.{token_parts};
ghost use Rattle.mac_token.specs.Read.{parts_of};

use crate::base64_text;
use crate::fault::NoMemory;
use crate::raw_view::RawView;
use crate::view::Walk;
use json::Writer;
use std::alloc::Global;

/// Appends a member that is a text.
fn put_text(out: &mut Writer, name: &str, text: &str) -> Result<(), NoMemory>
    ensures { Puts result out.old out.new (key name.now ∷ string text.now ∷ []) }
{
    out.key(name)?;
    out.string(text)
}

/// Appends bytes as an identifier.
fn put_identifier(out: &mut Writer, alloc: Global, bytes: &[u8]) -> Result<(), NoMemory>
    ensures { Puts result out.old out.new (identifier_tokens bytes.now) }
{
    match str::from_utf8(bytes) {
        Ok(text) => put_text(out, "i", text),
        Err(_) => {
            let letters = base64_text::encode(alloc, bytes)?;
            put_text(out, "i64", letters.as_str())
        }
    }
}

/// Appends a location, unless it is empty.
fn put_location(out: &mut Writer, location: &str) -> Result<(), NoMemory>
    ensures { Puts result out.old out.new (location_tokens location.now) }
{
    if location.is_empty() {
        return Ok(());
    }
    put_text(out, "l", location)
}

/// Appends a caveat's object.
fn put_caveat(out: &mut Writer, alloc: Global, caveat: &[u8]) -> Result<(), NoMemory>
    ensures { Puts result out.old out.new (caveat_tokens caveat.now) }
{
    out.begin_object()?;
    put_identifier(out, alloc, caveat)?;
    out.end_object()
}

/// Appends the caveats' objects.
fn put_caveats(out: &mut Writer, alloc: Global, caveats: Walk<'_>) -> Result<(), NoMemory>
    ensures { Puts result out.old out.new (flat_map caveat_tokens caveats.entry) }
{
    for caveat in caveats {
        put_caveat(out, alloc, caveat)?;
    }
    Ok(())
}

/// Appends the object of a token with these parts.
fn put_token(
    out: &mut Writer,
    alloc: Global,
    location: &str,
    identifier: &[u8],
    caveats: Walk<'_>,
    sig: &[u8],
) -> Result<(), NoMemory>
    ensures { Puts result out.old out.new (json_tokens (outline (token_object
        (token_parts location.now identifier.now caveats.entry sig.now)))) }
{
    let signature = base64_text::encode(alloc, sig)?;
    out.begin_object()?;
    out.key("c")?;
    out.begin_array()?;
    put_caveats(out, alloc, caveats)?;
    out.end_array()?;
    put_identifier(out, alloc, identifier)?;
    put_location(out, location)?;
    put_text(out, "s64", signature.as_str())?;
    out.key("v")?;
    out.u64(2)?;
    out.end_object()?;
    Ok(())
}

/// What a raw token has in common with a token, in V2 JSON, from bytes that begin with this much
/// room. Time is linear in what is written.
pub(crate) fn write(alloc: Global, raw: &RawView<'_>, room: usize) -> Result<Vec<u8>, NoMemory>
    ensures { IfOk result (λ out. out.items ≡ json_bytes (parts_of raw.now)) }
{
    let caveats = raw.walk();
    let bytes = Vec::with_capacity(alloc, room)?;
    let mut out = Writer::new(bytes);
    put_token(
        &mut out,
        alloc,
        raw.location,
        raw.identifier,
        caveats,
        &raw.sig,
    )?;
    Ok(out.into_inner())
}
