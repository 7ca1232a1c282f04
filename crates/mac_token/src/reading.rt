//! Tokens read, in whatever form their first byte calls for.
//!
//! ```text
//! input = bare | base64 text of bare
//! bare  = V1 packets, which begin with `0`
//!       | V2 binary, which begins with the byte 2
//!       | V2 JSON, which begins with `{`
//! ```
//!
//! An input whose first byte calls for a bare form is never base64 text, and what base64 text
//! stands for is not decoded again.

ghost use Rattle.std.specs.Prelude.{◌≡◌, ◌≢◌, [], Ok, false, IfOk, OnErr};
ghost use Rattle.mac_token.specs.Answers.{Answers, Ends};
ghost use Rattle.mac_token.specs.Base64Reading.{base64_bytes};
ghost use Rattle.mac_token.specs.Read.{Carried, IsInBound, Read, ReadRaw, begins_bare, calls_for_bare, bare_of, or_malformed, or_transport, carried_in, carried_of, raw_read_of, token_of_read, read_of};
ghost use Rattle.mac_token.specs.Reads as reads;
ghost use Rattle.mac_token.specs.Room.{Holds};
ghost use Rattle.std.specs.Borrow.{sem};

use crate::fault::{TokenFault, TokenRefusal};
use crate::limits::TOKEN_MAX;
use crate::raw::RawToken;
use crate::raw_view::RawView;
use crate::token::Token;
use crate::view::TokenView;
use crate::viewing::view_bare;
use crate::{base64_text, v2_json};
use std::alloc::Global;

/// Whether an input with this first byte is to be a bare form.
fn calls_for_bare(first: u8) -> bool
    ensures { result ≡ calls_for_bare first }
{
    first == b'0' || first == 2 || first == b'{'
}

/// The bytes that are to be a bare form: the input itself where its first byte calls for one, else
/// what it stands for as base64 text, which is kept in the room. `Limit` where the input is longer
/// than a token may be; `Transport` where it carries nothing, or `Memory` in its place. What the
/// room held is dropped.
pub fn bare<'a>(room: &'a mut Vec<u8>, input: &'a [u8]) -> Result<&'a [u8], TokenFault>
    ensures answer { Answers (λ bytes. bytes.now) result (carried_of input.now) }
    ensures meaning { Ends (λ bytes. bytes.now) result (Carried input.now) }
    ensures memory { result ≡ Err TokenFault.Memory → IsInBound input.now }
    ensures* kept { sem 𝓛 (Holds room.entry input.now result) }
{
    if carries_itself(room, input)? {
        Ok(input)
    } else {
        Ok(room.as_slice())
    }
}

/// Whether the input is itself what it carries. Else that is in the room.
#[tactic(auto, unfolding(crate::specs::Read::bare_bytes, crate::specs::Read::carried_of))]
pub(crate) fn carries_itself(room: &mut Vec<u8>, input: &[u8]) -> Result<bool, TokenFault>
    ensures answer { Answers (carried_in input.now room.new.items) result (carried_of input.now) }
    ensures memory { result ≡ Err TokenFault.Memory → IsInBound input.now }
    ensures kept { IfOk result (λ itself. itself ≡ begins_bare input.now) }
    ensures empty { result ≢ Ok false → room.new.items ≡ [] }
{
    room.clear();
    if input.len() > TOKEN_MAX {
        return Err(TokenFault::Refused(TokenRefusal::Limit));
    }
    match input {
        [] => Err(TokenFault::Refused(TokenRefusal::Transport)),
        [first, ..] if calls_for_bare(*first) => Ok(true),
        _ => {
            decode_into(room, input)?;
            Ok(false)
        }
    }
}

/// Puts what base64 text stands for into an empty room; `Transport` where the text is none.
fn decode_into(room: &mut Vec<u8>, text: &[u8]) -> Result<(), TokenFault>
    requires { room.old.items ≡ [] }
    ensures answer { Answers (λ _. room.new.items) result (or_transport (base64_bytes text.now)) }
    ensures kept { OnErr result (room.new.items ≡ []) }
{
    if base64_text::decode_into(room, text)? {
        Ok(())
    } else {
        Err(TokenFault::Refused(TokenRefusal::Transport))
    }
}

/// What a bare form spells.
#[tactic(auto, unfolding(crate::specs::Read::bare_of))]
pub(crate) fn spelled(alloc: Global, bytes: &[u8]) -> Result<RawToken, TokenFault>
    ensures { reads.Answers (λ raw. raw) result (bare_of bytes.now) }
{
    if let [b'{', ..] = bytes {
        return v2_json::read(alloc, bytes);
    }
    match RawView::of(bytes) {
        Some(view) => view.copied(alloc),
        None => Err(TokenFault::Refused(TokenRefusal::Malformed)),
    }
}

/// What the bytes spell, a token or not. Time and memory are linear in the bytes. The first refusal
/// that applies: those of `bare`; `Malformed` where the bytes spell nothing, or `Memory` in its
/// place.
pub fn read_raw(alloc: Global, bytes: &[u8]) -> Result<RawToken, TokenFault>
    ensures answer { Answers (λ raw. raw) result (raw_read_of bytes.now) }
    ensures meaning { Ends (λ raw. raw) result (ReadRaw bytes.now) }
    ensures memory { result ≡ Err TokenFault.Memory → IsInBound bytes.now }
{
    let mut room = Vec::new(alloc);
    let bare = bare(&mut room, bytes)?;
    Ok(spelled(alloc, bare)?)
}

/// The token that the bytes of a bare form spell, those that `bare` answers; read without what it
/// has done. The first refusal that applies is that of `read` past the transport.
pub fn read_bare(alloc: Global, bytes: &[u8]) -> Result<Token, TokenFault>
    ensures { Answers (λ token. token) result (token_of_read (or_malformed (bare_of bytes.now))) }
{
    let mut room = Vec::new(alloc);
    view_bare(&mut room, alloc, bytes)?.copied(alloc)
}

/// The token that the bytes spell, within the limits. Time and memory are linear in the bytes. The
/// first refusal that applies: those of `read_raw`; `ThirdParty` where a caveat has a verifier's
/// id; `CaveatLocation` where one has a location; `Limit` where a part passes its limit.
pub fn read(alloc: Global, bytes: &[u8]) -> Result<Token, TokenFault>
    ensures answer { Answers (λ token. token) result (read_of bytes.now) }
    ensures meaning { Ends (λ token. token) result (Read bytes.now) }
    ensures memory { result ≡ Err TokenFault.Memory → IsInBound bytes.now }
{
    let mut room = Vec::new(alloc);
    TokenView::read(&mut room, alloc, bytes)?.copied(alloc)
}
