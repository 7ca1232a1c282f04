//! Tokens read where they lie, in whatever form they come. What JSON's strings stand for doesn't
//! lie in its text, so that a token in JSON is written as V2 binary first.

ghost use Rattle.std.specs.Prelude.{◌≡◌, is_some};
ghost use Rattle.std.specs.List.{list_any};
ghost use Rattle.mac_token.specs.Answers.{Answers};
ghost use Rattle.mac_token.specs.Read.{IsInBound, bare_of, or_malformed, read_of, token_of, token_of_read};

use crate::fault::{TokenFault, TokenRefusal};
use crate::raw::RawToken;
use crate::reading::{carries_itself, spelled};
use crate::v2;
use crate::view::TokenView;
use std::alloc::Global;

impl<'a> TokenView<'a> {
    /// The token that the input spells, read where it lies: in the input itself, else in the room.
    /// There lies what base64 text stands for, and a token in JSON as V2 binary. The first refusal
    /// that applies is that of `read`. What the room held is dropped. Only JSON takes memory beside
    /// the room's.
    pub fn read(
        room: &'a mut Vec<u8>,
        alloc: Global,
        input: &'a [u8],
    ) -> Result<TokenView<'a>, TokenFault>
        ensures answer { Answers (λ token. token) result (read_of input.now) }
        ensures memory { result ≡ Err TokenFault.Memory → IsInBound input.now }
    {
        if carries_itself(room, input)? {
            view_bare(room, alloc, input)
        } else {
            view_held(room, alloc)
        }
    }
}

/// The token that the bytes of a bare form spell.
pub(crate) fn view_bare<'a>(
    room: &'a mut Vec<u8>,
    alloc: Global,
    bytes: &'a [u8],
) -> Result<TokenView<'a>, TokenFault>
    ensures { Answers (λ token. token) result (token_of_read (or_malformed (bare_of bytes.now))) }
{
    if let [b'{', ..] = bytes {
        let raw = spelled(alloc, bytes)?;
        room.reserve(bytes.len())?;
        return view_raw(room, raw);
    }
    Ok(TokenView::of(bytes)?)
}

/// The same, where they lie in the room.
fn view_held<'a>(room: &'a mut Vec<u8>, alloc: Global) -> Result<TokenView<'a>, TokenFault>
    ensures { Answers (λ token. token) result
        (token_of_read (or_malformed (bare_of room.old.items))) }
{
    if let [b'{', ..] = room.as_slice() {
        let raw = spelled(alloc, room.as_slice())?;
        return view_raw(room, raw);
    }
    Ok(TokenView::of(room.as_slice())?)
}

/// The token that the raw one is, written as V2 binary in the place of what the room held; or the
/// first refusal that keeps it from being one.
#[tactic(auto, unfolding(crate::specs::Read::token_of))]
fn view_raw<'a>(room: &'a mut Vec<u8>, raw: RawToken) -> Result<TokenView<'a>, TokenFault>
    ensures { Answers (λ token. token) result (token_of raw) }
{
    if has_vid(&raw) {
        return Err(TokenFault::Refused(TokenRefusal::ThirdParty));
    }
    if has_location(&raw) {
        return Err(TokenFault::Refused(TokenRefusal::CaveatLocation));
    }
    let RawToken {
        location,
        identifier,
        caveats,
        sig,
    } = raw;
    room.clear();
    v2::put_parts(room, location.as_str(), &identifier, &caveats, sig)?;
    Ok(TokenView::of(room.as_slice())?)
}

fn has_vid(raw: &RawToken) -> bool
    ensures { result ≡ list_any (λ c. is_some c.vid) raw.now.caveats }
{
    raw.caveats.iter().any(|caveat| caveat.vid.is_some())
}

fn has_location(raw: &RawToken) -> bool
    ensures { result ≡ list_any (λ c. is_some c.location) raw.now.caveats }
{
    raw.caveats.iter().any(|caveat| caveat.location.is_some())
}
