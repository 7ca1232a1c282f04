//! A token as its bytes spell it, read where it lies.

ghost use Rattle.std.specs.Prelude.{◌≡◌, ◌↔◌, IsTrue, IsSome, Some, length, map, is_some};
ghost use Rattle.std.specs.List.{list_any};
ghost use Rattle.mac_token.specs.CaveatsIn.{caveats_in, spelled_in};
ghost use Rattle.mac_token.specs.Limits.{AreShort, IsWithinLimits};
ghost use Rattle.mac_token.specs.Read.{bare_of, parts_of};
ghost use Rattle.mac_token.specs.Reads.{Answers};
ghost use Rattle.mac_token.specs.Spells.{BeginsWith};

use crate::fault::TokenFault;
use crate::limits::{CAVEATS_MAX, IDENTIFIER_MAX, LOCATION_MAX};
use crate::raw::{RawCaveat, RawToken};
use crate::tally::Tally;
use crate::version::Version;
use crate::view::Walk;
use crate::{v1, v2};
use std::alloc::Global;
use std::marker::Model;

/// A token that was found in bytes, none of them copied. Contracts see it as a `RawParts`.
#[derive(Drop)]
pub(crate) struct RawView<'a> {
    pub(crate) version: Version,
    pub(crate) location: &'a str,
    pub(crate) identifier: &'a [u8],
    /// The bytes from the first caveat on.
    pub(crate) caveats: &'a [u8],
    pub(crate) tally: Tally,
    pub(crate) sig: [u8; 32],
}

impl<'a> Model for RawView<'a> {
    ghost use Rattle.std.specs.Prelude.{◌≡◌, IsSome};
    ghost use Rattle.base64.specs.GeneralPurpose.{IsBytes};
    ghost use Rattle.mac_token.specs.CaveatsIn.{caveats_in, spelled_in, tally_of};
    ghost use Rattle.mac_token.specs.RawToken.{RawParts};

    ghost Value = { RawParts };

    ghost view = { λ v. record {
      location = v.location.now;
      identifier = v.identifier.now;
      caveats = spelled_in v.version v.caveats.now;
      sig = v.sig;
    } };

    ghost invariant = { λ v. IsSome (caveats_in v.version v.caveats.now) × IsBytes v.caveats.now
        × (v.tally ≡ tally_of (spelled_in v.version v.caveats.now)) };
}

/// Copies of the caveats at the front.
fn copies(version: Version, bytes: &[u8], alloc: Global) -> Result<Vec<RawCaveat>, TokenFault>
    requires { IsSome (caveats_in version bytes.now) }
    ensures { Answers (λ list. list.items) result (Some (spelled_in version bytes.now)) }
{
    let mut caveats = Vec::new(alloc);
    let mut rest = bytes;
    while let Some((section, after)) = version.section(rest) {
        caveats.push(section.caveat(alloc)?)?;
        rest = after;
    }
    Ok(caveats)
}

impl<'a> RawView<'a> {
    /// What the bytes spell as V1 packets or V2 binary, whichever their first byte calls for. No
    /// memory is taken.
    #[tactic(auto, unfolding(crate::specs::Read::bare_of))]
    pub(crate) fn of(bytes: &'a [u8]) -> Option<RawView<'a>>
        requires { ¬ BeginsWith 123 bytes.now }
        ensures { result ≡ bare_of bytes.now }
    {
        match bytes {
            [b'0', ..] => v1::view(bytes),
            [2, ..] => v2::view(bytes),
            _ => None,
        }
    }

    /// A copy of what was found.
    pub(crate) fn copied(&self, alloc: Global) -> Result<RawToken, TokenFault>
        ensures { Answers (λ raw. raw) result (Some self.now) }
    {
        let location = String::from_str(alloc, self.location)?;
        let identifier = Vec::from_slice(alloc, self.identifier)?;
        let caveats = copies(self.version, self.caveats, alloc)?;
        Ok(RawToken {
            location,
            identifier,
            caveats,
            sig: self.sig,
        })
    }

    /// Whether a caveat has a verifier's id.
    pub(crate) fn has_vid(&self) -> bool
        ensures { result ≡ list_any (λ c. is_some c.vid) self.now.caveats }
    {
        self.tally.has_vid
    }

    /// Whether a caveat has a location.
    pub(crate) fn has_location(&self) -> bool
        ensures { result ≡ list_any (λ c. is_some c.location) self.now.caveats }
    {
        self.tally.has_location
    }

    /// Whether each caveat is within its limit.
    fn has_short_caveats(&self) -> bool
        ensures { IsTrue result ↔ AreShort (map (λ c. c.id) self.now.caveats) }
    {
        self.tally.are_short
    }

    /// Whether no part passes its limit.
    pub(crate) fn is_within(&self) -> bool
        ensures { IsTrue result ↔ IsWithinLimits (parts_of self.now) }
    {
        self.location.len() <= LOCATION_MAX
            && self.identifier.len() <= IDENTIFIER_MAX
            && self.count() <= CAVEATS_MAX
            && self.has_short_caveats()
    }

    /// The caveats' own bytes, in order.
    pub(crate) fn walk(&self) -> Walk<'a>
        ensures { result ≡ map (λ c. c.id) self.now.caveats }
    {
        Walk {
            version: self.version,
            rest: self.caveats,
        }
    }

    /// The number of caveats.
    pub(crate) fn count(&self) -> usize
        ensures { result ≡ length self.now.caveats }
    {
        self.tally.count
    }
}
