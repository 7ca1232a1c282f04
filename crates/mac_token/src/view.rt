//! A token of first-party caveats, within the limits, read where it lies: nothing is copied.

ghost use Rattle.std.specs.Prelude.{◌≡◌, IfOk, Ok, length, map};
ghost use Rattle.std.specs.Iterator.{YieldsFirstRef, item_count};
ghost use Rattle.mac_token.specs.Answers.{Answers};
ghost use Rattle.mac_token.specs.Limits.{IsWithinLimits};
ghost use Rattle.mac_token.specs.RawToken.{byte_lists};
ghost use Rattle.mac_token.specs.Read.{bare_of, or_malformed, token_of_read};
ghost use Rattle.mac_token.specs.Spells.{BeginsWith};

use crate::fault::{NoMemory, TokenFault, TokenRefusal};
use crate::raw_view::RawView;
use crate::token::Token;
use crate::version::Version;
use std::alloc::Global;
use std::marker::Model;

/// A token that lies in its bytes, in V1 packets or V2 binary. Contracts see it as a `TokenParts`.
#[derive(Drop)]
pub struct TokenView<'a> {
    raw: RawView<'a>,
}

impl<'a> Model for TokenView<'a> {
    ghost use Rattle.mac_token.specs.RawToken.{TokenParts};
    ghost use Rattle.mac_token.specs.Read.{parts_of};
    ghost use Rattle.mac_token.specs.Limits.{IsWithinLimits};

    ghost Value = { TokenParts };

    ghost view = { λ v. parts_of v.raw };

    ghost invariant = { λ v. IsWithinLimits (parts_of v.raw) };
}

impl<'a> TokenView<'a> {
    /// The token that the bytes are, in V1 packets or V2 binary. The first refusal that applies is
    /// that of `read` past the transport. Time is linear in the bytes; no memory is taken.
    #[tactic(auto, unfolding(crate::specs::Read::token_of))]
    pub fn of(bytes: &'a [u8]) -> Result<TokenView<'a>, TokenRefusal>
        requires { ¬ BeginsWith 123 bytes.now }
        ensures { result ≡ token_of_read (or_malformed (bare_of bytes.now)) }
    {
        let Some(raw) = RawView::of(bytes) else {
            return Err(TokenRefusal::Malformed);
        };
        if raw.has_vid() {
            return Err(TokenRefusal::ThirdParty);
        }
        if raw.has_location() {
            return Err(TokenRefusal::CaveatLocation);
        }
        if !raw.is_within() {
            return Err(TokenRefusal::Limit);
        }
        Ok(TokenView { raw })
    }

    /// A copy of the token.
    pub fn copied(&self, alloc: Global) -> Result<Token, TokenFault>
        ensures { Answers (λ token. token) result (Ok self.now) }
    {
        let location = String::from_str(alloc, self.location())?;
        let identifier = Vec::from_slice(alloc, self.identifier())?;
        let caveats = self.caveat_copies(alloc)?;
        Ok(Token::new(location, identifier, caveats, self.sig())?)
    }

    fn caveat_copies(&self, alloc: Global) -> Result<Vec<Vec<u8>>, NoMemory>
        ensures value { IfOk result (λ list. byte_lists list.items ≡ self.now.caveats) }
        ensures within { IsWithinLimits self.now }
    {
        let mut list = Vec::with_capacity(alloc, self.caveats())?;
        for caveat in self.walk() {
            list.push(Vec::from_slice(alloc, caveat)?)?;
        }
        Ok(list)
    }

    /// The location, a hint that nothing signs.
    pub fn location(&self) -> &'a str
        ensures { result.now ≡ self.now.location }
    {
        self.raw.location
    }

    /// The identifier, which names the key to the one who made the token.
    pub fn identifier(&self) -> &'a [u8]
        ensures { result.now ≡ self.now.identifier }
    {
        self.raw.identifier
    }

    /// The number of caveats. Each token is within the limits.
    pub fn caveats(&self) -> usize
        ensures value { result ≡ length self.now.caveats }
        ensures within { IsWithinLimits self.now }
    {
        self.raw.count()
    }

    /// The caveats, in order.
    pub fn walk(&self) -> Walk<'a>
        ensures { result ≡ self.now.caveats }
    {
        self.raw.walk()
    }

    /// The signature.
    pub fn sig(&self) -> [u8; 32]
        ensures { result ≡ self.now.sig }
    {
        self.raw.sig
    }
}

/// Caveats, one after the other. Contracts see the list of those that are left.
#[derive(Drop)]
pub struct Walk<'a> {
    pub(crate) version: Version,
    pub(crate) rest: &'a [u8],
}

impl<'a> Model for Walk<'a> {
    ghost use Rattle.std.specs.Prelude.{ℕ, List, IsSome};
    ghost use Rattle.base64.specs.GeneralPurpose.{IsBytes};
    ghost use Rattle.mac_token.specs.CaveatsIn.{caveats_in, ids_in};

    ghost Value = { List (List ℕ) };

    ghost view = { λ w. ids_in w.version w.rest.now };

    ghost invariant = { λ w. IsSome (caveats_in w.version w.rest.now) × IsBytes w.rest.now };
}

impl<'a> Iterator for Walk<'a> {
    type Item = &'a [u8];

    ghost next_gives = { YieldsFirstRef (λ left. left) };

    ghost remaining = { item_count (λ left. left) };

    fn next(&mut self) -> Option<&'a [u8]> {
        let (section, rest) = self.version.section(self.rest)?;
        self.rest = rest;
        Some(section.identifier)
    }
}
