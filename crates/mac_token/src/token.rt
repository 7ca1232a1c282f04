//! A token of first-party caveats, within the limits.

ghost use Rattle.std.specs.Prelude.{◌≡◌, ◌<◌, ◌≤◌, ◌↔◌, ◌++◌, ◌∷◌, [], length, IsTrue, IfErr, OkIff, OnOk, OnErr, slice_get, string_bytes, option_map};
ghost use Rattle.mac_token.specs.RawToken.{token_parts, byte_lists};
ghost use Rattle.mac_token.specs.Limits.{IsWithinLimits, PartsFit, AreShort, token_or_limit};
ghost use Rattle.mac_token.specs.Push.{Pushes, with_caveats};

use crate::fault::{NoMemory, TokenFault, TokenRefusal};
use crate::limits::{CAVEAT_MAX, CAVEATS_MAX, IDENTIFIER_MAX, LOCATION_MAX};
use std::alloc::Global;
use std::marker::Model;

/// A token: a location, an identifier, first-party caveats and a signature, each within its limit.
/// Contracts see it as a `TokenParts`.
#[derive(Drop)]
pub struct Token {
    location: String,
    identifier: Vec<u8>,
    caveats: Vec<Vec<u8>>,
    sig: [u8; 32],
}

impl Model for Token {
    ghost use Rattle.std.specs.Prelude.{string_bytes};
    ghost use Rattle.mac_token.specs.RawToken.{TokenParts, token_parts, byte_lists};
    ghost use Rattle.mac_token.specs.Limits.{IsWithinLimits};

    ghost Value = { TokenParts };

    ghost view = { λ t. token_parts (string_bytes t.location) t.identifier.items
        (byte_lists t.caveats.items) t.sig };

    ghost invariant = { λ t. IsWithinLimits (token_parts (string_bytes t.location)
        t.identifier.items (byte_lists t.caveats.items) t.sig) };
}

/// Whether no caveat passes its limit.
fn are_short(caveats: &[Vec<u8>]) -> bool
    ensures { IsTrue result ↔ AreShort (byte_lists caveats.now) }
{
    caveats.iter().all(|caveat| caveat.len() <= CAVEAT_MAX)
}

/// Whether these parts of a token are within its limits. Its signature has none.
pub fn is_within(location: &str, identifier: &[u8], caveats: &[Vec<u8>]) -> bool
    ensures { IsTrue result ↔ PartsFit location.now identifier.now (byte_lists caveats.now) }
{
    location.len() <= LOCATION_MAX
        && identifier.len() <= IDENTIFIER_MAX
        && caveats.len() <= CAVEATS_MAX
        && are_short(caveats)
}

/// Appends a copy, or nothing where memory is refused.
fn append_copy(list: &mut Vec<Vec<u8>>, alloc: Global, bytes: &[u8]) -> Result<(), NoMemory>
    ensures ok { OnOk result (byte_lists list.new.items
        ≡ byte_lists list.old.items ++ bytes.now ∷ []) }
    ensures err { OnErr result (byte_lists list.new.items ≡ byte_lists list.old.items) }
{
    let copy = Vec::from_slice(alloc, bytes)?;
    list.push(copy)?;
    Ok(())
}

/// Appends copies, or nothing where memory is refused.
fn append_copies(list: &mut Vec<Vec<u8>>, alloc: Global, added: &[Vec<u8>]) -> Result<(), NoMemory>
    ensures ok { OnOk result (byte_lists list.new.items
        ≡ byte_lists list.old.items ++ byte_lists added.now) }
    ensures err { OnErr result (byte_lists list.new.items ≡ byte_lists list.old.items) }
{
    let before = list.len();
    list.reserve_exact(added.len())?;
    for bytes in added {
        if let Err(refused) = append_copy(list, alloc, bytes) {
            list.truncate(before);
            return Err(refused);
        }
    }
    Ok(())
}

impl Token {
    /// The token of these parts; it takes no memory. `Limit` where a part passes its limit.
    pub fn new(
        location: String,
        identifier: Vec<u8>,
        caveats: Vec<Vec<u8>>,
        sig: [u8; 32],
    ) -> Result<Token, TokenRefusal>
        ensures made { let parts = token_parts (string_bytes location) identifier.items
            (byte_lists caveats.items) sig in OkIff result (IsWithinLimits parts) parts }
        ensures answer { result ≡ token_or_limit (token_parts (string_bytes location)
            identifier.items (byte_lists caveats.items) sig) }
    {
        if !is_within(&location, &identifier, &caveats) {
            return Err(TokenRefusal::Limit);
        }
        Ok(Token {
            location,
            identifier,
            caveats,
            sig,
        })
    }

    /// The token with copies of these caveats behind its own, and with this signature. `Limit`
    /// where a caveat or the new number of caveats passes its limit, tested before memory is taken;
    /// `Memory` where it is refused. Either hands the token back as it was.
    pub fn push(
        mut self,
        alloc: Global,
        caveats: &[Vec<u8>],
        sig: [u8; 32],
    ) -> Result<Token, (TokenFault, Token)>
        ensures { Pushes self (with_caveats self (byte_lists caveats.now) sig) result }
    {
        if caveats.len() > CAVEATS_MAX - self.caveats.len() || !are_short(caveats) {
            return Err((TokenFault::Refused(TokenRefusal::Limit), self));
        }
        match append_copies(&mut self.caveats, alloc, caveats) {
            Ok(()) => Ok(Token { sig, ..self }),
            Err(_) => Err((TokenFault::Memory, self)),
        }
    }

    /// The location, a hint that nothing signs.
    pub fn location(&self) -> &str
        ensures { result.now ≡ self.now.location }
    {
        self.location.as_str()
    }

    /// The identifier, which names the key to the one who made the token.
    pub fn identifier(&self) -> &[u8]
        ensures { result.now ≡ self.now.identifier }
    {
        &self.identifier
    }

    /// The number of caveats. Each token is within the limits.
    pub fn caveats(&self) -> usize
        ensures value { result ≡ length self.now.caveats }
        ensures within { IsWithinLimits self.now }
    {
        self.caveat_list().len()
    }

    /// The caveat at place `i`, counted from 0.
    pub fn caveat(&self, i: usize) -> Option<&[u8]>
        ensures { option_map (λ c. c.now) result ≡ slice_get self.now.caveats i }
    {
        let caveat = self.caveats.get(i)?;
        Some(caveat.as_slice())
    }

    /// The caveats, in order.
    pub fn caveat_list(&self) -> &[Vec<u8>]
        ensures value { byte_lists result.now ≡ self.now.caveats }
        ensures within { IsWithinLimits self.now }
    {
        &self.caveats
    }

    /// The signature.
    pub fn sig(&self) -> [u8; 32]
        ensures { result ≡ self.now.sig }
    {
        self.sig
    }
}
