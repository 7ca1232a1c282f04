//! Whether tokens were taken back, for who tells the reply to a verify.

ghost use Rattle.std.specs.Prelude.{◌≡◌, IfOk};
ghost use Rattle.mac_keys.specs.Filter.{hash_of};
ghost use Rattle.mac_token.specs.Read.{read_of};
ghost use Rattle.mac_wire.specs.Reading.{request_of};
ghost use Rattle.mac_wire.specs.Request.{asked};
ghost use Rattle.mac_decide.specs.Answer.{unless_revoked};
ghost use Rattle.mac_decide.specs.Revocation.{is_arrival_revoked, is_asked_revoked};
ghost use Rattle.mac_decide.specs.Revocation.{is_listed_read, is_revoked, tells_revoked};

use crate::remembering::tells_minted;
use crate::reply::refused;
use mac_keys::RevokedList;
use mac_token::{TokenFault, TokenView};
use mac_wire::{Arrival, Grant, NoMemory, Refusal, Reply, Request, parse_request};
use std::alloc::{AllocError, Global};

/// Whether a token was taken back: as it is known, or by the list that says so.
#[derive(Clone, Copy)]
pub enum Revocation<'a> {
    /// It is known.
    Known(bool),
    /// Where this list has the name and the identifier.
    In(&'a RevokedList),
}

/// What is told of a verify beside its verdict.
#[derive(Clone, Copy)]
pub struct Telling<'a> {
    /// What is told of a grant.
    pub grant: Grant,
    /// The name of the key.
    pub name: &'a [u8],
    /// Whether the token was taken back.
    pub revoked: Revocation<'a>,
}

impl<'a> Telling<'a> {
    /// Whether a token with this identifier was taken back.
    fn is_revoked(&self, identifier: &[u8]) -> bool
        ensures { result ≡ tells_revoked self.now.revoked self.now.name.now identifier.now }
    {
        match self.revoked {
            Revocation::Known(known) => known,
            Revocation::In(list) => list.has(self.name, identifier),
        }
    }

    /// The same, where the identifier's hash is known.
    fn is_hashed_revoked(&self, identifier: &[u8], hash: u64) -> bool
        requires { hash ≡ hash_of identifier.now }
        ensures { result ≡ tells_revoked self.now.revoked self.now.name.now identifier.now }
    {
        match self.revoked {
            Revocation::Known(known) => known,
            Revocation::In(list) => list.has_hashed(self.name, identifier, hash),
        }
    }

    /// The reply to a verify of a token with this identifier, which may have been taken back.
    pub(crate) fn keep(&self, reply: Reply, identifier: &[u8]) -> Reply
        ensures { result ≡ unless_revoked
            (tells_revoked self.now.revoked self.now.name.now identifier.now) reply }
    {
        if tells_minted(&reply) && self.is_revoked(identifier) {
            refused(Refusal::Revoked)
        } else {
            reply
        }
    }

    /// The same, where the identifier's hash is known.
    pub(crate) fn keep_hashed(&self, reply: Reply, identifier: &[u8], hash: u64) -> Reply
        requires { hash ≡ hash_of identifier.now }
        ensures { result ≡ unless_revoked
            (tells_revoked self.now.revoked self.now.name.now identifier.now) reply }
    {
        if tells_minted(&reply) && self.is_hashed_revoked(identifier, hash) {
            refused(Refusal::Revoked)
        } else {
            reply
        }
    }
}

/// Whether an arrival asks for a verify of a token that was taken back.
pub(crate) fn is_arrival_revoked(
    alloc: Global,
    list: &RevokedList,
    arrival: &Arrival,
) -> Result<bool, NoMemory>
    ensures { IfOk result (λ is. is ≡ is_arrival_revoked list.now arrival.now) }
{
    match arrival {
        Arrival::Payload(payload) => is_asked_revoked(alloc, list, payload.as_slice()),
        Arrival::Oversize => Ok(false),
    }
}

/// The same of what a payload asks.
fn is_asked_revoked(alloc: Global, list: &RevokedList, payload: &[u8]) -> Result<bool, NoMemory>
    ensures { IfOk result (λ is. is ≡ is_asked_revoked list.now (request_of payload.now)) }
{
    match parse_request(payload) {
        Some(request) => is_revoked(alloc, list, &request),
        None => Ok(false),
    }
}

/// The same of a request.
fn is_revoked(alloc: Global, list: &RevokedList, request: &Request<'_>) -> Result<bool, NoMemory>
    ensures { IfOk result (λ is. is ≡ is_revoked list.now (asked request.now)) }
{
    match request {
        Request::Verify { key, token, .. } => is_listed(alloc, list, key, token),
        Request::VerifyNow { key, token, .. } => is_listed(alloc, list, key, token),
        Request::Mint { .. } | Request::Attenuate { .. } => Ok(false),
    }
}

/// Whether the bytes spell a token of this name that was taken back. Where the name has no
/// identifier in the list, nothing is read.
fn is_listed(alloc: Global, list: &RevokedList, name: &[u8], token: &[u8]) -> Result<bool, NoMemory>
    ensures { IfOk result (λ is. is ≡ is_listed_read list.now name.now (read_of token.now)) }
{
    if list.is_without(name) {
        return Ok(false);
    }
    match TokenView::read(&mut Vec::new(alloc), alloc, token) {
        Ok(view) => Ok(list.has(name, view.identifier())),
        Err(TokenFault::Refused(_)) => Ok(false),
        Err(TokenFault::Memory) => Err(AllocError),
    }
}
