//! What is logged of a request.

ghost use Rattle.std.specs.Prelude.{◌≡◌, ◌||◌, IfOk, take};
ghost use Rattle.std.specs.Option.{option_copied, option_map};
ghost use Rattle.mac_host.specs.Exchange.{noted_identifier, told_id, told_name};
ghost use Rattle.mac_host.specs.declared.exchange.TheConstants.{IDENTIFIER_NOTED};
ghost use Rattle.mac_token.specs.Read.{read_of};

use mac_log::{is_told_id, is_told_name};
use mac_token::{TokenFault, TokenView};
use std::alloc::{AllocError, Global};

/// How many bytes of an identifier are noted: a line has room for fewer.
pub const IDENTIFIER_NOTED: usize = 1_024;

/// How many bytes of an identifier the line of a request tells.
pub const IDENTIFIER_TOLD: usize = 64;

/// What is logged besides what a daemon tells of itself.
#[derive(Clone, Copy, Debug, PartialEq, Eq)]
pub struct Logged {
    /// A line for each request.
    pub requests: bool,
    /// A line for each token that is minted.
    pub mints: bool,
    /// A line for each request, with the identifier of a token that was verified and whose
    /// signature is right.
    pub identifiers: bool,
}

impl Logged {
    /// Nothing.
    pub const NOTHING: Logged = Logged {
        requests: false,
        mints: false,
        identifiers: false,
    };

    /// Whether anything is.
    pub fn is_some(self) -> bool
        ensures { result ≡ (self.requests || (self.mints || self.identifiers)) }
    {
        self.requests || self.mints || self.identifiers
    }

    /// Whether each request has a line.
    pub fn tells_requests(self) -> bool
        ensures { result ≡ (self.requests || self.identifiers) }
    {
        self.requests || self.identifiers
    }
}

/// Why a request wasn't done, as its line tells it.
#[derive(Clone, Copy, Debug, PartialEq, Eq)]
pub enum LoggedReason {
    /// The number of a refusal.
    Code(u8),
    /// The index of the first caveat that isn't satisfied, from 0.
    Caveat(u16),
    /// The status of a response over HTTP, where there is neither of these.
    Status(u16),
}

/// A request, and what it was answered.
#[derive(Drop)]
pub struct Exchange {
    /// What it asks for, in a word.
    pub asks: &'static str,
    /// The name of the key that it names, empty where it names none.
    pub name: Vec<u8>,
    /// What it was answered, in a word.
    pub verdict: &'static str,
    /// Why it wasn't done, if it wasn't.
    pub reason: Option<LoggedReason>,
    /// The identifier of the token that it was answered with, where that was minted.
    pub minted: Option<Vec<u8>>,
    /// What who asks tells it apart by, where a line may tell that.
    pub id: Option<Vec<u8>>,
    /// The identifier of the token that it asked to verify, where that is logged and a key of its
    /// name gives the token's signature.
    pub identifier: Option<Vec<u8>>,
}

/// A copy of the name that a request says, where a line may tell it. Of anything else, as a token
/// that stands in its place, none is made: it takes no memory.
pub fn copy_told_name(alloc: Global, name: &[u8]) -> Result<Vec<u8>, AllocError>
    ensures { IfOk result (λ copy. copy.items ≡ told_name name.now) }
{
    if is_told_name(name) {
        Vec::from_slice(alloc, name)
    } else {
        Ok(Vec::new(alloc))
    }
}

/// A copy of the id that a request says, where a line may tell it. Of anything else, as a token
/// that stands in its place, none is made: it takes no memory.
pub fn copy_told_id(alloc: Global, id: Option<&[u8]>) -> Result<Option<Vec<u8>>, AllocError>
    ensures { IfOk result (λ copy.
        option_map (λ text. text.items) copy ≡ told_id (option_copied id.entry)) }
{
    match id {
        Some(id) if is_told_id(id) => Ok(Some(Vec::from_slice(alloc, id)?)),
        _ => Ok(None),
    }
}

/// A copy of what the identifier of a token begins with, if the bytes spell one. It takes the time
/// of reading the token.
pub fn copy_identifier_of(alloc: Global, token: &[u8]) -> Result<Option<Vec<u8>>, AllocError>
    ensures { IfOk result (λ copy.
        option_map (λ text. text.items) copy ≡ noted_identifier (read_of token.now)) }
{
    let mut room = Vec::new(alloc);
    match TokenView::read(&mut room, alloc, token) {
        Ok(view) => Ok(Some(copy_told_identifier(alloc, view.identifier())?)),
        Err(TokenFault::Refused(_)) => Ok(None),
        Err(TokenFault::Memory) => Err(AllocError),
    }
}

/// A copy of what an identifier begins with: more than a line has room for.
pub fn copy_told_identifier(alloc: Global, identifier: &[u8]) -> Result<Vec<u8>, AllocError>
    ensures { IfOk result (λ copy. copy.items ≡ take IDENTIFIER_NOTED identifier.now) }
{
    match identifier.get(..IDENTIFIER_NOTED) {
        Some(front) => Vec::from_slice(alloc, front),
        None => Vec::from_slice(alloc, identifier),
    }
}
