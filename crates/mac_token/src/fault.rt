//! Why a token is refused.

ghost use Rattle.std.specs.Prelude.{◌≡◌};
ghost use Rattle.mac_token.specs.Fault.{refusal_code, fault_code};
ghost use Rattle.mac_token.specs.declared.fault.TokenFault.TheVariants.{Refused, Memory};

use std::alloc::{AllocError, AllocFailed};
use thiserror::Error;

/// Out of memory.
pub type NoMemory = AllocError;

/// Why bytes are no token that is taken, or a token isn't made or written.
#[derive(Clone, Copy, Debug, PartialEq, Eq, Error)]
pub enum TokenRefusal {
    /// The input is empty, or begins as no bare form and is no base64 text.
    #[error("the token is neither a bare form nor base64 text")]
    Transport,
    /// The bytes spell no token.
    #[error("the bytes are in no form of a token")]
    Malformed,
    /// A caveat has a verifier's id.
    #[error("a caveat of the token is third-party")]
    ThirdParty,
    /// A part of the token, or the token as read or written, passes its limit.
    #[error("the token passes a limit")]
    Limit,
    /// A caveat without a verifier's id has a location.
    #[error("a first-party caveat of the token has a location")]
    CaveatLocation,
}

impl TokenRefusal {
    /// The refusal's number on the wire.
    pub fn code(&self) -> u8
        ensures { result ≡ refusal_code self.now }
    {
        match self {
            TokenRefusal::Transport => 19,
            TokenRefusal::Malformed => 20,
            TokenRefusal::ThirdParty => 21,
            TokenRefusal::Limit => 22,
            TokenRefusal::CaveatLocation => 26,
        }
    }
}

/// Why a token could not be read, made or written: it is refused, or memory was.
#[derive(Clone, Copy, Debug, PartialEq, Eq, Error)]
pub enum TokenFault {
    /// The token is refused.
    #[error("{0}")]
    Refused(TokenRefusal),
    /// Memory was refused.
    #[error("there is not enough memory for the token")]
    Memory,
}

impl TokenFault {
    /// The fault's number on the wire; out of memory has none.
    pub fn code(&self) -> Option<u8>
        ensures { result ≡ fault_code self.now }
    {
        match self {
            TokenFault::Refused(refusal) => Some(refusal.code()),
            TokenFault::Memory => None,
        }
    }
}

impl From<TokenRefusal> for TokenFault {
    ghost from_gives = { λ refusal fault. fault ≡ Refused refusal };

    fn from(refusal: TokenRefusal) -> TokenFault {
        TokenFault::Refused(refusal)
    }
}

impl From<AllocError> for TokenFault {
    ghost from_gives = { λ _ fault. fault ≡ Memory };

    fn from(_refused: AllocError) -> TokenFault {
        TokenFault::Memory
    }
}

impl<T: Drop> From<AllocFailed<T>> for TokenFault {
    ghost from_gives = { λ _ fault. fault ≡ Memory };

    fn from(_refused: AllocFailed<T>) -> TokenFault {
        TokenFault::Memory
    }
}
