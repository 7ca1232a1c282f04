//! Why a call is refused.

ghost use Rattle.std.specs.Prelude.{◌≡◌};
ghost use Rattle.mac_calls.specs.Fault.{body_reason, fault_of_token, reason};
ghost use Rattle.mac_calls.specs.declared.fault.CallFault.TheVariants as fault;
ghost use Rattle.mac_calls.specs.declared.fault.CallRefusal.TheVariants as refusal;

use mac_decide::refusal_of;
use mac_token::TokenFault;
use mac_wire::Refusal;
use std::alloc::{AllocError, AllocFailed};

/// Why a body is none of its call.
#[derive(Clone, Copy, Debug, PartialEq, Eq)]
pub enum BodyFault {
    /// It is no JSON object.
    NoObject,
    /// It has a member that the call hasn't.
    UnknownMember,
    /// It has two identifiers, or one that is no text.
    Identifier,
    /// `identifier64` is no base64 text.
    Base64,
    /// The location is no text.
    Location,
    /// The caveats are no list of texts.
    Caveats,
    /// There is no caveat to add.
    NoCaveat,
    /// The form is none.
    Form,
    /// It has no token, or one that is no text.
    Token,
    /// The facts are no list of texts.
    Facts,
    /// The facts are more or longer than a request may have.
    ManyFacts,
    /// It has no moment, or one that is no whole number of seconds.
    Moment,
}

impl BodyFault {
    /// The reason in words.
    pub fn reason(self) -> &'static str
        ensures { result.now ≡ body_reason self }
    {
        match self {
            BodyFault::NoObject => "the body is no JSON object",
            BodyFault::UnknownMember => "the body has a member that the call does not have",
            BodyFault::Identifier => "there is to be one text, identifier or identifier64",
            BodyFault::Base64 => "identifier64 is no base64url text",
            BodyFault::Location => "the location is no text",
            BodyFault::Caveats => "the caveats are no list of texts",
            BodyFault::NoCaveat => "there is no caveat to add",
            BodyFault::Form => "the form is none of v1-text, v2-text and v2-json",
            BodyFault::Token => "there is no text that is the token",
            BodyFault::Facts => "the facts are no list of texts",
            BodyFault::ManyFacts => "the facts are more or longer than a request may have",
            BodyFault::Moment => "there is no number of seconds that is the moment",
        }
    }
}

/// Why a call is refused.
#[derive(Clone, Copy, PartialEq, Eq)]
pub enum CallRefusal {
    /// The body is none of the call.
    Body(BodyFault),
    /// The token is refused, or none is made.
    Token(Refusal),
}

/// The reason of a refusal in words.
pub(crate) fn reason(why: Refusal) -> &'static str
    ensures { result.now ≡ reason why }
{
    match why {
        Refusal::BadRequest => "the body makes no request",
        Refusal::FrameTooLong => "the request is too long",
        Refusal::UnknownKey => "no key has the name",
        Refusal::Transport => "the token is neither a bare form nor base64 text",
        Refusal::Malformed => "the bytes are in no form of a token",
        Refusal::ThirdParty => "a caveat of the token is third-party",
        Refusal::Limit => "the token passes a limit",
        Refusal::BadSignature => "the key does not give the signature of the token",
        Refusal::CaveatLocation => "a first-party caveat of the token has a location",
        Refusal::NotAllowed => "the address does not allow this request",
        Refusal::NoClock => "the clock tells no moment",
        Refusal::Revoked => "the token was taken back",
    }
}

/// Why a call has no reply: it is refused, or memory was.
#[derive(Clone, Copy)]
pub(crate) enum CallFault {
    /// The call is refused.
    Refused(CallRefusal),
    /// Memory was refused.
    Memory,
}

impl From<BodyFault> for CallFault {
    ghost from_gives = { λ why made. made ≡ fault.Refused (refusal.Body why) };

    fn from(why: BodyFault) -> CallFault {
        CallFault::Refused(CallRefusal::Body(why))
    }
}

impl From<Refusal> for CallFault {
    ghost from_gives = { λ why made. made ≡ fault.Refused (refusal.Token why) };

    fn from(why: Refusal) -> CallFault {
        CallFault::Refused(CallRefusal::Token(why))
    }
}

impl From<TokenFault> for CallFault {
    ghost from_gives = { λ why made. made ≡ fault_of_token why };

    fn from(why: TokenFault) -> CallFault {
        match why {
            TokenFault::Refused(why) => refusal_of(why).into(),
            TokenFault::Memory => CallFault::Memory,
        }
    }
}

impl From<AllocError> for CallFault {
    ghost from_gives = { λ _ made. made ≡ fault.Memory };

    fn from(_refused: AllocError) -> CallFault {
        CallFault::Memory
    }
}

impl<T: Drop> From<AllocFailed<T>> for CallFault {
    ghost from_gives = { λ _ made. made ≡ fault.Memory };

    fn from(_refused: AllocFailed<T>) -> CallFault {
        CallFault::Memory
    }
}
