//! Refusals in words.

ghost use Rattle.std.specs.Prelude.{◌≡◌};
ghost use Rattle.mac_words.specs.ReplyText.{reason};

use mac_wire::Refusal;

/// Why a request is refused, in words.
pub fn reason(refusal: Refusal) -> &'static str
    ensures { result.now ≡ reason refusal }
{
    match refusal {
        Refusal::BadRequest => "the words make no request",
        Refusal::FrameTooLong => "the request is too long",
        Refusal::UnknownKey => "the key file has no key of this name",
        Refusal::Transport => "the token is neither a bare form nor base64 text",
        Refusal::Malformed => "the bytes are in no form of a token",
        Refusal::ThirdParty => "a caveat of the token is third-party",
        Refusal::Limit => "a limit is passed",
        Refusal::BadSignature => "the key does not give the signature of the token",
        Refusal::CaveatLocation => "a first-party caveat of the token has a location",
        Refusal::NotAllowed => "the socket does not allow this request",
        Refusal::NoClock => "the clock tells no moment",
        Refusal::Revoked => "the token was taken back",
    }
}
