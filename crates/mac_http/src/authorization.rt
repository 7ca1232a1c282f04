//! The token that a request brings.

ghost use Rattle.std.specs.Prelude.{◌≡◌, ◌<◌, ◌≤◌, length, position, IfSome};
ghost use Rattle.std.specs.Option.{option_map};
ghost use Rattle.http_header.specs.FieldValue.{plain_value};
ghost use Rattle.mac_http.specs.Authorization.{behind_scheme, blanks, challenge, credentials_in, credentials_of, is_no_blank, without_blanks};

use http::HeaderMap;
use http::header::{AUTHORIZATION, HeaderValue};

/// The schemes that `Authorization` may name, in lower case, with the blank behind them.
const MACAROON: &[u8] = b"macaroon ";

const BEARER: &[u8] = b"bearer ";

/// The scheme of a field `Authorization` (RFC 9110, section 11.4).
#[derive(Clone, Copy, Debug, PartialEq, Eq)]
pub enum Scheme {
    /// `Macaroon`.
    Macaroon,
    /// `Bearer` (RFC 6750, section 2.1).
    Bearer,
}

impl Scheme {
    /// The field `WWW-Authenticate` that asks for another token (RFC 6750, section 3.1).
    pub(crate) fn challenge(self) -> HeaderValue
        ensures { result ≡ plain_value (challenge self) }
    {
        match self {
            Scheme::Macaroon => HeaderValue::from_static("Macaroon error=\"invalid_token\""),
            Scheme::Bearer => HeaderValue::from_static("Bearer error=\"invalid_token\""),
        }
    }
}

/// A token, and the scheme by which it came.
#[derive(Clone, Copy)]
pub(crate) struct Credentials<'a> {
    pub(crate) scheme: Scheme,
    pub(crate) token: &'a [u8],
}

/// The token that a request brings: what stands behind the scheme of its one `Authorization` field.
pub(crate) fn credentials_in(headers: &HeaderMap<HeaderValue>) -> Option<Credentials<'_>>
    ensures { option_map (λ c. (c.scheme, c.token.now)) result ≡ credentials_in headers.now }
{
    let mut values = headers.get_all(AUTHORIZATION).iter();
    let value = values.next()?;
    if values.next().is_some() {
        return None;
    }
    credentials_of(value.as_bytes())
}

/// What stands behind one of the two schemes.
fn credentials_of(value: &[u8]) -> Option<Credentials<'_>>
    ensures { option_map (λ c. (c.scheme, c.token.now)) result ≡ credentials_of value.now }
{
    if let Some(token) = behind_scheme(value, MACAROON) {
        return Some(Credentials {
            scheme: Scheme::Macaroon,
            token,
        });
    }
    let token = behind_scheme(value, BEARER)?;
    Some(Credentials {
        scheme: Scheme::Bearer,
        token,
    })
}

/// What stands behind a scheme in any case, and behind all blanks.
fn behind_scheme<'a>(value: &'a [u8], scheme: &[u8]) -> Option<&'a [u8]>
    ensures { option_map (λ x. x.now) result ≡ behind_scheme scheme.now value.now }
{
    if value.len() < scheme.len() {
        return None;
    }
    let (front, rest) = value.split_at(scheme.len());
    if front.eq_ignore_ascii_case(scheme) {
        Some(without_blanks(rest))
    } else {
        None
    }
}

/// The text without the blanks that it begins with.
fn without_blanks(text: &[u8]) -> &[u8]
    ensures { result.now ≡ without_blanks text.now }
{
    &text[blanks(text)..]
}

/// How many blanks a text begins with.
fn blanks(text: &[u8]) -> usize
    ensures value { result ≡ blanks text.now }
    ensures within { result ≤ length text.now }
{
    match first_other(text) {
        Some(end) => end,
        None => text.len(),
    }
}

fn first_other(text: &[u8]) -> Option<usize>
    ensures place { result ≡ position is_no_blank text.now }
    ensures within { IfSome result (λ end. end < length text.now) }
{
    text.iter().position(|byte| *byte != b' ')
}
