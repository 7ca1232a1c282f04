//! Requests that a page in a browser may have had sent.
//!
//! A page elsewhere has a browser send what it likes to a port of this machine. It can't take away
//! the field `Origin`, nor send JSON as such unasked, and a name that was pointed at this machine
//! stands in `Host`.

ghost use Rattle.std.specs.Prelude.{◌≡◌, ◌<◌, ◌≤◌, length, position, IfSome};
ghost use Rattle.std.specs.Option.{option_map};
ghost use Rattle.http.specs.Request.{head_of};
ghost use Rattle.mac_http.specs.Authorization.{only};
ghost use Rattle.mac_http.specs.Browsing.{ends_type, host_length, is_colon, is_dotted, is_home};
ghost use Rattle.mac_http.specs.Browsing.{are_dotted};
ghost use Rattle.mac_http.specs.Browsing.{is_json_type, is_named_home, is_of_json, is_of_page};
ghost use Rattle.mac_http.specs.Browsing.{names_home, refusal_of};

use crate::rules::Way;
use bytes::Bytes;
use http::header::{CONTENT_TYPE, GetAll, HOST, HeaderValue, ORIGIN};
use http::{HeaderMap, Request, StatusCode};

/// The name of this machine for itself (RFC 6761, section 6.3).
const LOCALHOST: &[u8] = b"localhost";

/// The media type of JSON.
const JSON: &[u8] = b"application/json";

/// The status that refuses a call before anything else of it is looked at, if it is refused.
pub(crate) fn refusal_of(way: Way, request: &Request<Bytes>) -> Option<StatusCode>
    ensures { result ≡ refusal_of way (head_of request.now) }
{
    match way {
        Way::Socket => None,
        Way::Port if is_of_page(request.headers()) => Some(StatusCode::FORBIDDEN),
        Way::Port if is_of_json(request.headers()) => None,
        Way::Port => Some(StatusCode::UNSUPPORTED_MEDIA_TYPE),
    }
}

/// Whether a page may have had it sent: it says so, or names no address of a machine.
fn is_of_page(headers: &HeaderMap<HeaderValue>) -> bool
    ensures { result ≡ is_of_page headers.now }
{
    headers.get_all(ORIGIN).iter().next().is_some()
        || !is_named_home(only_value(&headers.get_all(HOST)))
}

/// Whether it says that it brings JSON.
fn is_of_json(headers: &HeaderMap<HeaderValue>) -> bool
    ensures { result ≡ is_of_json headers.now }
{
    match only_value(&headers.get_all(CONTENT_TYPE)) {
        Some(value) => is_json_type(value),
        None => false,
    }
}

/// The one value of a field.
pub(crate) fn only_value<'a>(values: &GetAll<'a, HeaderValue>) -> Option<&'a [u8]>
    ensures { option_map (λ v. v.now) result ≡ option_map (λ v. v.bytes) (only values.now) }
{
    let mut left = values.iter();
    let value = left.next()?;
    if left.next().is_some() {
        return None;
    }
    Some(value.as_bytes())
}

/// Whether the value is JSON's media type, perhaps with parameters.
fn is_json_type(value: &[u8]) -> bool
    ensures { result ≡ is_json_type value.now }
{
    if value.len() < JSON.len() {
        return false;
    }
    let (front, rest) = value.split_at(JSON.len());
    front.eq_ignore_ascii_case(JSON) && ends_type(rest)
}

/// Whether a media type ends before the text.
fn ends_type(text: &[u8]) -> bool
    ensures { result ≡ ends_type text.now }
{
    match text {
        [] => true,
        [first, ..] => *first == b';' || *first == b' ',
    }
}

/// Whether there is a host, and it is no name that can be pointed at this machine.
fn is_named_home(host: Option<&[u8]>) -> bool
    ensures { result ≡ is_named_home (option_map (λ h. h.now) host.entry) }
{
    match host {
        Some(host) => names_home(host),
        None => false,
    }
}

/// Whether a host, with a port or without, is an IP address or `localhost`.
fn names_home(host: &[u8]) -> bool
    ensures { result ≡ names_home host.now }
{
    host.starts_with(b"[") || is_home(&host[..host_length(host)])
}

/// How many bytes stand before the first colon.
fn host_length(host: &[u8]) -> usize
    ensures value { result ≡ host_length host.now }
    ensures within { result ≤ length host.now }
{
    match first_colon(host) {
        Some(end) => end,
        None => host.len(),
    }
}

fn first_colon(text: &[u8]) -> Option<usize>
    ensures place { result ≡ position is_colon text.now }
    ensures within { IfSome result (λ end. end < length text.now) }
{
    text.iter().position(|byte| *byte == b':')
}

/// Whether a host without a port is `localhost`, or an IPv4 address: of digits and dots alone.
fn is_home(name: &[u8]) -> bool
    ensures { result ≡ is_home name.now }
{
    name.eq_ignore_ascii_case(LOCALHOST) || !name.is_empty() && are_dotted(name)
}

/// Whether there are digits and dots alone.
fn are_dotted(name: &[u8]) -> bool
    ensures { result ≡ are_dotted name.now }
{
    name.iter().all(|byte| is_dotted(*byte))
}

/// Whether a byte is a digit or a dot.
fn is_dotted(byte: u8) -> bool
    ensures { result ≡ is_dotted byte }
{
    b'0' <= byte && byte <= b'9' || byte == b'.'
}
