//! The request that the gateway was sent, as the proxies' fields tell of it.

ghost use Rattle.std.specs.Prelude.{◌≡◌, ◌==◌, ◌<◌, ◌++◌, length, position, IfSome};
ghost use Rattle.std.specs.List.{list_any};
ghost use Rattle.std.specs.Option.{option_map};
ghost use Rattle.http.specs.Request.{head_of};
ghost use Rattle.mac_http.specs.Authorization.{only};
ghost use Rattle.mac_http.specs.Facts.{has_fragment, is_hash, is_own, is_question, method_told, path_of, target_told};

use bytes::Bytes;
use http::header::{GetAll, HeaderValue};
use http::{HeaderMap, Request};

/// The method and the target of the request that the gateway was sent, as far as they are told.
#[derive(Clone, Copy)]
pub(crate) struct Guarded<'a> {
    pub(crate) method: Option<&'a [u8]>,
    pub(crate) target: Option<&'a [u8]>,
}

/// What is told of the request that the gateway was sent: by fields, or by the request's own method
/// and path where no field tells of it, as Envoy asks.
pub(super) fn guarded_of<'a>(request: &'a Request<Bytes>, behind: &'a [u8]) -> Guarded<'a>
    ensures method { option_map (λ m. m.now) result.method
        ≡ method_told (head_of request.now) behind.now }
    ensures target { option_map (λ t. t.now) result.target
        ≡ target_told (head_of request.now) behind.now }
{
    let headers = request.headers();
    if is_own(headers, behind) {
        return Guarded {
            method: Some(request.method().as_str().as_bytes()),
            target: Some(behind),
        };
    }
    Guarded {
        method: one_of(
            &headers.get_all("x-forwarded-method"),
            &headers.get_all("x-original-method"),
        ),
        target: one_of(
            &headers.get_all("x-forwarded-uri"),
            &headers.get_all("x-original-uri"),
        ),
    }
}

/// Whether the request itself is the one that the gateway was sent.
fn is_own(headers: &HeaderMap<HeaderValue>, behind: &[u8]) -> bool
    ensures { result ≡ is_own headers.now behind.now }
{
    !behind.is_empty()
        && are_none(
            &headers.get_all("x-forwarded-uri"),
            &headers.get_all("x-original-uri"),
        )
        && are_none(
            &headers.get_all("x-forwarded-method"),
            &headers.get_all("x-original-method"),
        )
}

/// Whether neither of two fields has a value.
fn are_none(first: &GetAll<'_, HeaderValue>, second: &GetAll<'_, HeaderValue>) -> bool
    ensures { result ≡ (length (first.now ++ second.now) == 0) }
{
    first.iter().next().is_none() && second.iter().next().is_none()
}

/// The one value of either of two fields.
fn one_of<'a>(first: &GetAll<'a, HeaderValue>, second: &GetAll<'a, HeaderValue>) -> Option<&'a [u8]>
    ensures { option_map (λ v. v.now) result
        ≡ option_map (λ v. v.bytes) (only (first.now ++ second.now)) }
{
    let mut here = first.iter();
    let mut there = second.iter();
    let value = match here.next() {
        Some(value) => value,
        None => there.next()?,
    };
    if here.next().is_some() || there.next().is_some() {
        return None;
    }
    Some(value.as_bytes())
}

/// Whether the target that is told has a fragment.
pub(super) fn has_fragment(guarded: Guarded<'_>) -> bool
    ensures { result ≡ has_fragment (option_map (λ t. t.now) guarded.entry.target) }
{
    match guarded.target {
        Some(target) => has_hash(target),
        None => false,
    }
}

fn has_hash(target: &[u8]) -> bool
    ensures { result ≡ list_any is_hash target.now }
{
    target.iter().any(|byte| *byte == b'#')
}

/// The path that is told.
pub(super) fn path_told<'a>(guarded: Guarded<'a>) -> Option<&'a [u8]>
    ensures { option_map (λ p. p.now) result
        ≡ option_map path_of (option_map (λ t. t.now) guarded.entry.target) }
{
    match guarded.target {
        Some(target) => Some(path_of(target)),
        None => None,
    }
}

/// The path of a target, without its query.
fn path_of(target: &[u8]) -> &[u8]
    ensures { result.now ≡ path_of target.now }
{
    match first_question(target) {
        Some(end) => &target[..end],
        None => target,
    }
}

fn first_question(text: &[u8]) -> Option<usize>
    ensures place { result ≡ position is_question text.now }
    ensures within { IfSome result (λ end. end < length text.now) }
{
    text.iter().position(|byte| *byte == b'?')
}
