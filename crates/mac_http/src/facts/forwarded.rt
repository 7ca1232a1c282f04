//! Facts that the proxies' own fields tell: the method, the host, the peer's address, the scheme
//! and the path of the request that the gateway was sent.

ghost use Rattle.std.specs.Prelude.{◌≡◌, ◌++◌, Some, OnOk};
ghost use Rattle.std.specs.Option.{option_map};
ghost use Rattle.http.specs.Request.{head_of};
ghost use Rattle.mac_token.specs.RawToken.{byte_lists};
ghost use Rattle.mac_http.specs.Authorization.{only};
ghost use Rattle.mac_http.specs.Facts.{address_fact, forwarded_facts, host_fact, is_safe, labelled};
ghost use Rattle.mac_http.specs.Facts.{method_facts, path_facts, path_of, safe_fact, scheme_fact};

use super::guarded::{Guarded, path_told};
use super::put;
use super::steps::put_steps;
use bytes::Bytes;
use http::Request;
use http::header::{GetAll, HeaderValue};
use std::alloc::{AllocError, Global};

/// Appends what the fields tell.
pub(super) fn put_forwarded(
    facts: &mut Vec<Vec<u8>>,
    alloc: Global,
    request: &Request<Bytes>,
    guarded: Guarded<'_>,
) -> Result<(), AllocError>
    ensures { OnOk result (byte_lists facts.new.items ≡ byte_lists facts.old.items
        ++ forwarded_facts (head_of request.now) (option_map (λ m. m.now) guarded.entry.method)
        (option_map (λ t. t.now) guarded.entry.target)) }
{
    put_method(facts, alloc, guarded.method)?;
    put_host(facts, alloc, request)?;
    put_address(facts, alloc, request)?;
    put_scheme(facts, alloc, request)?;
    put_path(facts, alloc, guarded)?;
    Ok(())
}

/// Appends the facts of the method, if it is told.
fn put_method(
    facts: &mut Vec<Vec<u8>>,
    alloc: Global,
    method: Option<&[u8]>,
) -> Result<(), AllocError>
    ensures { OnOk result (byte_lists facts.new.items ≡ byte_lists facts.old.items
        ++ method_facts (option_map (λ m. m.now) method.entry)) }
{
    match method {
        Some(method) => put_method_told(facts, alloc, method),
        None => Ok(()),
    }
}

/// Appends a method, and that it is safe, where it is.
fn put_method_told(facts: &mut Vec<Vec<u8>>, alloc: Global, method: &[u8]) -> Result<(), AllocError>
    ensures { OnOk result (byte_lists facts.new.items ≡ byte_lists facts.old.items
        ++ method_facts (Some method.now)) }
{
    put(facts, alloc, b"method = ", method)?;
    put_safe(facts, alloc, is_safe(method))?;
    Ok(())
}

/// Appends that the method is safe, where it is.
fn put_safe(facts: &mut Vec<Vec<u8>>, alloc: Global, is_safe: bool) -> Result<(), AllocError>
    ensures { OnOk result (byte_lists facts.new.items ≡ byte_lists facts.old.items
        ++ safe_fact is_safe) }
{
    if is_safe {
        return put(facts, alloc, b"method is ", b"safe");
    }
    Ok(())
}

/// Whether a method asks for no change (RFC 9110, section 9.2.1).
fn is_safe(method: &[u8]) -> bool
    ensures { result ≡ is_safe method.now }
{
    method == b"GET".as_slice()
        || method == b"HEAD".as_slice()
        || method == b"OPTIONS".as_slice()
        || method == b"TRACE".as_slice()
}

/// Appends the host that was asked for, if it is told.
fn put_host(
    facts: &mut Vec<Vec<u8>>,
    alloc: Global,
    request: &Request<Bytes>,
) -> Result<(), AllocError>
    ensures { OnOk result (byte_lists facts.new.items ≡ byte_lists facts.old.items
        ++ host_fact (head_of request.now)) }
{
    let host = one_value(&request.headers().get_all("x-forwarded-host"));
    put_labelled(facts, alloc, b"host = ", host)
}

/// Appends the address of the gateway's peer, if it is told.
fn put_address(
    facts: &mut Vec<Vec<u8>>,
    alloc: Global,
    request: &Request<Bytes>,
) -> Result<(), AllocError>
    ensures { OnOk result (byte_lists facts.new.items ≡ byte_lists facts.old.items
        ++ address_fact (head_of request.now)) }
{
    let address = one_value(&request.headers().get_all("x-real-ip"));
    put_labelled(facts, alloc, b"ip = ", address)
}

/// Appends the scheme by which the gateway was asked, if it is told.
fn put_scheme(
    facts: &mut Vec<Vec<u8>>,
    alloc: Global,
    request: &Request<Bytes>,
) -> Result<(), AllocError>
    ensures { OnOk result (byte_lists facts.new.items ≡ byte_lists facts.old.items
        ++ scheme_fact (head_of request.now)) }
{
    let scheme = one_value(&request.headers().get_all("x-forwarded-proto"));
    put_labelled(facts, alloc, b"scheme = ", scheme)
}

/// The one value of a field.
fn one_value<'a>(values: &GetAll<'a, HeaderValue>) -> Option<&'a [u8]>
    ensures { option_map (λ v. v.now) result ≡ option_map (λ v. v.bytes) (only values.now) }
{
    let mut left = values.iter();
    let value = left.next()?;
    if left.next().is_some() {
        return None;
    }
    Some(value.as_bytes())
}

/// Appends the fact of a label and a value, if there is one.
fn put_labelled(
    facts: &mut Vec<Vec<u8>>,
    alloc: Global,
    label: &[u8],
    value: Option<&[u8]>,
) -> Result<(), AllocError>
    ensures { OnOk result (byte_lists facts.new.items ≡ byte_lists facts.old.items
        ++ labelled label.now (option_map (λ v. v.now) value.entry)) }
{
    match value {
        Some(value) => put(facts, alloc, label, value),
        None => Ok(()),
    }
}

/// Appends the facts of the path, if it is told.
fn put_path(facts: &mut Vec<Vec<u8>>, alloc: Global, guarded: Guarded<'_>) -> Result<(), AllocError>
    ensures { OnOk result (byte_lists facts.new.items ≡ byte_lists facts.old.items
        ++ path_facts (option_map path_of (option_map (λ t. t.now) guarded.entry.target))) }
{
    match path_told(guarded) {
        Some(path) => put_steps_of(facts, alloc, path),
        None => Ok(()),
    }
}

/// Appends a path, and each of its steps.
fn put_steps_of(facts: &mut Vec<Vec<u8>>, alloc: Global, path: &[u8]) -> Result<(), AllocError>
    ensures { OnOk result (byte_lists facts.new.items ≡ byte_lists facts.old.items
        ++ path_facts (Some path.now)) }
{
    put(facts, alloc, b"path = ", path)?;
    put_steps(facts, alloc, path)?;
    Ok(())
}
