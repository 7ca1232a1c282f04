//! The facts that a request brings, by the sources that are named.

ghost use Rattle.std.specs.Prelude.{◌≡◌, ◌++◌, ◌∷◌, [], IfOk, OnOk};
ghost use Rattle.http.specs.Request.{head_of};
ghost use Rattle.mac_token.specs.RawToken.{byte_lists};
ghost use Rattle.mac_http.specs.Facts.{facts_of, tells_fragment, tells_unsafe, where_named, header_facts, query_facts, facts_forwarded};

mod forwarded;
mod guarded;
mod header;
mod query;
mod steps;

use crate::path::is_plain;
use crate::rules::Sources;
use bytes::Bytes;
use forwarded::put_forwarded;
use guarded::{Guarded, guarded_of, has_fragment, path_told};
use header::put_header;
use http::Request;
use query::put_query;
use std::alloc::{AllocError, Global};

/// Whether the sources tell a target with a fragment, which no request may have.
pub(crate) fn tells_fragment(sources: Sources, request: &Request<Bytes>, behind: &[u8]) -> bool
    ensures { result ≡ tells_fragment sources (head_of request.now) behind.now }
{
    sources.forwarded && has_fragment(guarded_of(request, behind))
}

/// Whether the sources tell a path that servers may read as another.
pub(crate) fn tells_unsafe(sources: Sources, request: &Request<Bytes>, behind: &[u8]) -> bool
    ensures { result ≡ tells_unsafe sources (head_of request.now) behind.now }
{
    if !sources.forwarded {
        return false;
    }
    match path_told(guarded_of(request, behind)) {
        Some(path) => !is_plain(sources.strict, path),
        None => false,
    }
}

/// The facts that a request brings.
pub(crate) fn facts_of(
    alloc: Global,
    sources: Sources,
    request: &Request<Bytes>,
    behind: &[u8],
) -> Result<Vec<Vec<u8>>, AllocError>
    ensures { IfOk result (λ facts.
        byte_lists facts.items ≡ facts_of sources (head_of request.now) behind.now) }
{
    let mut facts = Vec::new(alloc);
    put_header_where(sources.header, &mut facts, alloc, request)?;
    put_query_where(sources.query, &mut facts, alloc, request)?;
    put_forwarded_where(sources.forwarded, &mut facts, alloc, request, behind)?;
    Ok(facts)
}

fn put_header_where(
    named: bool,
    facts: &mut Vec<Vec<u8>>,
    alloc: Global,
    request: &Request<Bytes>,
) -> Result<(), AllocError>
    ensures { OnOk result (byte_lists facts.new.items ≡ byte_lists facts.old.items
        ++ where_named named (header_facts (head_of request.now))) }
{
    if named {
        return put_header(facts, alloc, request);
    }
    Ok(())
}

fn put_query_where(
    named: bool,
    facts: &mut Vec<Vec<u8>>,
    alloc: Global,
    request: &Request<Bytes>,
) -> Result<(), AllocError>
    ensures { OnOk result (byte_lists facts.new.items ≡ byte_lists facts.old.items
        ++ where_named named (query_facts (head_of request.now))) }
{
    if named {
        return put_query(facts, alloc, request);
    }
    Ok(())
}

fn put_forwarded_where(
    named: bool,
    facts: &mut Vec<Vec<u8>>,
    alloc: Global,
    request: &Request<Bytes>,
    behind: &[u8],
) -> Result<(), AllocError>
    ensures { OnOk result (byte_lists facts.new.items ≡ byte_lists facts.old.items
        ++ where_named named (facts_forwarded (head_of request.now) behind.now)) }
{
    if named {
        return put_forwarded(facts, alloc, request, guarded_of(request, behind));
    }
    Ok(())
}

/// Appends the fact that a label and a value make.
fn put(
    facts: &mut Vec<Vec<u8>>,
    alloc: Global,
    label: &[u8],
    value: &[u8],
) -> Result<(), AllocError>
    ensures { OnOk result (byte_lists facts.new.items
        ≡ byte_lists facts.old.items ++ (label.now ++ value.now) ∷ []) }
{
    let mut fact = Vec::with_capacity(alloc, label.len() + value.len())?;
    fact.extend_from_slice(label)?;
    fact.extend_from_slice(value)?;
    facts.push(fact)?;
    Ok(())
}
