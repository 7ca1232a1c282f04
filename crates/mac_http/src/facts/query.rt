//! Facts of the query of the request's own target, which the gateway's configuration writes.

ghost use Rattle.std.specs.Prelude.{◌≡◌, ◌++◌, Some, OnOk};
ghost use Rattle.http.specs.Request.{head_of};
ghost use Rattle.mac_token.specs.RawToken.{byte_lists};
ghost use Rattle.mac_http.specs.Facts.{fact_of_pair, facts_of_query, query_facts};

use super::put;
use bytes::Bytes;
use form_urlencoded::{decode, raw_pairs};
use http::Request;
use std::alloc::{AllocError, Global};

/// The name of a fact in a query.
const FACT: &[u8] = b"fact";

/// Appends each fact of the query.
pub(super) fn put_query(
    facts: &mut Vec<Vec<u8>>,
    alloc: Global,
    request: &Request<Bytes>,
) -> Result<(), AllocError>
    ensures { OnOk result (byte_lists facts.new.items
        ≡ byte_lists facts.old.items ++ query_facts (head_of request.now)) }
{
    match request.uri().query() {
        Some(query) => put_pairs(facts, alloc, query.as_bytes()),
        None => Ok(()),
    }
}

fn put_pairs(facts: &mut Vec<Vec<u8>>, alloc: Global, query: &[u8]) -> Result<(), AllocError>
    ensures { OnOk result (byte_lists facts.new.items
        ≡ byte_lists facts.old.items ++ facts_of_query (Some query.now)) }
{
    let mut left = raw_pairs(query);
    while let Some((name, value)) = left.next() {
        put_pair(facts, alloc, name, value)?;
    }
    Ok(())
}

/// Appends the fact of a pair, if it is named so.
fn put_pair(
    facts: &mut Vec<Vec<u8>>,
    alloc: Global,
    name: &[u8],
    value: &[u8],
) -> Result<(), AllocError>
    ensures { OnOk result (byte_lists facts.new.items
        ≡ byte_lists facts.old.items ++ fact_of_pair (name.now, value.now)) }
{
    if name != FACT {
        return Ok(());
    }
    let fact = decode(alloc, value)?;
    put(facts, alloc, b"", fact.as_bytes())
}
