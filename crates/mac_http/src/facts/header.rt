//! Facts of the fields `Macaroon-Fact`. The gateway has to drop those of its clients.

ghost use Rattle.std.specs.Prelude.{◌≡◌, ◌++◌, map, OnOk};
ghost use Rattle.http.specs.Request.{head_of};
ghost use Rattle.mac_token.specs.RawToken.{byte_lists};
ghost use Rattle.mac_http.specs.Facts.{header_facts};

use super::put;
use bytes::Bytes;
use http::Request;
use http::header::{GetAll, HeaderValue};
use std::alloc::{AllocError, Global};

/// The name of the fields.
const FACT: &str = "macaroon-fact";

/// Appends the value of each field.
pub(super) fn put_header(
    facts: &mut Vec<Vec<u8>>,
    alloc: Global,
    request: &Request<Bytes>,
) -> Result<(), AllocError>
    ensures { OnOk result (byte_lists facts.new.items
        ≡ byte_lists facts.old.items ++ header_facts (head_of request.now)) }
{
    put_values(facts, alloc, &request.headers().get_all(FACT))
}

fn put_values(
    facts: &mut Vec<Vec<u8>>,
    alloc: Global,
    values: &GetAll<'_, HeaderValue>,
) -> Result<(), AllocError>
    ensures { OnOk result (byte_lists facts.new.items
        ≡ byte_lists facts.old.items ++ map (λ v. v.bytes) values.now) }
{
    let mut left = values.iter();
    while let Some(value) = left.next() {
        put(facts, alloc, b"", value.as_bytes())?;
    }
    Ok(())
}
