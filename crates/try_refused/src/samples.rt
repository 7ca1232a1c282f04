//! What the calls are made on. The tokens and the signatures were computed by other libraries.

use crate::outcome::Refused;
use mac_decide::{Job, Rights, Terms, job_of};
use mac_keys::KeyTable;
use mac_token::Token;
use mac_wire::{Arrival, Bytes, Reply};
use std::alloc::Global;

/// A key file of one line.
const KEYS: &[u8] = b"key bank 746869732069732\
    06f757220737570657220736563726574206b65793b206f6e6c79207765\
    2073686f756c64206b6e6f77206974\n";

/// The request for a token in V1 text, without caveats.
const MINT: &[u8] = b"\x01\x01\x04bank\x00\x0ehttp://mybank/\
    \x00\x16we used our secret key\x00";

pub(crate) const LOCATION: &str = "http://mybank/";

pub(crate) const IDENTIFIER: &[u8] = b"we used our secret key";

pub(crate) const CAVEAT: &[u8] = b"test = caveat";

/// The token's signature.
pub(crate) const SIGNATURE: [u8; 32] = [
    0xe3, 0xd9, 0xe0, 0x29, 0x08, 0x52, 0x6c, 0x4c, 0x00, 0x39, 0xae, 0x15, 0x11, 0x41, 0x15, 0xd9,
    0x7f, 0xdd, 0x68, 0xbf, 0x2b, 0xa3, 0x79, 0xb3, 0x42, 0xaa, 0xf0, 0xf6, 0x17, 0xd0, 0x55, 0x2f,
];

/// The signature once the token has the caveat.
pub(crate) const NARROWED: [u8; 32] = [
    0x19, 0x7b, 0xac, 0x7a, 0x04, 0x4a, 0xf3, 0x33, 0x32, 0x86, 0x5b, 0x92, 0x66, 0xe2, 0x6d, 0x49,
    0x3b, 0xdd, 0x66, 0x8a, 0x66, 0x0e, 0x44, 0xd8, 0x8c, 0xe1, 0xa9, 0x98, 0xc2, 0x3d, 0xbd, 0x67,
];

/// The token in V1 text.
const V1_TEXT: &[u8] = b"MDAxY2xvY2F0aW9uIGh0dHA6Ly9teWJhbmsvCjAwMjZpZGVudGlmaWVy\
    IHdlIHVzZWQgb3VyIHNlY3JldCBrZXkKMDAyZnNpZ25hdHVyZSDj2eAp\
    CFJsTAA5rhURQRXZf91ovyujebNCqvD2F9BVLwo";

/// The token in V2 binary.
pub(crate) const V2_BINARY: &[u8] =
    b"\x02\x01\x0ehttp://mybank/\x02\x16we used our secret key\x00\x00\
    \x06\x20\xe3\xd9\xe0\x29\x08\x52\x6c\x4c\x00\x39\xae\x15\x11\x41\x15\xd9\
    \x7f\xdd\x68\xbf\x2b\xa3\x79\xb3\x42\xaa\xf0\xf6\x17\xd0\x55\x2f";

/// The token in V2 text.
pub(crate) const V2_TEXT: &[u8] = b"AgEOaHR0cDovL215YmFuay8CFndlIHVzZWQgb3VyIHNlY3JldCBrZXkAAAYg\
    49ngKQhSbEwAOa4VEUEV2X_daL8ro3mzQqrw9hfQVS8";

/// Whether it is the token with the caveat, so many times, and with this signature.
pub(crate) fn is_narrowed(token: &Token, count: usize, signature: [u8; 32]) -> bool {
    has_parts(token)
        && token.caveats() == count
        && token
            .caveat_list()
            .iter()
            .all(|caveat| caveat.as_slice() == CAVEAT)
        && token.sig() == signature
}

fn has_parts(token: &Token) -> bool {
    token.location() == LOCATION && token.identifier() == IDENTIFIER
}

/// The caveat, so many times.
pub(crate) fn caveats(alloc: Global, count: usize) -> Result<Vec<Vec<u8>>, Refused> {
    let mut list = Vec::new(alloc);
    for _ in 0..count {
        list.push(Vec::from_slice(alloc, CAVEAT)?)?;
    }
    Ok(list)
}

/// The table of the key file.
fn key_table(alloc: Global) -> Result<KeyTable, Refused> {
    match KeyTable::read(alloc, KEYS) {
        Ok(keys) => Ok(keys),
        Err(_) => Err(Refused),
    }
}

/// The job of a payload.
fn job(alloc: Global, payload: &[u8]) -> Result<Job, Refused> {
    let keys = key_table(alloc)?;
    let payload = Bytes::new(Vec::from_slice(alloc, payload)?);
    let terms = Terms {
        table: &keys,
        rights: &Rights::all(),
        moment: None,
    };
    Ok(job_of(alloc, terms, Arrival::Payload(payload))?)
}

/// The job that asks for the token.
pub(crate) fn mint_job(alloc: Global) -> Result<Job, Refused> {
    job(alloc, MINT)
}

/// The job that asks whether the token is granted, in V2 text.
pub(crate) fn verify_job(alloc: Global) -> Result<Job, Refused> {
    let mut payload = Vec::from_slice(alloc, b"\x03\x04bank\x00\x67")?;
    payload.extend_from_slice(V2_TEXT)?;
    payload.extend_from_slice(&[0; 9])?;
    job(alloc, payload.as_slice())
}

/// Whether the reply is the token in V1 text.
pub(crate) fn is_token(reply: &Reply) -> bool {
    match reply {
        Reply::Token(bytes) => bytes.as_slice() == V1_TEXT,
        _ => false,
    }
}

/// Whether it is a job like the one that asks for the token.
pub(crate) fn is_mint(job: &Job) -> bool {
    match &job.arrival {
        Arrival::Payload(payload) => payload.as_slice() == MINT && job.basis.keys.is_some(),
        Arrival::Oversize => false,
    }
}
