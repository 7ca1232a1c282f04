//! What a request is told.

ghost use Rattle.std.specs.Prelude.{◌≡◌, IfOk, codes, bytes_eq};
ghost use Rattle.std.specs.Option.{option_map};
ghost use Rattle.http.specs.Request.{head_of};
ghost use Rattle.mac_page.specs.Told.{is_get, is_post, told_call, told_elsewhere, told_file};
ghost use Rattle.mac_page.specs.Told.{told_here, told_names, told_of, told_plain};

use crate::home::{is_at_home, is_shown};
use crate::route::{File, asked_in, file_in};
use crate::site::Site;
use bytes::Bytes;
use http::{Method, Request};
use mac_calls::{Brought, CallOutcome, answer, names_json};
use mac_http::PathCall;
use std::alloc::{AllocError, Global};

/// The path of what the page is told, so that it knows who answers.
const HERE: &[u8] = b"/here";

/// The path of the names of the keys.
const NAMES: &[u8] = b"/names";

/// What a request is told.
#[derive(Drop)]
pub enum SiteTold {
    /// It is asked of another site, or by another page, or by none that has the secret.
    Foreign,
    /// There is nothing at its path.
    Unknown,
    /// Its path takes a GET alone.
    NoGet,
    /// Its path takes a POST alone.
    NoPost,
    /// The text of a file.
    File(File),
    /// It is the site that answers.
    Here,
    /// The names of the keys, as JSON.
    Names(mac_wire::Bytes),
    /// What came of a call.
    Called(CallOutcome),
}

/// What a request is told, with these random bytes for a token that it may ask for.
pub(crate) fn told_of(
    alloc: Global,
    site: &Site,
    drawn: &[u8; 16],
    request: &Request<Bytes>,
) -> Result<SiteTold, AllocError>
    ensures { IfOk result (λ told. told ≡ told_of site.now drawn.now request.now) }
{
    match file_in(request.uri().path().as_bytes()) {
        Some(file) => Ok(told_file(site, request, file)),
        None => told_elsewhere(alloc, site, drawn, request),
    }
}

/// What a request for this file is told.
fn told_file(site: &Site, request: &Request<Bytes>, file: File) -> SiteTold
    ensures { result ≡ told_file site.now request.now file }
{
    if !is_shown(site, request) {
        SiteTold::Foreign
    } else if is_get(request) {
        SiteTold::File(file)
    } else {
        SiteTold::NoGet
    }
}

/// What a request for no file is told.
fn told_elsewhere(
    alloc: Global,
    site: &Site,
    drawn: &[u8; 16],
    request: &Request<Bytes>,
) -> Result<SiteTold, AllocError>
    ensures { IfOk result (λ told. told ≡ told_elsewhere site.now drawn.now request.now) }
{
    if !is_at_home(site, request) {
        return Ok(SiteTold::Foreign);
    }
    let path = request.uri().path().as_bytes();
    if path == HERE {
        return Ok(told_here(request));
    }
    told_plain(alloc, site, drawn, request, path)
}

/// What a request is told that asks who answers.
fn told_here(request: &Request<Bytes>) -> SiteTold
    ensures { result ≡ told_here request.now }
{
    if is_get(request) {
        SiteTold::Here
    } else {
        SiteTold::NoGet
    }
}

/// What another path is told.
fn told_plain(
    alloc: Global,
    site: &Site,
    drawn: &[u8; 16],
    request: &Request<Bytes>,
    path: &[u8],
) -> Result<SiteTold, AllocError>
    ensures { IfOk result (λ told. told ≡ told_plain site.now drawn.now request.now path.now) }
{
    if path != NAMES {
        return told_call(alloc, site, drawn, request, asked_in(path));
    }
    if is_get(request) {
        told_names(alloc, site)
    } else {
        Ok(SiteTold::NoGet)
    }
}

/// The names of the keys, where there is a key file.
fn told_names(alloc: Global, site: &Site) -> Result<SiteTold, AllocError>
    ensures { IfOk result (λ told. told ≡ told_names site.now) }
{
    if !site.has_keys {
        return Ok(SiteTold::Unknown);
    }
    let json = names_json(alloc, &site.keys)?;
    Ok(SiteTold::Names(mac_wire::Bytes::new(json)))
}

/// What comes of this call, or there is none.
fn told_call(
    alloc: Global,
    site: &Site,
    drawn: &[u8; 16],
    request: &Request<Bytes>,
    asked: Option<PathCall<'_>>,
) -> Result<SiteTold, AllocError>
    ensures { IfOk result (λ told. told ≡ told_call site.now drawn.now request.now
        (option_map (λ a. (a.call, a.name.now)) asked.entry)) }
{
    match asked {
        None => Ok(SiteTold::Unknown),
        Some(_) if !is_post(request) => Ok(SiteTold::NoPost),
        Some(asked) => {
            let brought = Brought {
                body: request.body(),
                drawn,
                // Which time limits have passed the page tells itself.
                moment: 0,
            };
            let outcome = answer(alloc, &site.keys, asked.name, asked.call, brought)?;
            Ok(SiteTold::Called(outcome))
        }
    }
}

fn is_get(request: &Request<Bytes>) -> bool
    ensures { result ≡ is_get request.now }
{
    *request.method() == Method::GET
}

fn is_post(request: &Request<Bytes>) -> bool
    ensures { result ≡ is_post request.now }
{
    *request.method() == Method::POST
}
