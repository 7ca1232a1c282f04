//! The response that tells what a request is told.

ghost use Rattle.std.specs.Prelude.{◌≡◌, ◌∷◌, [], ◌++◌, OnOk, codes};
ghost use Rattle.http_header.specs.FieldValue.{plain_value};
ghost use Rattle.http_server.specs.Response.{IsBlank, fields_of};
ghost use Rattle.mac_http.specs.Calling.{is_json};
ghost use Rattle.mac_page.specs.Told.{RespondsWith, Tells, body_for, body_of_outcome, fields_for};
ghost use Rattle.mac_page.specs.Told.{fields_of_outcome, guards, status_of, status_of_outcome};
ghost use Rattle.mac_page.specs.Told.{text_of, told_of, type_of};

use crate::route::File;
use crate::site::Site;
use crate::told::{SiteTold, told_of};
use bytes::{BufMut, Bytes};
use http::header::{
    ALLOW, CACHE_CONTROL, CONTENT_SECURITY_POLICY, CONTENT_TYPE, HeaderName, HeaderValue,
    REFERRER_POLICY, X_CONTENT_TYPE_OPTIONS,
};
use http::{Request, StatusCode};
use http_server::{Response, Rope};
use mac_calls::CallOutcome;
use std::alloc::{AllocError, Global};

/// From where a browser may take what, once it shows the page.
const POLICY: &str = "default-src 'none'; script-src 'self'; style-src 'self'; \
    connect-src 'self'; img-src 'self' data:; base-uri 'none'; form-action 'none'; \
    frame-ancestors 'none'";

/// The name of the field by which other sites may not take a response for themselves.
const RESOURCE_POLICY: &str = "cross-origin-resource-policy";

/// The name of the field by which pages of other sites have no hold on the page's window.
const OPENER_POLICY: &str = "cross-origin-opener-policy";

/// Fills a blank response to a request. Where memory is refused it is a 503 without fields.
pub(crate) fn respond(
    alloc: Global,
    site: &Site,
    drawn: &[u8; 16],
    request: &Request<Bytes>,
    response: &mut Response,
)
    requires { IsBlank response.old }
    ensures { RespondsWith drawn.now site.now request.now response.new }
{
    if fill(alloc, site, drawn, request, response).is_err() {
        response.clear();
        response.status = StatusCode::SERVICE_UNAVAILABLE;
    }
}

fn fill(
    alloc: Global,
    site: &Site,
    drawn: &[u8; 16],
    request: &Request<Bytes>,
    response: &mut Response,
) -> Result<(), AllocError>
    requires { IsBlank response.old }
    ensures { OnOk result (Tells site.now (told_of site.now drawn.now request.now) response.new) }
{
    let told = told_of(alloc, site, drawn, request)?;
    say(site, &told, response)
}

/// Fills a blank response with what is told.
fn say(site: &Site, told: &SiteTold, response: &mut Response) -> Result<(), AllocError>
    requires { IsBlank response.old }
    ensures { OnOk result (Tells site.now told.now response.new) }
{
    response.status = status(told);
    put_fields(told, response)?;
    put_guards(response)?;
    put_body(site, told, &mut response.body)
}

/// The status that tells it.
fn status(told: &SiteTold) -> StatusCode
    ensures { result ≡ status_of told.now }
{
    match told {
        SiteTold::Foreign => StatusCode::FORBIDDEN,
        SiteTold::Unknown => StatusCode::NOT_FOUND,
        SiteTold::NoGet | SiteTold::NoPost => StatusCode::METHOD_NOT_ALLOWED,
        SiteTold::File(_) | SiteTold::Here | SiteTold::Names(_) => StatusCode::OK,
        SiteTold::Called(outcome) => outcome_status(outcome),
    }
}

fn outcome_status(outcome: &CallOutcome) -> StatusCode
    ensures { result ≡ status_of_outcome outcome.now }
{
    match outcome {
        CallOutcome::NoKey => StatusCode::NOT_FOUND,
        CallOutcome::Minted { .. } | CallOutcome::Reply(_) => StatusCode::OK,
        CallOutcome::Refused { .. } => StatusCode::BAD_REQUEST,
    }
}

/// Appends the fields that tell it.
fn put_fields(told: &SiteTold, response: &mut Response) -> Result<(), AllocError>
    ensures fields { OnOk result
        (fields_of response.new ≡ fields_of response.old ++ fields_for told.now) }
    ensures status { response.new.status ≡ response.old.status }
    ensures body { response.new.body ≡ response.old.body }
{
    match told {
        SiteTold::Foreign | SiteTold::Unknown => Ok(()),
        SiteTold::NoGet => response.add_header(ALLOW, HeaderValue::from_static("GET")),
        SiteTold::NoPost => response.add_header(ALLOW, HeaderValue::from_static("POST")),
        SiteTold::File(file) => response.add_header(CONTENT_TYPE, media_type(*file)),
        SiteTold::Here => response.add_header(CONTENT_TYPE, plain_text()),
        SiteTold::Names(_) => put_json(response),
        SiteTold::Called(outcome) => put_outcome(outcome, response),
    }
}

fn plain_text() -> HeaderValue
    ensures { result ≡ plain_value (codes "text/plain; charset=utf-8") }
{
    HeaderValue::from_static("text/plain; charset=utf-8")
}

/// The type of a file.
fn media_type(file: File) -> HeaderValue
    ensures { result ≡ plain_value (type_of file) }
{
    match file {
        File::Document => HeaderValue::from_static("text/html; charset=utf-8"),
        File::Style => HeaderValue::from_static("text/css; charset=utf-8"),
        File::Script => HeaderValue::from_static("text/javascript; charset=utf-8"),
    }
}

/// Appends the fields that tell what came of a call.
fn put_outcome(outcome: &CallOutcome, response: &mut Response) -> Result<(), AllocError>
    ensures fields { OnOk result
        (fields_of response.new ≡ fields_of response.old ++ fields_of_outcome outcome.now) }
    ensures status { response.new.status ≡ response.old.status }
    ensures body { response.new.body ≡ response.old.body }
{
    match outcome {
        CallOutcome::NoKey => Ok(()),
        CallOutcome::Minted { .. } | CallOutcome::Reply(_) | CallOutcome::Refused { .. } =>
            put_json(response),
    }
}

/// Appends the field of JSON.
fn put_json(response: &mut Response) -> Result<(), AllocError>
    ensures fields { OnOk result
        (fields_of response.new ≡ fields_of response.old ++ is_json) }
    ensures status { response.new.status ≡ response.old.status }
    ensures body { response.new.body ≡ response.old.body }
{
    response.add_header(CONTENT_TYPE, HeaderValue::from_static("application/json"))
}

/// Appends what a browser may do with the response.
fn put_guards(response: &mut Response) -> Result<(), AllocError>
    ensures fields { OnOk result
        (fields_of response.new ≡ fields_of response.old ++ guards) }
    ensures status { response.new.status ≡ response.old.status }
    ensures body { response.new.body ≡ response.old.body }
{
    let policy = HeaderValue::from_static(POLICY);
    response.add_header(CONTENT_SECURITY_POLICY, policy)?;
    let types = HeaderValue::from_static("nosniff");
    response.add_header(X_CONTENT_TYPE_OPTIONS, types)?;
    let referrer = HeaderValue::from_static("no-referrer");
    response.add_header(REFERRER_POLICY, referrer)?;
    let cache = HeaderValue::from_static("no-store");
    response.add_header(CACHE_CONTROL, cache)?;
    let resource = HeaderName::from_static(RESOURCE_POLICY);
    let origin = HeaderValue::from_static("same-origin");
    response.add_header(resource, origin)?;
    let opener = HeaderName::from_static(OPENER_POLICY);
    let alone = HeaderValue::from_static("same-origin");
    response.add_header(opener, alone)?;
    Ok(())
}

/// Appends the body that tells it.
fn put_body(site: &Site, told: &SiteTold, body: &mut Rope) -> Result<(), AllocError>
    ensures { OnOk result (body.new.items ≡ body.old.items ++ body_for site.now told.now) }
{
    match told {
        SiteTold::Foreign | SiteTold::Unknown | SiteTold::NoGet | SiteTold::NoPost => Ok(()),
        SiteTold::File(file) => body.put_slice(text(site, *file)),
        SiteTold::Here => body.put_slice(&site.secrets.of_site.digits()),
        SiteTold::Names(json) => body.put_slice(json.as_slice()),
        SiteTold::Called(outcome) => put_outcome_body(outcome, body),
    }
}

/// The text of a file.
fn text(site: &Site, file: File) -> &[u8]
    ensures { result.now ≡ text_of site.now file }
{
    match file {
        File::Document => site.texts.document,
        File::Style => site.texts.style,
        File::Script => site.texts.script,
    }
}

/// Appends the body that tells what came of a call.
fn put_outcome_body(outcome: &CallOutcome, body: &mut Rope) -> Result<(), AllocError>
    ensures { OnOk result (body.new.items ≡ body.old.items ++ body_of_outcome outcome.now) }
{
    match outcome {
        CallOutcome::NoKey => Ok(()),
        CallOutcome::Minted { json, .. } => body.put_slice(json.as_slice()),
        CallOutcome::Reply(json) => body.put_slice(json.as_slice()),
        CallOutcome::Refused { json, .. } => body.put_slice(json.as_slice()),
    }
}
