//! The response that tells what was found.

ghost use Rattle.std.specs.Prelude.{◌≡◌, ◌∷◌, [], ◌++◌, IfOk, OnOk};
ghost use Rattle.http.specs.Request.{head_of};
ghost use Rattle.http_header.specs.FieldValue.{plain_value};
ghost use Rattle.http_server.specs.Response.{IsBlank, fields_of};
ghost use Rattle.mac_http.specs.Found.{found_of};
ghost use Rattle.mac_http.specs.Reason.{judged_by};
ghost use Rattle.mac_http.specs.Saying.{NotesJudged};
ghost use Rattle.mac_http.specs.Saying.{Responds, Tells, body_for, fields_for, status_of, tells_whose, tells_why, unsatisfied_body, unsatisfied_reason};

use crate::escaped::escaped;
use crate::finding::{Finding, find};
use crate::footing::Footing;
use crate::reason::{Judged, judged_by};
use crate::rules::Granted;
use bytes::{BufMut, Bytes};
use http::header::{CONTENT_TYPE, HeaderName, HeaderValue, HeaderValueError, WWW_AUTHENTICATE};
use http::{Request, StatusCode};
use http_server::{Response, Rope};
use std::alloc::{AllocError, Global};

/// The names of fields that are this project's own.
const REASON: &str = "macaroon-reason";

const IDENTIFIER: &str = "macaroon-identifier";

const LOCATION: &str = "macaroon-location";

/// Fills a blank response to a request. Where memory is refused it is a 503 without fields. What
/// came of the request tells more than the response does, which tells all tokens that are refused
/// alike.
pub fn respond(
    alloc: Global,
    footing: Footing<'_>,
    request: &Request<Bytes>,
    response: &mut Response,
) -> Judged
    requires { IsBlank response.old }
    ensures told { Responds footing.entry.rules.granted (found_of footing.entry.keys.now
        footing.entry.rules footing.entry.moment (head_of request.now)) response.new }
    ensures noted { NotesJudged footing.entry.rules.granted (found_of footing.entry.keys.now
        footing.entry.rules footing.entry.moment (head_of request.now)) response.new result }
{
    match fill(alloc, footing, request, response) {
        Ok(judged) => judged,
        Err(_) => {
            response.clear();
            response.status = StatusCode::SERVICE_UNAVAILABLE;
            Judged::NOTHING
        }
    }
}

fn fill(
    alloc: Global,
    footing: Footing<'_>,
    request: &Request<Bytes>,
    response: &mut Response,
) -> Result<Judged, AllocError>
    requires { IsBlank response.old }
    ensures told { OnOk result (Tells footing.entry.rules.granted (found_of footing.entry.keys.now
        footing.entry.rules footing.entry.moment (head_of request.now)) response.new) }
    ensures noted { IfOk result (λ j. j ≡ judged_by (found_of footing.entry.keys.now
        footing.entry.rules footing.entry.moment (head_of request.now))) }
{
    let finding = find(alloc, footing, request)?;
    say(alloc, footing.rules.granted, &finding, response)?;
    Ok(judged_by(&finding))
}

/// Fills a blank response with what was found.
fn say(
    alloc: Global,
    granted: Granted,
    finding: &Finding,
    response: &mut Response,
) -> Result<(), AllocError>
    requires { IsBlank response.old }
    ensures { OnOk result (Tells granted finding.now response.new) }
{
    response.status = status(granted, finding);
    put_fields(alloc, finding, response)?;
    put_body(alloc, finding, &mut response.body)
}

/// The status that tells what was found.
fn status(granted: Granted, finding: &Finding) -> StatusCode
    ensures { result ≡ status_of granted finding.now }
{
    match finding {
        Finding::Unknown => StatusCode::NOT_FOUND,
        Finding::NoToken | Finding::Invalid(_, _) => StatusCode::UNAUTHORIZED,
        Finding::UnsafePath | Finding::Unsatisfied(_) => StatusCode::FORBIDDEN,
        Finding::Fragment | Finding::ManyFacts => StatusCode::BAD_REQUEST,
        Finding::NoMoment => StatusCode::INTERNAL_SERVER_ERROR,
        Finding::Granted(_, _) => granted.status(),
    }
}

/// Appends the fields of what was found.
fn put_fields(alloc: Global, finding: &Finding, response: &mut Response) -> Result<(), AllocError>
    ensures fields { OnOk result
        (fields_of response.new ≡ fields_of response.old ++ fields_for finding.now) }
    ensures status { response.new.status ≡ response.old.status }
    ensures body { response.new.body ≡ response.old.body }
{
    match finding {
        Finding::Unknown | Finding::Fragment => Ok(()),
        Finding::ManyFacts | Finding::NoMoment => Ok(()),
        Finding::NoToken => {
            response.add_header(WWW_AUTHENTICATE, HeaderValue::from_static("Macaroon"))
        }
        Finding::Invalid(scheme, _) => response.add_header(WWW_AUTHENTICATE, scheme.challenge()),
        Finding::UnsafePath => put_reason(response, HeaderValue::from_static("path")),
        Finding::Unsatisfied(index) => put_reason(response, unsatisfied_reason(alloc, *index)?),
        Finding::Granted(identifier, location) => {
            put_whose(alloc, identifier.as_slice(), location.as_slice(), response)
        }
    }
}

/// Appends the fields that tell why a good token isn't granted.
fn put_reason(response: &mut Response, reason: HeaderValue) -> Result<(), AllocError>
    ensures fields { OnOk result
        (fields_of response.new ≡ fields_of response.old ++ tells_why reason.bytes) }
    ensures status { response.new.status ≡ response.old.status }
    ensures body { response.new.body ≡ response.old.body }
{
    response.add_header(HeaderName::from_static(REASON), reason)?;
    response.add_header(CONTENT_TYPE, HeaderValue::from_static("application/json"))?;
    Ok(())
}

/// The reason that tells the index of a caveat.
fn unsatisfied_reason(alloc: Global, index: u16) -> Result<HeaderValue, AllocError>
    ensures { IfOk result (λ v. v ≡ plain_value (unsatisfied_reason index)) }
{
    let reason = format!(in alloc; "24 {index}")?;
    match HeaderValue::from_string(reason) {
        Ok(value) => Ok(value),
        Err(HeaderValueError::OutOfMemory) => Err(AllocError),
        Err(HeaderValueError::Invalid) => unreachable!(),
    }
}

/// Appends the fields that tell whose token it is.
fn put_whose(
    alloc: Global,
    identifier: &[u8],
    location: &[u8],
    response: &mut Response,
) -> Result<(), AllocError>
    ensures fields { OnOk result (fields_of response.new
        ≡ fields_of response.old ++ tells_whose identifier.now location.now) }
    ensures status { response.new.status ≡ response.old.status }
    ensures body { response.new.body ≡ response.old.body }
{
    let owner = escaped(alloc, identifier)?;
    let place = escaped(alloc, location)?;
    response.add_header(HeaderName::from_static(IDENTIFIER), owner)?;
    response.add_header(HeaderName::from_static(LOCATION), place)?;
    Ok(())
}

/// Appends the body of what was found.
fn put_body(alloc: Global, finding: &Finding, body: &mut Rope) -> Result<(), AllocError>
    ensures { OnOk result (body.new.items ≡ body.old.items ++ body_for finding.now) }
{
    match finding {
        Finding::UnsafePath => body.put_slice(b"{\"reason\":\"the path is not plain\"}"),
        Finding::Unsatisfied(index) => put_unsatisfied(alloc, *index, body),
        Finding::Unknown | Finding::NoToken | Finding::Fragment => Ok(()),
        Finding::ManyFacts | Finding::NoMoment => Ok(()),
        Finding::Invalid(_, _) | Finding::Granted(_, _) => Ok(()),
    }
}

/// Appends the index of a caveat that isn't satisfied, as JSON.
fn put_unsatisfied(alloc: Global, index: u16, body: &mut Rope) -> Result<(), AllocError>
    ensures { OnOk result (body.new.items ≡ body.old.items ++ unsatisfied_body index) }
{
    let words = format!(in alloc;
        "{{\"code\":24,\"caveat\":{index},\"reason\":\"caveat {index} is not satisfied\"}}"
    )?;
    body.put_slice(words.as_bytes())
}
