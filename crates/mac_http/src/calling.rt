//! Calls that bring JSON.

ghost use Rattle.std.specs.Prelude.{◌≡◌, ◌∷◌, [], IfOk, OnOk, bytes_eq, codes};
ghost use Rattle.std.specs.Prelude.{option_map};
ghost use Rattle.http.specs.Request.{body_of, head_of};
ghost use Rattle.http_server.specs.Response.{IsBlank, IsResponse, fields_of};
ghost use Rattle.mac_http.specs.Browsing.{refusal_of};
ghost use Rattle.mac_http.specs.Calling.{NotesOutcome, RespondsWith, TellsCall, TellsOutcome};
ghost use Rattle.mac_http.specs.Calling.{TellsUnlessRefused, allowed_outcome, call_in, is_json};
ghost use Rattle.mac_http.specs.Calling.{outcome_by_post, outcome_unless_refused};
ghost use Rattle.mac_http.specs.Calling.{may_use, takes_post};

use crate::browsing::refusal_of;
use crate::footing::Footing;
use crate::rules::Calls;
use bytes::{BufMut, Bytes};
use http::header::{ALLOW, CONTENT_TYPE, HeaderValue};
use http::{Method, Request, StatusCode};
use http_server::Response;
use mac_calls::{Brought, Call, CallOutcome, answer};
use mac_decide::Rights;
use std::alloc::{AllocError, Global};

/// The paths of calls.
const ATTENUATE: &[u8] = b"/attenuate";

const INSPECT: &[u8] = b"/inspect";

const CHECK: &[u8] = b"/check";

/// What stands before the name of a key in the path of a mint.
const MINT: &[u8] = b"/mint/";

/// A call that a path asks for.
#[derive(Clone, Copy)]
pub struct PathCall<'a> {
    /// The call.
    pub call: Call,
    /// The name of the key, empty where the call is about none.
    pub name: &'a [u8],
}

/// A request that asks for a call, and what was drawn for it.
#[derive(Clone, Copy)]
pub(crate) struct Called<'a> {
    pub(crate) asked: PathCall<'a>,
    pub(crate) request: &'a Request<Bytes>,
    pub(crate) drawn: &'a [u8; 16],
}

/// The call that a path asks for, where it is allowed.
pub fn call_in(calls: Calls, path: &[u8]) -> Option<PathCall<'_>>
    ensures { option_map (λ asked. (asked.call, asked.name.now)) result ≡ call_in calls path.now }
{
    if path == ATTENUATE && calls.attenuate {
        Some(PathCall {
            call: Call::Attenuate,
            name: b"",
        })
    } else if path == INSPECT && calls.inspect {
        Some(PathCall {
            call: Call::Inspect,
            name: b"",
        })
    } else if path == CHECK && calls.check {
        Some(PathCall {
            call: Call::Check,
            name: b"",
        })
    } else if calls.mint {
        let name = path.strip_prefix(MINT)?;
        Some(PathCall {
            call: Call::Mint,
            name,
        })
    } else {
        None
    }
}

/// Fills a blank response to a request for a call. Where memory is refused it is a 503 without
/// fields. What came of the call, where the response tells that.
pub(crate) fn respond_to_call(
    alloc: Global,
    footing: Footing<'_>,
    called: Called<'_>,
    response: &mut Response,
) -> Option<CallOutcome>
    requires { IsBlank response.old }
    ensures told { RespondsWith called.entry.drawn.now footing.entry.keys.now footing.entry.rules
        footing.entry.moment (called.entry.asked.call, called.entry.asked.name.now)
        called.entry.request.now response.new }
    ensures noted { NotesOutcome called.entry.drawn.now footing.entry.keys.now
        footing.entry.rules footing.entry.moment
        (called.entry.asked.call, called.entry.asked.name.now) called.entry.request.now
        response.new result }
{
    match fill(alloc, footing, called, response) {
        Ok(outcome) => outcome,
        Err(_) => {
            response.clear();
            response.status = StatusCode::SERVICE_UNAVAILABLE;
            None
        }
    }
}

fn fill(
    alloc: Global,
    footing: Footing<'_>,
    called: Called<'_>,
    response: &mut Response,
) -> Result<Option<CallOutcome>, AllocError>
    requires { IsBlank response.old }
    ensures told { OnOk result (TellsUnlessRefused
        (refusal_of footing.entry.rules.way (head_of called.entry.request.now))
        (bytes_eq (head_of called.entry.request.now).method (codes "POST"))
        (allowed_outcome footing.entry.rules footing.entry.keys.now footing.entry.moment
        (called.entry.asked.call, called.entry.asked.name.now) called.entry.drawn.now
        (body_of called.entry.request.now)) response.new) }
    ensures noted { IfOk result (λ noted. noted ≡ outcome_unless_refused
        (refusal_of footing.entry.rules.way (head_of called.entry.request.now))
        (bytes_eq (head_of called.entry.request.now).method (codes "POST"))
        (allowed_outcome footing.entry.rules footing.entry.keys.now footing.entry.moment
        (called.entry.asked.call, called.entry.asked.name.now) called.entry.drawn.now
        (body_of called.entry.request.now))) }
{
    match refusal_of(footing.rules.way, called.request) {
        Some(status) => {
            response.status = status;
            Ok(None)
        }
        None => fill_unrefused(alloc, footing, called, response),
    }
}

/// The same of a call that isn't refused before it is looked at.
fn fill_unrefused(
    alloc: Global,
    footing: Footing<'_>,
    called: Called<'_>,
    response: &mut Response,
) -> Result<Option<CallOutcome>, AllocError>
    requires { IsBlank response.old }
    ensures told { OnOk result (TellsCall
        (bytes_eq (head_of called.entry.request.now).method (codes "POST"))
        (allowed_outcome footing.entry.rules footing.entry.keys.now footing.entry.moment
        (called.entry.asked.call, called.entry.asked.name.now) called.entry.drawn.now
        (body_of called.entry.request.now)) response.new) }
    ensures noted { IfOk result (λ noted. noted ≡ outcome_by_post
        (bytes_eq (head_of called.entry.request.now).method (codes "POST"))
        (allowed_outcome footing.entry.rules footing.entry.keys.now footing.entry.moment
        (called.entry.asked.call, called.entry.asked.name.now) called.entry.drawn.now
        (body_of called.entry.request.now))) }
{
    if *called.request.method() != Method::POST {
        refuse_method(response)?;
        return Ok(None);
    }
    let outcome = answer_allowed(alloc, footing, called)?;
    tell(&outcome, response)?;
    Ok(Some(outcome))
}

/// What comes of a call. A mint under a name that may not be used is as one of a name without keys.
fn answer_allowed(
    alloc: Global,
    footing: Footing<'_>,
    called: Called<'_>,
) -> Result<CallOutcome, AllocError>
    ensures { IfOk result (λ o. o ≡ allowed_outcome footing.entry.rules footing.entry.keys.now
        footing.entry.moment (called.entry.asked.call, called.entry.asked.name.now)
        called.entry.drawn.now
        (body_of called.entry.request.now)) }
{
    let asked = called.asked;
    if may_use(footing.rules.rights, asked) {
        let brought = Brought {
            body: called.request.body(),
            drawn: called.drawn,
            moment: footing.moment.unwrap_or(0),
        };
        answer(alloc, footing.keys, asked.name, asked.call, brought)
    } else {
        Ok(CallOutcome::NoKey)
    }
}

/// Whether a call may use the keys of its name, where it uses any.
fn may_use(rights: &Rights, asked: PathCall<'_>) -> bool
    ensures { result ≡ may_use rights.now.names asked.entry.call asked.entry.name.now }
{
    match asked.call {
        Call::Mint => rights.allows(asked.name),
        Call::Attenuate | Call::Inspect | Call::Check | Call::Verify => true,
    }
}

/// Fills a blank response with the method that is taken.
fn refuse_method(response: &mut Response) -> Result<(), AllocError>
    requires { IsBlank response.old }
    ensures { OnOk result (IsResponse 405 takes_post [] response.new) }
{
    response.status = StatusCode::METHOD_NOT_ALLOWED;
    response.add_header(ALLOW, HeaderValue::from_static("POST"))
}

/// Fills a blank response with what came of a call.
fn tell(outcome: &CallOutcome, response: &mut Response) -> Result<(), AllocError>
    requires { IsBlank response.old }
    ensures { OnOk result (TellsOutcome outcome.now response.new) }
{
    match outcome {
        CallOutcome::NoKey => {
            response.status = StatusCode::NOT_FOUND;
            Ok(())
        }
        CallOutcome::Minted { json, .. } => put_json(StatusCode::OK, json.as_slice(), response),
        CallOutcome::Reply(json) => put_json(StatusCode::OK, json.as_slice(), response),
        CallOutcome::Refused { json, .. } => {
            put_json(StatusCode::BAD_REQUEST, json.as_slice(), response)
        }
    }
}

/// Fills a blank response with JSON.
fn put_json(status: StatusCode, json: &[u8], response: &mut Response) -> Result<(), AllocError>
    requires { IsBlank response.old }
    ensures { OnOk result (IsResponse status is_json json.now response.new) }
{
    response.status = status;
    response.add_header(CONTENT_TYPE, HeaderValue::from_static("application/json"))?;
    response.body.put_slice(json)
}
