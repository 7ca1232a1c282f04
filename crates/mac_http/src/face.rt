//! The service of connections.

ghost use Rattle.std.specs.Prelude.{◌≡◌, Some};
ghost use Rattle.http.specs.Request.{head_of};
ghost use Rattle.http_server.specs.Response.{IsBlank};
ghost use Rattle.mac_http.specs.Calling.{NotesCall, RespondsToCall};
ghost use Rattle.mac_http.specs.Faced.{IsAnswer, IsPlainAnswer};
ghost use Rattle.mac_http.specs.Happened.{Happens, HappensPlainly};
ghost use Rattle.mac_http.specs.Page.{ShowsIf, has_page, page_in, told_keys};
ghost use Rattle.mac_http.specs.Turn.{AnswersOnce, SaysPage};
ghost use Rattle.mac_http.specs.declared.page.Page.{Page as PlainPage};
ghost use Rattle.http_uri.specs.Uri.{uri_path};

use crate::calling::{Called, PathCall, call_in, respond_to_call};
use crate::footing::Footing;
use crate::happened::Happened;
use crate::page::{Monitor, announce_close, page_in, tell_page};
use crate::rules::Rules;
use crate::saying::respond;
use bytes::Bytes;
use http::{Request, StatusCode};
use http_server::{Response, Service};
use mac_board::{Moments, Tables};
use mac_calls::{Call, CallOutcome};
use std::alloc::{AllocError, Global};

/// Answers the requests of connections, each under the table that is up and at a moment that its
/// clock tells once the request is there.
#[derive(Drop)]
pub struct Face<'a, K, M, S> {
    alloc: Global,
    keys: K,
    rules: Rules<'a>,
    moments: M,
    monitor: S,
}

impl<'a, K, M, S> Face<'a, K, M, S> {
    pub fn new(
        alloc: Global,
        keys: K,
        rules: Rules<'a>,
        moments: M,
        monitor: S,
    ) -> Face<'a, K, M, S>
        ensures keys { result.keys ≡ keys }
        ensures rules { result.rules ≡ rules.entry }
        ensures moments { result.moments ≡ moments }
    {
        Face {
            alloc,
            keys,
            rules,
            moments,
            monitor,
        }
    }
}

impl<'a, K, M: Drop, S: Drop> Face<'a, K, M, S> {
    /// What it had its key tables from, as that is now.
    pub fn into_keys(self) -> K
        ensures { result ≡ self.entry.keys }
    {
        self.keys
    }
}

impl<'a, K: Tables, M: Moments, S: Monitor> Service for Face<'a, K, M, S> {
    ghost answers = { λ face request response after. (once : AnswersOnce K.tells (λ face. record {
      known = K.known face.keys;
      rules = face.rules;
      told = M.told face.moments;
      noted = S.noted face.monitor;
    }) face request response after)
        × SaysPage (S.says face.monitor) face.rules once.under.0 request response };

    fn call(
        &mut self,
        request: &Request<Bytes>,
        response: &mut Response,
    ) -> Result<(), AllocError> {
        self.keys.look();
        let moment = self.moments.tell();
        let keys = self.keys.table();
        let footing = Footing {
            keys,
            rules: self.rules,
            moment,
            seen: self.monitor.seen(),
        };
        let happened = answer(self.alloc, footing, &self.monitor, request, response);
        happened.note_to(&mut self.monitor, request, response);
        if self.monitor.is_ending() {
            announce_close(response);
        }
        Ok(())
    }
}

/// Fills a blank response with a page, or with what comes of the request.
fn answer<'a, S: Monitor>(
    alloc: Global,
    footing: Footing<'_>,
    monitor: &S,
    request: &'a Request<Bytes>,
    response: &mut Response,
) -> Happened<'a>
    requires { IsBlank response.old }
    ensures told { IsAnswer footing.entry.keys.now footing.entry.rules footing.entry.moment
        request.now response.new }
    ensures shows { (page : PlainPage) → page_in (uri_path (head_of request.now).uri) ≡ Some page
        → ShowsIf (has_page footing.entry.rules.pages page) (S.says monitor.now) page
        (told_keys footing.entry.rules.way footing.entry.keys.now) response.new }
    ensures happened { Happens footing.entry.keys.now footing.entry.rules footing.entry.moment
        request.now response.new result }
{
    match page_in(request.uri().path().as_bytes()) {
        Some(page) => {
            tell_page(alloc, footing, monitor, page, response);
            Happened::PageTold
        }
        None => answer_plain(alloc, footing, monitor, request, response),
    }
}

/// Fills a blank response with what comes of a request that names no page: of a call that is
/// allowed, or of a verify.
fn answer_plain<'a, S: Monitor>(
    alloc: Global,
    footing: Footing<'_>,
    monitor: &S,
    request: &'a Request<Bytes>,
    response: &mut Response,
) -> Happened<'a>
    requires { IsBlank response.old }
    ensures told { IsPlainAnswer footing.entry.keys.now footing.entry.rules footing.entry.moment
        request.now response.new }
    ensures happened { HappensPlainly footing.entry.keys.now footing.entry.rules
        footing.entry.moment request.now response.new result }
{
    match call_in(
        footing.rules.allowed_calls(),
        request.uri().path().as_bytes(),
    ) {
        Some(asked) => {
            let outcome = answer_call(alloc, footing, monitor, asked, request, response);
            Happened::Called(asked, outcome)
        }
        None => Happened::Judged(respond(alloc, footing, request, response)),
    }
}

/// Fills a blank response with what comes of a call. Where a mint gets no random bytes it is a 503
/// without fields. What came of the call, where the response tells that.
fn answer_call<S: Monitor>(
    alloc: Global,
    footing: Footing<'_>,
    monitor: &S,
    asked: PathCall<'_>,
    request: &Request<Bytes>,
    response: &mut Response,
) -> Option<CallOutcome>
    requires { IsBlank response.old }
    ensures told { RespondsToCall footing.entry.keys.now footing.entry.rules footing.entry.moment
        (asked.entry.call, asked.entry.name.now) request.now response.new }
    ensures noted { NotesCall footing.entry.keys.now footing.entry.rules footing.entry.moment
        (asked.entry.call, asked.entry.name.now) request.now response.new result }
{
    let Some(drawn) = drawn_for(monitor, asked.call) else {
        response.status = StatusCode::SERVICE_UNAVAILABLE;
        return None;
    };
    let called = Called {
        asked,
        request,
        drawn: &drawn,
    };
    respond_to_call(alloc, footing, called, response)
}

/// Random bytes for a call: a mint alone takes any.
fn drawn_for<S: Monitor>(monitor: &S, call: Call) -> Option<[u8; 16]> {
    match call {
        Call::Mint => monitor.draw(),
        Call::Attenuate | Call::Inspect | Call::Check | Call::Verify => Some([0u8; 16]),
    }
}
