//! What happened where a request was answered, and what is noted of that.

ghost use Rattle.std.specs.Prelude.{◌≡◌, ◌+◌};
ghost use Rattle.http.specs.Request.{head_of};
ghost use Rattle.mac_http.specs.Happened.{IsNoteOf, notes_in};

use crate::calling::PathCall;
use crate::noted::{Noted, note_of_call, note_of_path};
use crate::page::Monitor;
use crate::reason::Judged;
use bytes::Bytes;
use http::Request;
use http_server::Response;
use mac_calls::CallOutcome;

/// What happened where a request was answered.
#[derive(Drop)]
pub(crate) enum Happened<'a> {
    /// A page was told.
    PageTold,
    /// A call was answered, of which this came, where the response tells that.
    Called(PathCall<'a>, Option<CallOutcome>),
    /// A path was judged.
    Judged(Judged),
}

impl Happened<'_> {
    /// Notes it, unless a page was told.
    pub(crate) fn note_to<S: Monitor>(
        &self,
        monitor: &mut S,
        request: &Request<Bytes>,
        response: &Response,
    )
        ensures { S.noted monitor.new ≡ S.noted monitor.old + notes_in self.now }
    {
        if let Some(noted) = self.note(request, response) {
            monitor.note(&noted);
        }
    }

    /// What is noted of it, which is nothing of a page.
    fn note<'b>(&'b self, request: &'b Request<Bytes>, response: &Response) -> Option<Noted<'b>>
        ensures { IsNoteOf self.now (head_of request.now) response.now.status result }
    {
        match self {
            Happened::PageTold => None,
            Happened::Called(asked, outcome) => {
                Some(note_of_call(*asked, request, outcome.as_ref(), response))
            }
            Happened::Judged(judged) => Some(note_of_path(request, *judged, response)),
        }
    }
}
