//! The pages that tell of the daemon itself.

ghost use Rattle.std.specs.Prelude.{◌≡◌, ◌+◌, ◌++◌, ℕ, IfOk, List, Ok, OnOk, Option};
ghost use Rattle.std.specs.Prelude.{option_copied};
ghost use Rattle.http_server.specs.Response.{IsBlank, IsResponse};
ghost use Rattle.mac_http.specs.Faced.{MayClose};
ghost use Rattle.mac_http.specs.Page.{IsText, Shows, ShowsIf, TellsPage, has_page, is_text};
ghost use Rattle.mac_http.specs.Page.{page_in, told_keys, told_status};
ghost use Rattle.mac_http.specs.declared.page.Page.{Page as PlainPage};
ghost use Rattle.mac_http.specs.declared.page.PageTold.{PageTold as PlainTold};
ghost use Rattle.mac_keys.specs.KeyTable.{Table};

use crate::footing::Footing;
use crate::noted::Noted;
use bytes::BufMut;
use http::StatusCode;
use http::header::{CONNECTION, CONTENT_TYPE, HeaderValue};
use http_server::Response;
use mac_calls::Draws;
use mac_decide::SeenTokens;
use mac_keys::KeyTable;
use std::alloc::{AllocError, Global};

/// The paths of the pages.
const HEALTH: &[u8] = b"/healthz";

const NUMBERS: &[u8] = b"/metrics";

const STATUS: &[u8] = b"/status";

const CONNECTIONS: &[u8] = b"/connections";

const USES: &[u8] = b"/metrics/keys";

/// A page that tells of the daemon.
#[derive(Clone, Copy, Debug, PartialEq, Eq)]
pub enum Page {
    /// How the daemon is.
    Health,
    /// What it has counted, as Prometheus reads it.
    Numbers,
    /// What it has counted, a line for each number.
    Status,
    /// The connections that it has, a line for each.
    Connections,
    /// How the keys of each name are used, as Prometheus reads it.
    Uses,
}

/// What a page tells.
#[derive(Clone, Copy, Debug, PartialEq, Eq)]
pub enum PageTold {
    /// The text of a daemon that is well.
    Well,
    /// The text of one that is not, which its health alone tells.
    Unwell,
}

/// Speaks for the daemon that a face belongs to.
pub trait Monitor: Draws {
    /// What it may say on a page that may tell of these keys: a text, and whether the daemon is
    /// well.
    ghost says: { Self → PlainPage → Option Table → List ℕ → PlainTold → Type 0 };

    /// How many requests were noted so far.
    ghost noted: { Self → ℕ };

    /// Whether its connections are to end.
    fn is_ending(&self) -> bool;

    /// The memory of tokens of the daemon.
    fn seen(&self) -> &SeenTokens;

    /// Appends the text of a page, which may tell of these keys, if there are any.
    fn tell(
        &self,
        page: Page,
        keys: Option<&KeyTable>,
        text: &mut Vec<u8>,
    ) -> Result<PageTold, AllocError>
        ensures says { IfOk result (λ told. (more : List ℕ)
            × (text.new.items ≡ text.old.items ++ more)
            × says self.now page (option_copied keys.entry) more told) }
        ensures unwell { result ≡ Ok PageTold.Unwell → page ≡ Page.Health };

    /// A request for anything but a page was answered.
    fn note(&mut self, request: &Noted<'_>)
        ensures { noted self.new ≡ noted self.old + 1 };
}

/// The page that a path names.
pub(crate) fn page_in(path: &[u8]) -> Option<Page>
    ensures { result ≡ page_in path.now }
{
    if path == HEALTH {
        Some(Page::Health)
    } else if path == NUMBERS {
        Some(Page::Numbers)
    } else if path == STATUS {
        Some(Page::Status)
    } else if path == CONNECTIONS {
        Some(Page::Connections)
    } else if path == USES {
        Some(Page::Uses)
    } else {
        None
    }
}

/// Fills a blank response with a page, if the face has it.
pub(crate) fn tell_page<S: Monitor>(
    alloc: Global,
    footing: Footing<'_>,
    monitor: &S,
    page: Page,
    response: &mut Response,
)
    requires { IsBlank response.old }
    ensures tells { TellsPage footing.entry.rules.pages page response.new }
    ensures shows { ShowsIf (has_page footing.entry.rules.pages page) (S.says monitor.now) page
        (told_keys footing.entry.rules.way footing.entry.keys.now) response.new }
{
    if !footing.rules.pages.has(page) {
        response.status = StatusCode::NOT_FOUND;
        return;
    }
    if fill_page(alloc, monitor, page, footing.told_keys(), response).is_err() {
        response.clear();
        response.status = StatusCode::SERVICE_UNAVAILABLE;
    }
}

fn fill_page<S: Monitor>(
    alloc: Global,
    monitor: &S,
    page: Page,
    keys: Option<&KeyTable>,
    response: &mut Response,
) -> Result<(), AllocError>
    requires { IsBlank response.old }
    ensures text { OnOk result (IsText page response.new) }
    ensures shows { OnOk result (Shows (S.says monitor.now) page (option_copied keys.entry)
        response.new) }
{
    let mut text = Vec::new(alloc);
    let told = monitor.tell(page, keys, &mut text)?;
    put_text(told_status(told), text.as_slice(), response)
}

/// The status of a page that tells that the daemon is well, or isn't.
fn told_status(told: PageTold) -> StatusCode
    ensures { result ≡ told_status told }
{
    match told {
        PageTold::Well => StatusCode::OK,
        PageTold::Unwell => StatusCode::SERVICE_UNAVAILABLE,
    }
}

/// Fills a blank response with a text.
fn put_text(status: StatusCode, text: &[u8], response: &mut Response) -> Result<(), AllocError>
    requires { IsBlank response.old }
    ensures { OnOk result (IsResponse status is_text text.now response.new) }
{
    response.status = status;
    response.add_header(
        CONTENT_TYPE,
        HeaderValue::from_static("text/plain; charset=utf-8"),
    )?;
    response.body.put_slice(text)
}

/// Tells that the connection is closed behind the response, where there is memory for it.
pub(crate) fn announce_close(response: &mut Response)
    ensures { MayClose response.old response.new }
{
    let _ = response.add_header(CONNECTION, HeaderValue::from_static("close"));
}
