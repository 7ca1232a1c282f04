//! How a face is set up.

use crate::page::Page;
use http::StatusCode;
use mac_decide::Rights;

/// Where facts are taken from. Each is believed as it comes, so none is taken by default.
#[derive(Clone, Copy, PartialEq, Eq)]
pub struct Sources {
    /// Each field `Macaroon-Fact`.
    pub header: bool,
    /// Each `fact` of the query of the request's own target.
    pub query: bool,
    /// The fields by which proxies tell what they were asked.
    pub forwarded: bool,
    /// Whether a path that is told may hold nothing that some servers read in a way of their own.
    pub strict: bool,
}

/// The status that grants.
#[derive(Clone, Copy, PartialEq, Eq)]
pub enum Granted {
    /// 200.
    Ok,
    /// 204.
    NoContent,
}

/// The calls that a face answers besides. Whoever may connect may call, so none is allowed by
/// default.
#[derive(Clone, Copy, PartialEq, Eq)]
pub struct Calls {
    /// New tokens, under each name's first key.
    pub mint: bool,
    /// Tokens with further caveats.
    pub attenuate: bool,
    /// What tokens say.
    pub inspect: bool,
    /// Which caveats of tokens hold.
    pub check: bool,
}

impl Calls {
    ghost use Rattle.std.specs.Prelude.{◌≡◌};
    ghost use Rattle.mac_http.specs.Calling.{no_calls};

    /// No call at all.
    pub fn none() -> Calls
        ensures { result ≡ no_calls }
    {
        Calls {
            mint: false,
            attenuate: false,
            inspect: false,
            check: false,
        }
    }
}

/// Which pages that tell of the daemon a face has.
#[derive(Clone, Copy, Debug, PartialEq, Eq)]
pub enum Pages {
    /// None.
    Nothing,
    /// Those that a gateway, a balancer and Prometheus ask for: its health and its metrics.
    Public,
    /// All of them.
    All,
}

impl Pages {
    ghost use Rattle.std.specs.Prelude.{◌≡◌};
    ghost use Rattle.mac_http.specs.Page.{has_page};

    /// Whether a page is among them.
    pub fn has(self, page: Page) -> bool
        ensures { result ≡ has_page self page }
    {
        match self {
            Pages::Nothing => false,
            Pages::Public => matches!(page, Page::Health | Page::Numbers),
            Pages::All => true,
        }
    }
}

/// The way by which a peer comes.
#[derive(Clone, Copy, PartialEq, Eq)]
pub enum Way {
    /// A Unix socket, which no page in a browser can open.
    Socket,
    /// A port, which any page in a browser of the machine can.
    Port,
}

/// What a face does with a request.
#[derive(Clone, Copy)]
pub struct Rules<'a> {
    pub sources: Sources,
    pub granted: Granted,
    pub calls: Calls,
    pub pages: Pages,
    /// What its address allows: to mint or not, and the names whose keys may be used.
    pub rights: &'a Rights,
    /// The way by which its peer comes.
    pub way: Way,
}

impl<'a> Rules<'a> {
    ghost use Rattle.std.specs.Prelude.{◌≡◌};
    ghost use Rattle.mac_http.specs.Calling.{allowed_calls};

    /// The calls that are answered: a mint only where its address allows it too.
    pub(crate) fn allowed_calls(self) -> Calls
        ensures { result ≡ allowed_calls self.entry }
    {
        Calls {
            mint: self.calls.mint && self.rights.may_mint,
            attenuate: self.calls.attenuate,
            inspect: self.calls.inspect,
            check: self.calls.check,
        }
    }
}

impl Granted {
    ghost use Rattle.std.specs.Prelude.{◌≡◌};
    ghost use Rattle.mac_http.specs.Saying.{granted_status};

    pub(crate) fn status(self) -> StatusCode
        ensures { result ≡ granted_status self }
    {
        match self {
            Granted::Ok => StatusCode::OK,
            Granted::NoContent => StatusCode::NO_CONTENT,
        }
    }
}
