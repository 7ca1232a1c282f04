//! How a server serves its connections.

ghost use Rattle.std.specs.Prelude.{◌≡◌};

use mac_decide::Rights;
use mac_http::{Calls, Granted, Pages, Rules, Sources, Way};
use std::time::Duration;

/// How the connections of a daemon are served.
#[derive(Clone, Copy)]
pub struct HttpTerms {
    /// Where facts are taken from.
    pub sources: Sources,
    /// The status that grants.
    pub granted: Granted,
    /// The calls that are answered.
    pub calls: Calls,
    /// The pages that tell of the daemon.
    pub pages: Pages,
    /// How many connections there are at a time.
    pub connections: usize,
    /// How long a peer may bring no whole request, and a write may wait.
    pub patience: Duration,
    /// The version of the program, which a page tells.
    pub version: &'static str,
}

/// What the connections of a server are held to.
#[derive(Clone, Copy)]
pub struct Bounds {
    /// How many there are at a time.
    pub connections: usize,
    /// How long a peer may bring no whole request, and a write may wait.
    pub patience: Duration,
    /// Whether one gives way to a further one: that to which nothing was sent for longest, as far
    /// as the loops looked. Else the further one is closed.
    pub gives_way: bool,
}

impl HttpTerms {
    /// What they are held to.
    pub fn bounds(&self) -> Bounds {
        Bounds {
            connections: self.connections,
            patience: self.patience,
            gives_way: true,
        }
    }

    /// What the face of a connection does with a request, where its address allows this and its
    /// peer comes by this way.
    pub(crate) fn rules<'a>(&self, rights: &'a Rights, way: Way) -> Rules<'a>
        ensures sources { result.sources ≡ self.now.sources }
        ensures granted { result.granted ≡ self.now.granted }
        ensures calls { result.calls ≡ self.now.calls }
        ensures pages { result.pages ≡ self.now.pages }
        ensures rights { result.rights.now ≡ rights.now }
        ensures way { result.way ≡ way }
    {
        Rules {
            sources: self.sources,
            granted: self.granted,
            calls: self.calls,
            pages: self.pages,
            rights,
            way,
        }
    }
}
