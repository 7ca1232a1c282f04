//! The service of one connection.

ghost use Rattle.std.specs.Prelude.{◌≡◌};
ghost use Rattle.http_server.specs.Response.{IsBlank};
ghost use Rattle.mac_page.specs.Told.{Responds};

use crate::saying::respond;
use crate::site::Site;
use bytes::Bytes;
use http::{Request, StatusCode};
use http_server::{Response, Service};
use mac_calls::Draws;
use std::alloc::{AllocError, Global};

/// Answers the requests of one connection to a site.
#[derive(Drop)]
pub struct PageFace<'a, D> {
    alloc: Global,
    site: &'a Site,
    draws: D,
}

impl<'a, D: Draws> PageFace<'a, D> {
    pub fn new(alloc: Global, site: &'a Site, draws: D) -> PageFace<'a, D>
        ensures { result.site ≡ site.entry }
    {
        PageFace { alloc, site, draws }
    }
}

impl<'a, D: Draws> Service for PageFace<'a, D> {
    // Each response is the one to its request, and the site stays.
    ghost answers = { λ old request response new.
        (new.site ≡ old.site) × Responds old.site.now request response };

    fn call(
        &mut self,
        request: &Request<Bytes>,
        response: &mut Response,
    ) -> Result<(), AllocError> {
        answer(self.alloc, self.site, &self.draws, request, response);
        Ok(())
    }
}

/// Fills a blank response to a request. Without random bytes it is a 503 without fields.
fn answer<D: Draws>(
    alloc: Global,
    site: &Site,
    draws: &D,
    request: &Request<Bytes>,
    response: &mut Response,
)
    requires { IsBlank response.old }
    ensures { Responds site.now request.now response.new }
{
    match draws.draw() {
        Some(drawn) => respond(alloc, site, &drawn, request, response),
        None => response.status = StatusCode::SERVICE_UNAVAILABLE,
    }
}
