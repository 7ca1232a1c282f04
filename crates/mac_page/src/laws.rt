//! Laws of the definitions, as functions whose contracts state them.

ghost use Rattle.std.specs.Prelude.{◌≡◌, ◌⊎◌, [], ℕ, List, None, Some, codes, false, string_bytes};
ghost use Rattle.std.specs.Prelude.{Option, true};
ghost use Rattle.http.specs.Request.{head_of};
ghost use Rattle.http.specs.declared.request.Parts.{Parts};
ghost use Rattle.http.specs.declared.request.Request.{Request as PlainRequest};
ghost use Rattle.http_server.specs.Connection.{config_of, history};
ghost use Rattle.http_server.specs.History.{new_history};
ghost use Rattle.http_server.specs.declared.connection.Connection.{Connection};
ghost use Rattle.http_server.specs.declared.response.Response.{Response};
ghost use Rattle.http_uri.specs.Uri.{uri_path};
ghost use Rattle.http_server.specs.Response.{IsResponse};
ghost use Rattle.mac_http.specs.Facts.{one_value};
ghost use Rattle.mac_http.specs.Saying.{IsOverloaded};
ghost use Rattle.mac_http.specs.Turn.{IsTurn};
ghost use Rattle.mac_http.specs.declared.attending.TheConstants.{CONFIG};
ghost use Rattle.mac_page.specs.declared.site.Site.{Site as PlainSite};
ghost use Rattle.mac_page.specs.declared.route.File.{File};
ghost use Rattle.mac_page.specs.Home.{is_at_home, is_shown};
ghost use Rattle.mac_page.specs.Paged.{IsPaged};
ghost use Rattle.mac_page.specs.Route.{file_in};
ghost use Rattle.mac_page.specs.Told.{Responds, guards};

use http_server::Service;

/// What isn't asked of the site by its own page gets a 403 without a body, whatever it asks for but
/// a file; or a response that tells that there was no memory.
pub fn others_are_told_nothing()
    ensures { (site : PlainSite) (request : PlainRequest (List ℕ)) (response : Response)
        → file_in (uri_path (head_of request).uri) ≡ None
        → is_at_home site (head_of request) ≡ false → Responds site request response
        → IsResponse 403 guards [] response ⊎ IsOverloaded response }
{}

/// A file gets the same where a field says that another page asks for it, or that it is asked of
/// another site.
pub fn others_are_shown_nothing()
    ensures { (site : PlainSite) (request : PlainRequest (List ℕ)) (response : Response)
        (file : File) → file_in (uri_path (head_of request).uri) ≡ Some file
        → is_shown site (head_of request) ≡ false → Responds site request response
        → IsResponse 403 guards [] response ⊎ IsOverloaded response }
{}

/// What is asked of the site by its own page has one field `Macaroond-Page`, and its value is the
/// secret of the page.
pub fn page_brings_its_secret()
    ensures { (site : PlainSite) (head : Parts) → is_at_home site head ≡ true
        → one_value head.headers (codes "macaroond-page") ≡ Some site.secrets.of_page }
{}

/// What is asked of the site has one field `Host`, and its value is the site's address or the
/// name of this machine, with the port.
pub fn host_is_the_site()
    ensures { (site : PlainSite) (head : Parts) → is_at_home site head ≡ true
        → (one_value head.headers (codes "host") ≡ Some (string_bytes site.address))
        ⊎ (one_value head.headers (codes "host") ≡ Some (string_bytes site.local)) }
{}

/// A service that answers each request as a site does, and stays that site's, as a
/// [`PageFace`](crate::PageFace) does, has written to a connection, from its begin to the end of
/// each of its turns, the responses that the site has for its requests, in order, each once.
pub fn turns_are_paged<S: Service>()
    ensures { (site : S → PlainSite)
        → ((one : S) (request : PlainRequest (List ℕ)) (response : Response) (other : S)
        → S.answers one request response other
        → (site other ≡ site one) × Responds (site one) request response)
        → (unread left before after : Option (List ℕ)) (first last : S) (old new : Connection)
        → history old ≡ new_history → config_of old ≡ CONFIG
        → IsTurn S.answers unread left before after first last old new
        → IsPaged (site first) unread left before after }
{}
