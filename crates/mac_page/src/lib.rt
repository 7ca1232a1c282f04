//! The page that a browser on this machine is shown: three files, and the calls that they ask for.
//!
//! A [`PageFace`] is a [`Service`](http_server::Service) that answers for a [`Site`]. The files are
//! the same for everyone, and tell nothing. Whatever else isn't asked by the site's own page, which
//! alone has its secret, is refused before anything else. Calls are answered by `mac_calls`. Who
//! has the sockets answers a connection by turns of `mac_http`.
#![tactic(auto)]

mod face;
mod home;
pub mod laws;
mod route;
mod saying;
mod secret;
mod site;
mod told;

pub use face::PageFace;
pub use route::File;
pub use secret::{Secret, Secrets};
pub use site::{Site, SiteTexts};
pub use told::SiteTold;
