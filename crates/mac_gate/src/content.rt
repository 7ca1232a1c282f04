//! What the connections of a server are answered by: faces of a daemon, or a site.

ghost use Rattle.std.specs.Prelude.{◌≡◌, [], ◌∷◌, IfOk, replicate};

use crate::offer::{AddressTerms, Offer};
use crate::terms::HttpTerms;
use mac_board::{Follower, Followers};
use mac_decide::Rights;
use mac_page::Site;
use std::alloc::{AllocError, Global};
use std::sync::Arc;

/// What answers the connections of a loop.
#[derive(Drop)]
pub struct Content {
    // What is offered to them.
    pub(crate) offer: Arc<Offer, Global>,
    // Follows the key tables, where that is a daemon's.
    pub(crate) keys: Option<Follower>,
}

impl Content {
    ghost use Rattle.mac_gate.specs.Offered.{offers_of};

    /// Faces of a daemon for so many loops, under the tables that are followed.
    pub fn faces(
        alloc: Global,
        followers: Followers,
        rights: Rights,
        loops: usize,
        terms: HttpTerms,
    ) -> Result<Vec<Content>, AllocError>
        ensures { IfOk result (λ made. offers_of made.items
            ≡ replicate loops (Offer.Daemon (record { terms = terms; rights = rights }))) }
    {
        let offer = Arc::new(alloc, Offer::Daemon(AddressTerms { terms, rights }))?;
        let mut contents = Vec::with_capacity(alloc, loops)?;
        for _ in 0..loops {
            contents.push(Content {
                offer: Arc::try_clone(&offer)?,
                keys: Some(followers.follower()?),
            })?;
        }
        Ok(contents)
    }

    /// A site, for one loop.
    pub fn site(alloc: Global, site: Site) -> Result<Vec<Content>, AllocError>
        ensures { IfOk result (λ made. offers_of made.items ≡ Offer.Site site ∷ []) }
    {
        let mut contents = Vec::with_capacity(alloc, 1)?;
        contents.push(Content {
            offer: Arc::new(alloc, Offer::Site(site))?,
            keys: None,
        })?;
        Ok(contents)
    }
}
