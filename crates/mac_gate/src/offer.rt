//! What the connections of an address are answered by.

use crate::terms::HttpTerms;
use mac_decide::Rights;
use mac_page::Site;

/// How a daemon serves at an address.
#[derive(Drop)]
pub struct AddressTerms {
    /// How its connections are served.
    pub terms: HttpTerms,
    /// What is allowed there.
    pub rights: Rights,
}

/// What is offered at an address.
#[derive(Drop)]
pub enum Offer {
    /// A daemon's face.
    Daemon(AddressTerms),
    /// A site.
    Site(Site),
}
