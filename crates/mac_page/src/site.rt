//! What is served.

use crate::secret::Secrets;
use mac_keys::KeyTable;

/// The texts of the files.
#[derive(Clone, Copy)]
pub struct SiteTexts {
    /// The document, in HTML.
    pub document: &'static [u8],
    /// Its style, in CSS.
    pub style: &'static [u8],
    /// What it does, in JavaScript.
    pub script: &'static [u8],
}

/// A site, as one address serves it.
#[derive(Drop)]
pub struct Site {
    /// The texts of its files.
    pub texts: SiteTexts,
    /// The address and the port that it is served at, as a browser names them.
    pub address: String,
    /// The name of this machine with the same port.
    pub local: String,
    /// What its page and it know alone.
    pub secrets: Secrets,
    /// The keys under which it mints and verifies.
    pub keys: KeyTable,
    /// Whether they are a file's. Else there are none, and nothing is told of their names.
    pub has_keys: bool,
}
