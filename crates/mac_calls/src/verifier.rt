//! What a verify is answered by.

use mac_keys::{Keys, RevokedList};

/// The keys of a name, and what was taken back.
#[derive(Clone, Copy)]
pub struct Verifier<'a> {
    /// The keys.
    pub keys: &'a Keys,
    /// The name.
    pub name: &'a [u8],
    /// What was taken back, of all names.
    pub revoked: &'a RevokedList,
}
