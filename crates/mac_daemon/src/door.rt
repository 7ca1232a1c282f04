//! What stands behind the doors of a daemon's sockets.

ghost use Rattle.std.specs.Prelude.{◌≡◌, IfOk};

use mac_decide::Rights;
use std::alloc::{AllocError, Global};
use std::sync::Arc;

/// A further socket of `listen`, with what it allows.
#[derive(Drop)]
pub struct SideSocket<'a> {
    /// The path of the socket.
    pub path: &'a str,
    /// The permissions of the socket's file.
    pub permissions: u32,
    /// What the requests of its connections may do.
    pub rights: Rights,
}

/// What the connections of a door are given: what their requests may do.
pub type Gift = Arc<Rights, Global>;

/// What the connections of a door are given whose requests may do this.
pub fn give(alloc: Global, rights: Rights) -> Result<Gift, AllocError>
    ensures { IfOk result (λ gift. gift.value ≡ rights) }
{
    Ok(Arc::new(alloc, rights)?)
}
