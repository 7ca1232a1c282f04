//! How a daemon is told to end.

use mac_host::{DaemonEnd, Notices};
use mac_sockets::Shutter;
use std::alloc::{AllocError, Global};
use std::sync::{Arc, Wait};
use std::time::Clock;

/// Tells a daemon to end, and shuts the entrance of its own socket.
#[derive(Drop)]
pub struct Stop {
    ending: Arc<DaemonEnd, Global>,
    shutter: Arc<Shutter, Global>,
}

impl Stop {
    /// That of a daemon whose connections come in through the entrance of this shutter.
    pub fn new(
        ending: &Arc<DaemonEnd, Global>,
        shutter: &Arc<Shutter, Global>,
    ) -> Result<Stop, AllocError> {
        Ok(Stop {
            ending: Arc::try_clone(ending)?,
            shutter: Arc::try_clone(shutter)?,
        })
    }

    /// Tells the daemon to end: once what it has read is answered, or at once where it was told
    /// before.
    pub fn tell<R: Wait>(&self, rt: &R) {
        self.ending.tell(rt);
        self.shutter.shut();
    }

    /// Tells a daemon to end that has another one's socket at a path, where it wasn't told before,
    /// and logs that. Its entrance is shut behind that line, so its drain is logged later.
    pub fn tell_replaced<R: Wait + Clock>(&self, rt: &R, notices: &Notices, path: &str) {
        if self.ending.tell_replaced(rt, notices, path) {
            self.shutter.shut();
        }
    }

    /// Tells the daemon to look.
    pub fn prompt<R: Wait>(&self, rt: &R) {
        self.ending.prompt(rt);
    }
}
