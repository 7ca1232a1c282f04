//! How far a daemon is: whether it has begun, was told to end, and has ended.

use crate::notices::Notices;
use crate::standing::{Instruction, Standing};
use mac_sockets::Shutter;
use std::alloc::{AllocError, Global};
use std::sync::{Arc, Condvar, CondvarTimeouts, Mutex, Wait};
use std::time::{Clock, Duration};

/// What a daemon that may be told to end shares with who tells it.
#[derive(Drop)]
pub struct DaemonEnd {
    standing: Mutex<Standing>,
    change: Condvar,
    // They shut where connections of further servers come in.
    shutters: Mutex<Vec<Arc<Shutter, Global>>>,
}

impl DaemonEnd {
    /// The end of a daemon that hasn't begun.
    pub fn new(alloc: Global) -> Result<Arc<DaemonEnd, Global>, AllocError> {
        let ending = DaemonEnd {
            standing: Mutex::new(Standing::new()),
            change: Condvar::new(),
            shutters: Mutex::new(Vec::new(alloc)),
        };
        Ok(Arc::new(alloc, ending)?)
    }

    /// Tells the daemon to end: once what it has read is answered, or at once where it was told
    /// before. Who tells it shuts its entrance behind that. Those of further servers are shut here.
    pub fn tell<R: Wait>(&self, rt: &R) {
        let mut standing = self.standing.lock(rt);
        let own = &mut *standing;
        own.tell();
        drop(standing);
        self.change.notify_all();
        self.shut_all(rt);
    }

    /// Shuts where connections of further servers come in.
    fn shut_all<R: Wait>(&self, rt: &R) {
        let shutters = self.shutters.lock(rt);
        for shutter in shutters.iter() {
            shutter.shut();
        }
    }

    /// Tells a daemon to end that has another one's socket at a path, where it wasn't told before,
    /// and logs that. It is none of the calls that cut off what isn't done. Whether it wasn't told
    /// before: then its entrance is to be shut. Nobody else tells it to end before that line is
    /// posted, so its drain is logged later.
    pub fn tell_replaced<R: Wait + Clock>(&self, rt: &R, notices: &Notices, path: &str) -> bool {
        let mut standing = self.standing.lock(rt);
        let own = &mut *standing;
        if !own.replace() {
            return false;
        }
        notices.tell_replaced(rt, path);
        drop(standing);
        self.change.notify_all();
        self.shut_all(rt);
        true
    }

    /// Tells the daemon to look.
    pub fn prompt<R: Wait>(&self, rt: &R) {
        let mut standing = self.standing.lock(rt);
        let own = &mut *standing;
        own.prompt();
        drop(standing);
        self.change.notify_all();
    }

    /// Notes that the daemon has begun.
    pub fn begin<R: Wait>(&self, rt: &R) {
        let mut standing = self.standing.lock(rt);
        standing.has_begun = true;
        drop(standing);
        self.change.notify_all();
    }

    /// Notes that the daemon has ended, but for its further servers.
    pub fn finish<R: Wait>(&self, rt: &R) {
        let mut standing = self.standing.lock(rt);
        standing.is_over = true;
        drop(standing);
        self.change.notify_all();
    }

    /// Whether the daemon was told to end, or has ended by itself.
    pub fn is_ending<R: Wait>(&self, rt: &R) -> bool {
        let standing = self.standing.lock(rt);
        standing.is_ending()
    }

    /// Waits until the daemon has begun, or has ended. Whether it has begun.
    pub fn await_begin<R: Wait>(&self, rt: &R) -> bool {
        let standing = self.standing.lock(rt);
        let waits = |standing: &mut Standing| !standing.has_begun && !standing.is_over;
        let standing = self.change.wait_while(rt, standing, waits);
        standing.has_begun
    }

    /// Waits until the daemon is told something, for so long at most. One that has ended by itself
    /// is told to end.
    pub fn await_call<R: Wait + Clock>(&self, rt: &R, patience: Duration) -> Instruction {
        let standing = self.standing.lock(rt);
        let waits = |standing: &mut Standing| !standing.has_call();
        let (mut standing, _) = self
            .change
            .wait_timeout_while(rt, standing, patience, waits);
        let own = &mut *standing;
        own.hear()
    }

    /// Waits until the daemon has ended, and its further servers too, for so many seconds at most,
    /// and no longer than until it is told a second time. Whether all have ended.
    pub fn await_end<R: Wait + Clock>(&self, rt: &R, seconds: u64) -> bool {
        let standing = self.standing.lock(rt);
        let patience = Duration::from_secs(seconds);
        let waits = |standing: &mut Standing| !standing.is_cut() && !standing.is_empty();
        let (standing, _) = self
            .change
            .wait_timeout_while(rt, standing, patience, waits);
        standing.is_empty()
    }

    /// Counts a further server, which takes connections until it is shut so.
    pub fn open_server<R: Wait>(
        &self,
        rt: &R,
        shutter: &Arc<Shutter, Global>,
    ) -> Result<(), AllocError> {
        let mut shutters = self.shutters.lock(rt);
        let all = &mut *shutters;
        all.push(Arc::try_clone(shutter)?)?;
        drop(shutters);
        let mut standing = self.standing.lock(rt);
        let own = &mut *standing;
        own.open_server();
        let is_late = own.is_ending();
        drop(standing);
        if is_late {
            shutter.shut();
        }
        Ok(())
    }

    /// Counts one less: it takes no connections any more.
    pub fn close_server<R: Wait>(&self, rt: &R) {
        let mut standing = self.standing.lock(rt);
        let own = &mut *standing;
        own.close_server();
        drop(standing);
        self.change.notify_all();
    }

    /// Counts one more connection of a further server.
    pub fn enter<R: Wait>(&self, rt: &R) {
        let mut standing = self.standing.lock(rt);
        let own = &mut *standing;
        own.enter();
    }

    /// Counts one less.
    pub fn leave<R: Wait>(&self, rt: &R) {
        let mut standing = self.standing.lock(rt);
        let own = &mut *standing;
        own.leave();
        drop(standing);
        self.change.notify_all();
    }

    /// How many connections the further servers have.
    pub fn connections<R: Wait>(&self, rt: &R) -> u64 {
        let standing = self.standing.lock(rt);
        standing.connections()
    }
}
