//! A daemon as its servers have it.

use crate::ending::DaemonEnd;
use crate::notices::Notices;
use crate::numbers::Numbers;
use crate::roster::Roster;
use mac_board::{ListNews, News};
use mac_decide::SeenTokens;
use mac_sockets::{SharedBudget, Shutter};
use std::alloc::{AllocError, Global};
use std::sync::{Arc, Wait};
use std::time::Clock;

/// What a server has of its daemon: its end, its log, its numbers, the list of the connections of
/// its own socket, the memory of tokens, and the budget of what connections hold.
#[derive(Drop)]
pub struct Host {
    ending: Arc<DaemonEnd, Global>,
    notices: Notices,
    numbers: Numbers,
    roster: Arc<Roster, Global>,
    seen: SeenTokens,
    budget: Arc<SharedBudget, Global>,
}

impl Host {
    /// That of a daemon with these.
    pub fn new(
        ending: Arc<DaemonEnd, Global>,
        notices: Notices,
        numbers: Numbers,
        roster: Arc<Roster, Global>,
        seen: SeenTokens,
        budget: Arc<SharedBudget, Global>,
    ) -> Host {
        Host {
            ending,
            notices,
            numbers,
            roster,
            seen,
            budget,
        }
    }

    /// That of a server which is no daemon's: nothing is logged, listed or remembered, and its
    /// connections have so many bytes of memory together.
    pub fn alone<R: Wait + Clock>(rt: &R, alloc: Global, memory: u64) -> Result<Host, AllocError> {
        Ok(Host {
            ending: DaemonEnd::new(alloc)?,
            notices: Notices::none(alloc),
            numbers: Numbers::begin(rt, alloc)?,
            roster: Roster::new(rt, alloc, 1, Vec::new(alloc))?,
            seen: SeenTokens::none(),
            budget: SharedBudget::new(alloc, memory)?,
        })
    }

    /// The same, for another server.
    pub fn share(&self) -> Result<Host, AllocError> {
        Ok(Host {
            ending: Arc::try_clone(&self.ending)?,
            notices: self.notices.share()?,
            numbers: self.numbers.share()?,
            roster: Arc::try_clone(&self.roster)?,
            seen: self.seen.share()?,
            budget: Arc::try_clone(&self.budget)?,
        })
    }

    /// How far the daemon is.
    pub fn ending(&self) -> &DaemonEnd {
        &self.ending
    }

    /// What the daemon logs.
    pub fn notices(&self) -> &Notices {
        &self.notices
    }

    /// What the daemon counts.
    pub fn numbers(&self) -> &Numbers {
        &self.numbers
    }

    /// The connections of the daemon's own socket.
    pub fn roster(&self) -> &Roster {
        &self.roster
    }

    /// The memory of tokens.
    pub fn seen(&self) -> &SeenTokens {
        &self.seen
    }

    /// The budget of what all connections hold.
    pub fn budget(&self) -> &Arc<SharedBudget, Global> {
        &self.budget
    }

    /// Tells what came of a look at the key file, if there is anything to be told.
    pub fn tell_keys<R: Wait + Clock>(&self, rt: &R, file: &str, news: News) {
        self.numbers.note_keys(rt, &news);
        self.notices.tell_keys(rt, file, news);
    }

    /// Tells what came of a look at the list of tokens that were taken back, if there is anything
    /// to be told.
    pub fn tell_revoked<R: Wait + Clock>(&self, rt: &R, file: &str, news: ListNews) {
        self.numbers.note_revoked(&news);
        self.notices.tell_revoked(rt, file, news);
    }

    /// Counts a further server. The end shuts it so, and waits until it takes no connections any
    /// more, and has none.
    pub fn open_server<R: Wait>(
        &self,
        rt: &R,
        shutter: &Arc<Shutter, Global>,
    ) -> Result<(), AllocError> {
        self.ending.open_server(rt, shutter)
    }

    /// Counts a further server less: it takes no connections any more.
    pub fn close_server<R: Wait>(&self, rt: &R) {
        self.ending.close_server(rt);
    }

    /// Counts one more connection of a further server.
    pub fn enter<R: Wait>(&self, rt: &R) {
        self.ending.enter(rt);
        self.numbers.count_http_begun();
    }

    /// Counts and tells that a connection of a further server is ended, since it holds most of the
    /// memory of all.
    pub fn tell_heavy<R: Wait + Clock>(&self, rt: &R) {
        self.numbers.count_heavy();
        self.notices.tell_heavy(rt);
    }

    /// Counts one less.
    pub fn leave<R: Wait>(&self, rt: &R) {
        self.numbers.count_http_ended();
        self.ending.leave(rt);
    }
}
