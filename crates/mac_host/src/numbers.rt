//! What a daemon counts, for all its threads. No contract speaks of the counts.

use crate::traffic::Traffic;
use mac_board::{ListNews, Moments, News};
use mac_count::{AnsweredRequest, Counters, Number, REQUESTS, Snapshot};
use mac_system::SystemMoments;
use std::alloc::{AllocError, Global};
use std::sync::Arc;
use std::time::Clock;

/// The counters of a daemon, one place for each thing that is counted.
#[derive(Drop)]
pub struct Numbers {
    counters: Arc<Counters, Global>,
}

impl Numbers {
    /// Those of a daemon that begins now.
    pub fn begin<R: Clock>(rt: &R, alloc: Global) -> Result<Numbers, AllocError> {
        let counters = Arc::new(alloc, Counters::new())?;
        counters.set(Number::StartedAt, seconds(rt));
        Ok(Numbers { counters })
    }

    /// The same counters, for another thread.
    pub fn share(&self) -> Result<Numbers, AllocError> {
        let counters = Arc::try_clone(&self.counters)?;
        Ok(Numbers { counters })
    }

    /// What they show now.
    pub fn snapshot(&self) -> Snapshot {
        self.counters.snapshot()
    }

    /// A connection was accepted, or was closed since there are as many as there may be.
    pub fn count_accepted(&self, is_room: bool) {
        if is_room {
            self.counters.add(Number::Connections, 1);
            self.counters.add(Number::ConnectionsPlain, 1);
            self.counters.add(Number::ConnectionsTotal, 1);
        } else {
            self.counters.add(Number::ConnectionsAtLimit, 1);
        }
    }

    /// A connection has ended, which waits for no worker.
    pub fn count_ended(&self, is_faulty: bool) {
        self.counters.take(Number::Connections, 1);
        self.counters.take(Number::ConnectionsPlain, 1);
        if is_faulty {
            self.counters.add(Number::ConnectionsFaulty, 1);
        }
    }

    /// A connection was ended since it held most of the memory of all.
    pub fn count_heavy(&self) {
        self.counters.add(Number::ConnectionsHeavy, 1);
    }

    /// A turn of a loop has ended that took so many microseconds, in which so many requests were
    /// answered, each kind at its place, and this came and went.
    pub fn count_turn(&self, requests: &[u64; REQUESTS], micros: u64, traffic: Traffic) {
        self.counters.add_requests(requests, micros);
        self.add_some(Number::BytesIn, traffic.came);
        self.add_some(Number::BytesOut, traffic.went);
    }

    /// A connection waits for a worker's answer.
    pub fn count_widened(&self) {
        self.counters.take(Number::ConnectionsPlain, 1);
        self.counters.add(Number::ConnectionsWide, 1);
    }

    /// A connection waits for a worker no more, for which it did so many microseconds. What it has
    /// had answered then, if anything.
    pub fn count_narrowed(&self, answered: Option<AnsweredRequest>, micros: u64) {
        self.counters.take(Number::ConnectionsWide, 1);
        self.counters.add(Number::ConnectionsPlain, 1);
        if let Some(request) = answered {
            self.counters.add(Number::RequestsWide, 1);
            self.counters.answered(request, micros);
        }
    }

    /// A connection over HTTP has begun.
    pub fn count_http_begun(&self) {
        self.counters.add(Number::ConnectionsHttp, 1);
    }

    /// One has ended.
    pub fn count_http_ended(&self) {
        self.counters.take(Number::ConnectionsHttp, 1);
    }

    /// A request was answered over HTTP, which took so many microseconds.
    pub fn count_request(&self, request: AnsweredRequest, micros: u64) {
        self.counters.answered(request, micros);
    }

    /// The keys that were read have so many names.
    pub fn set_keys<R: Clock>(&self, rt: &R, names: usize) {
        self.counters.set(Number::KeyNames, names as u64);
        self.counters.set(Number::KeysReadAt, seconds(rt));
        self.counters.set(Number::KeysRefused, 0);
    }

    /// Notes what came of a look at the key file.
    pub fn note_keys<R: Clock>(&self, rt: &R, news: &News) {
        match news {
            News::Nothing => {}
            News::Taken(names) => self.set_keys(rt, *names),
            News::Refused(_) => self.counters.set(Number::KeysRefused, 1),
        }
    }

    /// The list of tokens that were taken back has so many lines.
    pub fn set_revoked(&self, lines: usize) {
        self.counters.set(Number::Revoked, lines as u64);
    }

    /// Notes what came of a look at that list.
    pub fn note_revoked(&self, news: &ListNews) {
        if let ListNews::Taken(lines) = news {
            self.set_revoked(*lines);
        }
    }

    /// Adds, where there is anything to be added.
    fn add_some(&self, number: Number, count: u64) {
        if count > 0 {
            self.counters.add(number, count);
        }
    }
}

/// The seconds since 1970, or 0 where the clock tells none.
fn seconds<R: Clock>(rt: &R) -> u64 {
    SystemMoments::new(rt).tell().unwrap_or(0)
}
