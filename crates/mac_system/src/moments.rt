//! The system's clock, for who answers requests.

use mac_board::Moments;
use mac_queue::History;
use std::time::{Clock, SystemTime, UNIX_EPOCH};

/// The system's clock.
#[derive(Drop)]
pub struct SystemMoments<'a, R> {
    rt: &'a R,
    told: History<Option<u64>>,
}

impl<'a, R> SystemMoments<'a, R> {
    /// A clock that has told nothing yet.
    pub fn new(rt: &'a R) -> SystemMoments<'a, R> {
        SystemMoments {
            rt,
            told: History::new(),
        }
    }
}

impl<'a, R: Clock> Moments for SystemMoments<'a, R> {
    ghost told = { λ moments. moments.told };

    fn tell(&mut self) -> Option<u64> {
        let moment = seconds(self.rt);
        self.told.add(&moment);
        moment
    }
}

/// The second of the system's clock; none before 1970.
fn seconds<R: Clock>(rt: &R) -> Option<u64> {
    let Ok(now) = SystemTime::now(rt) else {
        return None;
    };
    match now.duration_since(UNIX_EPOCH) {
        Ok(since) => Some(since.as_secs()),
        Err(_) => None,
    }
}
