//! What a daemon finds in the environment that it is started in.

use crate::fault::DaemonFault;
use crate::stop::Stop;
use mac_host::Notices;
use mac_system::{NotifySocket, Signal, Signals, is_journal};
use std::alloc::{Alloc, Global};
use std::env::Env;
use std::fs::Files;
use std::sync::Wait;
use std::thread;
use std::thread::Threads;
use std::time::{Clock, Duration};

/// How many milliseconds to wait where the system gives no signals, before they are read again.
const PAUSE_MILLIS: u64 = 1_000;

/// What a daemon is given by who starts it.
#[derive(Drop)]
pub struct Surroundings {
    /// Where signals are read that were held back for it.
    pub signals: Option<Signals>,
    /// The service manager that waits to be told.
    pub manager: Option<NotifySocket>,
    /// Whether systemd's journal reads what it says.
    pub is_journal: bool,
}

impl Surroundings {
    /// What the environment of this process names.
    pub fn find<R: Env + Alloc<A = Global> + Files>(rt: &R) -> Surroundings {
        Surroundings {
            signals: Signals::of_environment(rt),
            manager: NotifySocket::of_environment(rt),
            is_journal: is_journal(rt),
        }
    }

    /// Nothing at all.
    pub fn none() -> Surroundings {
        Surroundings {
            signals: None,
            manager: None,
            is_journal: false,
        }
    }
}

/// Starts the thread that tells a daemon to end at SIGTERM and SIGINT, and to look at SIGHUP. Where
/// signals can't be read that is logged, and they are read again after a pause.
pub fn heed_signals<R>(
    rt: R,
    signals: Signals,
    stop: Stop,
    notices: Notices,
) -> Result<(), DaemonFault>
where
    R: Threads + Wait + Clock + Copy + Send + 'static,
{
    match thread::spawn(&rt, move || heed_each(&rt, signals, &stop, &notices)) {
        Ok(_) => Ok(()),
        Err(_) => Err(DaemonFault::NoThread),
    }
}

fn heed_each<R: Wait + Clock>(rt: &R, signals: Signals, stop: &Stop, notices: &Notices) {
    for _ in rt.forever() {
        match signals.wait() {
            Ok(Signal::HangUp) => stop.prompt(rt),
            Ok(Signal::Interrupt | Signal::Terminate) => stop.tell(rt),
            Err(fault) => {
                notices.tell_system(rt, "signals can't be read", &fault);
                thread::sleep(rt, Duration::from_millis(PAUSE_MILLIS));
            }
        }
    }
}
