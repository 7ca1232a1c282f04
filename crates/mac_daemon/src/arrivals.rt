//! What becomes of the connections that a daemon accepts.

ghost use Rattle.std.specs.Prelude.{◌≡◌, [], ◌∷◌, ◌++◌};
ghost use Rattle.mac_daemon.specs.Weights.{AreSorted};

use crate::accepting::{Fate, Newcomer, enter};
use crate::running::LentParts;
use mac_host::Badge;
use mac_loop::{Origin, Register};
use mac_queue::History;
use std::sync::Wait;
use std::time::Clock;

/// The connections that were accepted: each was handed to a loop, or closed. Contracts alone see
/// which: the lists take no room.
#[derive(Drop)]
pub(crate) struct Arrivals {
    accepted: History<Badge>,
    handed: History<Badge>,
    // Those that were admitted, and then no loop had memory or room for.
    returned: History<Badge>,
    // Those that weren't admitted: memory ran out, or the system failed.
    refused: History<Badge>,
    ghost sorted: { AreSorted accepted handed returned refused },
}

impl Arrivals {
    ghost use Rattle.mac_daemon.specs.Arrivals.{KeepsRegister};

    /// No connection was accepted.
    pub(crate) fn none() -> Arrivals
        ensures accepted { result.accepted ≡ [] }
        ensures handed { result.handed ≡ [] }
        ensures returned { result.returned ≡ [] }
    {
        Arrivals {
            accepted: History::new(),
            handed: History::new(),
            returned: History::new(),
            refused: History::new(),
        }
    }

    /// Admits a connection that was accepted, and hands it to a loop, or closes it.
    pub(crate) fn enter<O: Origin, R: Wait + Clock>(
        &mut self,
        rt: &R,
        newcomer: Newcomer,
        register: &mut Register<O>,
        lent: &LentParts<'_, O>,
    )
        ensures accepted { self.new.accepted ≡ self.old.accepted ++ newcomer.badge ∷ [] }
        ensures registered { KeepsRegister newcomer self.old register.old self.new register.new }
    {
        let badge = newcomer.badge;
        self.accepted.add(&badge);
        match enter(rt, newcomer, register, lent) {
            Fate::Handed(enqueued) => self.handed.add(enqueued.badge()),
            Fate::Returned => self.returned.add(&badge),
            Fate::Refused => self.refused.add(&badge),
        }
    }
}
