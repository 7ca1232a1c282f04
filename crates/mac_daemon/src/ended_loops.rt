//! The loops of a daemon that have ended.

ghost use Rattle.std.specs.Prelude.{◌≡◌, [], ◌∷◌, ◌++◌, map, sum_by};
ghost use Rattle.mac_daemon.specs.Given.{count_given};
ghost use Rattle.mac_loop.specs.Gone.{count_gone};

use mac_loop::Outcomes;
use mac_queue::History;

/// What became of the connections that loops were given which have ended: each loop handed on,
/// ended or turned away as many as it was given, and so did all together. Contracts alone see
/// which: the list takes no room.
#[derive(Drop)]
pub(crate) struct EndedLoops {
    outcomes: History<Outcomes>,
    ghost settled: { map count_given outcomes ≡ map count_gone outcomes },
    ghost summed: { sum_by count_given outcomes ≡ sum_by count_gone outcomes },
}

impl EndedLoops {
    ghost use Rattle.mac_daemon.specs.EndedLoops.{outcomes_of};

    /// None has ended.
    pub(crate) fn none() -> EndedLoops
        ensures { outcomes_of result ≡ [] }
    {
        EndedLoops {
            outcomes: History::new(),
        }
    }

    /// One more has.
    pub(crate) fn add(&mut self, outcomes: &Outcomes)
        requires { count_given outcomes.now ≡ count_gone outcomes.now }
        ensures { outcomes_of self.new ≡ outcomes_of self.old ++ outcomes.now ∷ [] }
    {
        self.outcomes.add(outcomes);
    }
}
