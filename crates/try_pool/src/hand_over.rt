//! Slips that go through a ring, both ends in one thread.

ghost use Rattle.mac_order.specs.Ring.{IsSameIntake, IsSameOutlet};

use crate::digits::Digits;
use crate::fault::RunFault;
use crate::runs::Outcome;
use mac_order::{Answer, Intake, Next, Outlet, make_ring, meet};
use std::alloc::Global;

/// What a ring has done once so many slips went through it, one at a time.
pub(crate) fn totals(alloc: Global, slips: u64) -> Result<Outcome, RunFault> {
    let (mut intake, mut outlet) = make_ring::<Digits>(alloc)?;
    let mut is_right = true;
    for job in 0..slips {
        is_right &= hand_over(alloc, &mut intake, &mut outlet, job);
    }
    if is_right {
        Ok(Outcome::Ring(meet(&mut intake, &mut outlet)))
    } else {
        Err(RunFault::Wrong)
    }
}

/// A slip's whole way: into the ring, out of it, and its reply released. Whether it is the reply to
/// the job, at the place of the job's number.
pub(crate) fn hand_over(
    alloc: Global,
    intake: &mut Intake<Digits>,
    outlet: &mut Outlet<Digits>,
    job: u64,
) -> bool
    ensures intake { IsSameIntake intake.old intake.new }
    ensures outlet { IsSameOutlet outlet.old outlet.new }
{
    let Ok(place) = intake.admit(job) else {
        return false;
    };
    if !outlet.look() {
        return false;
    }
    let Ok(answer) = Answer::make(alloc, job) else {
        return false;
    };
    if outlet.settle(place, answer).is_err() {
        return false;
    }
    place == job && releases(outlet, place, job)
}

/// Whether the reply to the job goes out at this place.
pub(crate) fn releases(outlet: &mut Outlet<Digits>, place: u64, job: u64) -> bool
    ensures { IsSameOutlet outlet.old outlet.new }
{
    match outlet.release() {
        Next::Reply(at, reply) => at == place && reply == job.to_be_bytes(),
        _ => false,
    }
}
