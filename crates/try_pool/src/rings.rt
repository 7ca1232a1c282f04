//! Calls of a ring's two ends, and whether they answer as they are to.

ghost use Rattle.mac_order.specs.Ring.{IsSameIntake, IsSameOutlet};

use crate::digits::Digits;
use crate::fault::RunFault;
use crate::hand_over::{hand_over, releases};
use crate::rows::right_if;
use crate::runs::Outcome;
use mac_order::{AdmitFault, Answer, Intake, Next, Outlet, SettleFault, Totals, make_ring, meet};
use std::alloc::Global;
use std::thread;
use std::thread::Threads;

/// How many slips a ring holds.
const SLIPS: u64 = 64;

/// How often a call is tried until it succeeds.
const TURNS: u32 = 10_000_000;

/// The row of a name.
pub(crate) fn row<R: Threads>(rt: &R, alloc: Global, name: &str) -> Result<Outcome, RunFault> {
    match name {
        "full" => full(alloc),
        "threads" => threads(rt, alloc),
        "closed" => closed(alloc),
        "refused" => refused(alloc),
        "ends" => right_if(intake_ends(alloc)? && outlet_ends(alloc)?),
        _ => Err(RunFault::NoRun),
    }
}

fn ring_if(totals: Totals, is_right: bool) -> Result<Outcome, RunFault> {
    if is_right {
        Ok(Outcome::Ring(totals))
    } else {
        Err(RunFault::Wrong)
    }
}

/// Whether the jobs from one number on up to another go in, each at the place of its number.
fn admits(intake: &mut Intake<Digits>, from: u64, to: u64) -> bool
    ensures { IsSameIntake intake.old intake.new }
{
    let mut are_in = true;
    for job in from..to {
        are_in &= intake.admit(job) == Ok(job);
    }
    are_in
}

/// Settles the answer of a job at a place, and gives the fault if it is handed back.
fn fault_at(
    alloc: Global,
    outlet: &mut Outlet<Digits>,
    place: u64,
    job: u64,
) -> Result<Option<SettleFault>, RunFault>
    ensures { IsSameOutlet outlet.old outlet.new }
{
    match Answer::make(alloc, job) {
        Ok(answer) => Ok(outlet.settle(place, answer).err().map(|e| e.0)),
        Err(_) => Err(RunFault::Refused),
    }
}

/// A full ring refuses, and holds one slip more once one is taken.
fn full(alloc: Global) -> Result<Outcome, RunFault> {
    let (mut intake, mut outlet) = make_ring::<Digits>(alloc)?;
    let is_filled = admits(&mut intake, 0, SLIPS) && intake.free_slips() == 0;
    let is_full = intake.admit(9) == Err((AdmitFault::Full, 9));
    let is_taken = outlet.look() && outlet.open_slips() == 1;
    let is_freed = intake.admit(9) == Ok(SLIPS);
    let totals = meet(&mut intake, &mut outlet);
    ring_if(totals, is_filled && is_full && is_taken && is_freed)
}

/// Each end works in a thread of its own: one slip more goes in than the ring holds.
fn threads<R: Threads>(rt: &R, alloc: Global) -> Result<Outcome, RunFault> {
    let (intake, outlet) = make_ring::<Digits>(alloc)?;
    let (mut one, mut other) = thread::join(
        rt,
        move || -> (bool, Intake<Digits>)
            ensures { IsSameIntake intake result.1 }
        { admit_all(intake) },
        move || -> (bool, Outlet<Digits>)
            ensures { IsSameOutlet outlet result.1 }
        { look_waiting(outlet) },
    );
    let totals = meet(&mut one.1, &mut other.1);
    ring_if(totals, one.0 && other.0)
}

/// Admits 65 jobs, each once there is a slip for it.
fn admit_all(mut intake: Intake<Digits>) -> (bool, Intake<Digits>)
    ensures { IsSameIntake intake result.1 }
{
    let mut are_in = true;
    for job in 0..SLIPS + 1 {
        are_in &= admit_waiting(&mut intake, job);
    }
    (are_in, intake)
}

fn admit_waiting(intake: &mut Intake<Digits>, job: u64) -> bool
    ensures { IsSameIntake intake.old intake.new }
{
    for _ in 0..TURNS {
        if intake.admit(job) == Ok(job) {
            return true;
        }
        thread::yield_now();
    }
    false
}

/// Takes one job, once there is one.
fn look_waiting(mut outlet: Outlet<Digits>) -> (bool, Outlet<Digits>)
    ensures { IsSameOutlet outlet result.1 }
{
    for _ in 0..TURNS {
        if outlet.look() {
            return (true, outlet);
        }
        thread::yield_now();
    }
    (false, outlet)
}

/// A close while one job is open and two are in the ring: all are dropped, and the ring still
/// fills.
fn closed(alloc: Global) -> Result<Outcome, RunFault> {
    let (mut intake, mut outlet) = make_ring::<Digits>(alloc)?;
    let are_in = admits(&mut intake, 0, 3);
    let is_open = outlet.look();
    outlet.close();
    let is_dropped = fault_at(alloc, &mut outlet, 0, 0)? == Some(SettleFault::Closed);
    let is_shut = !outlet.look();
    let is_told = matches!(outlet.release(), Next::Closed);
    let totals = meet(&mut intake, &mut outlet);
    let is_filled = admits(&mut intake, 3, 65);
    let is_full = intake.admit(65) == Err((AdmitFault::Full, 65));
    ring_if(
        totals,
        are_in && is_open && is_dropped && is_shut && is_told && is_filled && is_full,
    )
}

/// What the outlet's buffer refuses, the outlet refuses, and a stranger closes it.
fn refused(alloc: Global) -> Result<Outcome, RunFault> {
    let (mut intake, mut outlet) = make_ring::<Digits>(alloc)?;
    let mut is_right = true;
    for job in 0..133 {
        is_right &= hand_over(alloc, &mut intake, &mut outlet, job);
    }
    for (place, fault) in [
        (5, Some(SettleFault::Old)),
        (261, Some(SettleFault::TooFar)),
        (260, None),
        (260, Some(SettleFault::Twice)),
    ] {
        is_right &= fault_at(alloc, &mut outlet, place, 7)? == fault;
    }
    let is_foreign = meets_a_stranger(alloc, &mut intake, &mut outlet)?;
    right_if(is_right && is_foreign)
}

/// Settles another job's answer at place 133. Whether it goes out as a stranger's.
fn meets_a_stranger(
    alloc: Global,
    intake: &mut Intake<Digits>,
    outlet: &mut Outlet<Digits>,
) -> Result<bool, RunFault> {
    let is_in = intake.admit(133) == Ok(133);
    let is_open = outlet.look();
    let is_early = matches!(outlet.release(), Next::Waiting);
    let is_settled = fault_at(alloc, outlet, 133, 134)?.is_none();
    let is_foreign = matches!(outlet.release(), Next::Stranger(133));
    let is_shut = matches!(outlet.release(), Next::Closed);
    Ok(is_in && is_open && is_early && is_settled && is_foreign && is_shut)
}

/// The intake ends first. Whether the outlet sees that, and works on.
fn intake_ends(alloc: Global) -> Result<bool, RunFault> {
    let (mut intake, mut outlet) = make_ring::<Digits>(alloc)?;
    let is_first = intake.admit(4) == Ok(0);
    let is_second = intake.admit(5) == Ok(1);
    let is_there = !outlet.is_abandoned();
    drop(intake);
    let is_left = outlet.is_abandoned();
    let is_open = outlet.look();
    let is_settled = fault_at(alloc, &mut outlet, 0, 4)?.is_none();
    let is_sent = releases(&mut outlet, 0, 4);
    let is_next = outlet.next_place() == 1;
    let is_last = outlet.look();
    let is_told = is_there && is_left && is_next;
    Ok(is_first && is_second && is_told && is_open && is_settled && is_sent && is_last)
}

/// The outlet ends first. Whether the intake sees that, and goes on to take jobs.
fn outlet_ends(alloc: Global) -> Result<bool, RunFault> {
    let (mut intake, outlet) = make_ring::<Digits>(alloc)?;
    let is_first = intake.admit(6) == Ok(0);
    let is_there = !intake.is_abandoned();
    drop(outlet);
    let is_left = intake.is_abandoned();
    let is_second = intake.admit(7) == Ok(1);
    Ok(is_first && is_there && is_left && is_second)
}
