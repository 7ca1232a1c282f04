//! The loop that accepts the connections of sockets: so many of them, or until it is shut.
ghost use Rattle.std.specs.Prelude.{◌≡◌, ◌<◌, length, IfOk, IfSome, IsTrue, OnErr};
ghost use Rattle.mac_daemon.specs.Arrivals.{AreAdmitted, HaveCome, IsNewcomer};
ghost use Rattle.mac_daemon.specs.Day.{IsDay, MeetsCount};
ghost use Rattle.mac_daemon.specs.Fates.{HasFared, HasGoneOn};
ghost use Rattle.mac_daemon.specs.Gift.{GivesAt};
ghost use Rattle.mac_host.specs.Badge.{socket_of_door};
ghost use Rattle.mac_loop.specs.Register.{HasAdmitted, StandsForMore, who};
ghost use Rattle.mac_sockets.specs.Entrance.{doors_of, taken_of};

use crate::arrivals::Arrivals;
use crate::day::Day;
use crate::door::Gift;
use crate::fault::DaemonFault;
use crate::notice::Notice;
use crate::room::Entry;
use crate::running::LentParts;
use crate::shared::DaemonShared;
use mac_host::{Badge, Life, REFUSED_MILLIS, Socket};
use mac_loop::{Enqueued, Handover, Loops, Origin, Register};
use mac_sockets::{Arrived, Entrance, Fresh};
use std::alloc::Global;
use std::io::ErrorKind;
use std::sync::{Arc, Wait};
use std::time::{Clock, Duration};
use std::{io, thread};

/// The loop that a connection begins in. From there it goes to others where that is busy.
const FIRST_LOOP: usize = 0;

/// A connection that came in.
#[derive(Drop)]
pub(crate) struct Newcomer {
    stream: Fresh,
    // What its requests may do, where there is memory for that.
    rights: Option<Gift>,
    /// What it is known by.
    pub(crate) badge: Badge,
}

/// Accepts so many connections, where a count is given, and waits until all have ended. What became
/// of those that were accepted is told. Without a count, connections are read no further than what
/// has come once the entrance is shut.
pub fn accept_to_end<O, R>(
    rt: &R,
    entrance: &mut Entrance<Gift>,
    register: &mut Register<O>,
    lent: &LentParts<'_, O>,
) -> Result<Day, DaemonFault>
where
    O: Origin,
    R: Wait + Clock,
    ensures day { IfOk result (IsDay lent.now.count 0 entrance.old) }
    ensures taken { IfOk result (λ day. day.served ≡ taken_of entrance.new) }
    ensures admitted { AreAdmitted (doors_of entrance.old) register.old
        → AreAdmitted (doors_of entrance.old) register.new }
    ensures come { IfOk result (λ day. HaveCome register.old day.arrivals register.new) }
{
    let day = accept_each(rt, entrance, register, lent);
    entrance.close();
    if lent.count.is_none() {
        lent.shared.say_left(rt);
        lent.loops.drain();
    }
    lent.shared.await_end(rt);
    day
}

/// Whether as many were served as are asked for.
fn has_met(count: Option<u64>, served: u64) -> bool
    ensures { IsTrue result → MeetsCount count served }
{
    match count {
        Some(asked) => asked == served,
        None => false,
    }
}

/// Accepts so many connections, where a count is given, and hands each to a loop. Some may not have
/// ended yet where it returns what became of those that were accepted. With a count, a socket that
/// accepts nothing is an error; without one, it is asked again after a pause, until the entrance is
/// shut and nobody waits there.
fn accept_each<O, R>(
    rt: &R,
    entrance: &mut Entrance<Gift>,
    register: &mut Register<O>,
    lent: &LentParts<'_, O>,
) -> Result<Day, DaemonFault>
where
    O: Origin,
    R: Wait + Clock,
    ensures day { IfOk result (IsDay lent.now.count 0 entrance.old) }
    ensures taken { IfOk result (λ day. day.served ≡ taken_of entrance.new) }
    ensures admitted { AreAdmitted (doors_of entrance.old) register.old
        → AreAdmitted (doors_of entrance.old) register.new }
    ensures come { IfOk result (λ day. HaveCome register.old day.arrivals register.new) }
{
    let count = lent.count;
    let mut arrivals = Arrivals::none();
    for _ in rt.forever() {
        let served = entrance.taken();
        if has_met(count, served) {
            return Ok(Day::of(served, arrivals));
        }
        lent.loops.await_taken(rt, FIRST_LOOP);
        match entrance.accept(rt) {
            Some(Ok(arrived)) => {
                let newcomer = receive(rt, entrance, arrived, lent.shared);
                arrivals.enter(rt, newcomer, register, lent);
            }
            Some(Err(fault)) if count.is_some() => return Err(DaemonFault::System(fault)),
            Some(Err(fault)) => pause(rt, lent.alloc, fault, lent.shared),
            None if count.is_none() => return Ok(Day::of(served, arrivals)),
            None => return Err(DaemonFault::System(ErrorKind::ConnectionAborted.into())),
        }
    }
    unreachable!()
}

/// A connection that came in, with what its door gives.
fn receive<R: Clock>(
    rt: &R,
    entrance: &Entrance<Gift>,
    arrived: Arrived,
    shared: &DaemonShared,
) -> Newcomer
    requires { arrived.door < length (doors_of entrance.now) }
    ensures badge { result.badge.socket ≡ socket_of_door arrived.door }
    ensures number { result.badge.number ≡ taken_of entrance.now }
    ensures rights { IfSome result.rights (λ gift.
        GivesAt (doors_of entrance.now) arrived.door gift.value) }
{
    let Arrived { stream, door } = arrived;
    let rights = Arc::try_clone(entrance.gift(door)).ok();
    let badge = shared.badge(rt, entrance.taken(), Socket::of_door(door));
    Newcomer {
        stream,
        rights,
        badge,
    }
}

/// Waits for a moment where the system gave no connection, and tells why.
fn pause<R: Wait + Clock>(rt: &R, alloc: Global, fault: io::Error, shared: &DaemonShared) {
    if let Ok(text) = fault.to_string(alloc) {
        shared.say_refused(rt, text.as_str());
    }
    thread::sleep(rt, Duration::from_millis(REFUSED_MILLIS));
}

/// What becomes of a connection that came in.
#[derive(Drop)]
pub(crate) enum Fate {
    /// It was put into the inbox of a loop.
    Handed(Enqueued),
    /// It was admitted, and closed, since there was no memory to hand it to a loop, or no room.
    Returned,
    /// It was closed before it was admitted: memory ran out, or the system failed.
    Refused,
}

/// Hands a connection to a loop, in the place of another one where there are as many as there may
/// be.
pub(crate) fn enter<O: Origin, R: Wait + Clock>(
    rt: &R,
    newcomer: Newcomer,
    register: &mut Register<O>,
    lent: &LentParts<'_, O>,
) -> Fate
    ensures { HasFared newcomer register.old result register.new }
{
    let badge = newcomer.badge;
    let gives_way = match lent.shared.enter(rt, badge.socket) {
        Entry::Free => {
            let mut newcomer = newcomer;
            newcomer.badge = lent.shared.listed(rt, badge);
            return begin(rt, newcomer, register, lent);
        }
        Entry::SideFull => Socket::Side,
        Entry::Full(socket) => socket,
    };
    match meet(lent.alloc, newcomer, lent.shared, register) {
        Ok(client) => hand(rt, lent.loops, Some(gives_way), client, register),
        Err(_) => Fate::Refused,
    }
}

/// Hands a connection that is counted to a loop. Where there is no memory for that it is closed,
/// and that is told.
fn begin<O: Origin, R: Wait + Clock>(
    rt: &R,
    newcomer: Newcomer,
    register: &mut Register<O>,
    lent: &LentParts<'_, O>,
) -> Fate
    ensures { HasFared newcomer register.old result register.new }
{
    let life = Life {
        badge: newcomer.badge,
        answered: 0,
    };
    let client = match meet(lent.alloc, newcomer, lent.shared, register) {
        Ok(client) => client,
        Err(notice) => {
            lent.shared.refuse(rt, life, notice);
            return Fate::Refused;
        }
    };
    let fate = hand(rt, lent.loops, None, client, register);
    if matches!(fate, Fate::Returned) {
        lent.shared.refuse(rt, life, Notice::NoMemory);
    }
    fate
}

/// A connection as loops have it: it is admitted.
fn meet<O: Origin>(
    alloc: Global,
    newcomer: Newcomer,
    shared: &DaemonShared,
    register: &mut Register<O>,
) -> Result<Handover<O>, Notice>
    ensures badge { IfOk result (λ client. client.badge ≡ newcomer.badge) }
    ensures one { IfOk result (λ client. IsNewcomer newcomer (who client.presence)) }
    ensures admitted { IfOk result (λ client.
        HasAdmitted register.old (who client.presence) register.new) }
    ensures same { OnErr result (StandsForMore register.old 0 register.new) }
{
    let Newcomer {
        stream,
        rights,
        badge,
    } = newcomer;
    let Some(rights) = rights else {
        return Err(Notice::NoMemory);
    };
    let transcript = shared.transcript(alloc);
    match Handover::begin(alloc, stream, transcript, rights, badge, register) {
        Ok(client) => Ok(client),
        Err(_) => Err(Notice::System),
    }
}

/// Hands a client to the first loop, or to one of which a client of a socket is to give way to it.
/// Where none takes it, it is closed.
fn hand<O: Origin, R: Wait>(
    rt: &R,
    loops: &Loops<O>,
    gives_way: Option<Socket>,
    client: Handover<O>,
    register: &mut Register<O>,
) -> Fate
    ensures { HasGoneOn client.badge (who client.presence) register.old result register.new }
{
    let left = match gives_way {
        None => loops.hand(rt, FIRST_LOOP, client),
        Some(socket) => loops.hand_displacing(rt, socket, client),
    };
    match left {
        Ok(enqueued) => Fate::Handed(enqueued),
        Err(client) => {
            client.leave(register);
            Fate::Returned
        }
    }
}
