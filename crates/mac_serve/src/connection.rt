//! A connection, from a session on to its last byte, or to the next session.

ghost use Rattle.std.specs.Prelude.{◌≡◌, ◌≢◌, ◌⊎◌, ◌+◌, ℕ, Bool, List, [], IsTrue, IsSome, IfOk, OnErr};
ghost use Rattle.mac_queue.specs.Putting.{IsSamePutter};
ghost use Rattle.mac_wire.specs.FrameReader.{HasEnded};
ghost use Rattle.mac_wire.specs.Session.{HasCome};
ghost use Rattle.mac_serve.specs.Receiving.{Past, Reads, CountsRead, Runs, TakesUnder};
ghost use Rattle.mac_serve.specs.Sending.{SendsBoth};
ghost use Rattle.mac_serve.specs.Serving.{HasServed, CountsServed, GoesOnWith, GivesBack, fault_of, served_of, outcome_of};

use crate::fault::ServeFault;
use crate::inbound::Inbound;
use crate::incoming::{InboundFault, Incoming};
use crate::outbound::{Outbound, OutboundFault};
use crate::signals::HalfSignals;
use mac_board::Outlook;
use mac_decide::{Macaroons, Rights};
use mac_order::{Totals, make_ring, meet};
use mac_queue::Desk;
use mac_wire::{Ending, FrameReader, NoMemory, Session, Sink, Source, Unsent, Version};
use std::alloc::Global;
use std::sync::Wait;
use std::thread::{Threads, join_mut};

/// What came of serving a connection.
#[derive(Drop)]
pub struct Served {
    /// How many requests were admitted.
    pub arrived: u64,
    /// How many of their replies went out whole.
    pub sent: u64,
    /// How many bytes of these were written.
    pub written: u64,
    /// How the stream ended: broken where it was not read to its end, or not all was sent.
    pub ending: Ending,
    /// The desk, for the pool that it came from.
    pub desk: Desk<Macaroons>,
    /// What the connection goes on with elsewhere, where the source failed: a read that waits for
    /// so long and no longer brings the connection back.
    pub session: Option<Session>,
}

/// Serves a connection that is between two requests: writes what is unsent, reads requests from the
/// source to its end, those that are carried first, and lets the workers of the desk's pool answer
/// them, each under the key table that is up once it is read, at the moment of then and under these
/// rights. The replies
/// go into the sink in order, as the stream's version has them, at the places that follow. Requests
/// are read in this thread, and replies sent from a thread of their own, which begins once the
/// stream's version is known.
pub fn serve<R: Threads + Wait + Sync, In: Source, Out: Sink, K: Outlook>(
    rt: &R,
    alloc: Global,
    source: &mut In,
    sink: &mut Out,
    outlook: &mut K,
    rights: &Rights,
    desk: Desk<Macaroons>,
    session: Session,
) -> Result<Served, (ServeFault, Served)>
    ensures serves { (past : Past)
        → HasCome session.version past.read past.arrived session.carried.items
        → HasServed In.tells Out.tells
        (TakesUnder rights.now K.tells (K.known outlook.old) (K.known outlook.new))
        session past (In.taken source.old) (In.taken source.new)
        (Out.written sink.old) (Out.written sink.new) desk.putter desk.taker (fault_of result)
        (served_of result) }
    ensures same_putter { IsSamePutter desk.putter (served_of result).desk.putter }
    ensures same_mail { (served_of result).desk.taker.mail ≡ desk.taker.mail }
    ensures end { (past : Past)
        → HasCome session.version past.read past.arrived session.carried.items
        → (served_of result).ending ≢ Ending.Broken
        → (served_of result).ending ≢ Ending.Oversize → IsTrue (In.ended source.new) }
    ensures faults { CountsServed (fault_of result) (In.faults source.old) (In.faults source.new)
        (Out.faults sink.old) (Out.faults sink.new) }
{
    let Desk { putter, taker } = desk;
    let Session {
        version,
        answered,
        carried,
        mut unsent,
    } = session;
    let Ok((intake, outlet)) = make_ring(alloc) else {
        return Err((ServeFault::NoMemory, unserved(Desk { putter, taker })));
    };
    let Ok(mut incoming) = begun(alloc, source, version, carried.as_slice()) else {
        return Err((ServeFault::NoMemory, unserved(Desk { putter, taker })));
    };
    let mut inbound = Inbound::new(intake, putter);
    let mut outbound = Outbound::new(alloc, outlet, taker, incoming.version(), answered);
    let (sending, reading) = run_both(
        rt,
        alloc,
        source,
        sink,
        outlook,
        rights,
        &mut incoming,
        &mut inbound,
        &mut outbound,
        &mut unsent,
    );
    let totals = meet(&mut inbound.ring, &mut outbound.ring);
    let (fault, ending) = outcome(sending, reading, totals.admitted == totals.released);
    let (fault, session) = given_back(fault, incoming, unsent, answered, totals.admitted);
    let Inbound { putter, .. } = inbound;
    let Outbound {
        taker,
        sent,
        written,
        ..
    } = outbound;
    let served = Served {
        arrived: totals.admitted,
        sent,
        written,
        ending,
        desk: Desk { putter, taker },
        session,
    };
    match fault {
        None => Ok(served),
        Some(fault) => Err((fault, served)),
    }
}

/// What comes in of a stream, of this version if it has told one, from what is carried on. Where it
/// has told none, its first piece is read.
fn begun<In: Source>(
    alloc: Global,
    source: &mut In,
    version: Option<Version>,
    carried: &[u8],
) -> Result<Incoming, NoMemory>
    ensures reads { (past : Past) → HasCome version past.read past.arrived carried.now
        → IfOk result (λ i. Reads In.tells (In.taken source.old) (In.taken source.new)
        past.read past.arrived i.first i.reader) }
    ensures end { IfOk result (λ i. IfOk i.first (λ more. more ≡ None
        → IsTrue (In.ended source.new) ⊎ HasEnded i.reader)) }
    ensures faults { IfOk result (λ i.
        CountsRead i.first (In.faults source.old) (In.faults source.new)) }
    ensures untouched { OnErr result (source.new ≡ source.old) }
{
    if version.is_some() {
        return Incoming::resumed(alloc, version, carried);
    }
    let mut incoming = Incoming::new(alloc)?;
    incoming.begin(source);
    Ok(incoming)
}

/// Runs both halves at once.
fn run_both<R: Threads + Wait + Sync, In: Source, Out: Sink, K: Outlook>(
    rt: &R,
    alloc: Global,
    source: &mut In,
    sink: &mut Out,
    outlook: &mut K,
    rights: &Rights,
    incoming: &mut Incoming,
    inbound: &mut Inbound,
    outbound: &mut Outbound,
    unsent: &mut Unsent,
) -> (Result<(), OutboundFault>, Result<Ending, InboundFault>)
    ensures sends { SendsBoth Out.tells unsent.old unsent.new (Out.written sink.old)
        (Out.written sink.new) (Out.faults sink.old) (Out.faults sink.new) result.0 outbound.old
        outbound.new }
    ensures runs { Runs In.tells
        (TakesUnder rights.now K.tells (K.known outlook.old) (K.known outlook.new))
        (In.taken source.old) (In.taken source.new) (In.ended source.old) (In.ended source.new)
        (In.faults source.old) (In.faults source.new) incoming.old.first incoming.old.reader
        incoming.new.reader result.1 inbound.old inbound.new }
{
    let signals = HalfSignals::new();
    join_mut(
        rt,
        &mut || outbound.run(rt, sink, unsent, &signals),
        &mut || inbound.run(rt, alloc, source, incoming, outlook, rights, &signals),
    )
}

/// What is told in the end, and what the connection goes on with where the source failed. Memory
/// may be refused for that.
fn given_back(
    fault: Option<ServeFault>,
    incoming: Incoming,
    unsent: Unsent,
    answered: u64,
    arrived: u64,
) -> (Option<ServeFault>, Option<Session>)
    ensures { GivesBack (GoesOnWith incoming.reader unsent (answered + arrived)) fault result.0
        result.1 }
{
    match fault {
        Some(ServeFault::Read) => {}
        other => return (other, None),
    }
    let Some(answered) = answered.checked_add(arrived) else {
        return (Some(ServeFault::Exhausted), None);
    };
    let Incoming { reader, .. } = incoming;
    let version = reader.version();
    match reader.into_carried() {
        Ok(carried) => {
            let session = Session {
                version,
                answered,
                carried,
                unsent,
            };
            (Some(ServeFault::Read), Some(session))
        }
        Err(_) => (Some(ServeFault::NoMemory), None),
    }
}

/// What is told of how both halves ended.
fn outcome(
    sending: Result<(), OutboundFault>,
    reading: Result<Ending, InboundFault>,
    is_all_sent: bool,
) -> (Option<ServeFault>, Ending)
    ensures { result ≡ outcome_of sending reading is_all_sent }
{
    let fault = match (sending, reading) {
        (Err(OutboundFault::Write), _) => ServeFault::Write,
        (Err(OutboundFault::NoMemory), _) => ServeFault::NoMemory,
        (Err(OutboundFault::Stranger), _) => ServeFault::Stranger,
        (Err(OutboundFault::Exhausted), _) => ServeFault::Exhausted,
        (Ok(()), Err(InboundFault::NoMemory)) => ServeFault::NoMemory,
        (Ok(()), Err(InboundFault::Read)) if is_all_sent => ServeFault::Read,
        (Ok(()), Ok(Ending::Torn)) if is_all_sent => return (Some(ServeFault::Torn), Ending::Torn),
        (Ok(()), Ok(ending)) if is_all_sent => return (None, ending),
        _ => ServeFault::Exhausted,
    };
    (Some(fault), Ending::Broken)
}

/// What came of a connection that was not served.
fn unserved(desk: Desk<Macaroons>) -> Served
    ensures { result ≡ record {
      arrived = 0;
      sent = 0;
      written = 0;
      ending = Ending.Broken;
      desk = desk;
      session = None;
    } }
{
    Served {
        arrived: 0,
        sent: 0,
        written: 0,
        ending: Ending::Broken,
        desk,
        session: None,
    }
}
