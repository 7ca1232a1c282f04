//! The half of a connection that reads requests.

ghost use Rattle.std.specs.Prelude.{◌≡◌, ◌≢◌, ◌<◌, ◌++◌, ◌∷◌, ℕ, Bool, List, [], length, map, IsTrue, None, IfOk, OnOk, OnErr, MatchResult, Ok, Err, false, ◌⊎◌, IfErr};
ghost use Rattle.mac_decide.specs.Terms.{lent_terms};
ghost use Rattle.mac_decide.specs.declared.rights.Rights.{Rights as PlainRights};
ghost use Rattle.mac_decide.specs.World.{job_under};
ghost use Rattle.mac_serve.specs.Room.{payload_size, IsCounted, IsCountedBeside};

use crate::incoming::{InboundFault, Incoming};
use crate::outstanding::Outstanding;
use crate::signals::HalfSignals;
use mac_board::Outlook;
use mac_decide::{Job, Macaroons, Rights, Terms, job_of};
use mac_order::{AdmitFault, Intake, Service};
use mac_queue::{PutFault, Putter};
use mac_wire::{Arrival, Ending, Source};
use std::alloc::Global;
use std::sync::Wait;
use std::{mem, thread};

/// How many bytes of requests may be without a reply that was sent.
const UNSENT_MAX: usize = 1_048_576;

/// How many bytes of requests may be in the queue, put and not answered: so the workers take from
/// each connection in turn, and no connection's dear requests stand before all of another's.
const QUEUED_MAX: usize = 65_536;

/// The half of a connection that reads requests: its end of the ring, and its way into the queue of
/// jobs.
#[derive(Drop)]
pub struct Inbound {
    pub ring: Intake<Macaroons>,
    pub putter: Putter<Macaroons>,
    unsent: Outstanding,
    queued: Outstanding,
    /// How many posts had come to the desk before.
    earlier: u64,
}

impl Inbound {
    ghost use Rattle.mac_order.specs.Ring.{admitted, IsSameIntake, Knows};
    ghost use Rattle.mac_queue.specs.Putting.{with_put};
    ghost use Rattle.mac_serve.specs.Receiving.{CountsRead, IsSameHalf, Receives, ReceivesUnder, TakesUnder, HasRun, Past, GoesOn, Continues, Runs};
    ghost use Rattle.mac_wire.specs.FrameReader.{HasEnded};
    ghost use Rattle.mac_board.specs.Noticed.{Noticed};
    ghost use Rattle.mac_wire.specs.declared.version.Version.{Version};

    /// A half that has read nothing.
    pub fn new(ring: Intake<Macaroons>, putter: Putter<Macaroons>) -> Inbound
        ensures { (result.ring ≡ ring) × (result.putter ≡ putter) }
    {
        let earlier = putter.answered();
        Inbound {
            ring,
            putter,
            unsent: Outstanding::new(UNSENT_MAX),
            queued: Outstanding::new(QUEUED_MAX),
            earlier,
        }
    }

    /// Admits the job, where the ring and the bytes of the jobs without reply leave room for it.
    fn try_admit(&mut self, job: Job, signals: &HalfSignals) -> Result<u64, (AdmitFault, Job)>
        ensures ring { IsSameIntake self.old.ring self.new.ring }
        ensures putter { self.new.putter ≡ self.old.putter }
        ensures place { IfOk result (λ place. place ≡ length (admitted self.old.ring)) }
        ensures admitted { OnOk result
            (admitted self.new.ring ≡ admitted self.old.ring ++ job ∷ []) }
        ensures counted { OnOk result
            (IsCountedBeside (payload_size job) self.old.unsent self.new.unsent) }
        ensures refused { IfErr result (λ e.
            (admitted self.new.ring ≡ admitted self.old.ring) × (e.1 ≡ job)) }
    {
        let length = payload_length(&job);
        if !self.unsent.has_room(length, signals.sent()) {
            return Err((AdmitFault::Full, job));
        }
        let place = self.ring.admit(job)?;
        self.unsent.push(length);
        Ok(place)
    }

    /// Admits the job, once there is room for it.
    fn admit<R: Wait>(
        &mut self,
        rt: &R,
        job: Job,
        signals: &HalfSignals,
    ) -> Result<u64, InboundFault>
        ensures ring { IsSameIntake self.old.ring self.new.ring }
        ensures putter { self.new.putter ≡ self.old.putter }
        ensures place { IfOk result (λ place. place ≡ length (admitted self.old.ring)) }
        ensures admitted { OnOk result
            (admitted self.new.ring ≡ admitted self.old.ring ++ job ∷ []) }
        ensures counted { OnOk result (IsCounted (payload_size job) self.new.unsent) }
        ensures refused { OnErr result (admitted self.new.ring ≡ admitted self.old.ring) }
        ensures no_read { result ≢ Err InboundFault.Read }
    {
        let mut job = job;
        for _ in rt.forever() {
            match self.try_admit(job, signals) {
                Ok(place) => return Ok(place),
                Err((AdmitFault::Last, _)) => return Err(InboundFault::Exhausted),
                Err((AdmitFault::Full, back)) => job = back,
            }
            let notice = signals.announce(self.unsent.wanted());
            match self.try_admit(job, signals) {
                Ok(place) => {
                    signals.withdraw(notice);
                    return Ok(place);
                }
                Err((_, back)) => job = back,
            }
            if signals.has_outbound_ended() {
                signals.withdraw(notice);
                return Err(InboundFault::Stopped);
            }
            signals.sleep(rt, notice);
        }
        unreachable!()
    }

    /// Whether one more job of that length may go into the queue.
    fn may_queue(&mut self, length: usize) -> bool
        ensures ring { self.new.ring ≡ self.old.ring }
        ensures putter { self.new.putter ≡ self.old.putter }
    {
        let answered = self.putter.answered().saturating_sub(self.earlier);
        self.queued.has_room(length, answered)
    }

    /// Waits until one more job of that length may go into the queue, or until the outbound half
    /// has ended.
    fn await_turn<R: Wait>(&mut self, rt: &R, length: usize, signals: &HalfSignals)
        ensures ring { self.new.ring ≡ self.old.ring }
        ensures putter { self.new.putter ≡ self.old.putter }
    {
        for _ in rt.forever() {
            if self.may_queue(length) {
                return;
            }
            let wanted = self.earlier.saturating_add(self.queued.wanted());
            let notice = self.putter.announce(wanted);
            if self.may_queue(length) || signals.has_outbound_ended() {
                self.putter.withdraw(notice);
                return;
            }
            self.putter.sleep(rt, notice);
        }
    }

    /// Puts the job at its place into the queue, in its turn.
    fn put<R: Wait>(
        &mut self,
        rt: &R,
        place: u64,
        job: Job,
        signals: &HalfSignals,
    ) -> Result<(), InboundFault>
        ensures ring { self.new.ring ≡ self.old.ring }
        ensures put { OnOk result (self.new.putter ≡ with_put self.old.putter (place, job)) }
        ensures same { OnErr result (self.new.putter ≡ self.old.putter) }
        ensures no_read { result ≢ Err InboundFault.Read }
    {
        let length = payload_length(&job);
        self.await_turn(rt, length, signals);
        self.queued.push(length);
        let mut job = job;
        for _ in rt.forever() {
            match self.putter.put(rt, place, job) {
                Ok(()) => return Ok(()),
                Err((PutFault::Closed(_), _)) => return Err(InboundFault::Exhausted),
                Err((PutFault::Spent, _)) => return Err(InboundFault::Exhausted),
                Err((PutFault::NoMemory, _)) => return Err(InboundFault::NoMemory),
                Err((PutFault::Full(_), back)) => job = back,
            }
            if signals.has_outbound_ended() {
                return Err(InboundFault::Stopped);
            }
            thread::yield_now();
        }
        unreachable!()
    }

    /// Admits the job of an arrival, and puts it into the queue.
    fn take_arrival<R: Wait>(
        &mut self,
        rt: &R,
        alloc: Global,
        arrival: Arrival,
        terms: Terms<'_>,
        signals: &HalfSignals,
    ) -> Result<(), InboundFault>
        ensures { Receives (job_under (lent_terms terms.entry) arrival ∷ []) result self.old
            self.new }
    {
        let job = job_of(alloc, terms, arrival)?;
        let copy = Macaroons::copy(alloc, &job)?;
        let place = self.admit(rt, copy, signals)?;
        self.put(rt, place, job, signals)
    }

    /// Admits the jobs of arrivals, and puts them into the queue. It looks at the tables and the
    /// clock before each: one that waited for those before it is answered under the table that is
    /// up then, and at the moment of then.
    fn take_arrivals<R: Wait, K: Outlook>(
        &mut self,
        rt: &R,
        alloc: Global,
        arrivals: Vec<Arrival>,
        outlook: &mut K,
        rights: &Rights,
        signals: &HalfSignals,
    ) -> Result<(), InboundFault>
        ensures { ReceivesUnder
            (TakesUnder rights.now K.tells (K.known outlook.old) (K.known outlook.new))
            arrivals.items result self.old self.new }
    {
        for arrival in arrivals {
            outlook.look();
            let current = outlook.current();
            let terms = Terms {
                table: current.table,
                rights,
                moment: current.moment,
            };
            self.take_arrival(rt, alloc, arrival, terms, signals)?;
        }
        Ok(())
    }

    /// Reads on, unless the stream has ended or the outbound half sends nothing more: the next
    /// arrivals, or `None` at the end.
    fn read_next<In: Source>(
        source: &mut In,
        incoming: &mut Incoming,
        signals: &HalfSignals,
    ) -> Result<Option<Vec<Arrival>>, InboundFault>
        ensures goes_on { (rights : PlainRights) (tells : Bool) (begun known : Noticed)
            (version : Version) (past : Past) (given : List ℕ) (start now : Inbound)
            → GoesOn In.tells (TakesUnder rights tells begun known) version past given
            (In.taken source.old) incoming.old.reader [] start now
            → Continues In.tells (TakesUnder rights tells begun known) version past given
            (In.taken source.new) result incoming.new.reader start now }
        ensures end { result ≡ Ok None
            → IsTrue (In.ended source.new) ⊎ HasEnded incoming.new.reader }
        ensures faults { CountsRead result (In.faults source.old) (In.faults source.new) }
    {
        if signals.has_outbound_ended() {
            return Err(InboundFault::Stopped);
        }
        incoming.next(source)
    }

    /// Puts the job of each of these arrivals and of those that follow them, to the end of the
    /// source, or as many as it can.
    fn take_all<R: Wait, In: Source, K: Outlook>(
        &mut self,
        rt: &R,
        alloc: Global,
        source: &mut In,
        incoming: &mut Incoming,
        first: Vec<Arrival>,
        outlook: &mut K,
        rights: &Rights,
        signals: &HalfSignals,
    ) -> Result<(), InboundFault>
        ensures same { IsSameHalf self.old self.new }
        ensures goes_on { (begun : Noticed) (version : Version) (past : Past) (given : List ℕ)
            (start : Inbound)
            → GoesOn In.tells (TakesUnder rights.now K.tells begun (K.known outlook.old))
            version past given (In.taken source.old) incoming.old.reader first.items start self.old
            → MatchResult result
            (λ _. GoesOn In.tells (TakesUnder rights.now K.tells begun (K.known outlook.new))
            version past given (In.taken source.new) incoming.new.reader [] start self.new)
            (λ why. HasRun In.tells (TakesUnder rights.now K.tells begun (K.known outlook.new))
            version past given (In.taken source.new) incoming.new.reader (Err why) start self.new) }
        ensures end { OnOk result
            (IsTrue (In.ended source.new) ⊎ HasEnded incoming.new.reader) }
        ensures faults { CountsRead result (In.faults source.old) (In.faults source.new) }
    {
        let mut arrivals = first;
        for _ in rt.forever() {
            self.take_arrivals(rt, alloc, arrivals, outlook, rights, signals)?;
            match Inbound::read_next(source, incoming, signals)? {
                Some(more) => arrivals = more,
                None => return Ok(()),
            }
        }
        unreachable!()
    }

    /// Reads the source to its end, once replies are being sent.
    fn read_to_end<R: Wait, In: Source, K: Outlook>(
        &mut self,
        rt: &R,
        alloc: Global,
        source: &mut In,
        incoming: &mut Incoming,
        outlook: &mut K,
        rights: &Rights,
        signals: &HalfSignals,
    ) -> Result<Ending, InboundFault>
        ensures { Runs In.tells
            (TakesUnder rights.now K.tells (K.known outlook.old) (K.known outlook.new))
            (In.taken source.old) (In.taken source.new) (In.ended source.old) (In.ended source.new)
            (In.faults source.old) (In.faults source.new) incoming.old.first incoming.old.reader
            incoming.new.reader result self.old self.new }
    {
        let first = mem::replace(&mut incoming.first, Ok(None))?;
        if !signals.await_outbound(rt) {
            return Err(InboundFault::NoMemory);
        }
        let Some(arrivals) = first else {
            return Ok(incoming.finish(alloc));
        };
        self.take_all(
            rt, alloc, source, incoming, arrivals, outlook, rights, signals,
        )?;
        Ok(incoming.finish(alloc))
    }

    /// Reads requests until the source has ended, or until a fault. The outbound half hears of its
    /// end.
    pub fn run<R: Wait, In: Source, K: Outlook>(
        &mut self,
        rt: &R,
        alloc: Global,
        source: &mut In,
        incoming: &mut Incoming,
        outlook: &mut K,
        rights: &Rights,
        signals: &HalfSignals,
    ) -> Result<Ending, InboundFault>
        ensures { Runs In.tells
            (TakesUnder rights.now K.tells (K.known outlook.old) (K.known outlook.new))
            (In.taken source.old) (In.taken source.new) (In.ended source.old) (In.ended source.new)
            (In.faults source.old) (In.faults source.new) incoming.old.first incoming.old.reader
            incoming.new.reader result self.old self.new }
    {
        let ended = self.read_to_end(rt, alloc, source, incoming, outlook, rights, signals);
        signals.end_inbound(has_lost_jobs(&ended));
        self.putter.ring();
        ended
    }
}

/// The length of a job's payload.
fn payload_length(job: &Job) -> usize
    ensures { result ≡ payload_size job.now }
{
    match &job.arrival {
        Arrival::Payload(payload) => payload.as_slice().len(),
        Arrival::Oversize => 0,
    }
}

/// Whether a job that was admitted may not have been put.
fn has_lost_jobs(ended: &Result<Ending, InboundFault>) -> bool {
    match ended {
        Ok(_) | Err(InboundFault::Read) => false,
        Err(_) => true,
    }
}
