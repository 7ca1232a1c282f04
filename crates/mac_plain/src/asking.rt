//! What a loop must not answer: a worker is asked for the answer, and the client waits for that.

ghost use Rattle.std.specs.Prelude.{◌≡◌, ◌≢◌, ◌≤◌, [], ◌∷◌, None, IfOk, IfSome, IfNone, IsTrue};
ghost use Rattle.std.specs.Prelude.{IsFalse, option_to_list};
ghost use Rattle.mac_board.specs.Noticed.{lent_current};
ghost use Rattle.mac_decide.specs.Prepared.{reply_to_job};
ghost use Rattle.mac_decide.specs.declared.job.Basis.{Basis as Seen};
ghost use Rattle.mac_wire.specs.Reply.{IsReply};
ghost use Rattle.mac_wire.specs.declared.arrival.Arrival.TheVariants as arrival;
ghost use Rattle.mac_plain.specs.Asking.{IsAsked, IsGivenUp, IsPassed, PassesWith, Takes};
ghost use Rattle.mac_plain.specs.Client.{Answers, IsAwaited, asked_job};
ghost use Rattle.mac_plain.specs.Dear.{GoesWide, front_of};
ghost use Rattle.mac_plain.specs.declared.course.Course.TheVariants as course;

use crate::NoMemory;
use crate::answering::Bench;
use crate::client::Client;
use crate::course::{Course, Fall};
use crate::port::Port;
use mac_board::Current;
use mac_decide::{Basis, Job, Terms, job_of, job_view_of, recall};
use mac_wire::{Arrival, Bytes, Cut, FRAME_MAX, Reply, next_frame};
use std::alloc::Global;

impl<P: Port> Client<P> {
    /// The job for a worker, where the client goes on wide: what stands in front of what is
    /// carried, under this table, at this moment and under the client's rights. From then on it
    /// waits for the answer, and isn't read. Where there is no memory for the job it has fallen.
    pub fn ask(&mut self, alloc: Global, current: Current<'_>) -> Option<Job>
        ensures idle { self.old.course ≢ course.Wide → (result ≡ None) × (self.new ≡ self.old) }
        ensures asked { IfSome result (IsAsked (lent_current current.entry) self.old self.new) }
        ensures fallen { self.old.course ≡ course.Wide
            → IfNone result (IsGivenUp self.old self.new) }
        ensures rights { self.new.rights ≡ self.old.rights }
        ensures answers { Answers P.tells P.taken P.written self.old self.new
            (option_to_list result) }
    {
        let Course::Wide = self.course else {
            return None;
        };
        let Ok(arrival) = front_arrival(alloc, self.session.carried.as_slice()) else {
            self.course = Course::Fallen(Fall::NoMemory);
            return None;
        };
        let terms = Terms {
            table: current.table,
            rights: &self.rights,
            moment: current.moment,
        };
        let Ok(job) = job_of(alloc, terms, arrival) else {
            self.course = Course::Fallen(Fall::NoMemory);
            return None;
        };
        self.course = Course::Awaiting(job.basis);
        Some(job)
    }

    /// Takes an answer, where it is to the job that the client waits for: its reply goes behind
    /// what is unsent, and what stood in front of what is carried is let go. Another answer changes
    /// nothing. Whether it is its own.
    pub(crate) fn take_answer(&mut self, job: &Job, reply: &Reply) -> bool
        requires { reply.now ≡ reply_to_job job.now }
        ensures own { IsTrue result → Takes job.now self.old self.new
            × (GoesWide self.old.session.carried.items → IsAwaited job.now self.old) }
        ensures another { IsFalse result → (self.new ≡ self.old)
            × (GoesWide self.old.session.carried.items → ¬ IsAwaited job.now self.old) }
        ensures rights { self.new.rights ≡ self.old.rights }
        ensures answers { Answers P.tells P.taken P.written self.old self.new [] }
    {
        let Course::Awaiting(basis) = self.course else {
            return false;
        };
        if !is_job_of(job, self.session.carried.as_slice(), &basis) {
            return false;
        }
        if let Err(fall) = self.put(reply) {
            self.course = Course::Fallen(fall);
            return true;
        }
        self.course = pass_front(&mut self.session.carried);
        true
    }

    /// Answers at once what the client goes on wide for, where the reply is known with nothing
    /// hashed or read as a token: under this table, at this moment and under the client's rights.
    /// From then on it waits for no worker. Whether it was known.
    pub(crate) fn recall(&mut self, bench: &mut Bench, current: Current<'_>) -> bool
        ensures takes { IsTrue result
            → Takes (asked_job (lent_current current.entry) self.old) self.old self.new }
        ensures answers { IsTrue result → Answers P.tells P.taken P.written self.old self.new
            (asked_job (lent_current current.entry) self.old ∷ []) }
        ensures unknown { IsFalse result → self.new ≡ self.old }
        ensures rights { self.new.rights ≡ self.old.rights }
    {
        match self.known_reply(bench, current) {
            Some(reply) => {
                self.pass_with(&reply);
                true
            }
            None => false,
        }
    }

    /// The reply to what the client goes on wide for, which is counted where it is known.
    fn known_reply(&self, bench: &mut Bench, current: Current<'_>) -> Option<Reply>
        ensures wide { IfSome result (λ _. self.now.course ≡ course.Wide) }
        ensures reply { IfSome result (λ reply.
            reply ≡ reply_to_job (asked_job (lent_current current.entry) self.now)) }
    {
        if !matches!(self.course, Course::Wide) {
            return None;
        }
        let Some(payload) = front_payload(self.session.carried.as_slice()) else {
            return None;
        };
        let terms = Terms {
            table: current.table,
            rights: &self.rights,
            moment: current.moment,
        };
        let job = job_view_of(terms, payload);
        let Ok(Some(reply)) = recall(&bench.seen, bench.alloc, &job) else {
            return None;
        };
        bench.tally.count(&job, &reply);
        Some(reply)
    }

    /// Puts the reply to what stands in front of what is carried behind what is unsent, and lets go
    /// of that. Where there is no memory for the reply it has fallen.
    fn pass_with(&mut self, reply: &Reply)
        requires { IsReply reply.now }
        ensures { PassesWith reply.now self.old self.new }
    {
        match self.put(reply) {
            Ok(()) => self.course = pass_front(&mut self.session.carried),
            Err(fall) => self.course = Course::Fallen(fall),
        }
    }

    /// Where it waits for an answer, there is none for want of memory, and it has fallen.
    pub fn lose_answer(&mut self)
        ensures lost { (basis : Seen) → self.old.course ≡ course.Awaiting basis
            → IsGivenUp self.old self.new }
        ensures idle { ((basis : Seen) → self.old.course ≢ course.Awaiting basis)
            → self.new ≡ self.old }
        ensures rights { self.new.rights ≡ self.old.rights }
        ensures answers { Answers P.tells P.taken P.written self.old self.new [] }
    {
        if let Course::Awaiting(_) = self.course {
            self.course = Course::Fallen(Fall::NoMemory);
        }
    }
}

/// The arrival that stands in front of these bytes, with a payload of its own.
fn front_arrival(alloc: Global, bytes: &[u8]) -> Result<Arrival, NoMemory>
    ensures { IfOk result (λ arrival. GoesWide bytes.now → arrival ≡ front_of bytes.now) }
{
    match next_frame(bytes, FRAME_MAX) {
        Cut::Whole(payload, _) => Ok(Arrival::Payload(Bytes::new(Vec::from_slice(
            alloc, payload,
        )?))),
        Cut::TooLong(_) | Cut::Unfinished => Ok(Arrival::Oversize),
    }
}

/// The payload of the whole frame in front of these bytes, where it lies.
fn front_payload(bytes: &[u8]) -> Option<&[u8]>
    ensures { IfSome result (λ payload. arrival.Payload payload.now ≡ front_of bytes.now) }
{
    match next_frame(bytes, FRAME_MAX) {
        Cut::Whole(payload, _) => Some(payload),
        Cut::TooLong(_) | Cut::Unfinished => None,
    }
}

/// Whether a job is that of the arrival in front of these bytes, on this basis.
fn is_job_of(job: &Job, bytes: &[u8], basis: &Basis) -> bool
    ensures is { IsTrue result → (job.now.basis ≡ basis.now)
        × (GoesWide bytes.now → job.now.arrival ≡ front_of bytes.now) }
    ensures is_not { IsFalse result → GoesWide bytes.now → job.now.basis ≡ basis.now
        → job.now.arrival ≢ front_of bytes.now }
{
    is_same(&job.basis, basis) && is_front(&job.arrival, bytes)
}

/// Whether two bases are one.
fn is_same(one: &Basis, other: &Basis) -> bool
    ensures is { IsTrue result → one.now ≡ other.now }
    ensures is_not { IsFalse result → one.now ≢ other.now }
{
    have_same_keys(one, other)
        && one.is_revoked == other.is_revoked
        && one.may_mint == other.may_mint
        && one.moment == other.moment
}

/// Whether two bases have the same keys.
fn have_same_keys(one: &Basis, other: &Basis) -> bool
    ensures is { IsTrue result → one.now.keys ≡ other.now.keys }
    ensures is_not { IsFalse result → one.now.keys ≢ other.now.keys }
{
    one.keys == other.keys
}

/// Whether an arrival stands in front of these bytes.
fn is_front(arrival: &Arrival, bytes: &[u8]) -> bool
    ensures is { IsTrue result → GoesWide bytes.now → arrival.now ≡ front_of bytes.now }
    ensures is_not { IsFalse result → GoesWide bytes.now → arrival.now ≢ front_of bytes.now }
{
    match (arrival, next_frame(bytes, FRAME_MAX)) {
        (Arrival::Payload(payload), Cut::Whole(front, _)) => payload.as_slice() == front,
        (Arrival::Oversize, Cut::TooLong(_)) => true,
        _ => false,
    }
}

/// Lets go of the frame in front of what is carried, and says how the connection goes on.
fn pass_front(carried: &mut Vec<u8>) -> Course
    ensures { GoesWide carried.old.items
        → IsPassed carried.old.items carried.new.items result }
{
    match next_frame(carried.as_slice(), FRAME_MAX) {
        Cut::Whole(_, rest) => {
            let count = carried.len() - rest.len();
            let _ = carried.drain(..count);
            Course::Held
        }
        Cut::TooLong(_) | Cut::Unfinished => Course::TooLong,
    }
}
