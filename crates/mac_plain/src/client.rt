//! A plain connection.

ghost use Rattle.std.specs.Prelude.{◌≡◌, ◌⊎◌, ◌↔◌, true, ℕ, List, [], ◌∷◌, ◌<◌, ◌≤◌, ◌==◌, length, not, IsTrue, IfSome, OnOk, OnErr};
ghost use Rattle.mac_board.specs.Noticed.{Current};
ghost use Rattle.mac_wire.specs.declared.arrival.Arrival.TheVariants as arrival;
ghost use Rattle.mac_wire.specs.Reply.{IsReply};
ghost use Rattle.mac_wire.specs.Session.{Stands};
ghost use Rattle.mac_decide.specs.declared.job.Job.{Job};
ghost use Rattle.mac_plain.specs.Client.{Answers, HasAnswered, answer_under, arrivals, may_move, replies, terms_for};
ghost use Rattle.mac_plain.specs.Goes.{Goes, after_reply};
ghost use Rattle.mac_plain.specs.Memory.{is_waiting, least_held};
ghost use Rattle.mac_plain.specs.declared.course.Course.TheVariants as course;
ghost use Rattle.mac_wire.specs.Stream.{version_or_one as version_so_far};

use crate::course::{Course, Fall};
use crate::port::{Came, Port, Went};
use mac_decide::Rights;
use mac_wire::{Cut, FRAME_MAX, Reply, Session, Version, next_frame};
use std::alloc::Global;
use std::sync::Arc;

/// How many bytes of replies a connection may have unsent and still be read: what 1 MiB of the
/// smallest mints is answered.
pub const UNSENT_MAX: usize = 10_485_760;

/// A connection in a loop: its device, and how it stands.
#[derive(Drop)]
pub struct Client<P> {
    pub(crate) port: P,
    pub(crate) session: Session,
    pub(crate) course: Course,
    /// Whether the device may have something to be read.
    pub(crate) is_readable: bool,
    /// Whether the device may take something.
    is_writable: bool,
    /// Whether a write has failed, so that nothing more goes out.
    is_mute: bool,
    /// What its requests may do.
    pub(crate) rights: Arc<Rights, Global>,
}

impl<P: Port> Client<P> {
    /// A connection that goes on from a session, with these rights. Where more than the beginning
    /// of a request is carried, that is answered first.
    pub fn new(port: P, session: Session, rights: Arc<Rights, Global>) -> Client<P>
        ensures rights { result.rights ≡ rights }
        ensures port { result.port ≡ port }
        ensures stands { (read written : List ℕ) (done : List Job)
            → Stands session read written (arrivals done) (replies done)
            → HasAnswered result read written done }
    {
        let course = match next_frame(session.carried.as_slice(), FRAME_MAX) {
            Cut::Unfinished => Course::Open,
            Cut::Whole(_, _) | Cut::TooLong(_) => Course::Held,
        };
        Client {
            port,
            session,
            course,
            is_readable: true,
            is_writable: true,
            is_mute: false,
            rights,
        }
    }

    /// Whether it may be answered elsewhere from now on: nothing of it is lost, and more may come.
    pub fn may_move(&self) -> bool
        ensures { result ≡ may_move self.now.course }
    {
        matches!(self.course, Course::Open | Course::Held | Course::Wide)
    }

    /// The device, the session and the rights, for who answers it from now on.
    pub fn into_parts(self) -> (P, Session, Arc<Rights, Global>)
        requires { IsTrue (may_move self.course) }
        ensures parts { result ≡ (self.port, self.session, self.rights) }
        ensures stands { (read written : List ℕ) (done : List Job)
            → HasAnswered self read written done
            → Stands result.1 read written (arrivals done) (replies done) }
    {
        let Client {
            port,
            session,
            course: _,
            is_readable: _,
            is_writable: _,
            is_mute: _,
            rights,
        } = self;
        (port, session, rights)
    }

    /// The device and the rights of a connection that is served no more.
    pub fn end(self) -> (P, Arc<Rights, Global>)
        ensures { result ≡ (self.port, self.rights) }
    {
        let Client {
            port,
            session: _,
            course: _,
            is_readable: _,
            is_writable: _,
            is_mute: _,
            rights,
        } = self;
        (port, rights)
    }

    /// The device.
    pub fn port(&self) -> &P {
        &self.port
    }

    /// How it goes on.
    pub fn course(&self) -> Course
        ensures { result ≡ self.now.course }
    {
        self.course
    }

    /// How many bytes of replies are unsent.
    pub fn unsent(&self) -> usize
        ensures { result ≡ length self.now.session.unsent }
    {
        self.session.unsent.len()
    }

    /// How many bytes of memory it has for what came and for what goes out; what a worker answers
    /// was copied.
    pub fn held(&self) -> usize
        ensures { least_held self.now ≤ result }
    {
        let came = self.session.carried.capacity();
        let copied = if self.is_waiting() { came } else { 0 };
        let gone = self.session.unsent.capacity();
        came.saturating_add(copied).saturating_add(gone)
    }

    /// Whether a request has begun to come, and isn't whole.
    pub fn has_begun(&self) -> bool
        ensures { result ≡ not (length self.now.session.carried.items == 0) }
    {
        !self.session.carried.is_empty()
    }

    /// How many requests are answered.
    pub fn answered(&self) -> u64 {
        self.session.answered
    }

    /// The device says that something may be read.
    pub fn wake_reading(&mut self)
        ensures { self.new ≡ record self.old { is_readable = true } }
    {
        self.is_readable = true;
    }

    /// The device says that something may be written.
    pub fn wake_writing(&mut self)
        ensures { self.new ≡ record self.old { is_writable = true } }
    {
        self.is_writable = true;
    }

    /// Reads what has come behind a frame that is too long, once, and drops it: nothing there is a
    /// request.
    pub fn drop_piece(&mut self, piece: &mut [u8]) -> Came
        requires { self.old.course ≡ course.TooLong }
        ensures same { self.new ≡ record self.old { port = self.new.port } }
        ensures answers { Answers P.tells P.taken P.written self.old self.new [] }
    {
        self.port.read(piece)
    }

    /// Whether a next round does something on it, though the device says nothing new.
    pub fn is_busy(&self, unsent_max: usize) -> bool {
        self.may_read(unsent_max) || self.may_write()
    }

    /// Whether nothing more is to be done on it: nothing comes, and nothing goes out.
    pub fn is_over(&self) -> bool {
        match self.course {
            Course::Open | Course::Held | Course::Wide | Course::Awaiting(_) => self.is_mute,
            Course::TooLong | Course::Ended(_) | Course::Fallen(_) => {
                self.is_mute || self.session.unsent.is_empty()
            }
        }
    }

    /// Whether it waits for a worker's answer.
    pub fn is_waiting(&self) -> bool
        ensures { result ≡ is_waiting self.now.course }
    {
        matches!(self.course, Course::Awaiting(_))
    }

    /// Whether it is to be read: it is open and something may be there, or requests are carried;
    /// and not too much is unsent.
    pub(crate) fn may_read(&self, unsent_max: usize) -> bool
        ensures { IsTrue result → length self.now.session.unsent < unsent_max }
    {
        let has_some = match self.course {
            Course::Open => self.is_readable,
            Course::Held => true,
            _ => false,
        };
        has_some && !self.is_mute && self.session.unsent.len() < unsent_max
    }

    /// Whether something is unsent and the device may take it.
    fn may_write(&self) -> bool {
        !self.session.unsent.is_empty() && self.is_writable && !self.is_mute
    }

    /// Takes the reply to its next request; where there is none it has fallen, and takes no more.
    pub(crate) fn answer(&mut self, reply: Option<&Reply>)
        requires { IfSome reply (λ r. IsReply r.now) }
        ensures { (current : Current) (payload : List ℕ)
            → IfSome reply.entry (λ r.
            r.now ≡ answer_under (terms_for current self.old) payload)
            → Goes P.tells P.taken P.written current self.old self.new (payload ∷ []) [] }
    {
        if let Course::Fallen(_) = self.course {
            return;
        }
        let Some(reply) = reply else {
            self.course = Course::Fallen(Fall::NoMemory);
            return;
        };
        if let Err(fall) = self.put(reply) {
            self.course = Course::Fallen(fall);
        }
    }

    /// Puts a reply's frame behind what is unsent.
    pub(crate) fn put(&mut self, reply: &Reply) -> Result<(), Fall>
        requires { IsReply reply.now }
        ensures put { OnOk result (self.new
            ≡ record self.old { session = after_reply self.old.session reply.now }) }
        ensures unchanged { OnErr result (self.new ≡ self.old) }
    {
        let place = self.session.answered;
        let Some(answered) = place.checked_add(1) else {
            return Err(Fall::Exhausted);
        };
        let version = version_or_one(self.session.version);
        if self.session.unsent.append(reply, version, place).is_err() {
            return Err(Fall::NoMemory);
        }
        self.session.answered = answered;
        Ok(())
    }

    /// Writes once, where something is unsent.
    pub(crate) fn flush(&mut self)
        ensures { (current : Current)
            → Goes P.tells P.taken P.written current self.old self.new [] [] }
    {
        if !self.may_write() {
            return;
        }
        match self.port.write(self.session.unsent.as_slice()) {
            Went::Bytes(count) => {
                self.is_writable = count == self.session.unsent.len();
                self.session.unsent.remove(count);
            }
            Went::Later => self.is_writable = false,
            Went::Fault => self.is_mute = true,
        }
    }
}

/// The version of a stream that has told this much.
fn version_or_one(version: Option<Version>) -> Version
    ensures { result ≡ version_so_far version }
{
    match version {
        Some(version) => version,
        None => Version::One,
    }
}
