//! A client of a loop, and what the loop knows of it.

ghost use Rattle.std.specs.Prelude.{◌≡◌, IsTrue};
ghost use Rattle.mac_plain.specs.Client.{may_move};
ghost use Rattle.mac_plain.specs.declared.course.Course.TheVariants as course;
ghost use Rattle.mac_loop.specs.Alive.{IsAlive};
ghost use Rattle.mac_loop.specs.Register.{IsCalled, who};

use crate::ended::Leaver;
use crate::handover::Handover;
use crate::port::SocketPort;
use crate::register::{Origin, Presence};
use crate::watch::{PlainFault, Watch};
use mac_board::{Current, Outlook};
use mac_count::AnsweredRequest;
use mac_decide::{Job, Macaroons};
use mac_host::{Badge, DROPPED_MICROS, DROPPED_READS, Life, Traffic};
use mac_order::Answer;
use mac_plain::{Came, Client, Course, Round};
use mac_sockets::{Holds, Readiness, Wakes};
use std::alloc::Global;
use std::sync::Wait;
use std::time::Clock;

/// How a client stood when a loop last looked at its progress.
#[derive(Clone, Copy, PartialEq, Eq)]
pub struct Progress {
    pub answered: u64,
    pub has_begun: bool,
    pub unsent: usize,
}

/// What a loop knows of a client, beside the client.
#[derive(Clone, Copy)]
pub struct Note {
    /// Its peer writes no more.
    pub is_closing: bool,
    /// A poll tells of room to write to it.
    pub awaits_room: bool,
    /// Its last read was full, or it wasn't read in its last turn.
    pub is_deep: bool,
    /// How many looks at how busy loops are there were before its last turn.
    pub look: u64,
    /// How it stood when its progress was last looked at.
    pub progress: Progress,
    /// When it was last seen to have made any, in microseconds.
    pub since: u64,
    /// What it is known by.
    pub badge: Badge,
    /// What had come and gone when that was last counted.
    pub traffic: Traffic,
    /// How many reads have dropped what came behind a frame that was too long.
    pub dropped: usize,
    /// How many bytes of memory it held when that was last counted.
    pub held: u64,
}

/// How many bytes each read behind a frame that was too long drops at most.
const DROPPED_PIECE: usize = 16_384;

/// What a slot of a loop holds: a client, of whom all that came and went on its socket is known.
#[derive(Drop)]
pub struct Member<O: Origin> {
    /// The client.
    pub client: Client<SocketPort>,
    /// What the loop knows of it besides.
    pub note: Note,
    /// That it is there.
    pub presence: Presence<O>,
    pub ghost lives: { IsAlive client },
    pub ghost called: { IsCalled (who presence) note.badge client.rights.value },
}

impl Progress {
    /// How a client stands.
    pub fn of(client: &Client<SocketPort>) -> Progress {
        Progress {
            answered: client.answered(),
            has_begun: client.has_begun(),
            unsent: client.unsent(),
        }
    }
}

impl<O: Origin> Member<O> {
    /// A client that begins behind so many looks at how busy loops are, and made its last progress
    /// then.
    pub fn new(
        client: Client<SocketPort>,
        since: u64,
        badge: Badge,
        look: u64,
        presence: Presence<O>,
    ) -> Member<O>
        requires lives { IsAlive client }
        requires called { IsCalled (who presence) badge client.rights.value }
    {
        let note = Note {
            is_closing: false,
            awaits_room: false,
            is_deep: false,
            look,
            progress: Progress::of(&client),
            since,
            badge,
            traffic: client.port().traffic(),
            dropped: 0,
            held: 0,
        };
        Member {
            client,
            note,
            presence,
        }
    }

    /// What it has come to.
    pub fn life(&self) -> Life
        ensures { result.badge ≡ self.now.note.badge }
    {
        Life {
            badge: self.note.badge,
            answered: self.client.answered(),
        }
    }

    /// What has come and gone on it since that was last counted.
    pub fn count_traffic(&mut self) -> Traffic {
        let traffic = self.client.port().traffic();
        let counted = traffic.since(self.note.traffic);
        self.note.traffic = traffic;
        counted
    }

    /// Counts how many bytes of memory it holds: so many before, and so many now. Where its
    /// requests are noted, what has begun to come is there a second time.
    pub fn count_held(&mut self) -> (u64, u64)
        ensures { self.new.client ≡ self.old.client }
    {
        let before = self.note.held;
        let held = self.client.held();
        let noted = self.client.port().held(held);
        self.note.held = held.saturating_add(noted) as u64;
        (before, self.note.held)
    }

    /// Notes how it stands now. When it was last seen to make progress, in microseconds.
    pub fn note_progress(&mut self, now: u64) -> u64
        ensures { self.new.client ≡ self.old.client }
    {
        let progress = Progress::of(&self.client);
        if self.note.progress != progress {
            self.note.progress = progress;
            self.note.since = now;
        }
        self.note.since
    }

    /// Notes whether it rests: one doesn't that made progress, or waits for a worker's answer.
    /// Since when it has rested, in microseconds.
    pub fn note_rest(&mut self, now: u64) -> u64
        ensures { self.new.client ≡ self.old.client }
    {
        if self.client.is_waiting() {
            self.note.since = now;
        }
        self.note_progress(now)
    }

    /// Whether it may be owed something: replies, or to be read on in a request that has begun, or
    /// since its last read gave some bytes.
    pub fn is_owed(&self) -> bool {
        self.client.unsent() > 0 || self.client.has_begun() || self.client.port().has_read()
    }

    /// Whether its frame that was too long is refused, and what still comes is to be dropped.
    pub fn is_parting(&self) -> bool
        ensures { IsTrue result → self.now.client.course ≡ course.TooLong }
    {
        self.client.course() == Course::TooLong && self.client.unsent() == 0
    }

    /// Drops what has come behind a frame that was too long, so that the peer reads an end and no
    /// reset. What may come further: none once enough was dropped.
    pub fn drop_piece(&mut self, now: u64) -> Came
        requires { self.old.client.course ≡ course.TooLong }
        ensures { self.new.client.session ≡ self.old.client.session }
    {
        if self.note.dropped == 0 {
            self.client.port().end_writing();
        }
        if self.note.dropped >= DROPPED_READS {
            return Came::End;
        }
        self.note.dropped += 1;
        self.note.since = now;
        let mut piece = [0u8; DROPPED_PIECE];
        self.client.drop_piece(&mut piece)
    }

    /// Whether its peer has had the time to end behind the last piece that was dropped.
    pub fn has_parted(&self, now: u64) -> bool {
        self.note.dropped > 0 && now.saturating_sub(self.note.since) >= DROPPED_MICROS
    }

    /// The job for a worker, where it asks for what a loop must not answer: from then on it waits.
    /// One that takes no replies any more asks for nothing.
    pub fn ask(&mut self, alloc: Global, current: Current<'_>) -> Option<Job> {
        if self.client.is_over() {
            return None;
        }
        self.client.ask(alloc, current)
    }

    /// Is answered at once what it would ask a worker, where the memory of tokens tells that.
    pub fn recall(&mut self, round: &mut Round, current: Current<'_>) {
        let _ = round.recall(&mut self.client, current);
    }

    /// Gives it a worker's answer, which is another's where it doesn't wait for that. There may be
    /// none for want of memory. What its own is to be counted as.
    pub fn take_answer(
        &mut self,
        round: &mut Round,
        answer: Option<Answer<Macaroons>>,
    ) -> Option<AnsweredRequest> {
        match answer {
            Some(answer) => round.deliver(&mut self.client, answer),
            None => {
                self.client.lose_answer();
                None
            }
        }
    }

    /// There is no answer for it, for want of memory.
    pub fn lose_answer(&mut self) {
        self.client.lose_answer();
    }

    /// Something may be left to be read.
    pub fn wake_reading(&mut self)
        ensures { self.new.client.session ≡ self.old.client.session }
    {
        self.client.wake_reading();
    }

    /// Takes nothing more from it than what has come.
    pub fn end_reading(&mut self)
        ensures { self.new.client.session ≡ self.old.client.session }
    {
        self.client.port().end_reading();
        self.client.wake_reading();
    }

    /// Tells the replies that have gone out to it, where they are logged.
    pub fn tell_exchanges<R: Wait + Clock, W: Watch>(&self, rt: &R, watch: &W) {
        for _ in rt.forever() {
            let Some(exchange) = self.client.port().next_exchange() else {
                return;
            };
            watch.tell(rt, self.note.badge, exchange);
        }
    }

    /// Notes what it waits for after its turn.
    pub fn note_turn(&mut self, now: u64, unsent_max: usize)
        ensures { self.new.client.session ≡ self.old.client.session }
    {
        let _ = self.note_progress(now);
        // A read that ends within a request may have left some of it.
        let port = self.client.port();
        let may_have_left = self.client.has_begun() && port.has_read();
        let may_have_more = self.note.is_closing || may_have_left || port.is_put_off();
        if may_have_more && !port.is_full() {
            self.wake_reading();
        }
        self.note.is_deep = self.client.is_busy(unsent_max);
        self.note.awaits_room = self.client.unsent() > 0;
    }

    /// It leaves its slot for another loop. It takes along how far the tables were that it was
    /// answered under here.
    pub fn part<K: Outlook>(self, outlook: &K) -> Handover<O>
        requires { IsTrue (may_move self.client.course) }
        ensures port { result.port ≡ self.client.port }
        ensures session { result.session ≡ self.client.session }
        ensures rights { result.rights ≡ self.client.rights }
        ensures place { result.place ≡ (K.known outlook.now).tables.place }
    {
        let Member {
            client,
            note,
            presence,
        } = self;
        let (port, session, rights) = client.into_parts();
        Handover {
            port,
            session,
            rights,
            place: outlook.place(),
            since: note.since,
            badge: note.badge,
            displaces: None,
            presence,
        }
    }

    /// What it had come to once it has ended, by a fault or as it stands. It may have waited for a
    /// worker's answer.
    pub fn end<W: Watch>(self, watch: &W, fault: Option<PlainFault>) -> Leaver<O> {
        if self.client.is_waiting() {
            watch.narrow(self.life(), None, 0);
        }
        match fault {
            Some(fault) => Leaver::by(self, fault),
            None => Leaver::of(self),
        }
    }

    /// Whether it had a turn, or came, since the last of so many looks.
    pub fn is_active(&self, looks: u64) -> bool {
        self.note.look == looks
    }

    /// It begins a turn behind so many looks. How many parts of the turn it takes: one, or `deep`
    /// of them where it has more to be read than a turn takes.
    pub fn begin_turn(&mut self, deep: usize, looks: u64) -> usize {
        self.note.look = looks;
        if self.note.is_deep { deep } else { 1 }
    }
}

impl<O: Origin> Holds for Member<O> {
    ghost bytes = { λ member. member.note.held };

    fn held(&self) -> u64 {
        let Note { held, .. } = self.note;
        held
    }

    fn since(&self) -> u64 {
        self.note.since
    }
}

impl<O: Origin> Wakes for Member<O> {
    ghost use Rattle.std.specs.Prelude.{length};

    ghost weight = { λ member. length member.client.session.unsent };

    fn wake(&mut self, told: Readiness) -> bool {
        if told.reads {
            self.client.wake_reading();
        }
        if told.writes {
            self.client.wake_writing();
        }
        self.note.is_closing = self.note.is_closing || told.closes;
        true
    }
}
