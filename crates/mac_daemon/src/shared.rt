//! What the threads of a daemon tell one another of its connections: how many there are, and what
//! is printed.

ghost use Rattle.std.specs.Prelude.{◌≡◌};
ghost use Rattle.mac_loop.specs.Badges.{IsSameBadge};

use crate::notice::Notice;
use crate::room::{Entry, Most, Room};
use mac_count::AnsweredRequest;
use mac_host::{Badge, Exchange, Life, Notices, Numbers, Roster, Socket, microseconds};
use mac_loop::{EndedLife, Transcript, Turn, Watch};
use mac_queue::{Bell, History};
use std::alloc::{AllocError, Global};
use std::sync::atomic::AtomicU64;
use std::sync::atomic::Ordering::SeqCst;
use std::sync::{Arc, Mutex, Wait};
use std::time::Clock;

/// What the threads of a daemon share.
#[derive(Drop)]
pub struct DaemonShared {
    /// How many connections there are, and may be.
    room: Mutex<Room>,
    /// How many have ended in a fault, or were not served.
    faults: AtomicU64,
    /// Who waits until all have ended sleeps here.
    ends: Bell,
    notices: Notices,
    numbers: Numbers,
    roster: Arc<Roster, Global>,
}

impl DaemonShared {
    /// That of a daemon without connections, of which there may be so many.
    pub fn new(
        alloc: Global,
        most: Most,
        notices: Notices,
        numbers: Numbers,
        roster: Arc<Roster, Global>,
    ) -> Result<Arc<DaemonShared, Global>, AllocError> {
        let shared = DaemonShared {
            room: Mutex::new(Room::new(most)),
            faults: AtomicU64::new(0),
            ends: Bell::new(),
            notices,
            numbers,
            roster,
        };
        Ok(Arc::new(alloc, shared)?)
    }

    /// What becomes of a connection that comes in at a socket. Where there are as many as there may
    /// be, that is told.
    pub fn enter<R: Wait + Clock>(&self, rt: &R, socket: Socket) -> Entry {
        let mut room = self.room.lock(rt);
        let own = &mut *room;
        let (entry, most) = (own.enter(socket), own.most());
        drop(room);
        self.numbers.count_accepted(entry == Entry::Free);
        match entry {
            Entry::Free => return entry,
            Entry::SideFull => self.notices.tell_full(rt, "verify-connections", most.side),
            Entry::Full(_) => self.notices.tell_full(rt, "connections", most.all),
        }
        self.faults.fetch_add(1, SeqCst);
        entry
    }

    /// What the connection of this number is known by, which came in now at this socket. It has no
    /// place in the list yet.
    pub fn badge<R: Clock>(&self, rt: &R, number: u64, socket: Socket) -> Badge
        ensures number { result.number ≡ number }
        ensures socket { result.socket ≡ socket }
    {
        Badge {
            number,
            socket,
            accepted: microseconds(rt),
            place: None,
        }
    }

    /// The same of a connection that is counted, listed until it ends.
    pub fn listed<R: Wait>(&self, rt: &R, badge: Badge) -> Badge
        ensures { IsSameBadge badge result }
    {
        let Badge {
            number,
            socket,
            accepted,
            ..
        } = badge;
        let place = self.roster.enter(rt, number, accepted, socket);
        Badge { place, ..badge }
    }

    /// Counts a connection out, where one has gone, and another one in, where there is room for it.
    /// Whether that is so.
    fn replace<R: Wait>(&self, rt: &R, gone: Option<Life>, comes: Socket) -> bool {
        let mut room = self.room.lock(rt);
        let own = &mut *room;
        if let Some(life) = gone {
            own.leave(life.badge.socket);
        }
        own.take(comes)
    }

    /// What a connection that begins is noted in, where requests are logged, or what they minted.
    pub fn transcript(&self, alloc: Global) -> Option<Transcript> {
        let logged = self.notices.logged();
        if logged.is_some() {
            Some(Transcript::new(alloc, logged.identifiers))
        } else {
            None
        }
    }

    /// Tells a request, the connection that it came on, and what it was answered.
    pub fn say_exchange<R: Wait + Clock>(
        &self,
        rt: &R,
        badge: Badge,
        exchange: Result<Exchange, AllocError>,
    ) {
        self.notices.tell_exchange(rt, Some(badge), exchange);
    }

    /// Tells that the system gave no connection.
    pub fn say_refused<R: Wait + Clock>(&self, rt: &R, fault: &str) {
        self.notices.tell_refused(rt, fault);
    }

    /// Notes that a connection is closed which no loop had: nothing was read from it, and nothing
    /// written to it.
    pub fn refuse<R: Wait + Clock>(&self, rt: &R, life: Life, notice: Notice) {
        self.end(rt, life, Some(notice));
    }

    /// Notes that a connection has ended, with what is to be told of that.
    fn end<R: Wait + Clock>(&self, rt: &R, life: Life, notice: Option<Notice>) {
        self.roster.leave(rt, life);
        self.numbers
            .count_ended(notice.is_some_and(Notice::is_fault));
        if notice.is_some_and(Notice::is_heavy) {
            self.numbers.count_heavy();
        }
        if let Some(notice) = notice {
            self.faults.fetch_add(1, SeqCst);
            self.notices.tell_parting(rt, life, notice.kind(), &notice);
        }
        let mut room = self.room.lock(rt);
        let own = &mut *room;
        own.leave(life.badge.socket);
        drop(room);
        self.ends.ring();
    }

    /// What is counted.
    pub fn numbers(&self) -> &Numbers {
        &self.numbers
    }

    /// Waits until all connections have ended.
    pub fn await_end<R: Wait>(&self, rt: &R) {
        for _ in rt.forever() {
            let wait = self.ends.announce();
            if self.live(rt) == 0 {
                self.ends.withdraw(wait);
                return;
            }
            self.ends.sleep(rt, wait);
        }
    }

    /// How many connections there are.
    pub fn live<R: Wait>(&self, rt: &R) -> u64 {
        let room = self.room.lock(rt);
        room.live()
    }

    /// Tells that the daemon was told to end, and how many connections there are.
    pub fn say_left<R: Wait + Clock>(&self, rt: &R) {
        self.notices.tell_drain(rt, self.live(rt));
    }

    /// How many connections have ended in a fault, or were not served.
    pub fn faults(&self) -> u64 {
        self.faults.load(SeqCst)
    }
}

impl Watch for DaemonShared {
    fn end<R: Wait + Clock>(&self, rt: &R, ended: EndedLife, told: &mut History<Life>) {
        DaemonShared::end(self, rt, ended.life, ended.fault.map(Notice::Plain));
        told.add(&ended.life);
    }

    fn count(&self, turn: &Turn, micros: u64) {
        self.numbers
            .count_turn(&turn.requests, micros, turn.traffic);
    }

    fn tell<R: Wait + Clock>(&self, rt: &R, badge: Badge, exchange: Result<Exchange, AllocError>) {
        self.say_exchange(rt, badge, exchange);
    }

    fn see(&self, life: Life, unsent: usize) {
        self.roster.see(life, unsent);
    }

    fn gives_way<R: Wait>(&self, rt: &R, comes: Socket) -> Option<Socket> {
        let room = self.room.lock(rt);
        match room.entry(comes) {
            Entry::Free => None,
            Entry::SideFull => Some(Socket::Side),
            Entry::Full(socket) => Some(socket),
        }
    }

    fn displace<R: Wait + Clock>(
        &self,
        rt: &R,
        gone: Option<EndedLife>,
        comes: Badge,
        told: &mut History<Life>,
    ) -> Option<Badge> {
        let gone = gone.map(|ended| ended.life);
        if let Some(life) = gone {
            self.roster.leave(rt, life);
            self.numbers.count_ended(false);
            told.add(&life);
        }
        let is_room = self.replace(rt, gone, comes.socket);
        self.ends.ring();
        if !is_room {
            return None;
        }
        self.numbers.count_accepted(true);
        Some(self.listed(rt, comes))
    }

    fn widen(&self, life: Life) {
        self.numbers.count_widened();
        self.roster.set_wide(life, true);
    }

    fn narrow(&self, life: Life, answered: Option<AnsweredRequest>, micros: u64) {
        self.numbers.count_narrowed(answered, micros);
        self.roster.set_wide(life, false);
    }
}
