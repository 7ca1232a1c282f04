//! The clients of a loop, and what became of each connection that it was given.

ghost use Rattle.std.specs.Prelude.{◌≡◌, ◌+◌, ◌≤◌, ◌⊎◌, ◌++◌, ◌∷◌, [], IfSome, IsTrue, OnErr, OnOk};
ghost use Rattle.std.specs.Prelude.{length, option_to_list};
ghost use Rattle.mac_loop.specs.Backlog.{rounded};
ghost use Rattle.mac_loop.specs.Gone.{HaveGone, count_gone};
ghost use Rattle.mac_loop.specs.Register.{IsBegun};
ghost use Rattle.mac_loop.specs.Roll.{count_there, unsent_coming, unsent_held};
ghost use Rattle.mac_sockets.specs.Connections.{count_held};

mod arriving;
mod noting;

use crate::backlog::Backlog;
use crate::batch::Batch;
use crate::ended::Leaver;
use crate::handover::Handover;
use crate::inbox::Loops;
use crate::members::Member;
use crate::outcomes::{Leavers, Outcomes};
use crate::register::{Origin, Register};
use crate::watch::{PlainFault, Watch};
use mac_board::Outlook;
use mac_decide::Job;
use mac_host::{Badge, Traffic};
use mac_plain::{Client, Round, RoundTerms};
use mac_queue::History;
use mac_slots::Slots;
use mac_sockets::{Connections, Readiness, WaitFault};
use mio::{Token, Waker};
use std::alloc::Global;
use std::net::Net;
use std::sync::Wait;
use std::thread::Threads;
use std::time::{Clock, Duration};

/// The clients of a loop. Each connection that the loop was given is there, or was handed on, or
/// its end was told, or it was turned away.
#[derive(Drop)]
pub struct Roll<O: Origin> {
    connections: Connections<Member<O>>,
    // The clients of a turn.
    batch: Batch<O>,
    // One that was handed over, and has no slot yet.
    newcomer: Option<Handover<O>>,
    // What each was known by that the loop was given, and that it handed on to another one.
    given: History<Badge>,
    handed: History<Badge>,
    leavers: Leavers<O>,
    // How many bytes are unsent on the clients in slots.
    backlog: Backlog,
    ghost accounted: { length given ≡ length handed + length leavers.ended
        + length leavers.refused + count_there connections.slots batch newcomer },
    ghost summed: { backlog.bytes ≡ rounded (unsent_held connections.slots) },
}

/// What ends the waits of a loop: a client that is handed over, an answer of a worker, and memory
/// that is given back.
#[derive(Drop)]
pub struct Wakers {
    pub inbox: Waker,
    pub asks: Waker,
    pub budget: Waker,
}

/// A client that is in its slot again behind a turn.
#[derive(Drop)]
pub struct Back {
    /// Its slot.
    pub slot: usize,
    /// What came and went on it.
    pub traffic: Traffic,
    /// What a worker is to answer, where it asks for what a loop must not.
    pub job: Option<Job>,
}

impl<O: Origin> Roll<O> {
    ghost use Rattle.mac_loop.specs.Nobody.{HasNobody};
    ghost use Rattle.mac_loop.specs.Roll.{OthersStay, slots_of, unsent_there};

    /// No clients, with room for a turn of so many, and what ends the waits for them.
    pub fn new<R: Net>(
        rt: &R,
        alloc: Global,
        parts: usize,
        register: Register<O>,
    ) -> Result<(Roll<O>, Wakers), WaitFault>
        requires { IsBegun register }
    {
        let (connections, inbox) = Connections::new(rt, alloc)?;
        let batch = Batch::with_capacity(alloc, parts)?;
        let asks = connections.waker()?;
        let budget = connections.waker()?;
        let roll = Roll {
            connections,
            batch,
            newcomer: None,
            given: History::new(),
            handed: History::new(),
            leavers: Leavers::none(register),
            backlog: Backlog::none(),
        };
        Ok((
            roll,
            Wakers {
                inbox,
                asks,
                budget,
            },
        ))
    }

    /// When the last wait ended, on a clock that begins anywhere.
    pub fn now(&self) -> Duration {
        self.connections.now()
    }

    /// The slots, and which of them are ready.
    pub fn slots(&self) -> &Slots<Member<O>> {
        &self.connections.slots
    }

    /// Whether the loop has nobody: no slot is somebody's, and nobody is in a turn or comes.
    pub fn is_empty(&self) -> bool
        ensures { IsTrue result → HasNobody self.now }
    {
        if self.newcomer.is_some() || !self.batch.is_empty() {
            return false;
        }
        self.connections.slots.count() == 0
    }

    /// How many bytes are unsent on its clients: those in slots are counted already.
    pub fn unsent(&self) -> Backlog
        ensures { result.bytes ≡ rounded
            (unsent_there self.now.connections.slots self.now.batch self.now.newcomer) }
    {
        let mut unsent = self.backlog.plus(self.batch.unsent());
        unsent.add(unsent_on_the_way(&self.newcomer));
        unsent
    }

    /// Waits until something is told, for so long at most, and lists the slots that are ready then.
    pub fn wait<R: Clock>(&mut self, rt: &R, patience: Option<Duration>) {
        self.connections.wait(rt, patience);
    }

    /// Has the client of a slot note what may be so of its socket.
    pub fn wake(&mut self, slot: usize, told: Readiness) {
        self.connections.wake(slot, told);
    }

    /// Lists a slot as ready.
    pub fn list(&mut self, slot: usize) {
        self.connections.slots.list(slot);
    }

    /// Takes the first slot out of the list of those that are ready.
    pub fn next_ready(&mut self) -> Option<usize> {
        self.connections.slots.next_ready()
    }

    /// Has the poll tell of room to write to the client of a slot, or no longer, as it waits for
    /// that.
    pub fn await_room(&self, slot: usize) {
        if let Some(member) = self.connections.slots.get(slot) {
            let stream = member.client.port().stream();
            let registry = self.connections.registry();
            let _ = stream.await_room(registry, Token(slot), member.note.awaits_room);
        }
    }

    /// Whether a turn has clients.
    pub fn has_turn(&self) -> bool {
        !self.batch.is_empty()
    }

    /// Takes the client of a slot into a turn, behind so many looks at how busy loops are. How many
    /// parts of the turn it takes: one, or `deep` of them where it has more to be read than a turn
    /// takes. Without memory it stays.
    pub fn lend(&mut self, slot: usize, deep: usize, looks: u64) -> usize
        ensures others { OthersStay slot self.old.connections.slots self.new.connections.slots }
        ensures out { (slots_of self.new.batch ≡ slots_of self.old.batch)
            ⊎ (slots_of self.new.batch ≡ slots_of self.old.batch ++ slot ∷ []) }
    {
        let Some(mut member) = self.connections.slots.take(slot) else {
            return 0;
        };
        self.backlog.subtract(member.client.unsent());
        let parts = member.begin_turn(deep, looks);
        if let Err(member) = self.batch.push(slot, member) {
            self.backlog.add(member.client.unsent());
            let _ = self.connections.slots.put(slot, member);
        }
        parts
    }

    /// Serves each client of the turn once.
    pub fn serve<R: Threads + Sync, K: Outlook>(
        &mut self,
        rt: &R,
        round: &mut Round,
        terms: RoundTerms,
        outlook: &mut K,
    ) {
        self.batch.serve(rt, round, terms, outlook);
    }

    /// Puts a client of the turn back into its slot, with what it was answered at once, and tells
    /// what it brought. One whose slot has gone would end.
    pub fn take_back<R: Wait + Clock, K: Outlook, W: Watch>(
        &mut self,
        rt: &R,
        alloc: Global,
        round: &mut Round,
        outlook: &K,
        watch: &W,
    ) -> Option<Back>
        ensures last { IfSome result (λ back.
            slots_of self.old.batch ≡ slots_of self.new.batch ++ back.slot ∷ []) }
        ensures others { IfSome result (λ back. OthersStay back.slot
            self.old.connections.slots self.new.connections.slots) }
    {
        let (slot, mut member) = self.batch.pop()?;
        // What isn't told here a worker answers.
        member.recall(round, outlook.current());
        let back = Back {
            slot,
            traffic: member.count_traffic(),
            job: member.ask(alloc, outlook.current()),
        };
        member.tell_exchanges(rt, watch);
        let unsent = member.client.unsent();
        match self.connections.slots.put(slot, member) {
            Ok(()) => self.backlog.add(unsent),
            Err(member) => {
                let leaver = member.end(watch, Some(PlainFault::NoMemory));
                self.leavers.end(rt, watch, leaver);
            }
        }
        Some(back)
    }

    /// Ends the client of a slot, by a fault or as it stands.
    pub fn end<R: Wait + Clock, W: Watch>(
        &mut self,
        rt: &R,
        watch: &W,
        slot: usize,
        fault: Option<PlainFault>,
    )
        ensures { OthersStay slot self.old.connections.slots self.new.connections.slots }
    {
        if let Some(member) = self.connections.slots.release(slot) {
            self.backlog.subtract(member.client.unsent());
            let leaver = member.end(watch, fault);
            self.leavers.end(rt, watch, leaver);
        }
    }

    /// Takes the next client that was handed to the loop of this number, unless one waits for its
    /// slot. Whether there is one.
    pub fn call<R: Wait>(&mut self, rt: &R, loops: &Loops<O>, number: usize) -> bool {
        if self.newcomer.is_none() {
            self.newcomer = loops.take(rt, number, &mut self.given);
        }
        self.newcomer.is_some()
    }

    /// The client that has no slot yet.
    pub fn newcomer(&self) -> Option<&Handover<O>> {
        self.newcomer.as_ref()
    }

    /// Whether another client is to give way to the newcomer.
    pub fn is_displacing(&self) -> bool {
        match &self.newcomer {
            Some(client) => client.displaces.is_some(),
            None => false,
        }
    }

    /// What became of the connections that the loop was given, once it has nobody, and its part of
    /// the register.
    pub fn settle(self) -> (Outcomes, Register<O>)
        requires { HasNobody self }
        ensures settled { length result.0.given ≡ count_gone result.0 }
        ensures gone { HaveGone result.0.ended result.0.refused result.1 }
    {
        let Roll {
            connections: _,
            batch: _,
            newcomer: _,
            given,
            handed,
            leavers,
            backlog: _,
        } = self;
        let Leavers {
            ended,
            refused,
            register,
        } = leavers;
        let outcomes = Outcomes {
            given,
            handed,
            ended,
            refused,
        };
        (outcomes, register)
    }
}

/// How many bytes are unsent on a client that is on the way to a slot, where there is one.
fn unsent_on_the_way<O: Origin>(newcomer: &Option<Handover<O>>) -> usize
    ensures { result ≡ unsent_coming newcomer.now }
{
    match newcomer {
        Some(client) => client.session.unsent.len(),
        None => 0,
    }
}

/// What the client of a slot had come to that gives way to another one, where there is one.
fn give_way<O: Origin, W: Watch>(
    slots: &mut Slots<Member<O>>,
    backlog: &mut Backlog,
    watch: &W,
    slot: usize,
) -> Option<Leaver<O>>
    ensures gone { count_held slots.new + length (option_to_list result)
        ≡ count_held slots.old }
    ensures unsent { backlog.old.bytes ≡ rounded (unsent_held slots.old)
        → backlog.new.bytes ≡ rounded (unsent_held slots.new) }
{
    let member = slots.release(slot)?;
    backlog.subtract(member.client.unsent());
    Some(member.end(watch, Some(PlainFault::GaveWay)))
}

/// Gives a client a slot, and registers it there. Without memory it comes back.
fn put_in<O: Origin, K: Outlook>(
    connections: &mut Connections<Member<O>>,
    backlog: &mut Backlog,
    client: Handover<O>,
    outlook: &K,
    looks: u64,
) -> Result<usize, Handover<O>>
    requires { client.place ≤ (K.known outlook.now).tables.place }
    ensures put { OnOk result
        (count_held connections.new.slots ≡ count_held connections.old.slots + 1) }
    ensures back { OnErr result
        (count_held connections.new.slots ≡ count_held connections.old.slots) }
    ensures unsent { backlog.old.bytes ≡ rounded (unsent_held connections.old.slots)
        → backlog.new.bytes ≡ rounded (unsent_held connections.new.slots) }
{
    let Ok(slot) = connections.slots.reserve() else {
        return Err(client);
    };
    let registry = connections.registry();
    if client.port.stream().join(registry, Token(slot)).is_err() {
        let _ = connections.slots.release(slot);
        return Err(client);
    }
    let Handover {
        port,
        session,
        rights,
        place: _,
        since,
        badge,
        displaces: _,
        presence,
    } = client;
    let client = Client::new(port, session, rights);
    let member = Member::new(client, since, badge, looks, presence);
    backlog.add(member.client.unsent());
    let _ = connections.slots.put(slot, member);
    Ok(slot)
}
