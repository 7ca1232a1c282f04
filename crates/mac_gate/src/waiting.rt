//! The connections of a loop, which of them are ready, and when one has taken too long.

ghost use Rattle.std.specs.Prelude.{◌≡◌, ◌≢◌, ℕ, IfOk, false, true};
ghost use Rattle.mac_gate.specs.Answered.{HasTurn, known_to};
ghost use Rattle.mac_gate.specs.Going.{KeepTheirs, StayInPlace, TakesIn, count_there, past_at, past_of};
ghost use Rattle.mac_slots.specs.Slots.{Lent, at, no_slots};

mod letting_go;

use crate::answering::Answering;
use crate::connection::HttpConnection;
use crate::turns::Turns;
use mac_host::microseconds_of;
use mac_sockets::{BudgetAccount, Connections, Holds, Readiness, SharedBudget};
use mio::{Token, Waker};
use std::alloc::Global;
use std::collections::VecDeque;
use std::io;
use std::net::Net;
use std::random::RandomSource;
use std::sync::{Arc, Wait};
use std::time::{Clock, Duration};

/// How many microseconds pass at most until one that is owed something is looked at again, though
/// no event told of it.
const OWED: u64 = 1_000_000;

/// How many bytes the turn of a connection may take beside what it is counted for: for the dearest
/// request, until it is answered, and for its response.
const TURN_ROOM: u64 = 4_194_304;

/// When a slot's connection is looked at, of which something came that was put off.
#[derive(Clone, Copy)]
struct PutOff {
    slot: usize,
    at: u64,
}

/// The connections of a loop, each in its slot.
#[derive(Drop)]
pub struct Waiting {
    connections: Connections<HttpConnection>,
    // What they have of the memory of all.
    account: BudgetAccount,
    // Those that are ready and have a dear request.
    dear: Turns,
    // Both in microseconds.
    patience: u64,
    // Nobody has to be looked at before then of whom no event tells, but for those below.
    due: Option<u64>,
    // Those of whom something came that was put off, each once, the first one that is due in front.
    put_off: VecDeque<PutOff>,
}

impl Waiting {
    /// No connections, whose peers may each take so long, and what ends the waits for them. What
    /// they hold is within this budget.
    pub fn new<R: Net + Wait>(
        rt: &R,
        alloc: Global,
        patience: u64,
        budget: &Arc<SharedBudget, Global>,
    ) -> io::Result<(Waiting, Waker)>
        ensures { IfOk result (λ made. made.0.connections.slots ≡ no_slots) }
    {
        let (connections, waker) = Connections::new(rt, alloc)?;
        let waiting = Waiting {
            account: BudgetAccount::open(rt, budget, connections.waker()?)?,
            connections,
            dear: Turns::new(alloc),
            patience,
            due: None,
            put_off: VecDeque::new(alloc),
        };
        Ok((waiting, waker))
    }

    /// How many there are.
    pub fn count(&self) -> usize
        ensures { result ≡ count_there self.now.connections.slots }
    {
        self.connections.slots.count()
    }

    /// How many are ready.
    pub fn count_ready(&self) -> usize {
        self.connections.slots.count_ready()
    }

    /// When the last wait ended, in microseconds.
    pub fn now(&self) -> u64 {
        microseconds_of(self.connections.now())
    }

    /// Waits until some are ready, and no longer than until one has to be looked at. Where it is
    /// the turn of one with a dear request, it only looks.
    pub fn wait<R: Clock>(&mut self, rt: &R)
        ensures { KeepTheirs self.old.connections.slots self.new.connections.slots }
    {
        let now = self.now();
        let due = if self.dear.is_empty() {
            self.next_due()
        } else {
            Some(now)
        };
        let patience = match due {
            Some(due) => Some(Duration::from_micros(due.saturating_sub(now))),
            None => None,
        };
        self.connections.wait(rt, patience);
        self.look_again();
    }

    /// When somebody has to be looked at of whom no event tells.
    fn next_due(&self) -> Option<u64> {
        match (self.due, self.put_off.front()) {
            (Some(due), Some(first)) => Some(due.min(first.at)),
            (None, Some(first)) => Some(first.at),
            (due, None) => due,
        }
    }

    /// Lists those of whom something was put off until now.
    fn look_again(&mut self)
        ensures { KeepTheirs self.old.connections.slots self.new.connections.slots }
    {
        let now = self.now();
        for _ in 0..self.put_off.len() {
            let Some(slot) = self.next_put_off(now) else {
                return;
            };
            self.take_up(slot);
        }
    }

    /// The first slot of which something was put off until now, which it is no more.
    fn next_put_off(&mut self, now: u64) -> Option<usize>
        ensures { self.new.connections.slots ≡ self.old.connections.slots }
    {
        let first = self.put_off.front()?;
        if now < first.at {
            return None;
        }
        let first = self.put_off.pop_front()?;
        Some(first.slot)
    }

    /// Lists a slot whose connection has something that was put off.
    fn take_up(&mut self, slot: usize)
        ensures { KeepTheirs self.old.connections.slots self.new.connections.slots }
    {
        let Some(one) = self.connections.slots.get_mut(slot) else {
            return;
        };
        one.take_up();
        self.connections.wake(slot, Readiness::UNTOLD);
    }

    /// Has the connection of a slot looked at so long from now; or all, where there is no memory to
    /// note one.
    fn look_later(&mut self, slot: usize, left: u64)
        ensures { self.new.connections.slots ≡ self.old.connections.slots }
    {
        let at = self.now().saturating_add(left);
        if self.put_off.push_back(PutOff { slot, at }).is_err() {
            self.expect(left);
        }
    }

    /// Takes a connection in, and has the poll tell of it. Whether that could be.
    pub fn begin(&mut self, one: HttpConnection) -> bool
        ensures { TakesIn (past_of one) self.old.connections.slots self.new.connections.slots }
    {
        let Ok(slot) = self.connections.slots.reserve() else {
            return false;
        };
        if one.join(self.connections.registry(), Token(slot)).is_err() {
            let _ = self.connections.slots.release(slot);
            return false;
        }
        let _ = self.connections.slots.put(slot, one);
        self.expect(self.patience);
        self.list(slot);
        true
    }

    /// Somebody has to be looked at so long from now.
    fn expect(&mut self, left: u64)
        ensures { self.new.connections.slots ≡ self.old.connections.slots }
    {
        let then = self.now().saturating_add(left);
        let is_sooner = match self.due {
            Some(due) => then < due,
            None => true,
        };
        if is_sooner {
            self.due = Some(then);
        }
    }

    /// Lists a slot as ready, where its connection is.
    fn list(&mut self, slot: usize)
        ensures { KeepTheirs self.old.connections.slots self.new.connections.slots }
    {
        let one = self.connections.slots.get(slot);
        if !one.is_some_and(|one| one.is_ready()) {
            return;
        }
        self.connections.slots.list(slot);
    }

    /// Whether one is ready, or has its turn among those with a dear request.
    fn has_turn(&self) -> bool {
        self.connections.slots.has_ready() || !self.dear.is_empty()
    }

    /// Has the memory that one turn may take, where one is due. Whether there is as much.
    pub fn has_room<R: Wait>(&mut self, rt: &R) -> bool
        ensures { self.new.connections.slots ≡ self.old.connections.slots }
    {
        let more = if self.has_turn() { TURN_ROOM } else { 0 };
        self.account.has_room(rt, more)
    }

    /// Gives back what turns haven't taken, and what those had who have left.
    pub fn settle<R: Wait>(&mut self, rt: &R)
        ensures { self.new.connections.slots ≡ self.old.connections.slots }
    {
        let _ = self.account.settle(rt);
    }

    /// The next slot that is ready. None where its connection has a dear request: it waits for its
    /// turn among those, but where there is no memory.
    pub fn next_ready(&mut self) -> Option<usize>
        ensures { KeepTheirs self.old.connections.slots self.new.connections.slots }
    {
        let slot = self.connections.slots.next_ready()?;
        let one = self.connections.slots.get(slot)?;
        if one.is_dear() && self.dear.put(slot).is_ok() {
            self.note_wait(slot);
            return None;
        }
        Some(slot)
    }

    /// Notes that the connection of a slot waits for its turn from now on.
    fn note_wait(&mut self, slot: usize)
        ensures { KeepTheirs self.old.connections.slots self.new.connections.slots }
    {
        let now = self.now();
        let Some(one) = self.connections.slots.get_mut(slot) else {
            return;
        };
        one.begin_wait(now);
    }

    /// The same of the next one with a dear request.
    pub fn next_dear(&mut self) -> Option<usize>
        ensures { self.new.connections.slots ≡ self.old.connections.slots }
    {
        self.dear.next()
    }

    /// Has the connection of a slot do what it can, answered by this; what it reads is put into the
    /// piece. Whether it has ended.
    pub fn advance<R: Wait + Clock + RandomSource>(
        &mut self,
        slot: usize,
        answering: &mut Answering<'_, R>,
        is_ending: bool,
        piece: &mut [u8],
    ) -> bool
        ensures stay { StayInPlace self.old.connections.slots self.new.connections.slots }
        ensures turn { HasTurn (past_at self.old.connections.slots slot)
            (past_at self.new.connections.slots slot)
            (known_to answering.old.keys) (known_to answering.new.keys) }
    {
        let Some(mut one) = self.connections.slots.take(slot) else {
            return false;
        };
        let before = one.held();
        let now = self.now();
        answering.since = one.end_wait().unwrap_or(now);
        let Some(next) = one.advance(answering, now, piece) else {
            return self.end(slot, before);
        };
        if !self.put_back(slot, next, before) {
            return self.end(slot, before);
        }
        self.go_on(slot, is_ending);
        false
    }

    /// Notes until when one that goes on has to be looked at. Where the server ends, it takes
    /// nothing more than what has come, if it is idle.
    fn go_on(&mut self, slot: usize, is_ending: bool)
        ensures { KeepTheirs self.old.connections.slots self.new.connections.slots }
    {
        if is_ending {
            self.end_if_idle(slot);
        }
        self.stay(slot);
    }

    /// Puts a connection back into its slot behind a turn, which was counted for so many bytes.
    /// Whether it goes on.
    fn put_back(&mut self, slot: usize, mut one: HttpConnection, before: u64) -> bool
        requires { at self.old.connections.slots slot ≡ Lent }
        ensures there { result ≡ true
            → past_at self.new.connections.slots slot ≡ Some (past_of one) }
        ensures left { result ≡ false → past_at self.new.connections.slots slot ≡ None }
        ensures others { (other : ℕ) → other ≢ slot
            → at self.new.connections.slots other ≡ at self.old.connections.slots other }
    {
        if one
            .update(self.connections.registry(), Token(slot))
            .is_err()
        {
            return false;
        }
        self.account.count(before, one.held());
        let _ = self.connections.slots.put(slot, one);
        true
    }

    /// The connection of a slot has ended, which was counted for so many bytes.
    fn end(&mut self, slot: usize, held: u64) -> bool
        ensures { StayInPlace self.old.connections.slots self.new.connections.slots }
    {
        self.account.count(held, 0);
        let _ = self.release(slot);
        true
    }

    /// The same, whether the server ends or not.
    fn stay(&mut self, slot: usize)
        ensures { KeepTheirs self.old.connections.slots self.new.connections.slots }
    {
        let now = self.now();
        let Some(one) = self.connections.slots.get_mut(slot) else {
            return;
        };
        let (left, is_owed) = (one.left(self.patience, now), one.is_owed());
        let due_in = one.put_off();
        self.expect_within(left, is_owed);
        self.look_within(slot, due_in);
        self.list(slot);
    }

    /// Somebody has to be looked at so long from now, if at all, and soon where he is owed
    /// something.
    fn expect_within(&mut self, left: Option<u64>, is_owed: bool)
        ensures { self.new.connections.slots ≡ self.old.connections.slots }
    {
        let owed = if is_owed { Some(OWED) } else { None };
        match (left, owed) {
            (Some(left), Some(owed)) => self.expect(left.min(owed)),
            (Some(left), None) => self.expect(left),
            (None, Some(owed)) => self.expect(owed),
            (None, None) => {}
        }
    }

    /// Has the connection of a slot looked at so long from now, if at all.
    fn look_within(&mut self, slot: usize, due_in: Option<u64>)
        ensures { self.new.connections.slots ≡ self.old.connections.slots }
    {
        match due_in {
            Some(micros) => self.look_later(slot, micros),
            None => {}
        }
    }

    /// Whether it is time to look at all of them, which begins then.
    pub fn begins_look(&mut self) -> bool
        ensures { self.new.connections.slots ≡ self.old.connections.slots }
    {
        let now = self.now();
        let is_due = self.due.is_some_and(|due| due <= now);
        if is_due {
            self.due = None;
        }
        is_due
    }

    /// How many slots a look at all of them goes through.
    pub fn bound(&self) -> usize {
        self.connections.slots.bound()
    }

    /// Lets the connection of a slot go, where its peer has taken too long and it waits for no turn
    /// itself, and looks again at one that is owed something. So an event that was missed delays
    /// it, and no more. Whether one was let go.
    pub fn look(&mut self, slot: usize) -> bool
        ensures { StayInPlace self.old.connections.slots self.new.connections.slots }
    {
        let Some(one) = self.connections.slots.get(slot) else {
            return false;
        };
        let (left, is_owed) = (one.left(self.patience, self.now()), one.is_owed());
        if left.is_none() && !one.is_waiting() {
            return self.release(slot);
        }
        if is_owed {
            self.connections.wake(slot, Readiness::UNTOLD);
        }
        self.stay(slot);
        false
    }
}
