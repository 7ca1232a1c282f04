//! What each of several loops has of a budget of memory that all share.

ghost use Rattle.std.specs.Prelude.{◌≡◌, ◌≤◌, ◌-◌, if◌then◌else◌, not, IsTrue};
ghost use Rattle.mac_sockets.specs.Budget.{counted, is_much, plus_more, wanted_behind};

use crate::budget::Budget;
use mio::Waker;
use std::alloc::{AllocError, Global};
use std::sync::{Arc, Mutex, Wait};
use std::thread;
use std::time::{Clock, Duration};

/// How many milliseconds pass until memory is asked for again that others have.
const PAUSE_MILLIS: u64 = 1;

/// A budget of memory, and what wakes each of the loops that share it.
#[derive(Drop)]
pub struct SharedBudget {
    budget: Mutex<Budget>,
    wakers: Mutex<Vec<Waker>>,
}

impl SharedBudget {
    /// One of so many bytes, which no loop shares yet.
    pub fn new(alloc: Global, most: u64) -> Result<Arc<SharedBudget, Global>, AllocError> {
        let shared = SharedBudget {
            budget: Mutex::new(Budget::new(most)),
            wakers: Mutex::new(Vec::new(alloc)),
        };
        Ok(Arc::new(alloc, shared)?)
    }

    /// One loop more shares it, which is woken so.
    fn add<R: Wait>(&self, rt: &R, waker: Waker) -> Result<(), AllocError> {
        let mut wakers = self.wakers.lock(rt);
        let wakers = &mut *wakers;
        wakers.push(waker)?;
        Ok(())
    }

    /// How many loops share it.
    fn loops<R: Wait>(&self, rt: &R) -> usize {
        let wakers = self.wakers.lock(rt);
        wakers.len()
    }

    /// Has each loop look.
    fn wake_all<R: Wait>(&self, rt: &R) {
        let wakers = self.wakers.lock(rt);
        for waker in wakers.iter() {
            let _ = waker.wake();
        }
    }

    /// How many bytes the connections of all loops hold, where these leave less than some loop
    /// wants.
    fn held_in_want<R: Wait>(&self, rt: &R) -> Option<u64> {
        let budget = self.budget.lock(rt);
        budget.held_in_want()
    }
}

/// What a loop has of a budget, and what its connections hold of that.
#[derive(Drop)]
pub struct BudgetAccount {
    budget: Arc<SharedBudget, Global>,
    taken: u64,
    held: u64,
    // What the budget knows of what they hold.
    told: u64,
    // Whether there was less than it asked for when it asked last.
    lacks: bool,
    // What others know that it wants.
    wants: u64,
}

impl BudgetAccount {
    /// That of a further loop, which is woken so. It has nothing.
    pub fn open<R: Wait>(
        rt: &R,
        budget: &Arc<SharedBudget, Global>,
        waker: Waker,
    ) -> Result<BudgetAccount, AllocError> {
        let budget = Arc::try_clone(budget)?;
        budget.add(rt, waker)?;
        Ok(BudgetAccount {
            budget,
            taken: 0,
            held: 0,
            told: 0,
            lacks: false,
            wants: 0,
        })
    }

    /// Counts that a connection which held so much holds so much now.
    pub fn count(&mut self, before: u64, now: u64)
        ensures held { self.new.held ≡ counted self.old.held before now }
        ensures taken { self.new.taken ≡ self.old.taken }
    {
        self.held = self.held.saturating_sub(before).saturating_add(now);
    }

    /// Has what its connections hold and so much besides. Whether there is as much: else it has
    /// what it had. A first lack may be a moment's, as other loops give back what their turns
    /// haven't taken; at the next one in a row others know what it wants.
    pub fn has_room<R: Wait>(&mut self, rt: &R, more: u64) -> bool
        ensures taken { self.new.taken
            ≡ (if result then plus_more self.old.held more else self.old.taken) }
        ensures held { self.new.held ≡ self.old.held }
        ensures lacks { self.new.lacks ≡ not result }
        ensures wants { self.new.wants ≡ wanted_behind result self.old.lacks more }
    {
        let most = self.held.saturating_add(more);
        let is_room = self.hold(rt, most);
        let wants = if is_room || !self.lacks { 0 } else { more };
        self.want(rt, wants);
        self.lacks = !is_room;
        is_room
    }

    /// Has what its connections hold, and gives back what it has besides. Whether there is as much.
    pub fn settle<R: Wait>(&mut self, rt: &R) -> bool
        ensures taken { self.new.taken ≡ (if result then self.old.held else self.old.taken) }
        ensures held { self.new.held ≡ self.old.held }
        ensures told { self.new.told ≡ self.old.held }
        ensures less { self.old.held ≤ self.old.taken → IsTrue result }
    {
        let held = self.held;
        self.hold(rt, held)
    }

    /// Has so many bytes from now on: takes what is lacking, where as much is left, or gives back
    /// what is over. Whether it has them: else it has what it had. Others know what its connections
    /// hold.
    fn hold<R: Wait>(&mut self, rt: &R, count: u64) -> bool
        ensures taken { self.new.taken ≡ (if result then count else self.old.taken) }
        ensures held { self.new.held ≡ self.old.held }
        ensures told { self.new.told ≡ self.old.held }
        ensures less { count ≤ self.old.taken → IsTrue result }
        ensures lacks { self.new.lacks ≡ self.old.lacks }
        ensures wants { self.new.wants ≡ self.old.wants }
    {
        let mut budget = self.budget.budget.lock(rt);
        let budget = &mut *budget;
        budget.note_held(self.told, self.held);
        self.told = self.held;
        if count <= self.taken {
            budget.give(self.taken - count);
        } else if !budget.take(count - self.taken) {
            return false;
        }
        self.taken = count;
        true
    }

    /// Others know that it wants so much.
    fn want<R: Wait>(&mut self, rt: &R, wants: u64)
        ensures wants { self.new.wants ≡ wants }
        ensures taken { self.new.taken ≡ self.old.taken }
        ensures held { self.new.held ≡ self.old.held }
    {
        if self.wants == 0 && wants == 0 {
            return;
        }
        let mut budget = self.budget.budget.lock(rt);
        let budget = &mut *budget;
        budget.note_wanted(self.wants, wants);
        self.wants = wants;
    }

    /// So much less is wanted, as a connection has ended that might have grown by as much.
    pub fn want_less<R: Wait>(&mut self, rt: &R, less: u64)
        ensures wants { self.new.wants ≡ self.old.wants - less }
        ensures taken { self.new.taken ≡ self.old.taken }
        ensures held { self.new.held ≡ self.old.held }
    {
        let wants = self.wants.saturating_sub(less);
        self.want(rt, wants);
    }

    /// Whether there was less than it asked for when it asked last.
    pub fn lacks(&self) -> bool
        ensures { result ≡ self.now.lacks }
    {
        self.lacks
    }

    /// Whether one of its connections is to end: the connections of all leave less than some loop
    /// wants, and those here hold much of what all do.
    pub fn must_end<R: Wait>(&self, rt: &R) -> bool {
        match self.budget.held_in_want(rt) {
            Some(all) => is_much(self.held, self.budget.loops(rt), all),
            None => false,
        }
    }

    /// Waits for a moment, for what other loops give back. Where they know that it lacks memory,
    /// they look, whose connections may hold more.
    pub fn await_others<R: Wait + Clock>(&self, rt: &R) {
        if self.wants > 0 {
            self.budget.wake_all(rt);
        }
        thread::sleep(rt, Duration::from_millis(PAUSE_MILLIS));
    }
}

/// Whether so much is at least half of what each of so many loops has in the mean, which have so
/// much together.
fn is_much(held: u64, loops: usize, all: u64) -> bool
    ensures { result ≡ is_much held loops all }
{
    held.saturating_mul(2).saturating_mul(loops as u64) >= all
}
