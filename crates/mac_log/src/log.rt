//! Lines that wait to be printed.

ghost use Rattle.std.specs.Prelude.{◌≡◌, [], ◌∷◌, ◌++◌, if◌then◌else◌};
ghost use Rattle.mac_log.specs.Waiting.{waiting_max};

use crate::NoMemory;
use crate::clock::millis_now;
use crate::fields::Fields;
use crate::kind::{KINDS, Kind};
use crate::line::Line;
use crossbeam_queue::ArrayQueue;
use mac_queue::{Bell, History};
use std::alloc::Global;
use std::sync::Wait;
use std::sync::atomic::AtomicU64;
use std::sync::atomic::Ordering::SeqCst;
use std::time::{Clock, Duration};
use std::{array, thread};

/// The most lines that wait to be printed.
pub const WAITING_MAX: usize = 1_024;

/// A line of a request is let in only while fewer lines than that wait: the rest stays for lines of
/// which there are few. Threads that post at the same moment may pass it by a line each.
pub const REQUESTS_WAITING_MAX: usize = 768;

/// How many milliseconds a look at what waits is behind the one before, while lines are left out
/// of which nobody was told yet, and while somebody waits for the last line.
const LOOK_MILLIS: u64 = 10;

/// Lines that wait for the thread that prints them. One for which there is no room or no memory is
/// counted and left out.
#[derive(Drop)]
pub struct Log {
    waiting: ArrayQueue<Line>,
    left_out: LeftOut,
    posted: AtomicU64,
    dealt_with: AtomicU64,
    bell: Bell,
}

/// How many lines of each kind were left out since that was last taken.
#[derive(Drop)]
struct LeftOut {
    counts: [AtomicU64; KINDS],
}

/// What became of a line: its kind stands in one of these.
#[derive(Drop)]
pub struct Fate {
    /// It waits to be printed.
    pub waiting: History<Kind>,
    /// It was left out, and is counted.
    pub left_out: History<Kind>,
}

impl LeftOut {
    /// Counts a line of a kind.
    fn count(&self, kind: Kind, fate: &mut Fate)
        ensures waiting { fate.new.waiting ≡ fate.old.waiting }
        ensures left_out { fate.new.left_out ≡ fate.old.left_out ++ kind ∷ [] }
    {
        self.counts[kind.place()].fetch_add(1, SeqCst);
        fate.left_out.add(&kind);
    }
}

impl Log {
    /// No line yet.
    pub fn new(alloc: Global) -> Result<Log, NoMemory> {
        Ok(Log {
            waiting: ArrayQueue::new(alloc, WAITING_MAX)?,
            left_out: LeftOut {
                counts: array::from_fn(|_| AtomicU64::new(0)),
            },
            posted: AtomicU64::new(0),
            dealt_with: AtomicU64::new(0),
            bell: Bell::new(),
        })
    }

    /// Hands a line over to be printed, with the moment of this call, and waits for nobody. The
    /// fields may be those for which memory ran out: then the line is left out.
    pub fn post<R: Wait + Clock>(
        &self,
        rt: &R,
        kind: Kind,
        fields: Result<Fields, NoMemory>,
    ) -> Fate
        ensures { result.waiting ++ result.left_out ≡ kind ∷ [] }
    {
        let mut fate = Fate {
            waiting: History::new(),
            left_out: History::new(),
        };
        let millis = millis_now(rt);
        let is_waiting = match fields {
            Ok(fields) => self.push(
                rt,
                Line {
                    kind,
                    millis,
                    fields,
                },
                &mut fate,
            ),
            Err(_) => false,
        };
        if !is_waiting {
            self.left_out.count(kind, &mut fate);
        }
        self.bell.ring();
        fate
    }

    /// Puts a line into the queue, if there is room for its kind.
    fn push<R: Wait>(&self, rt: &R, line: Line, fate: &mut Fate) -> bool
        ensures waiting { fate.new.waiting ≡ (if result then fate.old.waiting ++ line.kind ∷ []
            else fate.old.waiting) }
        ensures left_out { fate.new.left_out ≡ fate.old.left_out }
    {
        self.posted.fetch_add(1, SeqCst);
        let kind = line.kind;
        let has_room = self.waiting.len(rt) < waiting_max(kind);
        let is_waiting = has_room && self.waiting.push(rt, line).is_ok();
        if is_waiting {
            fate.waiting.add(&kind);
        } else {
            self.dealt_with.fetch_add(1, SeqCst);
        }
        is_waiting
    }

    /// The next line that waits.
    pub(crate) fn next<R: Wait>(&self, rt: &R) -> Option<Line> {
        self.waiting.pop(rt)
    }

    /// Says that the last line that was taken is printed or left out.
    pub(crate) fn settle_one(&self) {
        self.dealt_with.fetch_add(1, SeqCst);
    }

    /// How many lines of a kind were left out since the last call.
    pub(crate) fn take_left_out(&self, kind: Kind) -> u64 {
        self.left_out.counts[kind.place()].swap(0, SeqCst)
    }

    /// Sleeps until a line is posted, or for a moment where the caller has something to look at
    /// again.
    pub(crate) fn await_line<R: Wait + Clock>(&self, rt: &R, looks_again: bool) {
        if looks_again {
            pause(rt);
            return;
        }
        let notice = self.bell.announce();
        if self.is_idle() {
            self.bell.sleep(rt, notice);
        } else {
            self.bell.withdraw(notice);
        }
    }

    /// Waits until what was posted is printed, and at most so many milliseconds: nobody may read
    /// what is printed.
    pub fn flush<R: Wait + Clock>(&self, rt: &R, patience: u64) {
        for _ in 0..patience / LOOK_MILLIS {
            if self.is_idle() {
                return;
            }
            pause(rt);
        }
    }

    /// Whether each line that was posted is printed or left out, and none that was left out is to
    /// be told.
    fn is_idle(&self) -> bool {
        self.dealt_with.load(SeqCst) == self.posted.load(SeqCst)
            && self
                .left_out
                .counts
                .iter()
                .all(|count| count.load(SeqCst) == 0)
    }
}

/// A line of a kind is let in only while fewer lines than that wait.
fn waiting_max(kind: Kind) -> usize
    ensures { result ≡ waiting_max kind }
{
    if kind.is_bounded() {
        WAITING_MAX
    } else {
        REQUESTS_WAITING_MAX
    }
}

/// Sleeps for a moment.
fn pause<R: Clock>(rt: &R) {
    thread::sleep(rt, Duration::from_millis(LOOK_MILLIS));
}
