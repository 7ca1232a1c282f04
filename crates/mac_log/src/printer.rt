//! The thread that prints lines.

ghost use Rattle.std.specs.Prelude.{◌≡◌};
ghost use Rattle.mac_log.specs.Books.{AreAccounted, Gains, accounted};
ghost use Rattle.mac_log.specs.declared.kind.Kind.{Kind};

use crate::NoMemory;
use crate::books::{Books, KindLines};
use crate::clock::{millis_now, millis_of};
use crate::fields::Fields;
use crate::key::Key;
use crate::kind::Kind;
use crate::line::Line;
use crate::log::Log;
use crate::taken::TakenLines;
use std::alloc::Global;
use std::sync::{Arc, Wait};
use std::thread;
use std::thread::Threads;
use std::time::{Clock, Instant};

/// What prints lines on standard error: of each bounded kind ten a second, and then how many were
/// left out.
#[derive(Drop)]
struct Printer {
    alloc: Global,
    has_priority: bool,
    books: Books,
    text: Vec<u8>,
}

/// A printer with the lines that it takes: each of them is accounted for.
#[derive(Drop)]
struct Printing {
    taken: TakenLines,
    printer: Printer,
    begun: Option<Instant>,
    ghost accounted: { AreAccounted taken.history printer.books },
}

impl Printing {
    fn new<R: Clock>(rt: &R, alloc: Global, log: Arc<Log, Global>, has_priority: bool) -> Printing {
        Printing {
            taken: TakenLines::new(log),
            printer: Printer::new(alloc, has_priority),
            begun: Instant::now(rt).ok(),
        }
    }

    /// Prints lines without end.
    fn print_each<R: Wait + Clock + Eprint>(mut self, rt: &R) {
        for _ in rt.forever() {
            let now = self.millis(rt);
            self.print_waiting(rt, now);
            let is_owing = self.tell_left_out(rt, now);
            self.taken.await_line(rt, is_owing);
        }
    }

    /// Prints what waits, as far as the quotas go.
    fn print_waiting<R: Wait + Clock + Eprint>(&mut self, rt: &R, now: u64) {
        for _ in rt.forever() {
            if !self.print_next(rt, now) {
                return;
            }
        }
    }

    /// Deals with the next line that waits. Whether there was one.
    fn print_next<R: Wait + Eprint>(&mut self, rt: &R, now: u64) -> bool {
        let Some(line) = self.taken.next(rt) else {
            return false;
        };
        self.printer.deal_with(rt, &line, now);
        self.taken.settle_one();
        true
    }

    /// Tells of each kind how many lines were left out, where that is due. Whether there are others
    /// of which it is not.
    fn tell_left_out<R: Wait + Clock + Eprint>(&mut self, rt: &R, now: u64) -> bool {
        let mut is_owing = false;
        for kind in Kind::ALL {
            self.settle(rt, kind, now);
            is_owing = is_owing || self.printer.books.is_owing(kind);
        }
        is_owing
    }

    /// Takes in how many lines of a kind were left out, and tells that where it is due.
    fn settle<R: Clock + Eprint>(&mut self, rt: &R, kind: Kind, now: u64) {
        let lost = self.taken.take_left_out(kind);
        self.printer.settle(rt, kind, lost, now);
    }

    /// Milliseconds since the thread began, or 0 where the clock can't be read.
    fn millis<R: Clock>(&self, rt: &R) -> u64 {
        let Some(begun) = self.begun else {
            return 0;
        };
        match begun.elapsed(rt) {
            Ok(since) => millis_of(since),
            Err(_) => 0,
        }
    }
}

impl Printer {
    fn new(alloc: Global, has_priority: bool) -> Printer
        ensures { (kind : Kind) → accounted result.books kind ≡ 0 }
    {
        Printer {
            alloc,
            has_priority,
            books: Books::new(),
            text: Vec::new(alloc),
        }
    }

    /// Prints a line behind how many of its kind were left out, or counts it as left out.
    fn deal_with<R: Eprint>(&mut self, rt: &R, line: &Line, now: u64)
        ensures { Gains self.old.books self.new.books line.now.kind 1 }
    {
        if let Some(count) = self.books.admit(line.kind, now) {
            self.print_left_out(rt, line.kind, line.millis, count);
            self.print_or_count(rt, line);
        }
    }

    /// Prints a line, or counts it as left out where there is no memory for its text.
    fn print_or_count<R: Eprint>(&mut self, rt: &R, line: &Line)
        ensures { Gains self.old.books self.new.books line.now.kind 1 }
    {
        if self.print(rt, line) {
            self.books.note(KindLines::Posted(line.kind));
        } else {
            self.books.leave_out(line.kind, 1);
        }
    }

    /// Takes in how many lines of a kind were left out, and tells how many there are of them all,
    /// where that is due.
    fn settle<R: Clock + Eprint>(&mut self, rt: &R, kind: Kind, lost: u64, now: u64)
        ensures { Gains self.old.books self.new.books kind lost }
    {
        self.books.leave_out(kind, lost);
        let due = self.books.settle(kind, now);
        if due > 0 {
            let millis = millis_now(rt);
            self.print_left_out(rt, kind, millis, due);
        }
    }

    /// Prints that lines of a kind were left out, if any were. Where there is no memory for that,
    /// it is still to be told.
    fn print_left_out<R: Eprint>(&mut self, rt: &R, kind: Kind, millis: u64, count: u64)
        ensures { Gains self.old.books self.new.books kind count }
    {
        if count == 0 {
            return;
        }
        let is_printed = match left_out_fields(self.alloc, kind, count) {
            Ok(fields) => self.print(
                rt,
                &Line {
                    kind: Kind::LeftOut,
                    millis,
                    fields,
                },
            ),
            Err(_) => false,
        };
        if is_printed {
            self.books.note(KindLines::LeftOut(kind, count));
        } else {
            self.books.leave_out(kind, count);
        }
    }

    /// Prints a line by one call of the system, unless there is no memory for its text.
    fn print<R: Eprint>(&mut self, rt: &R, line: &Line) -> bool
        ensures { self.new.books ≡ self.old.books }
    {
        self.text.clear();
        if line.append_to(self.has_priority, &mut self.text).is_err() {
            return false;
        }
        if let Ok(text) = str::from_utf8(self.text.as_slice()) {
            let _ = eprint!(rt; "{text}");
        }
        true
    }
}

/// The fields of a line that tells how many lines of a kind were left out.
fn left_out_fields(alloc: Global, kind: Kind, count: u64) -> Result<Fields, NoMemory> {
    Fields::new(alloc)
        .with_text(Key::Kind, kind.word().as_bytes())?
        .with_number(alloc, Key::Count, count)
}

/// Starts the thread that prints lines on standard error, each with its priority in front where
/// systemd's journal reads them. Without a thread or memory there is no log.
pub fn start_log<R>(rt: R, alloc: Global, has_priority: bool) -> Option<Arc<Log, Global>>
where
    R: Threads + Wait + Clock + Eprint + Copy + Send + 'static,
{
    let log = Arc::new(alloc, Log::new(alloc).ok()?).ok()?;
    let printed = Arc::try_clone(&log).ok()?;
    let printing = Printing::new(&rt, alloc, printed, has_priority);
    thread::spawn(&rt, move || printing.print_each(&rt)).ok()?;
    Some(log)
}
