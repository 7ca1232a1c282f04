//! The lines that a printer takes from a log.

ghost use Rattle.std.specs.Prelude.{◌≡◌, ◌++◌, ◌∷◌, [], IfNone, IfSome};
ghost use Rattle.mac_log.specs.declared.books.KindLines.TheVariants as lines;

use crate::books::KindLines;
use crate::kind::Kind;
use crate::line::Line;
use crate::log::Log;
use mac_queue::History;
use std::alloc::Global;
use std::sync::{Arc, Wait};
use std::time::Clock;

/// A log, and what its printer took from it: whatever is taken stands in the history.
#[derive(Drop)]
pub(crate) struct TakenLines {
    log: Arc<Log, Global>,
    pub(crate) history: History<KindLines>,
}

impl TakenLines {
    /// Nothing was taken from the log.
    pub(crate) fn new(log: Arc<Log, Global>) -> TakenLines
        ensures { result.history ≡ [] }
    {
        TakenLines {
            log,
            history: History::new(),
        }
    }

    /// Takes the next line that waits.
    pub(crate) fn next<R: Wait>(&mut self, rt: &R) -> Option<Line>
        ensures none { IfNone result (self.new.history ≡ self.old.history) }
        ensures line { IfSome result (λ line.
            self.new.history ≡ self.old.history ++ lines.Posted line.kind ∷ []) }
    {
        let line = self.log.next(rt)?;
        self.history.add(&KindLines::Posted(line.kind));
        Some(line)
    }

    /// Takes how many lines of a kind were left out where they were posted, since the last call.
    pub(crate) fn take_left_out(&mut self, kind: Kind) -> u64
        ensures { self.new.history ≡ self.old.history ++ lines.LeftOut kind result ∷ [] }
    {
        let count = self.log.take_left_out(kind);
        self.history.add(&KindLines::LeftOut(kind, count));
        count
    }

    /// Says that the last line that was taken is printed or left out.
    pub(crate) fn settle_one(&self) {
        self.log.settle_one();
    }

    /// Sleeps until a line is posted, or for a moment where the caller has something to look at
    /// again.
    pub(crate) fn await_line<R: Wait + Clock>(&self, rt: &R, looks_again: bool) {
        self.log.await_line(rt, looks_again);
    }
}
