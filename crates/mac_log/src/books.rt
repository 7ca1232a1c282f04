//! What a printer did with the lines that it took.

ghost use Rattle.std.specs.Prelude.{◌≡◌, ◌<◌, ◌+◌, ◌^◌, ℕ, IfNone, IfSome, IfOk};
ghost use Rattle.mac_log.specs.Books.{Gains, Owes, accounted, admitted_of, lines_of, quota_of};
ghost use Rattle.mac_log.specs.Quota.{is_owing};

use crate::kind::{KINDS, Kind};
use crate::quota::Quota;
use mac_queue::History;

/// Lines of a kind, as they were taken or printed.
#[derive(Clone, Copy, Debug, PartialEq, Eq)]
pub enum KindLines {
    /// One of this kind that was posted.
    Posted(Kind),
    /// So many of this kind that were left out, of which one line tells.
    LeftOut(Kind, u64),
}

/// What was printed, and of each kind how many lines were left out.
#[derive(Drop)]
pub struct Books {
    quotas: [Quota; KINDS],
    printed: History<KindLines>,
}

impl Books {
    /// Nothing was printed or left out.
    pub fn new() -> Books
        ensures { (kind : Kind) → accounted result kind ≡ 0 }
    {
        Books {
            quotas: [Quota::new(); KINDS],
            printed: History::new(),
        }
    }

    /// Whether a line of a kind may be printed at this moment: how many were left out of which is
    /// to be told in front of it. Where it is left out itself, it is counted.
    pub fn admit(&mut self, kind: Kind, now: u64) -> Option<u64>
        ensures quota { (result, self.new.quotas) ≡ admitted_of self.old.quotas kind now }
        ensures admitted { IfSome result (λ count. Owes self.old self.new kind count) }
        ensures left_out { IfNone result (Gains self.old self.new kind 1) }
    {
        if !kind.is_bounded() {
            return Some(0);
        }
        let mut quota = self.quotas[kind.place()];
        let told = quota.admit(now);
        self.quotas[kind.place()] = quota;
        told
    }

    /// How many lines of a kind were left out, if that is to be told at this moment, or 0.
    pub fn settle(&mut self, kind: Kind, now: u64) -> u64
        ensures { Owes self.old self.new kind result }
    {
        let mut quota = self.quotas[kind.place()];
        let count = quota.settle(now);
        self.quotas[kind.place()] = quota;
        count
    }

    /// Counts lines of a kind that were left out elsewhere.
    pub fn leave_out(&mut self, kind: Kind, count: u64)
        ensures { Gains self.old self.new kind count }
    {
        let mut quota = self.quotas[kind.place()];
        quota.leave_out(count);
        self.quotas[kind.place()] = quota;
    }

    /// Whether lines of a kind were left out of which nobody was told.
    pub fn is_owing(&self, kind: Kind) -> bool
        ensures { result ≡ is_owing (quota_of self.now.quotas kind) }
    {
        self.quotas[kind.place()].is_owing()
    }

    /// Notes what a line was printed for.
    pub fn note(&mut self, lines: KindLines)
        ensures { (kind : Kind)
            → accounted self.new kind ≡ accounted self.old kind + lines_of kind lines }
    {
        self.printed.add(&lines);
    }
}
