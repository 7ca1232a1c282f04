//! How many lines of a kind are printed in a second.

ghost use Rattle.std.specs.Prelude.{◌≡◌};
ghost use Rattle.mac_log.specs.Quota.{admitted, is_over, is_owing, new_quota, settled, with_left_out};

/// How many lines of a kind are printed in a second at most.
pub const LINES_MAX: u64 = 10;

/// A second in milliseconds.
pub const SECOND: u64 = 1_000;

/// What was printed of a kind in the second that runs, and how many lines were left out of which
/// nobody was told. A second begins with the first line behind the end of the one before.
#[derive(Clone, Copy, Debug, PartialEq, Eq)]
pub struct Quota {
    start: u64,
    printed: u64,
    left_out: u64,
}

impl Quota {
    /// Nothing was printed or left out, and a second begins at 0.
    pub const fn new() -> Quota
        ensures { result ≡ new_quota }
    {
        Quota {
            start: 0,
            printed: 0,
            left_out: 0,
        }
    }

    /// Whether a line may be printed at this moment, in milliseconds of a clock that is never set
    /// back: how many were left out, which is to be told in front of it; nothing where it is left
    /// out itself.
    pub fn admit(&mut self, now: u64) -> Option<u64>
        ensures { (result, self.new) ≡ admitted self.old now }
    {
        if self.is_over(now) {
            let left_out = self.left_out;
            *self = Quota {
                start: now,
                printed: 1,
                left_out: 0,
            };
            Some(left_out)
        } else if self.printed < LINES_MAX {
            self.printed += 1;
            Some(0)
        } else {
            self.leave_out(1);
            None
        }
    }

    /// How many lines were left out, if that is to be told at this moment though no line comes, or
    /// 0. Then nothing is left to be told, and another second begins.
    pub fn settle(&mut self, now: u64) -> u64
        ensures { (result, self.new) ≡ settled self.old now }
    {
        if self.left_out == 0 || !self.is_over(now) {
            return 0;
        }
        let left_out = self.left_out;
        *self = Quota {
            start: now,
            printed: 0,
            left_out: 0,
        };
        left_out
    }

    /// Counts lines that were left out elsewhere.
    pub fn leave_out(&mut self, count: u64)
        ensures { self.new ≡ with_left_out self.old count }
    {
        self.left_out = self.left_out.saturating_add(count);
    }

    /// Whether lines were left out of which nobody was told.
    pub fn is_owing(&self) -> bool
        ensures { result ≡ is_owing self.now }
    {
        self.left_out > 0
    }

    /// Whether the second that runs is over.
    fn is_over(&self, now: u64) -> bool
        ensures { result ≡ is_over self.now now }
    {
        now.saturating_sub(self.start) >= SECOND
    }
}
