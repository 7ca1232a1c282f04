//! How many connections there may be.

ghost use Rattle.std.specs.Prelude.{◌≡◌, ◌+◌, ◌-◌, nat_lt, if◌then◌else◌};

/// How many connections there are, and how many there may be.
#[derive(Drop)]
pub struct Limit {
    most: usize,
    live: usize,
}

impl Limit {
    /// No connections yet, of so many.
    pub fn new(most: usize) -> Limit
        ensures most { result.most ≡ most }
        ensures live { result.live ≡ 0 }
    {
        Limit { most, live: 0 }
    }

    /// Counts one connection more, where there may be one. Whether that was so.
    pub fn enter(&mut self) -> bool
        ensures free { result ≡ nat_lt self.old.live self.old.most }
        ensures live { self.new.live ≡ (if result then self.old.live + 1 else self.old.live) }
        ensures most { self.new.most ≡ self.old.most }
    {
        if self.live < self.most {
            self.live += 1;
            return true;
        }
        false
    }

    /// Counts one less.
    pub fn leave(&mut self)
        ensures live { self.new.live ≡ self.old.live - 1 }
        ensures most { self.new.most ≡ self.old.most }
    {
        self.live = self.live.saturating_sub(1);
    }
}
