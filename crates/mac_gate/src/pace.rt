//! When what a peer sends in pieces is looked at.

ghost use Rattle.std.specs.Prelude.{◌≡◌};
ghost use Rattle.mac_gate.specs.Pace.{is_due, looked_at, new_pace};

/// How often what came is looked at, behind a response, however small its pieces are.
pub const LOOKS_FREE: u64 = 64;

/// Then it is looked at once it has grown by one part of so many.
pub const LOOK_SHARE: u64 = 8;

/// And else so many microseconds behind the last look,
pub const LOOK_MICROS: u64 = 10_000;

/// and so many for each byte that was seen, since a look reads all of them.
pub const LOOK_EACH: u64 = 4;

/// How much of what came since the last response was looked at, how often, and when last. Each look
/// reads all that came since then: by this pace a head that comes a byte at a time costs no more
/// than some times its length, and a small share of the time that it takes.
#[derive(Clone, Copy, PartialEq, Eq)]
pub struct Pace {
    looks: u64,
    seen: u64,
    looked: u64,
}

impl Pace {
    /// Nothing was looked at since the last response.
    pub fn new() -> Pace
        ensures { result ≡ new_pace }
    {
        Pace {
            looks: 0,
            seen: 0,
            looked: 0,
        }
    }

    /// Whether so many bytes are to be looked at now, in microseconds.
    pub fn is_due(&self, fresh: u64, now: u64) -> bool
        ensures { result ≡ is_due self.now fresh now }
    {
        let waited = now.saturating_sub(self.looked);
        self.looks < LOOKS_FREE
            || self.seen <= fresh.saturating_mul(LOOK_SHARE)
            || (waited >= LOOK_MICROS && waited >= self.seen.saturating_mul(LOOK_EACH))
    }

    /// Notes that they are.
    pub fn look(&mut self, fresh: u64, now: u64)
        ensures { self.new ≡ looked_at self.old fresh now }
    {
        *self = Pace {
            looks: self.looks.saturating_add(1),
            seen: self.seen.saturating_add(fresh),
            looked: now,
        };
    }
}
