//! How many bytes are unsent on clients together.

ghost use Rattle.std.specs.Prelude.{◌≡◌, ◌+◌, ℕ};
ghost use Rattle.mac_loop.specs.Backlog.{rounded};

/// How many bytes are unsent on several clients together.
#[derive(Clone, Copy)]
pub struct Backlog {
    bytes: u64,
}

impl Backlog {
    /// Nothing is unsent.
    pub fn none() -> Backlog
        ensures { result.bytes ≡ rounded 0 }
    {
        Backlog { bytes: 0 }
    }

    /// So many bytes more are unsent.
    pub fn add(&mut self, unsent: usize)
        ensures { (all : ℕ) → self.old.bytes ≡ rounded all
            → self.new.bytes ≡ rounded (all + unsent) }
    {
        self.bytes = self.bytes.wrapping_add(unsent as u64);
    }

    /// So many bytes of them are unsent no more, or are counted elsewhere.
    pub fn subtract(&mut self, unsent: usize)
        ensures { (rest : ℕ) → self.old.bytes ≡ rounded (rest + unsent)
            → self.new.bytes ≡ rounded rest }
    {
        self.bytes = self.bytes.wrapping_sub(unsent as u64);
    }

    /// So many bytes were unsent on one of the clients, and so many are now.
    pub fn change(&mut self, before: usize, now: usize)
        ensures { (was is : ℕ) → is + before ≡ was + now → self.old.bytes ≡ rounded was
            → self.new.bytes ≡ rounded is }
    {
        self.add(now);
        self.subtract(before);
    }

    /// These and those of other clients.
    pub fn plus(self, other: Backlog) -> Backlog
        ensures { (these those : ℕ) → self.bytes ≡ rounded these → other.bytes ≡ rounded those
            → result.bytes ≡ rounded (these + those) }
    {
        Backlog {
            bytes: self.bytes.wrapping_add(other.bytes),
        }
    }

    /// It is so much now. What is to be added to what it was.
    pub fn replace(&mut self, now: Backlog) -> u64
        ensures now { self.new ≡ now }
        ensures more { rounded (self.old.bytes + result) ≡ now.bytes }
    {
        let more = now.bytes.wrapping_sub(self.bytes);
        *self = now;
        more
    }
}
