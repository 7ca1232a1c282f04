//! How much comes and goes on connections.

ghost use Rattle.std.specs.Prelude.{◌≡◌, ◌+◌, ◌-◌, ◌^◌, min};

/// How many bytes came from a peer, and how many went to it.
#[derive(Clone, Copy, Debug, PartialEq, Eq)]
pub struct Traffic {
    /// Those that were read.
    pub came: u64,
    /// Those that were written.
    pub went: u64,
}

impl Traffic {
    /// None.
    pub const NONE: Traffic = Traffic { came: 0, went: 0 };

    /// What has come and gone since an earlier count.
    pub fn since(self, before: Traffic) -> Traffic
        ensures came { result.came ≡ self.came - before.came }
        ensures went { result.went ≡ self.went - before.went }
    {
        Traffic {
            came: self.came.saturating_sub(before.came),
            went: self.went.saturating_sub(before.went),
        }
    }

    /// Both together.
    pub fn plus(self, other: Traffic) -> Traffic
        ensures came { result.came ≡ min (self.came + other.came) (2 ^ 64 - 1) }
        ensures went { result.went ≡ min (self.went + other.went) (2 ^ 64 - 1) }
    {
        Traffic {
            came: self.came.saturating_add(other.came),
            went: self.went.saturating_add(other.went),
        }
    }
}
