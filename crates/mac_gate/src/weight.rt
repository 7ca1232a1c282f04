//! How long a request is, as far as it came.

ghost use Rattle.std.specs.Prelude.{◌≡◌};
ghost use Rattle.mac_gate.specs.Weight.{answered, fresh, heard, is_dear, new_weight, read_limit};

/// A request of more bytes is dear: it may take milliseconds.
pub const LIGHT_MAX: u64 = 4_096;

/// How many bytes came since the last response. Behind that, those of the last request stand until
/// something comes: by them the next one is taken to be as long.
#[derive(Clone, Copy, PartialEq, Eq)]
pub struct Weight {
    bytes: u64,
    is_idle: bool,
}

impl Weight {
    /// Nothing has come.
    pub fn new() -> Weight
        ensures { result ≡ new_weight }
    {
        Weight {
            bytes: 0,
            is_idle: true,
        }
    }

    /// How many bytes came since then.
    pub fn bytes(&self) -> u64
        ensures { result ≡ self.now.bytes }
    {
        let Weight { bytes, .. } = *self;
        bytes
    }

    /// Whether nothing has come since the last response.
    pub fn is_idle(&self) -> bool
        ensures { result ≡ self.now.is_idle }
    {
        self.is_idle
    }

    /// How many bytes came since the last response went.
    fn fresh(&self) -> u64
        ensures { result ≡ fresh self.now }
    {
        let Weight { bytes, is_idle } = *self;
        if is_idle { 0 } else { bytes }
    }

    /// Whether the request is dear: it has more bytes, or as many came and it isn't answered.
    pub fn is_dear(&self) -> bool
        ensures { result ≡ is_dear self.now }
    {
        self.bytes > LIGHT_MAX || self.fresh() == LIGHT_MAX
    }

    /// How many bytes a turn reads at most, where one reads so many of a dear request. Of another
    /// one it reads no more than such a request may have, so that none is answered which is longer.
    pub fn read_limit(&self, most: u64) -> u64
        ensures { result ≡ read_limit self.now most }
    {
        if self.is_dear() {
            return most;
        }
        LIGHT_MAX.saturating_sub(self.fresh()).min(most)
    }

    /// Notes that so many bytes came.
    pub fn hear(&mut self, count: u64)
        ensures { self.new ≡ heard self.old count }
    {
        if count > 0 {
            let before = self.fresh();
            *self = Weight {
                bytes: before.saturating_add(count),
                is_idle: false,
            };
        }
    }

    /// Notes that a response went.
    pub fn answer(&mut self)
        ensures { self.new ≡ answered self.old }
    {
        *self = Weight {
            bytes: self.bytes,
            is_idle: true,
        };
    }
}
