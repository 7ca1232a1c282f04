//! The jobs of a connection that are out, and the memory that they hold.

ghost use Rattle.std.specs.Prelude.{IsTrue};

/// How many jobs may be out.
const PLACES: u64 = 256;

/// Who waits for room waits until no more jobs than these are out, and no more bytes than half of
/// what they may hold.
const PLACES_LEFT: u64 = 64;

/// The lengths of the payloads of jobs that are out: put and not answered, or without a reply that
/// was sent. They bound what a connection holds.
#[derive(Drop)]
pub struct Outstanding {
    /// The length of the payload at each place, by the place's remainder.
    lengths: [u32; 256],
    /// The first place that is out, as far as it is known.
    first: u64,
    /// The place of the next job.
    next: u64,
    /// The bytes of the jobs between the two.
    bytes: usize,
    /// How many bytes they may hold. A single one may hold more.
    most: usize,
}

impl Outstanding {
    ghost use Rattle.mac_serve.specs.Room.{HasRoom, IsFreed, HasOneMore};

    /// There is no job yet, and jobs may hold so many bytes.
    pub fn new(most: usize) -> Outstanding {
        Outstanding {
            lengths: [0; 256],
            first: 0,
            next: 0,
            bytes: 0,
            most,
        }
    }

    /// Whether there is room for one more job of that length. The jobs at the places below `done`
    /// are out no more.
    pub fn has_room(&mut self, length: usize, done: u64) -> bool
        ensures room { IsTrue result → HasRoom self.new length }
        ensures freed { IsFreed done self.old self.new }
    {
        while self.first < done && self.first < self.next {
            let freed = self.lengths[(self.first % PLACES) as usize];
            self.bytes = self.bytes.saturating_sub(freed as usize);
            self.first += 1;
        }
        let is_first = self.first == self.next;
        let has_place = self.next.saturating_sub(self.first) < PLACES;
        is_first || has_place && self.bytes <= self.most && length <= self.most - self.bytes
    }

    /// Below which place no job may be out before it is worth while to go on.
    pub fn wanted(&self) -> u64 {
        let mut place = self.first;
        let mut bytes = self.bytes;
        while bytes > self.most / 2 && place < self.next {
            let freed = self.lengths[(place % PLACES) as usize];
            bytes = bytes.saturating_sub(freed as usize);
            place += 1;
        }
        place.max(self.next.saturating_sub(PLACES_LEFT))
    }

    /// One more job of that length.
    pub fn push(&mut self, length: usize)
        ensures { HasOneMore length self.old self.new }
    {
        self.lengths[(self.next % PLACES) as usize] = length.min(0xffff_ffff) as u32;
        self.bytes = self.bytes.saturating_add(length);
        self.next = self.next.saturating_add(1);
    }
}
