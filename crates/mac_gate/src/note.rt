//! What a loop knows of a connection, beside what came and went on it.

ghost use Rattle.std.specs.Prelude.{◌≡◌};

use crate::devices::Spoken;
use crate::flow::Heard;
use crate::load::Load;
use crate::weight::Weight;
use mac_host::DROPPED_READS;

/// How many bytes one read takes at most. So a turn answers one long request at most, and as many
/// bytes behind it.
const READ_MAX: u64 = 8_192;

/// What a loop knows of a connection.
#[derive(Clone, Copy)]
pub struct HttpNote {
    /// Since when it waits for a turn among those with a dear request, in microseconds.
    pub waits_since: Option<u64>,
    /// Whether the loop has noted when it is to look at what was gathered.
    pub is_put_off: bool,
    /// When something was written last, or it began, in microseconds.
    pub since: u64,
    /// What has come since then.
    pub weight: Weight,
    /// How much memory it is counted for.
    pub load: Load,
    /// Whether the last read gave some bytes.
    pub has_come: bool,
    /// Whether there may be something to be read.
    pub has_more: bool,
    /// Whether there may be room to write.
    pub has_room: bool,
    /// Whether the peer writes no more: it is read to its end.
    pub is_closing: bool,
    /// Whether a poll tells of room to write.
    pub awaits_room: bool,
    /// Behind the last response, how many further reads drop what comes.
    pub parting: Option<usize>,
}

impl HttpNote {
    /// That of a connection that begins now.
    pub fn new(now: u64) -> HttpNote
        ensures { result.parting ≡ None }
    {
        HttpNote {
            waits_since: None,
            is_put_off: false,
            since: now,
            weight: Weight::new(),
            load: Load::new(),
            has_come: false,
            has_more: true,
            has_room: true,
            is_closing: false,
            awaits_room: false,
            parting: None,
        }
    }

    /// How many bytes a turn reads at most.
    pub fn read_limit(&self) -> usize {
        self.weight.read_limit(READ_MAX) as usize
    }

    /// Notes what a read came to.
    pub fn hear(&mut self, heard: &Heard)
        ensures { self.new.parting ≡ self.old.parting }
    {
        self.has_come = heard.came > 0;
        self.has_more = heard.has_more || (self.has_come && self.is_closing);
        self.weight.hear(heard.came as u64);
        self.load.note(self.weight.bytes(), 0);
    }

    /// Notes what a write came to.
    pub fn speak(&mut self, spoken: &Spoken<'_>, now: u64)
        ensures { self.new.parting ≡ self.old.parting }
    {
        self.has_room = spoken.has_room;
        self.load.note(self.weight.bytes(), spoken.waited as u64);
        if spoken.has_gone {
            self.weight.answer();
            self.since = now;
        }
    }

    /// What comes from now on is dropped.
    pub fn part(&mut self, now: u64) {
        self.parting = Some(DROPPED_READS);
        self.since = now;
        self.has_more = true;
    }
}
