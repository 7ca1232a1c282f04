//! A line, as it is printed.

ghost use Rattle.std.specs.Prelude.{◌≡◌, ◌+◌, ◌≤◌, ◌∷◌, ◌++◌, length, OnOk};
ghost use Rattle.mac_log.specs.Line.{AddsLine, front_text};

use crate::NoMemory;
use crate::fields::Fields;
use crate::kind::Kind;
use crate::level::Level;
use crate::moment::append_moment;

/// The most bytes of a line, its line feed among them.
pub const LINE_MAX: usize = 1_024;

/// What happened, when, and what there is to say of it.
#[derive(Drop)]
pub struct Line {
    /// What happened.
    pub kind: Kind,
    /// When: milliseconds from 1970.
    pub millis: u64,
    /// What there is to say.
    pub fields: Fields,
}

impl Line {
    /// Appends the line with its line feed, and in front of it the level's priority for systemd's
    /// journal where that is asked for.
    pub fn append_to(&self, has_priority: bool, out: &mut Vec<u8>) -> Result<(), NoMemory>
        ensures text { OnOk result (AddsLine has_priority self.now out.old.items out.new.items) }
        ensures short { OnOk result (length out.new.items ≤ length out.old.items + LINE_MAX) }
    {
        let level = self.kind.level();
        append_front(has_priority, level, out)?;
        append_moment(self.millis, out)?;
        append_word(level.word(), out)?;
        append_word(self.kind.word(), out)?;
        out.extend_from_slice(self.fields.as_slice())?;
        out.extend_from_slice(b"\n")
    }
}

/// Appends what stands in front of a line.
fn append_front(has_priority: bool, level: Level, out: &mut Vec<u8>) -> Result<(), NoMemory>
    ensures { OnOk result (out.new.items ≡ out.old.items ++ front_text has_priority level) }
{
    if !has_priority {
        return Ok(());
    }
    out.extend_from_slice(level.priority().as_bytes())
}

/// Appends a word behind a space.
fn append_word(word: &str, out: &mut Vec<u8>) -> Result<(), NoMemory>
    ensures { OnOk result (out.new.items ≡ out.old.items ++ 32 ∷ word.now) }
{
    out.extend_from_slice(b" ")?;
    out.extend_from_slice(word.as_bytes())
}
