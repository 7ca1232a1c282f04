//! Which connection of a loop holds most memory.

ghost use Rattle.std.specs.Prelude.{◌≡◌, ◌⊎◌, ℕ, IfSome, option_map};
ghost use Rattle.mac_sockets.specs.Heavy.{HoldsAsMuch, IsHeaviest, bytes_at};

use mac_slots::Slots;

/// A connection of which is known how much memory it holds.
pub trait Holds {
    /// How many bytes of memory it holds, as they were counted last.
    ghost bytes: { Self → ℕ };

    /// The same.
    fn held(&self) -> u64
        ensures { result ≡ bytes self.now };

    /// Since when it has made no progress, in microseconds.
    fn since(&self) -> u64;
}

/// A connection that holds memory.
#[derive(Clone, Copy, Debug, PartialEq, Eq)]
pub struct Heavy {
    /// Its slot.
    pub slot: usize,
    /// How many bytes it holds.
    pub held: u64,
    /// Since when it has made no progress, in microseconds.
    pub since: u64,
}

/// The one that holds most, where any holds some. Of several, the one that made no progress for
/// longest.
pub fn heaviest<C: Holds + Drop>(slots: &Slots<C>) -> Option<Heavy>
    ensures { IsHeaviest C.bytes slots.now result }
{
    let mut found = None;
    for slot in 0..slots.bound() {
        found = heavier(found, heavy_at(slots, slot));
    }
    found
}

/// What the connection of a slot holds, where one is there.
fn heavy_at<C: Holds + Drop>(slots: &Slots<C>, slot: usize) -> Option<Heavy>
    ensures slot { IfSome result (λ one. one.slot ≡ slot) }
    ensures held { option_map (λ one. one.held) result ≡ bytes_at C.bytes slots.now slot }
{
    let one = slots.get(slot)?;
    Some(Heavy {
        slot,
        held: one.held(),
        since: one.since(),
    })
}

/// The one that was found, or another one that holds more, or as much for longer.
fn heavier(found: Option<Heavy>, other: Option<Heavy>) -> Option<Heavy>
    ensures one { (result ≡ found) ⊎ (result ≡ other) }
    ensures found { (held : ℕ) → HoldsAsMuch found held → HoldsAsMuch result held }
    ensures other { IfSome other (λ other. HoldsAsMuch result other.held) }
{
    let Some(one) = other else {
        return found;
    };
    let is_heavier = match found {
        Some(most) => one.held > most.held || (one.held == most.held && one.since < most.since),
        None => one.held > 0,
    };
    if is_heavier { other } else { found }
}
