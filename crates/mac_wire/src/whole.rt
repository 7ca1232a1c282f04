//! How many frames stand whole in some bytes.

ghost use Rattle.std.specs.Prelude.{◌≡◌, ◌+◌, ◌≤◌, ◌<◌, ℕ, List, MatchOption, All, length, take, drop};
ghost use Rattle.mac_wire.specs.Frame.{framed, told_length};
ghost use Rattle.mac_wire.specs.Whole.{HasWhole};
ghost use Rattle.mac_wire.specs.declared.arrival.TheConstants.{FRAME_MAX};

/// How many whole frames stand in the front of some bytes. After a write that stopped in the middle
/// of frames it tells how many went out. It costs a step a frame.
pub fn whole_frames(bytes: &[u8]) -> u64
    ensures { (payloads : List (List ℕ)) → All (λ p. length p ≤ FRAME_MAX) payloads
        → bytes.now ≡ take (length bytes.now) (framed payloads)
        → HasWhole payloads (length bytes.now) result }
{
    let mut count = 0;
    let mut rest = bytes;
    while let Some(behind) = behind_frame(rest) {
        count += 1;
        rest = behind;
    }
    count
}

/// What stands behind the first frame, if that is whole.
fn behind_frame(bytes: &[u8]) -> Option<&[u8]>
    ensures { MatchOption result (length bytes.now < 4 + told_length bytes.now)
        (λ rest. (4 + told_length bytes.now ≤ length bytes.now)
        × (rest.now ≡ drop (4 + told_length bytes.now) bytes.now)) }
{
    let (told, rest) = bytes.split_first_chunk::<4>()?;
    let told = u32::from_be_bytes(*told) as usize;
    let (_, behind) = rest.split_at_checked(told)?;
    Some(behind)
}
