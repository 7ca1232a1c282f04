//! The first frame of some bytes, where it lies.

ghost use Rattle.mac_wire.specs.Cut.{IsCut};

/// What stands in the front of some bytes.
#[derive(Clone, Copy)]
pub enum Cut<'a> {
    /// A whole frame: its payload, and the bytes behind it.
    Whole(&'a [u8], &'a [u8]),
    /// Less than a whole frame.
    Unfinished,
    /// A frame that tells this length, which is greater than was allowed.
    TooLong(usize),
}

/// Cuts off the first frame, where it tells at most that many bytes of payload. It takes no memory,
/// and copies nothing.
pub fn next_frame(bytes: &[u8], most: usize) -> Cut<'_>
    ensures { IsCut most bytes.now result }
{
    let Some((told, behind)) = bytes.split_first_chunk::<4>() else {
        return Cut::Unfinished;
    };
    let told = u32::from_be_bytes(*told) as usize;
    if told > most {
        return Cut::TooLong(told);
    }
    match behind.split_at_checked(told) {
        Some((payload, rest)) => Cut::Whole(payload, rest),
        None => Cut::Unfinished,
    }
}
