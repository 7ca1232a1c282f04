//! Secrets that are soon guessed.
ghost use Rattle.std.specs.Prelude.{◌≡◌, position};
ghost use Rattle.mac_keys.specs.Table.{lines_of};
ghost use Rattle.mac_keys.specs.Weak.{is_weak};

use crate::line::fields;

/// The fewest bytes of a secret that nobody guesses.
pub const SOUND_BYTES: usize = 16;

/// The place of the first line, counted from 0, that gives a name a secret of fewer than 16 bytes.
/// Takes no memory.
pub fn find_weak(text: &[u8]) -> Option<usize>
    ensures { result ≡ position is_weak (lines_of text.now) }
{
    text.split(|byte| *byte == b'\n')
        .position(|line| is_weak(line))
}

/// Whether a line has fewer digits than two for each of 16 bytes.
fn is_weak(line: &[u8]) -> bool
    ensures { result ≡ is_weak line.now }
{
    match fields(line) {
        Some((_, digits)) => digits.len() < 2 * SOUND_BYTES,
        None => false,
    }
}
