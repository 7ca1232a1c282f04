//! Overwriting what is secret before its memory is given back.
ghost use Rattle.std.specs.Prelude.{◌≡◌, length, replicate};

use crate::keys::Keys;

/// A descriptor that is none: the system writes nothing there.
const NOWHERE: i32 = -1;

/// Overwrites bytes with zeros.
///
/// The system is asked to write them to a descriptor that is none. It reads nothing, but may for
/// all that the optimiser knows, so that this lets the zeros stand. Costs some 100 ns.
pub fn wipe(bytes: &mut [u8])
    ensures { bytes.new ≡ replicate (length bytes.old) 0 }
{
    bytes.fill(0);
    let _ = libc::write(NOWHERE, bytes);
}

/// Looks at keys that were overwritten, out of the optimiser's sight, so that it lets them stand.
#[inline(never)]
pub(crate) fn show(keys: &Keys) {
    let _ = libc::write(NOWHERE, &keys.first.bytes());
}
