//! Reading the whole input.
ghost use Rattle.std.specs.Prelude.{◌≡◌, ◌<◌, IsTrue, OnOk};
ghost use Rattle.mac_commands.specs.Output.{CountsDevice};
ghost use Rattle.mac_commands.specs.Inner.{Takes};
ghost use Rattle.mac_commands.specs.declared.fault.PipeFault.TheVariants.{Device};

use crate::fault::PipeFault;
use mac_keys::wipe;
use mac_wire::Source;
use std::alloc::Global;

/// The greatest number of bytes in an input.
pub const INPUT_MAX: usize = 16_777_216;

/// How many bytes a read asks for.
const PIECE: usize = 8_192;

/// Reads a source to its end, and of a longer one a byte past the bound.
pub(crate) fn read_input<R: Source>(alloc: Global, source: &mut R) -> Result<Vec<u8>, PipeFault>
    requires { R.faults source.old < u64.MAX }
    ensures input { IsTrue R.tells → Takes result (R.taken source.old) (R.taken source.new) }
    ensures end { OnOk result (IsTrue (R.ended source.new)) }
    ensures failed { result ≡ Err Device → IsTrue (R.ended source.new) → IsTrue R.tells
        → R.taken source.new ≡ R.taken source.old }
    ensures faults { CountsDevice result (R.faults source.old) (R.faults source.new) }
{
    let mut input = Vec::new(alloc);
    let mut piece = [0u8; PIECE];
    while input.len() <= INPUT_MAX {
        let room = PIECE.min(INPUT_MAX + 1 - input.len());
        let count = source.read(&mut piece[..room])?;
        if count == 0 {
            wipe(&mut piece);
            return Ok(input);
        }
        input.extend_from_slice(&piece[..count])?;
    }
    Err(PipeFault::TooLong)
}
