//! Sending all of some bytes.

ghost use Rattle.std.specs.Prelude.{◌≡◌, ◌<◌, ◌++◌, length, take, IfErr, OnOk, IsTrue};
ghost use Rattle.mac_wire.specs.Device.{CountsFault};

use crate::device::{DeviceFault, Sink};

/// How many bytes are gathered before they are sent, where more may follow at once.
pub const GATHERED: usize = 65_536;

/// Sends all of the bytes, in as many writes as it takes. A fault tells n: the first n bytes went
/// out, and no more.
pub fn send_all<W: Sink>(sink: &mut W, bytes: &[u8]) -> Result<(), (DeviceFault, usize)>
    requires { W.faults sink.old < u64.MAX }
    ensures ok { IsTrue W.tells
        → OnOk result (W.written sink.new ≡ W.written sink.old ++ bytes.now) }
    ensures sent { IsTrue W.tells
        → IfErr result (λ e. W.written sink.new ≡ W.written sink.old ++ take e.1 bytes.now) }
    ensures bound { IfErr result (λ e. e.1 < length bytes.now) }
    ensures faults { CountsFault result (W.faults sink.old) (W.faults sink.new) }
{
    let mut sent = 0;
    while sent < bytes.len() {
        match sink.write(&bytes[sent..]) {
            Ok(count) => sent += count,
            Err(fault) => return Err((fault, sent)),
        }
    }
    Ok(())
}
