//! Where bytes come from and where they go.

ghost use Rattle.std.specs.Prelude.{◌≡◌, ◌<◌, ◌≤◌, ◌⊎◌, ℕ, Bool, List, length, IfOk, IsTrue};
ghost use Rattle.mac_wire.specs.Device.{CountsFault, PassesFront};

use thiserror::Error;

/// A device failed. What failed, only the device knows.
#[derive(Clone, Copy, Debug, Error)]
#[error("the device failed")]
pub struct DeviceFault;

/// What bytes are read from. It can be lent to another thread.
pub trait Source: Send {
    /// Whether `taken` is what the device gave. It claims nothing of a device that doesn't tell its
    /// bytes.
    ghost tells: { Bool };

    /// The bytes that reads have given so far.
    ghost taken: { Self → List ℕ };

    /// Whether a read has answered the end.
    ghost ended: { Self → Bool };

    /// How often the device has failed.
    ghost faults: { Self → ℕ };

    /// Reads some bytes into the front of the buffer, and says how many. None into a buffer with
    /// room is the end.
    fn read(&mut self, buf: &mut [u8]) -> Result<usize, DeviceFault>
        requires { faults self.old < u64.MAX }
        ensures bound { IfOk result (λ n. n ≤ length buf.new) }
        ensures taken { IsTrue tells
            → PassesFront result buf.new (taken self.old) (taken self.new) }
        ensures faults { CountsFault result (faults self.old) (faults self.new) }

        // Nothing read, though there was room, is the end.
        ensures end { IfOk result (λ n. n ≡ 0 → 0 < length buf.new → IsTrue (ended self.new)) }
        ensures end_only { IsTrue (ended self.new) → IsTrue (ended self.old)
            ⊎ ((result ≡ Ok 0) × (0 < length buf.new)) }

        // After the end nothing is left.
        ensures end_stays { IsTrue (ended self.old) → IsTrue (ended self.new) }
        ensures end_is_last { IsTrue (ended self.old) → IfOk result (λ n. n ≡ 0) };

    /// How often the device has failed.
    fn faults(&self) -> u64
        ensures { result ≡ faults self.now };
}

/// What bytes are written to. It can be lent to another thread.
pub trait Sink: Send {
    /// Whether `written` is what the device took. It claims nothing of a device that doesn't tell
    /// its bytes.
    ghost tells: { Bool };

    /// The bytes that writes have taken so far.
    ghost written: { Self → List ℕ };

    /// How often the device has failed.
    ghost faults: { Self → ℕ };

    /// Writes some bytes of the buffer's front, and says how many: of a buffer that isn't empty at
    /// least one.
    fn write(&mut self, buf: &[u8]) -> Result<usize, DeviceFault>
        requires { faults self.old < u64.MAX }
        ensures bound { IfOk result (λ n. n ≤ length buf.now) }
        ensures some { IfOk result (λ n. 0 < length buf.now → 0 < n) }
        ensures written { IsTrue tells
            → PassesFront result buf.now (written self.old) (written self.new) }
        ensures faults { CountsFault result (faults self.old) (faults self.new) };

    /// How often the device has failed.
    fn faults(&self) -> u64
        ensures { result ≡ faults self.now };

    /// Nothing more is written, though more was to come. A device whose peer somebody waits for may
    /// end that wait; most do nothing.
    fn give_up(&self) {}
}
