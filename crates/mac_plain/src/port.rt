//! A device that doesn't wait: what bytes come from, and where they go.

ghost use Rattle.std.specs.Prelude.{◌≡◌, ℕ, Bool, List, length, IsTrue};
ghost use Rattle.mac_plain.specs.Port.{Takes, Gives, FitsCame, FitsWent};

/// What a read answers.
#[derive(Clone, Copy, PartialEq, Eq)]
pub enum Came {
    /// So many bytes came, into the front of the buffer.
    Bytes(usize),
    /// Nothing is there yet.
    Later,
    /// Nothing more comes.
    End,
    /// The device failed.
    Fault,
}

/// What a write answers.
#[derive(Clone, Copy, PartialEq, Eq)]
pub enum Went {
    /// So many bytes of the buffer's front were taken.
    Bytes(usize),
    /// Nothing is taken yet.
    Later,
    /// The device failed.
    Fault,
}

/// Both directions of a connection. Neither call waits.
pub trait Port {
    /// Whether `taken` and `written` are what the device gave and took. It claims nothing of a
    /// device that doesn't tell its bytes.
    ghost tells: { Bool };

    /// The bytes that reads have given so far.
    ghost taken: { Self → List ℕ };

    /// The bytes that writes have taken so far.
    ghost written: { Self → List ℕ };

    /// Reads what has come into the front of the buffer, and says how much.
    fn read(&mut self, buf: &mut [u8]) -> Came
        ensures bound { FitsCame result (length buf.new) }
        ensures taken { IsTrue tells → Takes result buf.new (taken self.old) (taken self.new) }
        ensures written { IsTrue tells → written self.new ≡ written self.old };

    /// Writes what goes of the buffer's front, and says how much.
    fn write(&mut self, buf: &[u8]) -> Went
        ensures bound { FitsWent result (length buf.now) }
        ensures written { IsTrue tells
            → Gives result buf.now (written self.old) (written self.new) }
        ensures taken { IsTrue tells → taken self.new ≡ taken self.old };
}
