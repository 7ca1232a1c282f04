//! How far a daemon is, as a lock guards it.

ghost use Rattle.std.specs.Prelude.{◌≡◌, ◌↔◌, ◌⊎◌, ◌<◌, ◌+◌, ◌-◌, ◌^◌, if◌then◌else◌, min, true, false};
ghost use Rattle.std.specs.Prelude.{IsFalse, IsTrue};
ghost use Rattle.mac_host.specs.Standing.{IsEmpty, IsEnding};
ghost use Rattle.mac_host.specs.declared.standing.Instruction.TheVariants.{Nothing, Look, End};

/// What a daemon is told.
#[derive(Clone, Copy, Debug, PartialEq, Eq)]
pub enum Instruction {
    /// Nothing yet.
    Nothing,
    /// To look at once at what it looks at now and then.
    Look,
    /// To end.
    End,
}

/// How far a daemon is.
#[derive(Drop)]
pub struct Standing {
    pub has_begun: bool,
    // Whether it was told to look, and hasn't heard of it.
    looks: bool,
    // How often it was told to end.
    calls: u64,
    // Whether another daemon has its place, so that it is to end, and wasn't told to before.
    is_replaced: bool,
    // How many connections its further servers have.
    connections: u64,
    // How many further servers may still take connections.
    servers: u64,
    // Whether it has ended, but for its further servers.
    pub is_over: bool,
}

impl Standing {
    /// That of a daemon which hasn't begun.
    pub fn new() -> Standing
        ensures { ¬ IsEnding result }
    {
        Standing {
            has_begun: false,
            looks: false,
            calls: 0,
            is_replaced: false,
            connections: 0,
            servers: 0,
            is_over: false,
        }
    }

    /// Whether the daemon is to end, or has ended by itself.
    pub fn is_ending(&self) -> bool
        ensures { IsTrue result ↔ IsEnding self.now }
    {
        self.calls > 0 || self.is_replaced || self.is_over
    }

    /// Whether the daemon has ended, and its further servers too.
    pub fn is_empty(&self) -> bool
        ensures { IsTrue result ↔ IsEmpty self.now }
    {
        self.is_over && self.connections == 0 && self.servers == 0
    }

    /// Whether the daemon was told twice to end.
    pub fn is_cut(&self) -> bool
        ensures { IsTrue result ↔ (1 < self.now.calls) }
    {
        self.calls > 1
    }

    /// Whether the daemon was told something that it hasn't heard.
    pub fn has_call(&self) -> bool
        ensures { IsTrue result ↔ (IsEnding self.now ⊎ IsTrue self.now.looks) }
    {
        self.is_ending() || self.looks
    }

    /// What the daemon was told. It hears once of each look.
    pub fn hear(&mut self) -> Instruction
        ensures ending { IsEnding self.old → (result ≡ End) × (self.new ≡ self.old) }
        ensures looking { ¬ IsEnding self.old
            → (result ≡ (if self.old.looks then Look else Nothing))
            × (self.new ≡ record self.old { looks = false }) }
    {
        if self.is_ending() {
            return Instruction::End;
        }
        let looks = self.looks;
        self.looks = false;
        if looks {
            Instruction::Look
        } else {
            Instruction::Nothing
        }
    }

    /// The daemon is told to end.
    pub fn tell(&mut self)
        ensures { self.new ≡ record self.old { calls = min (self.old.calls + 1) (2 ^ 64 - 1) } }
    {
        self.calls = self.calls.saturating_add(1);
    }

    /// Another daemon has the place of this one. Whether that is why it is to end.
    pub fn replace(&mut self) -> bool
        ensures news { IsTrue result → ¬ IsEnding self.old
            × (self.new ≡ record self.old { is_replaced = true }) }
        ensures known { IsFalse result → IsEnding self.old × (self.new ≡ self.old) }
    {
        if self.is_ending() {
            return false;
        }
        self.is_replaced = true;
        true
    }

    /// The daemon is told to look.
    pub fn prompt(&mut self)
        ensures { self.new ≡ record self.old { looks = true } }
    {
        self.looks = true;
    }

    /// A further server may take connections.
    pub fn open_server(&mut self)
        ensures { self.new ≡ record self.old { servers = min (self.old.servers + 1) (2 ^ 64 - 1) } }
    {
        self.servers = self.servers.saturating_add(1);
    }

    /// One takes no more of them.
    pub fn close_server(&mut self)
        ensures { self.new ≡ record self.old { servers = self.old.servers - 1 } }
    {
        self.servers = self.servers.saturating_sub(1);
    }

    /// A further server has one connection more.
    pub fn enter(&mut self)
        ensures { self.new ≡ record self.old {
          connections = min (self.old.connections + 1) (2 ^ 64 - 1);
        } }
    {
        self.connections = self.connections.saturating_add(1);
    }

    /// One has a connection less.
    pub fn leave(&mut self)
        ensures { self.new ≡ record self.old { connections = self.old.connections - 1 } }
    {
        self.connections = self.connections.saturating_sub(1);
    }

    /// How many connections the further servers have.
    pub fn connections(&self) -> u64
        ensures { result ≡ self.now.connections }
    {
        self.connections
    }
}
