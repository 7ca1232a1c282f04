//! What a connection is known by.

ghost use Rattle.std.specs.Prelude.{◌≡◌};
ghost use Rattle.mac_host.specs.Badge.{socket_of_door};

/// The socket of a daemon that a connection came in at.
#[derive(Clone, Copy, Debug, PartialEq, Eq)]
pub enum Socket {
    /// Its own.
    Main,
    /// Its second one.
    Side,
}

impl Socket {
    /// That of a door, by its number.
    pub fn of_door(door: usize) -> Socket
        ensures { result ≡ socket_of_door door }
    {
        match door {
            0 => Socket::Main,
            _ => Socket::Side,
        }
    }

    /// The number of its door.
    pub fn door(self) -> usize
        ensures { socket_of_door result ≡ self }
    {
        match self {
            Socket::Main => 0,
            Socket::Side => 1,
        }
    }
}

/// What a connection is known by, whichever thread answers it.
#[derive(Clone, Copy, Debug, PartialEq, Eq)]
pub struct Badge {
    /// Its number among those that were accepted, counted from 1.
    pub number: u64,
    /// Where it came in.
    pub socket: Socket,
    /// When it was accepted, on the clock of [`microseconds`](crate::microseconds).
    pub accepted: u64,
    /// Its place in the list of connections, where it has one.
    pub place: Option<usize>,
}

impl Badge {
    /// That of nobody.
    pub const NONE: Badge = Badge {
        number: 0,
        socket: Socket::Main,
        accepted: 0,
        place: None,
    };
}

/// What a connection has come to.
#[derive(Clone, Copy, Debug, PartialEq, Eq)]
pub struct Life {
    /// Whose it is.
    pub badge: Badge,
    /// How many of its requests were answered.
    pub answered: u64,
}
