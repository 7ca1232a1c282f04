//! What lines tell of.

ghost use Rattle.std.specs.Prelude.{◌≡◌, ◌<◌};
ghost use Rattle.mac_log.specs.Kind.{is_bounded, kind_level, kind_place, kind_word};

use crate::level::Level;

/// How many kinds of lines there are.
pub const KINDS: usize = 19;

/// What a line tells of.
#[derive(Clone, Copy, Debug, PartialEq, Eq)]
pub enum Kind {
    /// The daemon serves its socket.
    Start,
    /// A key file was read anew.
    KeysRead,
    /// A key file was refused, and the keys that were there stay.
    KeysRefused,
    /// A key file has no key.
    KeysEmpty,
    /// A list of tokens that were taken back was read anew.
    RevokedRead,
    /// Such a list was refused, and the one that was there stays.
    RevokedRefused,
    /// A connection ended in a fault.
    ConnectionFault,
    /// A connection was closed that had sent nothing whole for a while.
    ConnectionIdle,
    /// A connection was not served.
    ConnectionDropped,
    /// A limit is reached.
    LimitReached,
    /// A limit of the system is below what the daemon was asked for.
    LimitLow,
    /// The system gave no connection.
    AcceptFault,
    /// The system refused a step that is made again, or that the daemon goes on without.
    SystemFault,
    /// A request was answered.
    Request,
    /// A token was minted.
    Mint,
    /// Another daemon's socket is in the place of the daemon's own.
    Replaced,
    /// The daemon was told to end, and answers what it has read.
    Drain,
    /// The daemon ends.
    End,
    /// Lines of a kind were left out.
    LeftOut,
}

impl Kind {
    /// All kinds.
    pub const ALL: [Kind; KINDS] = [
        Kind::Start,
        Kind::KeysRead,
        Kind::KeysRefused,
        Kind::KeysEmpty,
        Kind::RevokedRead,
        Kind::RevokedRefused,
        Kind::ConnectionFault,
        Kind::ConnectionIdle,
        Kind::ConnectionDropped,
        Kind::LimitReached,
        Kind::LimitLow,
        Kind::AcceptFault,
        Kind::SystemFault,
        Kind::Request,
        Kind::Mint,
        Kind::Replaced,
        Kind::Drain,
        Kind::End,
        Kind::LeftOut,
    ];

    /// The word that a line has for it.
    pub fn word(self) -> &'static str
        ensures { result.now ≡ kind_word self }
    {
        match self {
            Kind::Start => "start",
            Kind::KeysRead => "keys_read",
            Kind::KeysRefused => "keys_refused",
            Kind::KeysEmpty => "keys_empty",
            Kind::RevokedRead => "revoked_read",
            Kind::RevokedRefused => "revoked_refused",
            Kind::ConnectionFault => "connection_fault",
            Kind::ConnectionIdle => "connection_idle",
            Kind::ConnectionDropped => "connection_dropped",
            Kind::LimitReached => "limit_reached",
            Kind::LimitLow => "limit_low",
            Kind::AcceptFault => "accept_fault",
            Kind::SystemFault => "system_fault",
            Kind::Request => "request",
            Kind::Mint => "mint",
            Kind::Replaced => "replaced",
            Kind::Drain => "drain",
            Kind::End => "end",
            Kind::LeftOut => "left_out",
        }
    }

    /// How grave it is.
    pub fn level(self) -> Level
        ensures { result ≡ kind_level self }
    {
        match self {
            Kind::KeysRefused | Kind::RevokedRefused | Kind::AcceptFault | Kind::SystemFault =>
                Level::Error,
            Kind::KeysEmpty
            | Kind::ConnectionFault
            | Kind::ConnectionDropped
            | Kind::LimitReached
            | Kind::LimitLow
            | Kind::LeftOut => Level::Warning,
            Kind::Start
            | Kind::KeysRead
            | Kind::RevokedRead
            | Kind::ConnectionIdle
            | Kind::Request
            | Kind::Mint
            | Kind::Replaced
            | Kind::Drain
            | Kind::End => Level::Info,
        }
    }

    /// Whether few of its lines are printed in a second. Of requests and mints each is, where that
    /// was asked for.
    pub fn is_bounded(self) -> bool
        ensures { result ≡ is_bounded self }
    {
        self != Kind::Request && self != Kind::Mint
    }

    /// Its place among the kinds.
    pub fn place(self) -> usize
        ensures place { result ≡ kind_place self }
        ensures within { result < KINDS }
    {
        self as usize
    }
}
