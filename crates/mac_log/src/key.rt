//! The keys of a line's fields.

ghost use Rattle.std.specs.Prelude.{◌≡◌};
ghost use Rattle.mac_log.specs.Key.{key_word};

/// What a field of a line is about. None is for a token, a fact or a secret.
#[derive(Clone, Copy, Debug, PartialEq, Eq)]
pub enum Key {
    /// The version of the program.
    Version,
    /// The path of a socket.
    Socket,
    /// The path of a file.
    File,
    /// How many names have a key.
    Names,
    /// How many threads answer.
    Workers,
    /// The number of a connection, counted from 1.
    Connection,
    /// How many connections there are.
    Connections,
    /// How many milliseconds something took.
    Millis,
    /// How many requests were answered.
    Requests,
    /// What went wrong, in plain words.
    Fault,
    /// The number of a peer's process.
    Pid,
    /// The number of a peer's user.
    Uid,
    /// The kind of the lines that were left out.
    Kind,
    /// How many there are.
    Count,
    /// Which limit.
    Limit,
    /// What it is.
    Value,
    /// Why something happened, in plain words.
    Cause,
    /// What a request asks for.
    Asks,
    /// The name of a key, and never the key, nor a token that stands in its place.
    Name,
    /// The identifier of a token that was minted, or whose signature is right.
    Identifier,
    /// What a request is told apart by, where who asks says that.
    Id,
    /// What a request was answered.
    Verdict,
    /// The number of a refusal.
    Code,
    /// The index of a caveat that isn't satisfied, from 0.
    Caveat,
    /// The status of a response over HTTP.
    Status,
    /// How many bytes a peer hasn't taken.
    Unsent,
    /// Which of several ways something has.
    Form,
    /// How many bytes of memory there may be.
    Memory,
}

impl Key {
    /// The word that a line has for it.
    pub fn word(self) -> &'static str
        ensures { result.now ≡ key_word self }
    {
        match self {
            Key::Version => "version",
            Key::Socket => "socket",
            Key::File => "file",
            Key::Names => "names",
            Key::Workers => "workers",
            Key::Connection => "connection",
            Key::Connections => "connections",
            Key::Millis => "millis",
            Key::Requests => "requests",
            Key::Fault => "fault",
            Key::Pid => "pid",
            Key::Uid => "uid",
            Key::Kind => "kind",
            Key::Count => "count",
            Key::Limit => "limit",
            Key::Value => "value",
            Key::Cause => "cause",
            Key::Asks => "asks",
            Key::Name => "name",
            Key::Identifier => "identifier",
            Key::Id => "id",
            Key::Verdict => "verdict",
            Key::Code => "code",
            Key::Caveat => "caveat",
            Key::Status => "status",
            Key::Unsent => "unsent",
            Key::Form => "form",
            Key::Memory => "memory",
        }
    }
}
