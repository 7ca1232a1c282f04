//! What a command line asks the program to do.
ghost use Rattle.std.specs.Prelude.{◌≡◌, Some, None};
ghost use Rattle.mac_commands.specs.CommandLine.{mode_of, permissions};

use crate::people::Task;

/// What a command line asks for.
#[derive(Drop)]
pub enum Chosen {
    /// Answer the requests of programs.
    Machine(Choice),
    /// Do what a person asks.
    Person(Task),
}

/// How the requests of programs are answered.
#[derive(Drop)]
pub enum Choice {
    /// Answer the requests on standard input, each by a line on standard output.
    Pipe(PipeOptions),
    /// Answer the requests of so many connections over a socket, and end.
    Serve(ServeOptions),
    /// Answer requests over a socket until told to end.
    Listen(ListenOptions),
    /// Show a browser of this machine a page, and answer it.
    Page(PageOptions),
}

/// What `pipe` is told.
#[derive(Drop)]
pub struct PipeOptions {
    /// The path of a list of tokens that were taken back.
    pub revoked: Option<String>,
}

/// What `serve` is told.
#[derive(Drop)]
pub struct ServeOptions {
    /// The path of the socket.
    pub socket: String,
    /// The path of the key file.
    pub keys: String,
    /// How many threads answer requests, from 1 to 16.
    pub workers: u64,
    /// How many connections are served, from 1 to 1,000.
    pub accept: u64,
    /// Whether the key file may be one that others may use.
    pub keys_of_others: bool,
    /// The path of a list of tokens that were taken back.
    pub revoked: Option<String>,
}

/// What `listen` is told.
#[derive(Drop)]
pub struct ListenOptions {
    /// The path of the socket.
    pub socket: String,
    /// The path of the key file.
    pub keys: String,
    /// How many threads answer requests, from 1 to 16; else as many as there are processors.
    pub workers: Option<u64>,
    /// Who may connect.
    pub mode: Mode,
    /// The seconds after which a connection that makes no progress is ended, up to a day.
    pub idle: Option<u64>,
    /// How many threads wait for connections and answer them, from 1 to 64.
    pub loops: Option<u64>,
    /// How many connections are live at a time, from 1 to 1,000,000.
    pub connections: Option<u64>,
    /// How many seconds connections have to end once the daemon is told to, from 1 to 3,600.
    pub drain: Option<u64>,
    /// How many bytes its memory of tokens that it found good may take, from 0 (none) to
    /// 1,073,741,824.
    pub remember: Option<u64>,
    /// How many bytes of memory its connections may have together with those tokens, from
    /// 67,108,864 to 1,099,511,627,776.
    pub memory: Option<u64>,
    /// The names that its connections may use, with commas between them; else all.
    pub names: Option<String>,
    /// The path of a second socket, whose connections may not mint.
    pub verify_socket: Option<String>,
    /// Who may connect to it.
    pub verify_mode: Mode,
    /// The names that its connections may use, with commas between them; else all.
    pub verify_names: Option<String>,
    /// How many connections it has at a time, from 1 to 1,000,000; else as many as there may be.
    pub verify_connections: Option<u64>,
    /// Whether it takes its sockets over from a daemon that listens there.
    pub replace: bool,
    /// What is logged beside the usual: some of the words `requests`, `mints` and `identifiers`,
    /// with commas between them.
    pub log: Option<String>,
    /// Whether the key file may be one that others may use.
    pub keys_of_others: bool,
    /// The path of a list of tokens that were taken back.
    pub revoked: Option<String>,
    /// Whether a list that has lost all its lines is taken.
    pub allow_empty_revoked: bool,
    /// Its sockets over HTTP.
    pub http: HttpOptions,
}

/// What `listen` is told of its sockets over HTTP.
#[derive(Drop)]
pub struct HttpOptions {
    /// Addresses that this machine alone may reach, with commas between them.
    pub here: Option<String>,
    /// Addresses that any machine may reach, with commas between them.
    pub anywhere: Option<String>,
    /// Who may connect to those that are Unix sockets.
    pub mode: Mode,
    /// How many connections are live at a time, from 1 to 1,024.
    pub connections: Option<u64>,
    /// How many seconds a peer may bring no whole request, from 1 to 3,600.
    pub patience: Option<u64>,
    /// The status that grants.
    pub granted: Option<String>,
    /// Where facts are taken from, with commas between the words.
    pub facts: Option<String>,
    /// Whether paths that facts are told of may hold nothing that some servers read in a way of
    /// their own.
    pub strict_paths: bool,
    /// The names that may be used at all of these, with commas between them; else all.
    pub names: Option<String>,
    /// Addresses of this machine where calls are answered, with commas between them.
    pub calls: Option<String>,
    /// Who may connect to those of calls that are Unix sockets.
    pub calls_mode: Mode,
    /// Which calls are answered there: mint, attenuate, inspect, check, with commas between them;
    /// else all but mint.
    pub calls_allow: Option<String>,
    /// The names that may be used there, with commas between them; else all.
    pub calls_names: Option<String>,
    /// The calls that gateways' addresses answered in earlier versions: no longer taken.
    pub allow: Option<String>,
    /// Addresses of this machine where operators ask, with commas between them.
    pub admin: Option<String>,
}

/// What `page` is told.
#[derive(Drop)]
pub struct PageOptions {
    /// The address where the page is served.
    pub address: Option<String>,
    /// The path of the key file.
    pub keys: Option<String>,
    /// The path of a list of tokens that were taken back.
    pub revoked: Option<String>,
}

/// Who may connect to a socket, as the permissions of its file say.
#[derive(Clone, Copy, Debug, PartialEq, Eq)]
pub enum Mode {
    /// The owner alone.
    Owner,
    /// The owner and the group.
    Group,
    /// Everyone.
    Everyone,
}

impl Mode {
    /// The mode that three octal digits name, as `chmod` takes them.
    pub fn of(digits: &str) -> Option<Mode>
        ensures { result ≡ mode_of digits.now }
    {
        match digits {
            "600" => Some(Mode::Owner),
            "660" => Some(Mode::Group),
            "666" => Some(Mode::Everyone),
            _ => None,
        }
    }

    /// The permissions as a number: read and write for each who may connect.
    pub fn permissions(self) -> u32
        ensures { result ≡ permissions self }
    {
        match self {
            Mode::Owner => 0o600,
            Mode::Group => 0o660,
            Mode::Everyone => 0o666,
        }
    }
}
