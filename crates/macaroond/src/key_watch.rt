//! The daemon whose keys follow its key file.

ghost use Rattle.std.specs.Prelude.{IfOk};
ghost use Rattle.mac_daemon.specs.Asked.{daemon_doors};
ghost use Rattle.mac_sockets.specs.Entrance.{opened};
ghost use Rattle.macaroond.specs.Doors.{ArePlanned};
ghost use Rattle.macaroond.specs.Rights.{GiveInOrder};
ghost use Rattle.macaroond.specs.Watching.{BeginsWith};

use crate::doors::{HttpServers, open_plan};
use crate::http::HttpPlan;
use crate::operating::{OPERATORS_LOOPS, open_status, warn_of_no_status};
use crate::watching::{Followed, look_once};
use mac_board::Editor;
use mac_commands::{FirstKeys, FirstList, LOOPS_MAX};
use mac_daemon::{
    Daemon, DaemonFault, DaemonTerms, FOLLOWERS_MAX, Gift, SideSocket, Surroundings, give, listen,
};
use mac_decide::Rights;
use mac_gate::{Address, DoorFault, ServerFault};
use mac_host::{Host, Instruction};
use mac_sockets::{Door, Doors, Holdings, PathClaim, PathsLook, PlaceFault};
use mac_system::handed_listener;
use std::alloc::{Alloc, AllocError, Global};
use std::env::Env;
use std::fs::{File, Files};
use std::net::{Net, TcpListener, TcpStream};
use std::os::unix::net::UnixListener;
use std::process::Process;
use std::random::RandomSource;
use std::sync::Wait;
use std::thread::Threads;
use std::time::{Clock, Duration};

/// How many followers of the key tables there are at most: the daemon's own, and one for each loop
/// of gateways, of callers and of operators.
const FOLLOWERS: usize = FOLLOWERS_MAX + 2 * LOOPS_MAX as usize + OPERATORS_LOOPS;

/// How many milliseconds pass between two looks at the files.
const PAUSE_MILLIS: u64 = 500;

/// What `listen` listens at, beside the socket of its terms.
#[derive(Drop)]
pub(crate) struct Sockets<'a> {
    /// What the requests of its own socket may do.
    pub(crate) rights: Rights,
    /// A second socket.
    pub(crate) side: Option<SideSocket<'a>>,
    /// Those over HTTP.
    pub(crate) http: HttpPlan<'a>,
}

/// Why `listen` can't begin, or can't go on.
#[derive(Drop)]
pub(crate) enum ListenFault<'a> {
    /// The daemon can't.
    Daemon(DaemonFault),
    /// There is no socket over HTTP at this address.
    Door(Address<'a>, DoorFault),
    /// Nobody accepts connections over HTTP.
    Server(ServerFault),
}

impl<'a> From<DaemonFault> for ListenFault<'a> {
    fn from(refused: DaemonFault) -> ListenFault<'a> {
        ListenFault::Daemon(refused)
    }
}

impl<'a> From<AllocError> for ListenFault<'a> {
    fn from(_refused: AllocError) -> ListenFault<'a> {
        ListenFault::Daemon(DaemonFault::NoMemory)
    }
}

impl<'a> From<ServerFault> for ListenFault<'a> {
    fn from(refused: ServerFault) -> ListenFault<'a> {
        ListenFault::Server(refused)
    }
}

/// The files that a daemon follows, and what they gave first.
#[derive(Drop)]
pub(crate) struct Found<'a> {
    /// Where they are.
    pub(crate) followed: Followed<'a>,
    /// What the key file gave.
    pub(crate) keys: FirstKeys,
    /// What the list gave, where there is one.
    pub(crate) list: Option<FirstList>,
}

/// Listens until it is told to end, under the table that the key file at a path has at each moment.
/// Other threads serve, and this one watches the files. What it made of its sockets and didn't put
/// in their places is removed.
pub(crate) fn listen_and_watch<'a, R>(
    rt: &R,
    terms: DaemonTerms<'_>,
    sockets: Sockets<'a>,
    found: Found<'_>,
    claim: PathClaim,
    process: Process,
) -> Result<(), ListenFault<'a>>
where
    R: Env + Alloc<A = Global> + Print + Eprint + Files<File = File> + Clock + RandomSource,
    R: Net<Listener = TcpListener, Stream = TcpStream>,
    R: Threads + Wait + Sync + Copy + Send + 'static,
{
    let handed = handed_listener(rt, process).map_err(DaemonFault::from)?;
    let mut holdings = Holdings::new(rt.alloc(), claim, process);
    let outcome = listen_holding(rt, terms, sockets, found, handed, &mut holdings);
    holdings.clear(rt);
    outcome
}

/// The same, with what is held of the sockets' paths.
fn listen_holding<'a, R>(
    rt: &R,
    terms: DaemonTerms<'_>,
    sockets: Sockets<'a>,
    found: Found<'_>,
    handed: Option<UnixListener>,
    holdings: &mut Holdings,
) -> Result<(), ListenFault<'a>>
where
    R: Env + Alloc<A = Global> + Print + Eprint + Files<File = File> + Clock + RandomSource,
    R: Net<Listener = TcpListener, Stream = TcpStream>,
    R: Threads + Wait + Sync + Copy + Send + 'static,
{
    let followed = found.followed;
    let lines = found.list.as_ref().map_or(0, |first| first.list.lines());
    let editor = open_editor(rt, found)?;
    let started = start_all(rt, terms, sockets, &editor, handed, holdings)?;
    started.daemon.tell_list_lines(lines);
    let host = started.daemon.host()?;
    started.daemon.open(rt, terms, holdings)?;
    let watched = Watched {
        followed,
        socket: terms.path,
        host: &host,
    };
    let _kept_up = watch(rt, watched, editor, &started.daemon, holdings);
    end_all(rt, started);
    Ok(())
}

/// A board whose first table is what the files gave: the keys, and beside them the list, where
/// there is one.
fn open_editor<R>(rt: &R, found: Found<'_>) -> Result<Editor<R>, AllocError>
where
    R: Alloc<A = Global> + Wait + Copy + Drop,
    ensures { IfOk result (λ editor. BeginsWith found.entry editor) }
{
    let Found {
        followed: _,
        keys,
        list,
    } = found;
    let mut table = keys.read.table;
    if let Some(first) = &list {
        table.take_back(&first.list)?;
    }
    let editor = Editor::new(rt.alloc(), *rt, table, FOLLOWERS, keys.before, keys.after)?;
    Ok(match list {
        Some(first) => editor.with_list_found(first.before, first.after),
        None => editor,
    })
}

/// A daemon with its servers over HTTP.
#[derive(Drop)]
struct Started {
    daemon: Daemon,
    http: HttpServers,
}

/// Makes the sockets of a daemon and starts the threads that serve them: what comes in at a socket
/// of its own has the rights that are allowed there. Nobody can reach a Unix socket yet.
fn start_all<'a, R>(
    rt: &R,
    terms: DaemonTerms<'_>,
    sockets: Sockets<'a>,
    editor: &Editor<R>,
    handed: Option<UnixListener>,
    holdings: &mut Holdings,
) -> Result<Started, ListenFault<'a>>
where
    R: Env + Alloc<A = Global> + Eprint + Files<File = File> + Clock + RandomSource,
    R: Net<Listener = TcpListener, Stream = TcpStream>,
    R: Threads + Wait + Sync + Copy + Send + 'static,
    ensures own { IfOk result (λ started. GiveInOrder sockets.entry.rights sockets.entry.side
        (daemon_doors started.daemon)) }
    ensures http { IfOk result (λ started.
        ArePlanned sockets.entry.http terms.entry.shape.loops started.http) }
{
    let Sockets { rights, side, http } = sockets;
    let alloc = rt.alloc();
    let mut doors = open_plan(rt, http, holdings)?;
    let status = open_status(rt, alloc, terms.path, &mut doors.operators.doors, holdings);
    let own = open_own(rt, terms, rights, side, handed, holdings)?;
    let followers = editor.followers()?;
    let daemon = listen(rt, alloc, terms, own, followers, Surroundings::find(rt))?;
    if let Err(fault) = status {
        warn_of_no_status(rt, terms.path, &fault);
    }
    let http = doors.serve(rt, editor, &daemon, terms.shape.loops)?;
    Ok(Started { daemon, http })
}

/// The doors of a daemon's own sockets: of the one that was handed over or else is made, and of the
/// second one, where there is one.
fn open_own<R>(
    rt: &R,
    terms: DaemonTerms<'_>,
    rights: Rights,
    side: Option<SideSocket<'_>>,
    handed: Option<UnixListener>,
    holdings: &mut Holdings,
) -> Result<Doors<Gift>, DaemonFault>
where
    R: Alloc<A = Global> + Files<File = File> + Net + Clock + Wait,
    ensures { IfOk result (λ doors. GiveInOrder rights side.entry (opened doors)) }
{
    let mut doors = Doors::new(rt.alloc());
    let gift = give(rt.alloc(), rights)?;
    match handed {
        Some(listener) => doors.add(Door::unix(listener, gift, true)?)?,
        None => doors.open(rt, terms.path, terms.permissions, gift, holdings)?,
    }
    let Some(
        SideSocket {
            path,
            permissions,
            rights,
        },
    ) = side
    else {
        return Ok(doors);
    };
    let gift = give(rt.alloc(), rights)?;
    match doors.open(rt, path, permissions, gift, holdings) {
        Ok(()) => Ok(doors),
        Err(PlaceFault::NoMemory) => Err(DaemonFault::NoMemory),
        Err(fault) => Err(DaemonFault::Side(fault)),
    }
}

/// Sees a daemon off with its servers over HTTP.
fn end_all<R: Wait + Clock>(rt: &R, started: Started) {
    let Started { daemon, http } = started;
    http.end();
    daemon.see_off(rt);
}

/// What a daemon looks at now and then, by their paths.
#[derive(Clone, Copy)]
struct Watched<'a> {
    followed: Followed<'a>,
    socket: &'a str,
    host: &'a Host,
}

/// Watches a daemon's files until it is told to end, or another one's socket is in its place. At a
/// call to look there are two looks, so that a file that rests between them is taken.
fn watch<R>(
    rt: &R,
    watched: Watched<'_>,
    editor: Editor<R>,
    daemon: &Daemon,
    holdings: &mut Holdings,
) -> Editor<R>
where
    R: Alloc<A = Global> + Files<File = File> + Clock + Wait + Drop,
{
    let Watched {
        followed,
        socket,
        host,
    } = watched;
    let pause = Duration::from_millis(PAUSE_MILLIS);
    let mut editor = editor;
    for _ in rt.forever() {
        match host.ending().await_call(rt, pause) {
            Instruction::End => return editor,
            Instruction::Look => editor = look_once(rt, followed, editor, host),
            Instruction::Nothing => {}
        }
        let PathsLook { replaced, refused } = holdings.look(rt, socket);
        if let Some(fault) = refused {
            host.notices()
                .tell_system(rt, "a socket's path can't be watched", &fault);
        }
        if let Some(path) = replaced {
            daemon.end_replaced(rt, path);
        }
        editor = look_once(rt, followed, editor, host);
    }
    unreachable!()
}
