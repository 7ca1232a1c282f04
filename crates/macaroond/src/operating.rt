//! Where operators ask how a daemon is: a socket beside its own, and addresses of this machine.

ghost use Rattle.std.specs.Prelude.{◌≡◌};
ghost use Rattle.mac_http.specs.Calling.{no_calls};

use mac_commands::{VERSION, status_path};
use mac_gate::{DoorFault, HttpTerms};
use mac_http::{Calls, Granted, Pages, Sources};
use mac_sockets::{Doors, Holdings};
use std::alloc::Global;
use std::fs::{File, Files};
use std::net::{Net, TcpListener, TcpStream};
use std::sync::Wait;
use std::time::{Clock, Duration};

/// The permissions of a status socket: it is for its owner.
const STATUS_PERMISSIONS: u32 = 0o600;

/// How many connections of operators there are at a time.
pub(crate) const OPERATORS_MAX: usize = 16;

/// How many loops serve them.
pub(crate) const OPERATORS_LOOPS: usize = 1;

/// How many seconds an operator may bring no whole request.
const PATIENCE: u64 = 10;

/// Makes the status socket of a daemon, and adds its door.
pub(crate) fn open_status<R>(
    rt: &R,
    alloc: Global,
    socket: &str,
    doors: &mut Doors<()>,
    holdings: &mut Holdings,
) -> Result<(), DoorFault>
where
    R: Files<File = File> + Net<Listener = TcpListener, Stream = TcpStream> + Clock + Wait,
{
    let Ok(path) = status_path(alloc, socket) else {
        return Err(DoorFault::NoMemory);
    };
    Ok(doors.open(rt, path.as_str(), STATUS_PERMISSIONS, (), holdings)?)
}

/// Warns of a daemon that has no status socket. Nobody is kept from what it is for.
pub(crate) fn warn_of_no_status<R: Eprint>(rt: &R, socket: &str, fault: &DoorFault) {
    let _ = eprintln!(rt;
        "warning: {socket}.status: {fault}; `macaroond status` can't ask this daemon"
    );
}

/// How the connections of operators are served.
pub(crate) fn operators_terms() -> HttpTerms
    ensures calls { result.calls ≡ no_calls }
    ensures pages { result.pages ≡ Pages.All }
{
    HttpTerms {
        sources: Sources {
            header: false,
            query: false,
            forwarded: false,
            strict: false,
        },
        granted: Granted::Ok,
        calls: Calls::none(),
        pages: Pages::All,
        connections: OPERATORS_MAX,
        patience: Duration::from_secs(PATIENCE),
        version: VERSION,
    }
}
