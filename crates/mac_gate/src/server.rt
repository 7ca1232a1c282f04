//! The server of sockets over HTTP: its assembly, and its end.

ghost use Rattle.std.specs.Prelude.{◌≡◌, IfOk, IfSome, map};
ghost use Rattle.mac_gate.specs.Offered.{let_in_by, offered_by, offers_of};
ghost use Rattle.mac_sockets.specs.Entrance.{opened};

use crate::accepting::{Accepting, start_accepting};
use crate::content::Content;
use crate::looping::{HttpLoop, Looping};
use crate::shared::Shared;
use crate::terms::Bounds;
use mac_host::Host;
use mac_sockets::{Doors, Entrance, SharedBudget, WaitFault};
use mio::Waker;
use std::alloc::{Alloc, AllocError, AllocFailed, Global};
use std::io;
use std::net::Net;
use std::random::RandomSource;
use std::sync::{Arc, Wait};
use std::thread::Threads;
use std::time::Clock;
use thiserror::Error;

/// Why no server can be started.
#[derive(Debug, Drop, Error)]
pub enum ServerFault {
    /// The system gives no thread.
    #[error("the system gives no further thread; raise the limit of processes, or that of memory")]
    NoThread,
    /// Memory ran out.
    #[error("memory ran out")]
    NoMemory,
    /// The system refused a step.
    #[error("the system refused a step: {0}")]
    System(io::Error),
}

impl From<AllocError> for ServerFault {
    fn from(_refused: AllocError) -> ServerFault {
        ServerFault::NoMemory
    }
}

impl<T: Drop> From<AllocFailed<T>> for ServerFault {
    fn from(_refused: AllocFailed<T>) -> ServerFault {
        ServerFault::NoMemory
    }
}

impl From<io::Error> for ServerFault {
    fn from(refused: io::Error) -> ServerFault {
        ServerFault::System(refused)
    }
}

impl From<WaitFault> for ServerFault {
    fn from(refused: WaitFault) -> ServerFault {
        match refused {
            WaitFault::NoMemory => ServerFault::NoMemory,
            WaitFault::System(refused) => ServerFault::System(refused),
        }
    }
}

/// A server over HTTP: connections are accepted in a thread of its own, and served in loops.
#[derive(Drop)]
pub struct HttpServer {
    server: Arc<Shared, Global>,
    acceptor: Accepting,
    loops: Vec<Looping>,
}

impl HttpServer {
    /// Takes no further connection, closes those that are idle, and has the others close behind
    /// their next response.
    pub fn end(&self) {
        self.server.end();
    }

    /// Waits until it takes no further connection.
    pub fn await_end<R: Threads>(self, rt: &R) {
        let _shut = self.acceptor.join(rt);
    }
}

/// Has the connections that come in through these doors answered by these contents, in a loop for
/// each. The end of their host waits for them.
pub fn start_server<R>(
    rt: &R,
    doors: Doors<()>,
    contents: Vec<Content>,
    bounds: Bounds,
    host: Host,
) -> Result<HttpServer, ServerFault>
where
    R: Alloc<A = Global> + Net + Threads + Wait + Clock + RandomSource,
    R: Sync + Copy + Send + 'static,
    ensures doors { IfOk result (λ server. let_in_by server ≡ opened doors) }
    ensures offers { IfOk result (λ server. offered_by server ≡ offers_of contents.items) }
{
    let alloc = rt.alloc();
    let entrance = Entrance::open(rt, alloc, doors)?;
    let (made, wakers) = make_loops(rt, alloc, contents, bounds, host.budget())?;
    let shutter = Arc::try_clone(entrance.shutter())?;
    let server = Shared::new(alloc, bounds, host, shutter, wakers)?;
    server.open(rt)?;
    match start_all(rt, made, entrance, &server) {
        Some((loops, acceptor)) => Ok(HttpServer {
            server,
            acceptor,
            loops,
        }),
        None => {
            server.close(rt);
            Err(ServerFault::NoThread)
        }
    }
}

/// A loop for each of these contents, in their order, and what ends the waits of each.
fn make_loops<R: Net + Wait>(
    rt: &R,
    alloc: Global,
    contents: Vec<Content>,
    bounds: Bounds,
    budget: &Arc<SharedBudget, Global>,
) -> Result<(Vec<HttpLoop>, Vec<Waker>), ServerFault>
    ensures { IfOk result (λ made. map (λ one. one.offer.value) made.0.items
        ≡ offers_of contents.items) }
{
    let (mut made, mut wakers) = (Vec::new(alloc), Vec::new(alloc));
    for content in contents {
        let number = made.len();
        let (one, waker) = HttpLoop::new(rt, alloc, number, content, bounds.patience, budget)?;
        made.push(one)?;
        wakers.push(waker)?;
    }
    Ok((made, wakers))
}

/// Starts the loops of a server, and the thread that accepts, if there is each of them.
fn start_all<R>(
    rt: &R,
    made: Vec<HttpLoop>,
    entrance: Entrance<()>,
    server: &Arc<Shared, Global>,
) -> Option<(Vec<Looping>, Accepting)>
where
    R: Alloc<A = Global> + Threads + Wait + Clock + RandomSource + Sync + Copy + Send + 'static,
    ensures loops { IfSome result (λ started. map (λ looping. looping.promise.offer.value)
        started.0.items ≡ map (λ one. one.offer.value) made.items) }
    ensures acceptor { IfSome result (λ started. started.1.promise.entrance.value ≡ entrance) }
{
    let mut loops = Vec::new(rt.alloc());
    for one in made {
        let server = Arc::try_clone(server).ok()?;
        loops.push(one.start(*rt, rt.alloc(), server)?).ok()?;
    }
    let acceptor = start_accepting(*rt, entrance, Arc::try_clone(server).ok()?)?;
    Some((loops, acceptor))
}
