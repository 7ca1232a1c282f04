//! Doors over HTTP that are open, and what is answered there.

ghost use Rattle.std.specs.Prelude.{◌≡◌, IfOk};
ghost use Rattle.macaroond.specs.Doors.{AreAllServed, AreOpened, AreServed, IsServed};

use crate::http::{AddressGroup, HttpPlan};
use crate::key_watch::ListenFault;
use crate::operating::{OPERATORS_LOOPS, operators_terms};
use mac_board::{Editor, Followers};
use mac_daemon::Daemon;
use mac_decide::Rights;
use mac_gate::{Content, HttpServer, HttpTerms, ServerFault, open_door, start_server};
use mac_host::Host;
use mac_sockets::{Doors, Holdings};
use std::alloc::{Alloc, Global};
use std::fs::{File, Files};
use std::net::{Net, TcpListener, TcpStream};
use std::random::RandomSource;
use std::sync::Wait;
use std::thread::Threads;
use std::time::Clock;

/// Doors that are open for one kind of peers, and what is answered there.
#[derive(Drop)]
pub(crate) struct OpenDoors {
    pub(crate) doors: Doors<()>,
    pub(crate) rights: Rights,
    pub(crate) terms: HttpTerms,
}

/// The doors over HTTP of a daemon, for each kind of peers.
#[derive(Drop)]
pub(crate) struct HttpDoors {
    pub(crate) gateways: OpenDoors,
    pub(crate) callers: OpenDoors,
    pub(crate) operators: OpenDoors,
}

/// The servers over HTTP of a daemon, for each kind of peers for which doors are open.
#[derive(Drop)]
pub(crate) struct HttpServers {
    gateways: Option<HttpServer>,
    callers: Option<HttpServer>,
    operators: Option<HttpServer>,
}

/// Opens the doors of a plan, those of each kind under its own terms and rights.
pub(crate) fn open_plan<'a, R>(
    rt: &R,
    plan: HttpPlan<'a>,
    holdings: &mut Holdings,
) -> Result<HttpDoors, ListenFault<'a>>
where
    R: Alloc<A = Global> + Files<File = File> + Clock + Wait,
    R: Net<Listener = TcpListener, Stream = TcpStream>,
    ensures { IfOk result (AreOpened plan.entry) }
{
    let calls_terms = plan.calls_terms();
    let HttpPlan {
        gateways,
        callers,
        operators,
        terms,
        ..
    } = plan;
    let gateways = open_doors(rt, gateways, terms, holdings)?;
    let callers = open_doors(rt, callers, calls_terms, holdings)?;
    let operators = open_doors(rt, operators, operators_terms(), holdings)?;
    Ok(HttpDoors {
        gateways,
        callers,
        operators,
    })
}

/// Opens doors at a group of addresses, in their order, where these terms hold.
fn open_doors<'a, R>(
    rt: &R,
    group: AddressGroup<'a>,
    terms: HttpTerms,
    holdings: &mut Holdings,
) -> Result<OpenDoors, ListenFault<'a>>
where
    R: Alloc<A = Global> + Files<File = File> + Clock + Wait,
    R: Net<Listener = TcpListener, Stream = TcpStream>,
    ensures rights { IfOk result (λ opened. opened.rights ≡ group.entry.rights) }
    ensures terms { IfOk result (λ opened. opened.terms ≡ terms) }
{
    let AddressGroup {
        addresses,
        permissions,
        rights,
    } = group;
    let mut doors = Doors::new(rt.alloc());
    for address in &addresses {
        if let Err(fault) = open_door(rt, &mut doors, *address, permissions, holdings) {
            return Err(ListenFault::Door(*address, fault));
        }
    }
    Ok(OpenDoors {
        doors,
        rights,
        terms,
    })
}

impl HttpDoors {
    /// Has the connections that come in through them answered for a daemon, those of gateways and
    /// of callers by so many loops each.
    pub(crate) fn serve<'a, R>(
        self,
        rt: &R,
        editor: &Editor<R>,
        daemon: &Daemon,
        loops: usize,
    ) -> Result<HttpServers, ListenFault<'a>>
    where
        R: Alloc<A = Global> + Clock + RandomSource + Net,
        R: Threads + Wait + Sync + Copy + Send + 'static,
        ensures { IfOk result (AreAllServed self loops) }
    {
        let HttpDoors {
            gateways,
            callers,
            operators,
        } = self;
        let gateways = gateways.serve_any(rt, editor, daemon, loops)?;
        let callers = callers.serve_any(rt, editor, daemon, loops)?;
        let operators = operators.serve_any(rt, editor, daemon, OPERATORS_LOOPS)?;
        Ok(HttpServers {
            gateways,
            callers,
            operators,
        })
    }
}

impl HttpServers {
    /// Has them take no further connections.
    pub(crate) fn end(&self) {
        end_any(&self.gateways);
        end_any(&self.callers);
        end_any(&self.operators);
    }
}

/// Has a server take no further connections, where there is one.
fn end_any(server: &Option<HttpServer>) {
    if let Some(server) = server {
        server.end();
    }
}

impl OpenDoors {
    /// The same of one kind of peers, where there are any doors.
    fn serve_any<'a, R>(
        self,
        rt: &R,
        editor: &Editor<R>,
        daemon: &Daemon,
        loops: usize,
    ) -> Result<Option<HttpServer>, ListenFault<'a>>
    where
        R: Alloc<A = Global> + Clock + RandomSource + Net,
        R: Threads + Wait + Sync + Copy + Send + 'static,
        ensures { IfOk result (AreServed self loops) }
    {
        if self.doors.is_empty() {
            return Ok(None);
        }
        let server = self.serve(rt, editor.followers()?, loops, daemon.host()?)?;
        Ok(Some(server))
    }

    /// Has the connections that come in through them answered, by so many loops, under the tables
    /// that are followed.
    fn serve<R>(
        self,
        rt: &R,
        followers: Followers,
        loops: usize,
        host: Host,
    ) -> Result<HttpServer, ServerFault>
    where
        R: Alloc<A = Global> + Net + Clock + RandomSource,
        R: Threads + Wait + Sync + Copy + Send + 'static,
        ensures { IfOk result (IsServed self loops) }
    {
        let OpenDoors {
            doors,
            rights,
            terms,
        } = self;
        let contents = Content::faces(rt.alloc(), followers, rights, loops, terms)?;
        start_server(rt, doors, contents, terms.bounds(), host)
    }
}
