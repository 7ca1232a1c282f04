//! The daemon: its assembly, from its sockets to its end.

ghost use Rattle.std.specs.Prelude.{◌≡◌, ◌+◌, IfOk};
ghost use denote.Param.Send.{IsSend, IsSync};
ghost use Rattle.mac_daemon.specs.Asked.{count_of, daemon_doors, entrance_of, loops_of, workers_of};
ghost use Rattle.mac_daemon.specs.Unstarted.{count_unstarted};
ghost use Rattle.mac_daemon.specs.Day.{IsWholeDay};
ghost use Rattle.mac_daemon.specs.Serving.{Promises};
ghost use Rattle.mac_loop.specs.Ledger.{IsFreshBook, all_books, name_of};
ghost use Rattle.mac_sockets.specs.Entrance.{opened, taken_of};

use crate::day::{Admission, Day};
use crate::descriptors::most_connections;
use crate::door::Gift;
use crate::fault::DaemonFault;
use crate::room::Most;
use crate::running::{ServiceParts, Shape, make_seen, run_service};
use crate::shared::DaemonShared;
use crate::stop::Stop;
use crate::surroundings::{Surroundings, heed_signals};
use crate::unstarted::{Unstarted, open_ledger};
use mac_board::Followers;
use mac_host::{Beginning, DaemonEnd, Host, Logged, Notices, Numbers, Roster};
use mac_loop::{Admitted, Ledger, LedgerBook, LoopParts, Origin};
use mac_sockets::{Doors, Entrance, Holdings, STACK, SharedBudget};
use mac_system::{NotifySocket, State};
use std::alloc::{AllocError, Global};
use std::fs::Files;
use std::marker::Brand;
use std::net::Net;
use std::random::RandomSource;
use std::snapshot::Snapshot;
use std::sync::{Arc, Wait};
use std::thread::{Builder, PromisedHandle, Threads};
use std::time::Clock;

/// What a daemon is told of what it serves.
#[derive(Clone, Copy)]
pub struct DaemonTerms<'a> {
    /// The path of its socket.
    pub path: &'a str,
    /// The permissions of the socket's file.
    pub permissions: u32,
    /// The path of its second socket, where it has one.
    pub side: Option<&'a str>,
    /// How many key names there are, which is told.
    pub names: usize,
    /// The version of the program, which is told.
    pub version: &'a str,
    /// How its connections are served.
    pub shape: Shape,
    /// How many seconds connections have to end once the daemon is told to.
    pub drain: u64,
    /// How many descriptors of the process are others'.
    pub reserved: u64,
    /// What is logged besides what it tells of itself.
    pub logged: Logged,
    /// After how many connections it ends, where so many are asked for. It logs nothing then.
    pub accept: Option<u64>,
}

/// A daemon that serves connections, so many or until it is told to end.
#[derive(Drop)]
pub struct Daemon {
    host: Host,
    stop: Stop,
    shared: Arc<DaemonShared, Global>,
    manager: Option<NotifySocket>,
    drain: u64,
    serving: Serving,
}

/// The thread that serves, to the end of the last connection.
type Serving = PromisedHandle<Result<Day, DaemonFault>, Admission>;

/// Starts a daemon that serves the connections of these doors, in threads of its own.
pub fn listen<R>(
    rt: &R,
    alloc: Global,
    terms: DaemonTerms<'_>,
    doors: Doors<Gift>,
    followers: Followers,
    surroundings: Surroundings,
) -> Result<Daemon, DaemonFault>
where
    R: Net + Threads + Wait + Clock + RandomSource + Eprint,
    R: Sync + Copy + Send + 'static,
    ensures count { IfOk result (λ daemon. count_of daemon ≡ terms.entry.accept) }
    ensures workers { IfOk result (λ daemon. workers_of daemon ≡ terms.entry.shape.workers) }
    ensures doors { IfOk result (λ daemon. daemon_doors daemon ≡ opened doors) }
    ensures taken { IfOk result (λ daemon. taken_of (entrance_of daemon) ≡ 0) }
{
    let Surroundings {
        signals,
        manager,
        is_journal,
    } = surroundings;
    let entrance = Entrance::open(rt, alloc, doors)?;
    let ending = DaemonEnd::new(alloc)?;
    let stop = Stop::new(&ending, entrance.shutter())?;
    let notices = start_notices(*rt, alloc, is_journal, terms)?;
    if let Some(signals) = signals {
        let stop = Stop::new(&ending, entrance.shutter())?;
        heed_signals(*rt, signals, stop, notices.share()?)?;
    }
    let numbers = Numbers::begin(rt, alloc)?;
    numbers.set_keys(rt, terms.names);
    let most = allow_connections(rt, terms, &notices);
    let roster = Roster::new(rt, alloc, most.all, socket_paths(alloc, terms)?)?;
    let shared = DaemonShared::new(
        alloc,
        most,
        notices.share()?,
        numbers.share()?,
        Arc::try_clone(&roster)?,
    )?;
    let seen = make_seen(rt, alloc, terms.shape);
    let budget = SharedBudget::new(alloc, terms.shape.connections_memory())?;
    let loops = terms.shape.loop_parts(&seen, &budget)?;
    let service = ServiceParts {
        workers: terms.shape.workers,
        entrance,
        count: terms.accept,
        shared: Arc::try_clone(&shared)?,
        followers,
        ending: Arc::try_clone(&ending)?,
    };
    let serving = start_serving(*rt, alloc, service, &loops)?;
    if !ending.await_begin(rt) {
        let fault = serving.join(rt).err();
        return Err(fault.unwrap_or(DaemonFault::NoThread));
    }
    Ok(Daemon {
        host: Host::new(ending, notices, numbers, roster, seen, budget),
        stop,
        shared,
        manager,
        drain: terms.drain,
        serving,
    })
}

impl Daemon {
    /// Puts the sockets that are held in their places, so that clients can connect, and tells that.
    /// Where it was told to end meanwhile, what is in these places stays there.
    pub fn open<R>(
        &self,
        rt: &R,
        terms: DaemonTerms<'_>,
        holdings: &mut Holdings,
    ) -> Result<(), DaemonFault>
    where
        R: Files + Print + Eprint + Wait + Clock,
    {
        if self.host.ending().is_ending(rt) {
            return Ok(());
        }
        holdings.place_all(rt)?;
        say_listening(rt, terms);
        self.host.notices().tell_begin(rt, beginning_of(terms));
        self.tell_manager(rt, State::Ready);
        Ok(())
    }

    /// Waits until all connections have ended of a daemon that ends by itself, and tells what it
    /// did.
    pub fn await_day<R: Threads>(self, rt: &R) -> Result<Day, DaemonFault>
        ensures { IfOk result (IsWholeDay (count_of self) (loops_of self) (workers_of self)
            (entrance_of self)) }
    {
        self.serving.join(rt)
    }

    /// Tells a daemon to end, at one of whose paths there is another one's socket.
    pub fn end_replaced<R: Wait + Clock>(&self, rt: &R, path: &str) {
        self.stop.tell_replaced(rt, self.host.notices(), path);
    }

    /// Notes how many lines its first list of tokens has that were taken back.
    pub fn tell_list_lines(&self, lines: usize) {
        self.host.numbers().set_revoked(lines);
    }

    /// What a further server has of it, whose connections are seen off with it, and who follows its
    /// files.
    pub fn host(&self) -> Result<Host, AllocError> {
        self.host.share()
    }

    /// Sees a daemon off that was told to end. It takes no further connection, answers what has
    /// come on those that there are, and closes each once its replies are sent. What isn't done
    /// after the seconds of its terms, or once it is told to end again, is cut off. Connections of
    /// further servers have as long to leave.
    pub fn see_off<R: Wait + Clock>(self, rt: &R) {
        self.tell_manager(rt, State::Stopping);
        let ending = self.host.ending();
        let has_ended = ending.await_end(rt, self.drain);
        let left = self.shared.live(rt).saturating_add(ending.connections(rt));
        let cut = if has_ended { 0 } else { left };
        self.host.notices().tell_end(rt, cut);
    }

    /// Tells the service manager, if one waits for it, how the daemon stands.
    fn tell_manager<R: Wait + Clock>(&self, rt: &R, state: State) {
        let Some(manager) = self.manager else {
            return;
        };
        if let Err(fault) = manager.tell(state) {
            self.host
                .notices()
                .tell_system(rt, "the service manager isn't told", &fault);
        }
    }
}

/// Starts the log of a daemon, where it has one.
fn start_notices<R>(
    rt: R,
    alloc: Global,
    is_journal: bool,
    terms: DaemonTerms<'_>,
) -> Result<Notices, DaemonFault>
where
    R: Threads + Wait + Clock + Eprint + Copy + Send + 'static,
{
    if terms.accept.is_some() {
        return Ok(Notices::none(alloc));
    }
    match Notices::start(rt, alloc, is_journal, terms.logged) {
        Some(notices) => Ok(notices),
        None => Err(DaemonFault::NoThread),
    }
}

/// The paths of the sockets, in the order of their doors.
fn socket_paths(alloc: Global, terms: DaemonTerms<'_>) -> Result<Vec<String>, AllocError> {
    let mut paths = Vec::with_capacity(alloc, 2)?;
    paths.push(String::from_str(alloc, terms.path)?)?;
    if let Some(side) = terms.side {
        paths.push(String::from_str(alloc, side)?)?;
    }
    Ok(paths)
}

/// Starts the thread that serves the connections that come in, to their ends: so many, where so
/// many are asked for.
fn start_serving<R>(
    rt: R,
    alloc: Global,
    service: ServiceParts,
    loops: &LoopParts,
) -> Result<Serving, DaemonFault>
where
    R: Threads + Net + Wait + Clock + Sync + Copy + Send + 'static,
    ensures { IfOk result (λ serving.
        Promises service loops.now.terms.count serving.promise) }
{
    let ledger = open_ledger(alloc, loops.terms.count)?;
    start_with_ledger::<Brand, R>(rt, alloc, service, loops, ledger)
}

/// The same, with loops whose connections are in this ledger, of which this is the book.
fn start_with_ledger<O, R>(
    rt: R,
    alloc: Global,
    service: ServiceParts,
    loops: &LoopParts,
    ledger: (Arc<Ledger<Admitted>, Global>, LedgerBook<Admitted>),
) -> Result<Serving, DaemonFault>
where
    O: Origin + Send + 'static,
    R: Threads + Net + Wait + Clock + Sync + Copy + Send + 'static,
    requires ledger { name_of ledger.0.value ≡ O.ledger }
    requires books { all_books ledger.0.value ≡ loops.now.terms.count + 1 }
    requires book { IsFreshBook ledger.0.value (loops.now.terms.count + 1) ledger.1 }
    ensures { IfOk result (λ serving.
        Promises service loops.now.terms.count serving.promise) }
{
    let (ledger, book) = ledger;
    let unstarted: Unstarted<O> = Unstarted::make(&rt, alloc, loops, ledger, book)?;
    start_thread(rt, alloc, service, unstarted)
}

/// Starts the thread that runs these loops, with the promise of what it serves.
fn start_thread<O, R>(
    rt: R,
    alloc: Global,
    service: ServiceParts,
    unstarted: Unstarted<O>,
) -> Result<Serving, DaemonFault>
where
    O: Origin + Send + 'static,
    R: Threads + Wait + Clock + Sync + Copy + Send + 'static,
    ensures { IfOk result (λ serving.
        Promises service (count_unstarted unstarted) serving.promise) }
{
    let admission = Admission {
        count: service.count,
        loops: unstarted.count(),
        workers: service.workers,
        entrance: Snapshot::of(&service.entrance),
    };
    let ending = Arc::try_clone(&service.ending)?;
    let work = move || -> Result<Day, DaemonFault>
        requires { IsSend O.row × (IsSend R.row × IsSync R.row) }
        ensures { IfOk result
            (IsWholeDay service.count (count_unstarted unstarted) service.workers
            service.entrance) }
    {
        let outcome = run_service(&rt, alloc, service, unstarted);
        ending.finish(&rt);
        outcome
    };
    match Builder::new()
        .stack_size(STACK)
        .spawn_with(&rt, admission, work)
    {
        Ok(serving) => Ok(serving),
        Err(_) => Err(DaemonFault::NoThread),
    }
}

/// How many connections there may be at a time: as many as were asked for, or as the system's limit
/// of descriptors allows beside those that are reserved, which is told then.
fn allow_connections<R: Wait + Clock>(rt: &R, terms: DaemonTerms<'_>, notices: &Notices) -> Most {
    let all = allow_all(rt, terms, notices);
    let side = terms.shape.side_connections.unwrap_or(all).min(all);
    Most { all, side }
}

/// The same of all sockets together. A daemon that ends after so many looks at no limit: it ends
/// where the system gives none.
fn allow_all<R: Wait + Clock>(rt: &R, terms: DaemonTerms<'_>, notices: &Notices) -> u64 {
    let DaemonTerms {
        shape,
        reserved,
        accept,
        ..
    } = terms;
    let most = most_connections(shape.loops, reserved);
    if accept.is_some() || most >= shape.connections {
        return shape.connections;
    }
    notices.tell_low(rt, most);
    most
}

/// What is told of a daemon at its start.
fn beginning_of(terms: DaemonTerms<'_>) -> Beginning<'_> {
    Beginning {
        version: terms.version,
        socket: terms.path,
        side: terms.side,
        names: terms.names,
        workers: terms.shape.workers,
        memory: terms.shape.memory,
    }
}

/// Prints the line that tells that clients can connect, and at which sockets. Where it can't be
/// printed that is told, and no more: clients can connect, and a daemon that had the place before
/// goes.
fn say_listening<R: Print + Eprint>(rt: &R, terms: DaemonTerms<'_>) {
    let DaemonTerms {
        path,
        side,
        names,
        version,
        shape,
        ..
    } = terms;
    let workers = shape.workers;
    let (and, side) = match side {
        Some(side) => (" and ", side),
        None => ("", ""),
    };
    let told = println!(rt;
        "listening at {path}{and}{side}: {names} name{}, {workers} worker{}; macaroond {version}",
        plural_ending(names),
        plural_ending(workers)
    );
    if told.is_err() {
        let _ = eprintln!(rt;
            "warning: standard output failed; it doesn't say that clients can connect"
        );
    }
}

/// What a noun behind this number ends in.
fn plural_ending(number: usize) -> &'static str {
    if number == 1 { "" } else { "s" }
}
