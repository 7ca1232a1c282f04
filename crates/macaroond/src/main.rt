//! `macaroond`: mints, narrows and verifies macaroons, for programs and for people.
//!
//! `main` reads the command line and does what it asks for; all that is decided stands in
//! [`choose`] and [`pipe`].
#![tactic(auto)]

ghost use Rattle.std.specs.Prelude.{◌≡◌, ◌≤◌, if◌then◌else◌, IfErr, IfOk, IfSome, None};
ghost use Rattle.std.specs.Option.{is_some};
ghost use Rattle.mac_pool.specs.declared.pool.TheConstants.{WORKERS_MAX};
ghost use Rattle.mac_commands.specs.CommandLine.{permissions};
ghost use Rattle.mac_commands.specs.Doing.{IsKeyTable, IsList};
ghost use Rattle.mac_commands.specs.Status.{IsShown};
ghost use Rattle.macaroond.specs.Shape.{HasCount, connections_of, drain_of, memory_of, remember_of};
ghost use Rattle.mac_commands.specs.declared.commands.TheConstants.{LOOPS_MAX};

mod descriptors;
mod doors;
mod http;
mod key_watch;
mod logging;
mod operating;
mod page;
mod page_texts;
mod rights;
mod serving;
mod telling;
mod watching;

use descriptors::open_standard;
use http::plan_http;
use key_watch::{Found, Sockets, listen_and_watch};
use logging::read_log;
use mac_commands::{
    Choice, Chosen, KeyPlace, LOOPS_MAX, ListPlace, ListenOptions, PipeOptions, Status, VERSION,
    admit_keys, choose, find_first_list, find_list, find_memory, pipe, read_first, read_words,
    run_task, show, tell_ending, tell_fault, tell_key_file, warn_of_readers,
};
use mac_daemon::{DaemonTerms, Shape};
use mac_host::Logged;
use mac_pool::WORKERS_MAX;
use mac_sockets::PathClaim;
use mac_system::SystemMoments;
use mac_wire::{ReaderSource, WriterSink};
use page::run_page;
use rights::read_sockets;
use serving::run_serve;
use std::alloc::{Alloc, Global};
use std::env::Env;
use std::fs::{File, Files};
use std::net::{Net, TcpListener, TcpStream};
use std::process::{ExitCode, Process};
use std::random::RandomSource;
use std::sync::Wait;
use std::thread::Threads;
use std::time::Clock;
use std::{io, thread};
use telling::{tell_http, tell_listen, tell_log, tell_nowhere, warn_of_minting};
use watching::Followed;

/// How many connections there are at a time, where nothing else is asked for.
const CONNECTIONS: u64 = 10_000;

/// How many seconds they have to end, where nothing else is asked for.
const DRAIN: u64 = 10;

/// How many bytes tokens that were found good are remembered in, where nothing else is asked for.
const REMEMBER: u64 = 16_777_216;

fn main(rt: HostRuntime) -> ExitCode {
    ExitCode::from(run(&rt, rt.process()).code())
}

/// Does what the words of the process ask for, and says how the run ended.
fn run<R>(rt: &R, process: Process) -> Status
where
    R: Env
        + Alloc<A = Global>
        + Input
        + Print
        + Eprint
        + Files<File = File>
        + Net<Listener = TcpListener, Stream = TcpStream>
        + Clock
        + RandomSource,
    R: Threads + Wait + Sync + Copy + Send + 'static,
    R::Reader: Send,
{
    let chosen = read_words(rt).and_then(|words| choose(rt.alloc(), words.as_slice()));
    run_chosen(rt, chosen, process)
}

/// Does what was chosen, and says how the run ended; what was refused is shown and not done.
fn run_chosen<R>(rt: &R, chosen: Result<Chosen, (Status, String)>, process: Process) -> Status
where
    R: Env
        + Alloc<A = Global>
        + Input
        + Print
        + Eprint
        + Files<File = File>
        + Net<Listener = TcpListener, Stream = TcpStream>
        + Clock
        + RandomSource,
    R: Threads + Wait + Sync + Copy + Send + 'static,
    R::Reader: Send,
    ensures { IfErr chosen (λ refusal. IsShown refusal.0 result) }
{
    match chosen {
        Ok(Chosen::Machine(choice)) => run_machine(rt, choice, process),
        Ok(Chosen::Person(task)) => run_task(rt, &task),
        Err((status, text)) => show(rt, status, text.as_str()),
    }
}

/// Answers the requests of programs, and says how the run ended.
fn run_machine<R>(rt: &R, choice: Choice, process: Process) -> Status
where
    R: Env + Alloc<A = Global> + Input + Print + Eprint + Files<File = File> + Clock,
    R: RandomSource + Net<Listener = TcpListener, Stream = TcpStream>,
    R: Threads + Wait + Sync + Copy + Send + 'static,
    R::Reader: Send,
{
    match choice {
        Choice::Pipe(options) => run_pipe(rt, &options),
        Choice::Serve(options) => run_serve(rt, &options),
        Choice::Listen(options) => run_listen(rt, &options, process),
        Choice::Page(options) => run_page(rt, &options),
    }
}

/// The workers that were asked for, or one for each processor.
fn count_workers<R: Threads>(rt: &R, asked: Option<u64>) -> usize
    ensures { HasCount WORKERS_MAX asked result }
{
    count_threads(rt, asked, WORKERS_MAX)
}

/// The loops that were asked for, or one for each processor.
fn count_loops<R: Threads>(rt: &R, asked: Option<u64>) -> usize
    ensures { HasCount LOOPS_MAX asked result }
{
    count_threads(rt, asked, LOOPS_MAX as usize)
}

/// The threads that were asked for, or one for each processor, but for 1 at least and `most` at
/// most.
fn count_threads<R: Threads>(rt: &R, asked: Option<u64>, most: usize) -> usize
    requires { 1 ≤ most }
    ensures { HasCount most asked result }
{
    let count = match asked {
        Some(count) => count as usize,
        None => thread::available_parallelism(rt).map_or(1, |count| count.get()),
    };
    count.max(1).min(most)
}

/// Listens until it is told to end, and says how the run ended.
fn run_listen<R>(rt: &R, options: &ListenOptions, process: Process) -> Status
where
    R: Env + Alloc<A = Global> + Print + Eprint + Files<File = File> + Clock + RandomSource,
    R: Net<Listener = TcpListener, Stream = TcpStream>,
    R: Threads + Wait + Sync + Copy + Send + 'static,
{
    let http = match plan_http(rt.alloc(), &options.http) {
        Ok(http) => http,
        Err(fault) => return tell_http(rt, fault),
    };
    let logged = match read_log(rt.alloc(), &options.log) {
        Ok(Some(logged)) => logged,
        Ok(None) => return tell_log(rt),
        Err(_) => return tell_fault(rt, Status::NoMemory),
    };
    if let Err(refused) = open_standard(rt) {
        return tell_nowhere(rt, &refused);
    }
    let found = match find_files(rt, followed_by(options)) {
        Ok(found) => found,
        Err(status) => return status,
    };
    warn_of_minting(rt, http.minting_port());
    let names = found.keys.read.table.len();
    let reserved = http.descriptors(count_loops(rt, options.loops));
    let terms = name_terms(rt, options, names, reserved, logged, find_memory(rt));
    let Ok((rights, side)) = read_sockets(rt.alloc(), options) else {
        return tell_fault(rt, Status::NoMemory);
    };
    let sockets = Sockets { rights, side, http };
    let claim = claim_of(options.replace);
    match listen_and_watch(rt, terms, sockets, found, claim, process) {
        Ok(()) => Status::Done,
        Err(fault) => tell_listen(rt, options, fault),
    }
}

/// The files that a daemon follows by its options.
fn followed_by<'a>(options: &'a ListenOptions) -> Followed<'a> {
    Followed {
        keys: KeyPlace {
            path: options.keys.as_str(),
            of_others: options.keys_of_others,
        },
        list: options.revoked.as_deref().map(|path| ListPlace {
            path,
            of_others: options.keys_of_others,
            may_empty: options.allow_empty_revoked,
        }),
    }
}

/// What these files give first. Else says why one isn't taken, and how the run ends.
fn find_files<'a, R>(rt: &R, followed: Followed<'a>) -> Result<Found<'a>, Status>
where
    R: Alloc<A = Global> + Eprint + Files<File = File>,
    ensures { IfOk result (λ found.
        IsKeyTable found.keys.read.table × IfSome found.list (λ list. IsList list.list)) }
{
    let place = followed.keys;
    let keys = match read_first(rt, place) {
        Ok(keys) => keys,
        Err(fault) => return Err(tell_key_file(rt, place.path, fault)),
    };
    if !admit_keys(rt, place.path, &keys.read, place.of_others) {
        return Err(Status::DeviceFault);
    }
    let list = match followed.list {
        Some(place) => Some(find_first_list(rt, place)?),
        None => None,
    };
    Ok(Found {
        followed,
        keys,
        list,
    })
}

/// How a daemon comes by the paths of its sockets.
fn claim_of(is_replacing: bool) -> PathClaim
    ensures { result ≡ (if is_replacing then PathClaim.Replacing else PathClaim.Free) }
{
    if is_replacing {
        PathClaim::Replacing
    } else {
        PathClaim::Free
    }
}

/// The terms that the options of `listen` name, where so much memory was found.
fn name_terms<'a, R: Threads>(
    rt: &R,
    options: &'a ListenOptions,
    names: usize,
    reserved: u64,
    logged: Logged,
    memory: u64,
) -> DaemonTerms<'a>
    ensures mode { result.permissions ≡ permissions options.now.mode }
    ensures idle { result.shape.idle ≡ options.now.idle }
    ensures drain { result.drain ≡ drain_of options.now.drain }
    ensures connections { result.shape.connections ≡ connections_of options.now.connections }
    ensures side_connections { result.shape.side_connections ≡ options.now.verify_connections }
    ensures remembered { result.shape.remembered ≡ remember_of options.now.remember }
    ensures memory { result.shape.memory ≡ memory_of memory options.now.memory }
    ensures loops { HasCount LOOPS_MAX options.now.loops result.shape.loops }
    ensures workers { HasCount WORKERS_MAX options.now.workers result.shape.workers }
    ensures logged { result.logged ≡ logged }
    ensures endless { result.accept ≡ None }
{
    DaemonTerms {
        path: options.socket.as_str(),
        permissions: options.mode.permissions(),
        side: options.verify_socket.as_deref(),
        names,
        version: VERSION,
        shape: Shape {
            loops: count_loops(rt, options.loops),
            workers: count_workers(rt, options.workers),
            connections: options.connections.unwrap_or(CONNECTIONS),
            side_connections: options.verify_connections,
            idle: options.idle,
            remembered: options.remember.unwrap_or(REMEMBER),
            memory: options.memory.unwrap_or(memory),
        },
        drain: options.drain.unwrap_or(DRAIN),
        reserved,
        logged,
        accept: None,
    }
}

/// Pipes standard input to standard output, and says how the run ended.
fn run_pipe<R>(rt: &R, options: &PipeOptions) -> Status
where
    R: Alloc<A = Global> + Input + Print + Eprint + Files<File = File> + Clock + Sync,
    R::Reader: Send,
{
    let list = match find_list(rt, place_of_list(options)) {
        Ok(list) => list,
        Err(status) => return status,
    };
    if let Some(path) = &options.revoked {
        warn_of_readers(rt, path.as_str());
    }
    let mut source = ReaderSource::new(rt.reader());
    let mut sink = WriterSink::new(io::writer(rt));
    let mut clock = SystemMoments::new(rt);
    let ending = pipe(rt.alloc(), &list, &mut source, &mut clock, &mut sink);
    tell_ending(rt, ending)
}

/// The place of the list of tokens that were taken back, where one is named. The pipe warns of a
/// file that others may use, and takes it.
fn place_of_list<'a>(options: &'a PipeOptions) -> Option<ListPlace<'a>>
    ensures { is_some result ≡ is_some options.now.revoked }
{
    options.revoked.as_deref().map(|path| ListPlace {
        path,
        of_others: true,
        may_empty: true,
    })
}
