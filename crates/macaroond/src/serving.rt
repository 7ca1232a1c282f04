//! `serve`: a daemon that ends after so many connections.

ghost use Rattle.std.specs.Prelude.{◌≡◌, ◌<◌, IfOk, OnOk, Some};
ghost use Rattle.std.specs.Option.{is_some};
ghost use Rattle.mac_pool.specs.declared.pool.TheConstants.{WORKERS_MAX};
ghost use Rattle.macaroond.specs.Shape.{HasCount};

use crate::descriptors::open_standard;
use crate::telling::{tell_daemon, tell_nowhere, tell_served_keys};
use crate::{DRAIN, REMEMBER, count_loops, count_workers};
use mac_board::Publisher;
use mac_commands::{
    ACCEPT_MAX, ListPlace, MEMORY_MAX, ServeOptions, Status, VERSION, admit_keys, read_key_file,
    take_list,
};
use mac_daemon::{DaemonFault, DaemonTerms, Day, FOLLOWERS_MAX, Shape, Surroundings, give, listen};
use mac_decide::Rights;
use mac_host::Logged;
use mac_keys::KeyTable;
use mac_sockets::{Door, Doors, bind_new};
use mac_wire::{Sink, WriterSink, send_all};
use std::alloc::{Alloc, Global};
use std::fs::{File, Files};
use std::io;
use std::net::Net;
use std::random::RandomSource;
use std::sync::Wait;
use std::thread::Threads;
use std::time::Clock;

/// Serves so many connections, and says how the run ended.
pub(crate) fn run_serve<R>(rt: &R, options: &ServeOptions) -> Status
where
    R: Alloc<A = Global> + Print + Eprint + Files<File = File> + Net + Clock + RandomSource,
    R: Threads + Wait + Sync + Copy + Send + 'static,
{
    if let Err(refused) = open_standard(rt) {
        return tell_nowhere(rt, &refused);
    }
    let keys = options.keys.as_str();
    let read = match read_key_file(rt, keys) {
        Ok(read) => read,
        Err(fault) => return tell_served_keys(rt, keys, fault),
    };
    if !admit_keys(rt, keys, &read, options.keys_of_others) {
        return Status::DeviceFault;
    }
    let mut table = read.table;
    if let Err(status) = take_list(rt, place_of_list(options), &mut table) {
        return status;
    }
    match serve_counted(rt, options, table) {
        Ok(_) => Status::Done,
        Err(fault) => tell_daemon(rt, options.socket.as_str(), &fault),
    }
}

/// The place of the list of tokens that were taken back, where one is named.
fn place_of_list<'a>(options: &'a ServeOptions) -> Option<ListPlace<'a>>
    ensures { is_some result ≡ is_some options.now.revoked }
{
    options.revoked.as_deref().map(|path| ListPlace {
        path,
        of_others: options.keys_of_others,
        may_empty: true,
    })
}

/// Serves so many connections of a socket that it makes, and prints a line once clients can connect
/// and one once all connections have ended.
fn serve_counted<R>(rt: &R, options: &ServeOptions, table: KeyTable) -> Result<Day, DaemonFault>
where
    R: Alloc<A = Global> + Print + Eprint + Files<File = File> + Net + Clock + RandomSource,
    R: Threads + Wait + Sync + Copy + Send + 'static,
    ensures { IfOk result (λ day. day.served ≡ options.now.accept) }
{
    let alloc = rt.alloc();
    let terms = counted_terms(rt, options, table.len());
    let publisher = Publisher::new(alloc, *rt, table, FOLLOWERS_MAX)?;
    let followers = publisher.followers()?;
    let mut doors = Doors::new(alloc);
    let listener = bind_new(rt, terms.path)?;
    doors.add(Door::unix(listener, give(alloc, Rights::all())?, false)?)?;
    let daemon = listen(rt, alloc, terms, doors, followers, Surroundings::none())?;
    let mut out = WriterSink::new(io::writer(rt));
    say(&mut out, b"listening\n")?;
    let day = daemon.await_day(rt)?;
    let text = format!(in alloc; "served {} faults {}\n", day.served, day.faults)?;
    say(&mut out, text.as_bytes())?;
    Ok(day)
}

/// Writes a line.
fn say<W: Sink>(out: &mut W, line: &[u8]) -> Result<(), DaemonFault>
    requires { W.faults out.old < u64.MAX }
    ensures { OnOk result (W.faults out.new ≡ W.faults out.old) }
{
    match send_all(out, line) {
        Ok(()) => Ok(()),
        Err(_) => Err(DaemonFault::Output),
    }
}

/// The terms that the options of `serve` name.
fn counted_terms<'a, R: Threads>(rt: &R, options: &'a ServeOptions, names: usize) -> DaemonTerms<'a>
    ensures accept { result.accept ≡ Some options.now.accept }
    ensures workers { HasCount WORKERS_MAX (Some options.now.workers) result.shape.workers }
{
    DaemonTerms {
        path: options.socket.as_str(),
        permissions: 0,
        side: None,
        names,
        version: VERSION,
        shape: Shape {
            loops: count_loops(rt, None),
            workers: count_workers(rt, Some(options.workers)),
            connections: ACCEPT_MAX,
            side_connections: None,
            idle: None,
            remembered: REMEMBER,
            memory: MEMORY_MAX,
        },
        drain: DRAIN,
        reserved: 0,
        logged: Logged::NOTHING,
        accept: Some(options.accept),
    }
}
