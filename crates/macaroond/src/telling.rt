//! What is said of a run that didn't go well, and how it ends.

ghost use Rattle.std.specs.Prelude.{◌≡◌};
ghost use Rattle.macaroond.specs.Status.{daemon_status, door_status, http_status};
ghost use Rattle.macaroond.specs.Status.{listen_status, server_status};
ghost use Rattle.mac_commands.specs.Status.{pipe_status};

use crate::descriptors::NOWHERE;
use crate::http::HttpFault;
use crate::key_watch::ListenFault;
use mac_commands::{ListenOptions, PipeFault, Status, tell_ending, tell_fault, tell_key_file};
use mac_daemon::DaemonFault;
use mac_gate::{Address, DoorFault, ServerFault};
use std::fs::Files;
use std::io;

/// What is told of `--http-allow`.
const CALLS_MOVED: &str = "--http-allow is no longer taken; name addresses for calls by \
    --http-calls, and which calls are answered there by --http-calls-allow";

/// What is told of an address of `--http-calls` that is not this machine's alone.
const CALLS_HERE: &str =
    "other machines may reach this address; calls are answered to this machine alone";

/// Says why the options for HTTP can't be followed, and how the run ends.
pub fn tell_http<R: Eprint>(rt: &R, fault: HttpFault<'_>) -> Status
    ensures { result ≡ http_status fault.entry }
{
    match fault {
        HttpFault::Address { word, fault } => {
            let word = str::from_utf8(word).unwrap_or("a word that is no text");
            let _ = eprintln!(rt; "error: {word}: {fault}");
            Status::BadLine
        }
        HttpFault::Granted => {
            let _ = eprintln!(rt; "error: the status that grants is 200 or 204");
            Status::BadLine
        }
        HttpFault::Source => {
            let _ = eprintln!(rt; "error: a source of facts is header, query or forwarded");
            Status::BadLine
        }
        HttpFault::Call => {
            let _ = eprintln!(rt; "error: a call is mint, attenuate, inspect or check");
            Status::BadLine
        }
        HttpFault::Moved => {
            let _ = eprintln!(rt; "error: {CALLS_MOVED}");
            Status::BadLine
        }
        HttpFault::CallsAnywhere { word } => {
            let word = str::from_utf8(word).unwrap_or("a word that is no text");
            let _ = eprintln!(rt; "error: {word}: {CALLS_HERE}");
            Status::BadLine
        }
        HttpFault::NoMemory => tell_fault(rt, Status::NoMemory),
    }
}

/// Warns of a port at which tokens are minted: it has no mode.
pub fn warn_of_minting<R: Eprint>(rt: &R, port: Option<Address<'_>>) {
    if let Some(address) = port {
        let _ = eprintln!(rt;
            "warning: {address}: every user of this machine may have tokens minted here; \
            a Unix socket is for those whom --http-calls-mode names"
        );
    }
}

/// Says what may be logged besides, and how the run ends.
pub fn tell_log<R: Eprint>(rt: &R) -> Status
    ensures { result ≡ Status.BadLine }
{
    let _ = eprintln!(rt;
        "error: what is logged besides is requests, mints or identifiers, or several of these \
        with commas between them"
    );
    Status::BadLine
}

/// Says why `listen` can't begin or go on, and how the run ends.
pub fn tell_listen<R: Eprint>(rt: &R, options: &ListenOptions, fault: ListenFault<'_>) -> Status
    ensures { result ≡ listen_status fault.entry }
{
    match fault {
        ListenFault::Daemon(fault) => tell_daemon(rt, faulty_path(options, &fault), &fault),
        ListenFault::Door(address, fault) => tell_door(rt, address, fault),
        ListenFault::Server(fault) => tell_server(rt, fault),
    }
}

/// Says why there is no socket over HTTP at an address, and how the run ends.
pub fn tell_door<R: Eprint>(rt: &R, address: Address<'_>, fault: DoorFault) -> Status
    ensures { result ≡ door_status fault }
{
    let _ = eprintln!(rt; "error: {address}: {fault}");
    status_of_door(&fault)
}

/// Says why there is no server over HTTP, and how the run ends.
pub fn tell_server<R: Eprint>(rt: &R, fault: ServerFault) -> Status
    ensures { result ≡ server_status fault }
{
    let _ = eprintln!(rt; "error: {fault}");
    match fault {
        ServerFault::NoThread | ServerFault::NoMemory => Status::NoMemory,
        ServerFault::System(_) => Status::DeviceFault,
    }
}

/// Says where a page is served, and how a run ends that was told another address.
pub fn tell_page_address<R: Eprint>(rt: &R) -> Status
    ensures { result ≡ Status.BadLine }
{
    let _ = eprintln!(rt; "error: a page is served at 127.0.0.1:PORT or [::1]:PORT");
    Status::BadLine
}

/// How a run ends for which there is no socket over HTTP.
fn status_of_door(fault: &DoorFault) -> Status
    ensures { result ≡ door_status fault.now }
{
    match fault {
        DoorFault::NoMemory => Status::NoMemory,
        DoorFault::Place(_) | DoorFault::System(_) => Status::DeviceFault,
        DoorFault::Taken | DoorFault::Forbidden | DoorFault::NotHere => Status::DeviceFault,
    }
}

/// The path of the socket that a fault is about.
fn faulty_path<'a>(options: &'a ListenOptions, fault: &DaemonFault) -> &'a str {
    match (fault, &options.verify_socket) {
        (DaemonFault::Side(_), Some(path)) => path.as_str(),
        _ => options.socket.as_str(),
    }
}

/// The same for `serve`, which names a faulty line by numbers, as scripts read it.
pub fn tell_served_keys<R: Eprint + Files>(rt: &R, path: &str, fault: PipeFault) -> Status
    ensures { result ≡ pipe_status fault }
{
    match fault {
        PipeFault::Keys { .. } => tell_ending(rt, Err(fault)),
        _ => tell_key_file(rt, path, fault),
    }
}

/// Says why a standard descriptor that is closed can't be opened, and how the run ends.
pub fn tell_nowhere<R: Eprint>(rt: &R, refused: &io::Error) -> Status
    ensures { result ≡ Status.DeviceFault }
{
    let _ = eprintln!(rt; "error: {NOWHERE}: {refused}; open standard input, output and error");
    Status::DeviceFault
}

/// Says why the daemon whose socket is to be at a path can't begin or go on, and how the run ends.
pub fn tell_daemon<R: Eprint>(rt: &R, path: &str, fault: &DaemonFault) -> Status
    ensures { result ≡ daemon_status fault.now }
{
    let _ = match fault {
        DaemonFault::Place(place) | DaemonFault::Side(place) => {
            eprintln!(rt; "error: {path}: {place}")
        }
        other => eprintln!(rt; "error: {other}"),
    };
    status_of_daemon(fault)
}

/// How a run ends that a daemon ended with this fault.
fn status_of_daemon(fault: &DaemonFault) -> Status
    ensures { result ≡ daemon_status fault.now }
{
    match fault {
        DaemonFault::NoThread | DaemonFault::NoMemory => Status::NoMemory,
        DaemonFault::Place(_) | DaemonFault::Side(_) => Status::DeviceFault,
        DaemonFault::System(_) | DaemonFault::Handed(_) => Status::DeviceFault,
        DaemonFault::Output => Status::DeviceFault,
    }
}
