//! The page that a browser on this machine is shown.
ghost use Rattle.std.specs.Prelude.{◌≡◌, IfOk};
ghost use Rattle.std.specs.Option.{is_some};
ghost use Rattle.mac_commands.specs.Doing.{IsKeyTable};
ghost use Rattle.macaroond.specs.Doors.{ShowsSite};

use crate::descriptors::open_standard;
use crate::page_texts::{DOCUMENT, SCRIPT, STYLE};
use crate::telling::{tell_door, tell_nowhere, tell_page_address, tell_server};
use mac_commands::{
    ListPlace, MEMORY_MIN, PageOptions, Status, read_keys, take_list, tell_fault, tell_key_file,
    warn_of_no_keys, warn_of_readers,
};
use mac_gate::{
    Address, AddressFault, Bounds, Content, HttpServer, Reach, ServerFault, open_port,
    read_address, start_server,
};
use mac_host::Host;
use mac_keys::KeyTable;
use mac_page::{Secret, Secrets, Site, SiteTexts};
use mac_sockets::Doors;
use std::alloc::{Alloc, AllocError, Global};
use std::fs::{File, Files};
use std::net::{Net, SocketAddr, TcpListener, TcpStream};
use std::random::RandomSource;
use std::sync::Wait;
use std::thread::Threads;
use std::time::{Clock, Duration};

/// Where the page is served, where nothing else is asked for: at a port that the system chooses.
const ADDRESS: &[u8] = b"127.0.0.1:0";

/// How many connections there are at a time. A browser has some six.
const CONNECTIONS: usize = 64;

/// How many seconds a connection may bring no whole request, and a write may wait.
const PATIENCE: u64 = 30;

/// A secret that was drawn, and its digits as the URL tells them.
#[derive(Drop)]
struct Drawn {
    secret: Secret,
    digits: String,
}

/// Serves the page until the process is ended, and says how the run ended.
pub(crate) fn run_page<R>(rt: &R, options: &PageOptions) -> Status
where
    R: Alloc<A = Global> + Print + Eprint + Files<File = File> + Clock + RandomSource,
    R: Net<Listener = TcpListener, Stream = TcpStream>,
    R: Threads + Wait + Sync + Copy + Send + 'static,
{
    let word = match &options.address {
        Some(word) => word.as_str().as_bytes(),
        None => ADDRESS,
    };
    let address = match read_address(word, Reach::Loopback) {
        Ok(Address::Tcp(address)) => address,
        Ok(Address::Unix(_)) | Err(AddressFault::NoAddress) => return tell_page_address(rt),
        Err(AddressFault::Foreign) => return tell_page_address(rt),
    };
    if let Err(refused) = open_standard(rt) {
        return tell_nowhere(rt, &refused);
    }
    let mut keys = match find_keys(rt, &options.keys) {
        Ok(keys) => keys,
        Err(status) => return status,
    };
    if let Err(status) = take_list(rt, place_of_list(options), &mut keys) {
        return status;
    }
    if let Some(path) = &options.revoked {
        warn_of_readers(rt, path.as_str());
    }
    run_under(rt, address, keys, options.keys.is_some())
}

/// The place of the list of tokens that were taken back, where one is named. A page warns of files
/// that others may use, and takes them.
fn place_of_list<'a>(options: &'a PageOptions) -> Option<ListPlace<'a>>
    ensures { is_some result ≡ is_some options.now.revoked }
{
    options.revoked.as_deref().map(|path| ListPlace {
        path,
        of_others: true,
        may_empty: true,
    })
}

/// The keys of a file, if one is named; none else. A file that gives none is told, and how the run
/// ends.
fn find_keys<R>(rt: &R, named: &Option<String>) -> Result<KeyTable, Status>
where
    R: Alloc<A = Global> + Eprint + Files<File = File>,
    ensures { IfOk result IsKeyTable }
{
    let Some(path) = named else {
        return match KeyTable::read(rt.alloc(), b"") {
            Ok(keys) => Ok(keys),
            Err(_) => Err(tell_fault(rt, Status::NoMemory)),
        };
    };
    let path = path.as_str();
    let keys = match read_keys(rt, path) {
        Ok(keys) => keys,
        Err(fault) => return Err(tell_key_file(rt, path, fault)),
    };
    warn_of_readers(rt, path);
    warn_of_no_keys(rt, path, keys.len());
    Ok(keys)
}

/// Serves the page under these keys.
fn run_under<R>(rt: &R, address: SocketAddr, keys: KeyTable, has_keys: bool) -> Status
where
    R: Alloc<A = Global> + Print + Eprint + Clock + RandomSource,
    R: Net<Listener = TcpListener, Stream = TcpStream>,
    R: Threads + Wait + Sync + Copy + Send + 'static,
{
    let mut doors = Doors::new(rt.alloc());
    let served = match open_port(rt, &mut doors, address) {
        Ok(served) => served,
        Err(fault) => return tell_door(rt, Address::Tcp(address), fault),
    };
    let (Some(page), Some(own)) = (draw_secret(rt), draw_secret(rt)) else {
        return tell_fault(rt, Status::DeviceFault);
    };
    let secrets = Secrets {
        of_page: page.secret,
        of_site: own.secret,
    };
    let Ok(site) = build_site(rt.alloc(), served, secrets, keys, has_keys) else {
        return tell_fault(rt, Status::NoMemory);
    };
    let server = match serve_site(rt, doors, site) {
        Ok(server) => server,
        Err(fault) => return tell_server(rt, fault),
    };
    let (first, second) = (page.digits.as_str(), own.digits.as_str());
    if println!(rt; "http://{served}/#{first}{second}").is_err() {
        return tell_fault(rt, Status::DeviceFault);
    }
    server.await_end(rt);
    Status::Done
}

/// Has the connections that come in through these doors shown a site.
fn serve_site<R>(rt: &R, doors: Doors<()>, site: Site) -> Result<HttpServer, ServerFault>
where
    R: Alloc<A = Global> + Net + Clock + RandomSource,
    R: Threads + Wait + Sync + Copy + Send + 'static,
    ensures { IfOk result (ShowsSite doors site) }
{
    let contents = Content::site(rt.alloc(), site)?;
    let host = Host::alone(rt, rt.alloc(), MEMORY_MIN)?;
    start_server(rt, doors, contents, bounds(), host)
}

/// What the connections of the page are held to. Those that are silent give way, so that they shut
/// nobody out.
fn bounds() -> Bounds {
    Bounds {
        connections: CONNECTIONS,
        patience: Duration::from_secs(PATIENCE),
        gives_way: true,
    }
}

/// A fresh secret of 128 bits; none where the system gives no random bytes, or no memory.
fn draw_secret<R>(rt: &R) -> Option<Drawn>
where
    R: Alloc<A = Global> + RandomSource,
{
    let mut bits = [0u8; 16];
    rt.fill_bytes(&mut bits).ok()?;
    let digits = hex::encode(rt.alloc(), bits).ok()?;
    let secret = Secret::new(<[u8; 32]>::try_from(digits.as_str().as_bytes()).ok()?);
    Some(Drawn { secret, digits })
}

/// What is served at an address.
fn build_site(
    alloc: Global,
    served: SocketAddr,
    secrets: Secrets,
    keys: KeyTable,
    has_keys: bool,
) -> Result<Site, AllocError> {
    let texts = SiteTexts {
        document: DOCUMENT.as_bytes(),
        style: STYLE.as_bytes(),
        script: SCRIPT.as_bytes(),
    };
    let port = served.port();
    Ok(Site {
        texts,
        address: format!(in alloc; "{served}")?,
        local: format!(in alloc; "localhost:{port}")?,
        secrets,
        keys,
        has_keys,
    })
}
