//! Addresses of sockets, as people write them.

ghost use Rattle.std.specs.Prelude.{ℕ, List, IfOk};
ghost use Rattle.mac_gate.specs.Address.{AreRead, NamesPath, ReadsAs, ReadsPath, is_comma};

use std::alloc::Global;
use std::fmt;
use std::fmt::{Display, Formatter};
use std::net::SocketAddr;
use thiserror::Error;

/// What the address of a Unix socket begins with.
const UNIX: &[u8] = b"unix:";

/// An address of a socket.
#[derive(Clone, Copy)]
pub enum Address<'a> {
    /// The path of a Unix socket.
    Unix(&'a str),
    /// An IP address and a port.
    Tcp(SocketAddr),
}

impl<'a> Display for Address<'a> {
    fn fmt<W: fmt::Write>(&self, f: &mut Formatter<W>) -> fmt::Result {
        match self {
            Address::Unix(path) => write!(f, "unix:{path}"),
            Address::Tcp(socket) => write!(f, "{socket}"),
        }
    }
}

/// Who may reach an address over IP.
#[derive(Clone, Copy, Debug, PartialEq, Eq)]
pub enum Reach {
    /// This machine alone.
    Loopback,
    /// Any machine.
    Anywhere,
}

/// Why a word is no address that may be served.
#[derive(Clone, Copy, Debug, PartialEq, Eq, Error)]
pub enum AddressFault {
    /// It is no address.
    #[error("this is no address; give unix:PATH, 127.0.0.1:PORT or [::1]:PORT")]
    NoAddress,
    /// It isn't loopback's.
    #[error("other machines may reach this address; name it by --http-anywhere if they may")]
    Foreign,
}

/// Why a list gives no addresses.
#[derive(Clone, Copy)]
pub enum ListFault<'a> {
    /// A word of it has this fault.
    Word { word: &'a [u8], fault: AddressFault },
    /// Memory ran out.
    NoMemory,
}

/// The addresses that the words of a list spell, between its commas; or the first fault of a word,
/// with the word.
pub fn read_addresses(
    alloc: Global,
    list: &[u8],
    reach: Reach,
) -> Result<Vec<Address<'_>>, ListFault<'_>>
    ensures { IfOk result (λ addresses. AreRead reach list.now addresses.items) }
{
    let mut addresses = Vec::new(alloc);
    for word in list.split(|byte| *byte == b',') {
        match read_address(word, reach) {
            Ok(address) if addresses.push(address).is_ok() => {}
            Ok(_) => return Err(ListFault::NoMemory),
            Err(fault) => return Err(ListFault::Word { word, fault }),
        }
    }
    Ok(addresses)
}

/// The address that a word spells: a path behind `unix:`, or an IP address and a port.
pub fn read_address(word: &[u8], reach: Reach) -> Result<Address<'_>, AddressFault>
    ensures { ReadsAs reach word.now result }
{
    match word.strip_prefix(UNIX) {
        Some(path) => read_path(path),
        None => read_socket(word, reach),
    }
}

/// The address of a path.
fn read_path(path: &[u8]) -> Result<Address<'_>, AddressFault>
    ensures { ReadsPath path.now result }
{
    match str::from_utf8(path) {
        Ok(path) if !path.is_empty() => Ok(Address::Unix(path)),
        _ => Err(AddressFault::NoAddress),
    }
}

/// The IP address and port that a word spells which names no path.
fn read_socket(word: &[u8], reach: Reach) -> Result<Address<'_>, AddressFault>
    requires { (path : List ℕ) → ¬ (NamesPath word.now path) }
    ensures { ReadsAs reach word.now result }
{
    let Ok(socket) = SocketAddr::parse_ascii(word) else {
        return Err(AddressFault::NoAddress);
    };
    match (reach, socket.ip().is_loopback()) {
        (Reach::Loopback, false) => Err(AddressFault::Foreign),
        _ => Ok(Address::Tcp(socket)),
    }
}
