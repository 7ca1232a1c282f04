//! Sockets that listen.

use crate::address::Address;
use mac_sockets::{Door, Doors, Holdings, PlaceFault};
use std::fs::{File, Files};
use std::io;
use std::io::ErrorKind;
use std::net::{Net, SocketAddr, TcpListener, TcpStream};
use std::sync::Wait;
use std::time::Clock;
use thiserror::Error;

/// Why there is no door at an address.
#[derive(Debug, Drop, Error)]
pub enum DoorFault {
    /// There is no Unix socket at its path.
    #[error("{0}")]
    Place(PlaceFault),
    /// Somebody has the port.
    #[error("somebody listens there; end that process first, or give another port")]
    Taken,
    /// The user of the process may not have the port.
    #[error("no permission; give a port from 1024 on, or let this user have it")]
    Forbidden,
    /// The machine hasn't the IP address.
    #[error("this machine has no such address")]
    NotHere,
    /// Memory ran out.
    #[error("memory ran out")]
    NoMemory,
    /// The system refused a step.
    #[error("{0}")]
    System(io::Error),
}

impl From<PlaceFault> for DoorFault {
    fn from(refused: PlaceFault) -> DoorFault {
        match refused {
            PlaceFault::NoMemory => DoorFault::NoMemory,
            refused => DoorFault::Place(refused),
        }
    }
}

impl From<io::Error> for DoorFault {
    fn from(refused: io::Error) -> DoorFault {
        match refused.kind() {
            ErrorKind::AddrInUse => DoorFault::Taken,
            ErrorKind::PermissionDenied => DoorFault::Forbidden,
            ErrorKind::AddrNotAvailable => DoorFault::NotHere,
            _ => DoorFault::System(refused),
        }
    }
}

/// Opens a door at an address. A Unix socket has these permissions, and is among those that are
/// held.
pub fn open_door<R>(
    rt: &R,
    doors: &mut Doors<()>,
    address: Address<'_>,
    permissions: u32,
    holdings: &mut Holdings,
) -> Result<(), DoorFault>
where
    R: Files<File = File> + Net<Listener = TcpListener, Stream = TcpStream> + Clock + Wait,
{
    match address {
        Address::Unix(path) => doors.open(rt, path, permissions, (), holdings)?,
        Address::Tcp(address) => {
            open_port(rt, doors, address)?;
        }
    }
    Ok(())
}

/// Adds the door of a port. The address that it has is told, as the system may choose the port.
pub fn open_port<R>(
    rt: &R,
    doors: &mut Doors<()>,
    address: SocketAddr,
) -> Result<SocketAddr, DoorFault>
where
    R: Net<Listener = TcpListener, Stream = TcpStream>,
{
    let listener = TcpListener::bind(rt, address)?;
    let served = listener.local_addr()?;
    doors.add(Door::tcp(listener, ())?)?;
    Ok(served)
}
