//! Request lines as arrivals.
ghost use Rattle.std.specs.Prelude.{◌≡◌, IfOk};
ghost use Rattle.hex.specs.Hex.{decode_of};
ghost use Rattle.mac_commands.specs.Arrived.{arrival_of, arrival_of_payload, bytes_or_none};

use hex::FromHexError;
use mac_wire::{Arrival, Bytes, FRAME_MAX, NoMemory};
use std::alloc::{AllocError, Global};

/// The arrival that a line stands for.
pub(crate) fn read_arrival(alloc: Global, line: &[u8]) -> Result<Arrival, NoMemory>
    ensures { IfOk result (λ a. a ≡ arrival_of line.now) }
{
    let payload = read_payload(alloc, line)?;
    Ok(make_arrival(payload))
}

/// The bytes that a line spells in hexadecimal; none where it isn't hexadecimal.
fn read_payload(alloc: Global, line: &[u8]) -> Result<Vec<u8>, NoMemory>
    ensures { IfOk result (λ payload. payload.items ≡ bytes_or_none (decode_of line.now)) }
{
    match hex::decode(alloc, line) {
        Ok(payload) => Ok(payload),
        Err(FromHexError::OutOfMemory) => Err(AllocError),
        Err(_) => Ok(Vec::new(alloc)),
    }
}

/// The arrival of a payload: whole where a frame carries it.
fn make_arrival(payload: Vec<u8>) -> Arrival
    ensures { result ≡ arrival_of_payload payload.items }
{
    if payload.len() <= FRAME_MAX {
        Arrival::Payload(Bytes::new(payload))
    } else {
        Arrival::Oversize
    }
}
