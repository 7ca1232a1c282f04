//! A connection, a turn at a time.

ghost use Rattle.std.specs.Prelude.{OnErr};
ghost use Rattle.mac_http.specs.Turn.{BreaksOff, IsTurn};

use http_server::{Config, Connection, Service};
use http1::Limits;
use std::io;
use std::io::{Read, Write};

/// A token may have 32,768 bytes, and the rest of a head has room beside it.
pub const CONFIG: Config = Config {
    limits: Limits {
        max_head_len: 49_152,
        max_extensions_len: 1_024,
        max_trailers_len: 1_024,
    },
    max_body_len: 65_536,
    max_pending: 65_536,
    read_size: 8_192,
};

/// A turn of a connection: where nothing is left to be sent it reads once, then it answers what has
/// come, and writes once where that gives something to be sent. How many bytes were written.
///
/// Devices that don't wait break a turn off by `WouldBlock`.
pub fn take_turn<S: Service, R: Read, W: Write>(
    connection: &mut Connection,
    service: &mut S,
    reader: &mut R,
    writer: &mut W,
) -> io::Result<usize>
    ensures turn { IsTurn S.answers (R.remaining reader.old) (R.remaining reader.new)
        (W.contents writer.old) (W.contents writer.new) service.old service.new
        connection.old connection.new }
    ensures broken { OnErr result (BreaksOff service.old service.new
        connection.old connection.new) }
{
    if !connection.wants_write() {
        connection.read_from(reader)?;
    }
    connection.advance(service);
    if !connection.wants_write() {
        return Ok(0);
    }
    // Where more waits for its answer than may be pending, the rest is answered behind the write.
    let is_held = !connection.wants_read();
    let count = connection.write_to(writer)?;
    if is_held {
        connection.advance(service);
    }
    Ok(count)
}
