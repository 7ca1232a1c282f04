//! What a daemon that listens tells of itself.
ghost use Rattle.std.specs.Prelude.{◌≡◌, ◌++◌, IfOk, MatchOption, OnOk, codes, string_bytes};
ghost use Rattle.httparse.specs.Grammar.{ResponseHead, ReadsResponse, status_code};
ghost use Rattle.mac_commands.specs.Doing.{DoesStatus, GivesPage, IsBody, IsPageOf, shown, shown_byte};

use super::PersonFault;
use super::asking::StatusWords;
use crate::fault::PipeFault;
use crate::input::read_input;
use httparse::Status;
use httparse::spans::{EMPTY_HEADER_SPAN, parse_response};
use mac_wire::ReaderSource;
use mac_words::{Said, append_escaped};
use std::alloc::{Alloc, AllocError, Global};
use std::io::Write;
use std::net::Net;
use std::os::unix::net::UnixStream;
use std::time::Duration;

/// The greatest number of fields in the head of a response.
const FIELDS_MAX: usize = 16;

/// How many seconds a daemon may be silent that is asked: one that hangs is told as none.
const PATIENCE_SECS: u64 = 5;

/// What HTTP calls a response that has what was asked for.
const OK: u16 = 200;

/// A page of a daemon, by what is sent for it.
#[derive(Clone, Copy, Debug, PartialEq, Eq)]
pub enum AskedPage {
    /// A line for each number.
    Status,
    /// The same, as Prometheus reads it.
    Metrics,
    /// A line for each connection.
    Connections,
}

impl AskedPage {
    /// The request for it. The connection is closed behind the response.
    fn request(self) -> &'static [u8] {
        match self {
            AskedPage::Status => b"GET /status HTTP/1.0\r\n\r\n",
            AskedPage::Metrics => b"GET /metrics HTTP/1.0\r\n\r\n",
            AskedPage::Connections => b"GET /connections HTTP/1.0\r\n\r\n",
        }
    }
}

/// The path of the status socket of a daemon.
pub fn status_path(alloc: Global, socket: &str) -> Result<String, AllocError>
    ensures { IfOk result (λ path. string_bytes path ≡ socket.now ++ codes ".status") }
{
    format!(in alloc; "{socket}.status")
}

/// What the daemon of a socket tells.
pub(super) fn do_status<'a, R>(rt: &R, words: &'a StatusWords) -> Result<Said, PersonFault<'a>>
where
    R: Alloc<A = Global> + Net,
    ensures { IfOk result (DoesStatus words.now) }
{
    let page = page_of(words)?;
    let reply = ask(rt, words.socket.as_str(), page)?;
    say_page(rt.alloc(), words.socket.as_str(), reply.as_slice())
}

/// The page that the words ask for, of whose two flags one at most may be set.
fn page_of<'a>(words: &StatusWords) -> Result<AskedPage, PersonFault<'a>>
    ensures { GivesPage words.now result }
{
    match (words.prometheus, words.connections) {
        (false, false) => Ok(AskedPage::Status),
        (true, false) => Ok(AskedPage::Metrics),
        (false, true) => Ok(AskedPage::Connections),
        (true, true) => Err(PersonFault::Pages),
    }
}

/// What comes of asking the daemon of a socket for a page.
fn ask<'a, R>(rt: &R, socket: &'a str, page: AskedPage) -> Result<Vec<u8>, PersonFault<'a>>
where
    R: Alloc<A = Global> + Net,
{
    let path = status_path(rt.alloc(), socket)?;
    let Ok(mut stream) = UnixStream::connect(rt, path.as_str()) else {
        return Err(PersonFault::NoDaemon { socket });
    };
    let patience = Some(Duration::from_secs(PATIENCE_SECS));
    if stream.set_read_timeout(patience).is_err() || stream.write_all(page.request()).is_err() {
        return Err(PersonFault::NoDaemon { socket });
    }
    match read_input(rt.alloc(), &mut ReaderSource::new(&stream)) {
        Ok(reply) => Ok(reply),
        Err(PipeFault::Memory) => Err(PersonFault::Memory),
        Err(_) => Err(PersonFault::NoDaemon { socket }),
    }
}

/// What is said of a response: its body as a terminal may be shown it, where it has what was asked
/// for. Whoever has the socket wrote it.
fn say_page<'a>(alloc: Global, socket: &'a str, reply: &[u8]) -> Result<Said, PersonFault<'a>>
    ensures { IfOk result (IsPageOf reply.now) }
{
    let Some(body) = body_of(reply) else {
        return Err(PersonFault::NoDaemon { socket });
    };
    let mut text = Vec::new(alloc);
    append_shown(body, &mut text)?;
    Ok(Said {
        text,
        is_refusal: false,
    })
}

/// Appends a body, whose lines stay.
fn append_shown(body: &[u8], out: &mut Vec<u8>) -> Result<(), AllocError>
    ensures { OnOk result (out.new.items ≡ out.old.items ++ shown body.now) }
{
    for byte in body {
        append_byte(*byte, out)?;
    }
    Ok(())
}

/// Appends a byte of a body.
fn append_byte(byte: u8, out: &mut Vec<u8>) -> Result<(), AllocError>
    ensures { OnOk result (out.new.items ≡ out.old.items ++ shown_byte byte) }
{
    if byte == b'\n' {
        return out.extend_from_slice(&[byte]);
    }
    append_escaped(&[byte], out)
}

/// The body of a response that has what was asked for.
fn body_of(reply: &[u8]) -> Option<&[u8]>
    ensures { MatchOption result (Unit {0}) (λ body. IsBody reply.now body.now) }
{
    let mut fields = [EMPTY_HEADER_SPAN; FIELDS_MAX];
    match parse_response(reply, &mut fields) {
        Ok(Status::Complete(head)) if head.code == OK => reply.get(head.len..),
        _ => None,
    }
}
