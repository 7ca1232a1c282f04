//! What comes on a plain connection.

ghost use Rattle.std.specs.Prelude.{◌≡◌, ◌≤◌, ◌++◌, ℕ, List, length, IfOk, IsTrue};
ghost use Rattle.mac_board.specs.Noticed.{Current};
ghost use Rattle.mac_wire.specs.Frame.{IsUnfinished};
ghost use Rattle.mac_plain.specs.Receiving.{Cuts, Joins, Receives, TakesIn};
ghost use Rattle.mac_plain.specs.Requests.{AreWithin};

use crate::NoMemory;
use crate::client::Client;
use crate::course::{Course, Ended, Fall};
use crate::dear::is_dear;
use crate::port::{Came, Port};
use crate::request::RoundRequest;
use mac_wire::{Cut, FRAME_MAX, Session, next_frame, opened};

/// Reads a client once, where it is open, and cuts what has come into requests. Where it may carry
/// whole requests, those are cut off instead.
pub fn receive<P: Port>(
    client: &mut Client<P>,
    piece: &mut [u8],
    arena: &mut Vec<u8>,
    requests: &mut Vec<RoundRequest>,
    owner: usize,
)
    requires { AreWithin (length arena.old.items) requests.old.items }
    ensures within { AreWithin (length arena.new.items) requests.new.items }
    ensures receives { (current : Current) → Receives P.tells P.taken P.written current
        owner client.old client.new arena.old.items arena.new.items
        requests.old.items requests.new.items }
{
    match client.course {
        Course::Open => {}
        Course::Held => {
            client.course = take_in(&mut client.session, &[], arena, requests, owner);
            return;
        }
        _ => return,
    }
    match client.port.read(piece) {
        Came::Bytes(count) => {
            client.is_readable = count == piece.len();
            let came = &piece[..count];
            client.course = take_in(&mut client.session, came, arena, requests, owner);
        }
        Came::Later => client.is_readable = false,
        Came::End => client.course = Course::Ended(Ended::Peer),
        Came::Fault => client.course = Course::Ended(Ended::Fault),
    }
}

/// Takes in what came, and says how the connection goes on.
fn take_in(
    session: &mut Session,
    piece: &[u8],
    arena: &mut Vec<u8>,
    requests: &mut Vec<RoundRequest>,
    owner: usize,
) -> Course
    requires { AreWithin (length arena.old.items) requests.old.items }
    ensures { TakesIn owner piece.now session.old session.new arena.old.items arena.new.items
        requests.old.items requests.new.items result }
{
    let (version, frames) = opened(session.version, piece);
    session.version = version;
    if is_unfinished_with(session.carried.as_slice(), frames) {
        return match session.carried.extend_from_slice(frames) {
            Ok(()) => Course::Open,
            Err(_) => Course::Fallen(Fall::NoMemory),
        };
    }
    let start = arena.len();
    if let Err(_) = join(arena, session.carried.as_slice(), frames) {
        return Course::Fallen(Fall::NoMemory);
    }
    match cut_requests(arena.as_slice(), start, owner, requests) {
        Ok((at, course)) => match carry(&mut session.carried, &arena[at..]) {
            Ok(()) => course,
            Err(_) => Course::Fallen(Fall::NoMemory),
        },
        Err(_) => Course::Fallen(Fall::NoMemory),
    }
}

/// Whether what is carried is less than a whole frame with these bytes too, as its length tells.
/// So a long request that comes in pieces is copied once.
fn is_unfinished_with(carried: &[u8], frames: &[u8]) -> bool
    ensures { IsTrue result → IsUnfinished (carried.now ++ frames.now) }
{
    match carried.split_first_chunk::<4>() {
        Some((told, _)) => {
            let told = u32::from_be_bytes(*told) as usize;
            told <= FRAME_MAX && frames.len() < (4 + told).saturating_sub(carried.len())
        }
        None => false,
    }
}

/// Puts two pieces behind what lies there.
fn join(arena: &mut Vec<u8>, first: &[u8], second: &[u8]) -> Result<(), NoMemory>
    ensures { Joins arena.old.items first.now second.now result arena.new.items }
{
    arena.extend_from_slice(first)?;
    arena.extend_from_slice(second)
}

/// Carries these bytes, and no others. It keeps no memory for none.
fn carry(carried: &mut Vec<u8>, bytes: &[u8]) -> Result<(), NoMemory>
    ensures { IfOk result (λ _. carried.new.items ≡ bytes.now) }
{
    carried.clear();
    if bytes.is_empty() {
        carried.shrink_to(0);
    }
    carried.extend_from_slice(bytes)
}

/// Cuts what lies behind a place into requests of this owner, as long as they aren't too dear for a
/// loop. It gives the place of the rest, and how the connection goes on.
fn cut_requests(
    arena: &[u8],
    from: usize,
    owner: usize,
    requests: &mut Vec<RoundRequest>,
) -> Result<(usize, Course), NoMemory>
    requires { from ≤ length arena.now }
    ensures { Cuts arena.now from owner requests.old.items requests.new.items result }
{
    let mut at = from;
    loop {
        match next_frame(&arena[at..], FRAME_MAX) {
            Cut::Whole(payload, rest) => {
                if is_dear(payload) {
                    return Ok((at, Course::Wide));
                }
                let end = arena.len() - rest.len();
                let start = end - payload.len();
                requests.push(RoundRequest { owner, start, end })?;
                at = end;
            }
            Cut::Unfinished => return Ok((at, Course::Open)),
            Cut::TooLong(_) => return Ok((at, Course::Wide)),
        }
    }
}
