//! What a line tells of a request.

ghost use Rattle.std.specs.Prelude.{◌≡◌, IfOk};
ghost use Rattle.std.specs.Option.{option_map};
ghost use Rattle.mac_host.specs.Requested.{with_id, with_identifier, with_reason, with_request};

use crate::exchange::{Exchange, IDENTIFIER_TOLD, LoggedReason};
use crate::minted::with_name;
use mac_log::{Fields, Key, NoMemory, is_told_id};
use std::alloc::Global;

/// The fields, behind those that there are: what the request asked for, under which name, what it
/// was answered, why it wasn't done, what it is told apart by, and of which identifier its token
/// is. No token and no fact is told.
pub(crate) fn request_fields(
    alloc: Global,
    fields: Fields,
    exchange: &Exchange,
) -> Result<Fields, NoMemory>
    ensures { IfOk result (λ told. told ≡ with_request fields exchange.now) }
{
    let asked = fields.with_text(Key::Asks, exchange.asks.as_bytes())?;
    let named = with_name(asked, exchange.name.as_slice())?;
    let judged = named.with_text(Key::Verdict, exchange.verdict.as_bytes())?;
    let reasoned = with_reason(alloc, judged, exchange.reason)?;
    let marked = with_id(reasoned, &exchange.id)?;
    with_identifier(marked, &exchange.identifier)
}

/// The same with what the request is told apart by, where it is an id that a line tells.
fn with_id(fields: Fields, id: &Option<Vec<u8>>) -> Result<Fields, NoMemory>
    ensures { IfOk result (λ told. told ≡ with_id fields (option_map (λ text. text.items) id.now)) }
{
    match id {
        Some(id) if is_told_id(id.as_slice()) => fields.with_text(Key::Id, id.as_slice()),
        _ => Ok(fields),
    }
}

/// The same with what the identifier of its token begins with, if that is told.
fn with_identifier(fields: Fields, identifier: &Option<Vec<u8>>) -> Result<Fields, NoMemory>
    ensures { IfOk result (λ told. told
        ≡ with_identifier fields (option_map (λ text. text.items) identifier.now)) }
{
    match identifier {
        Some(identifier) => {
            fields.with_front(Key::Identifier, identifier.as_slice(), IDENTIFIER_TOLD)
        }
        None => Ok(fields),
    }
}

/// The same with the reason why it wasn't done, if there is one.
fn with_reason(
    alloc: Global,
    fields: Fields,
    reason: Option<LoggedReason>,
) -> Result<Fields, NoMemory>
    ensures { IfOk result (λ told. told ≡ with_reason fields reason) }
{
    match reason {
        None => Ok(fields),
        Some(LoggedReason::Code(code)) => fields.with_number(alloc, Key::Code, code as u64),
        Some(LoggedReason::Caveat(index)) => fields.with_number(alloc, Key::Caveat, index as u64),
        Some(LoggedReason::Status(status)) => fields.with_number(alloc, Key::Status, status as u64),
    }
}
