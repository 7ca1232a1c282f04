//! Replies as people are told them.

ghost use Rattle.std.specs.Prelude.{◌≡◌, ◌++◌, OnOk, codes, slice_get};
ghost use Rattle.std.specs.Fmt.{decimal};
ghost use Rattle.mac_token.specs.Read.{read_of};
ghost use Rattle.mac_words.specs.Escaped.{escaped};
ghost use Rattle.mac_words.specs.ReplyText.{caveat_at, or_empty, refusal_text, reply_text};

use crate::escaped::append_escaped;
use crate::refusal::reason;
use crate::token_text::append_token_text;
use mac_token::{Token, TokenFault, read};
use mac_wire::{NoMemory, Refusal, Reply};
use std::alloc::{AllocError, Global};

/// Appends the words of the reply to a request about these bytes of a token; a mint has none. A
/// refused caveat is told with its text, for which the token is read again.
pub fn append_reply_text(
    alloc: Global,
    token: &[u8],
    reply: &Reply,
    out: &mut Vec<u8>,
) -> Result<(), NoMemory>
    ensures { OnOk result (out.new.items ≡ out.old.items ++ reply_text token.now reply.now) }
{
    match reply {
        Reply::Granted => out.extend_from_slice(b"granted"),
        Reply::GrantedTo {
            identifier,
            location,
        } => append_owner(identifier.as_slice(), location.as_slice(), out),
        Reply::Token(made) => append_token_text(alloc, made.as_slice(), out),
        Reply::Refused(why) => append_refusal(alloc, *why, out),
        Reply::Unsatisfied(index) => append_unsatisfied(alloc, token, *index, out),
    }
}

/// Appends that a token of this identifier and this location is granted.
fn append_owner(identifier: &[u8], location: &[u8], out: &mut Vec<u8>) -> Result<(), NoMemory>
    ensures { OnOk result (out.new.items ≡ out.old.items ++ (codes "granted to "
        ++ (escaped identifier.now ++ (codes " at " ++ escaped location.now)))) }
{
    out.extend_from_slice(b"granted to ")?;
    append_escaped(identifier, out)?;
    out.extend_from_slice(b" at ")?;
    append_escaped(location, out)
}

/// Appends a refusal with its number.
pub fn append_refusal(alloc: Global, why: Refusal, out: &mut Vec<u8>) -> Result<(), NoMemory>
    ensures { OnOk result (out.new.items ≡ out.old.items ++ refusal_text why) }
{
    let number = why.code();
    let number = format!(in alloc; "{number}")?;
    out.extend_from_slice(b"refused ")?;
    out.extend_from_slice(number.as_bytes())?;
    out.extend_from_slice(b": ")?;
    out.extend_from_slice(reason(why).as_bytes())?;
    Ok(())
}

/// Appends that the caveat at a place isn't satisfied.
fn append_unsatisfied(
    alloc: Global,
    token: &[u8],
    index: u16,
    out: &mut Vec<u8>,
) -> Result<(), NoMemory>
    ensures { OnOk result (out.new.items
        ≡ out.old.items ++ reply_text token.now (Reply.Unsatisfied index)) }
{
    out.extend_from_slice(b"refused 24: caveat ")?;
    append_index(alloc, index, out)?;
    out.extend_from_slice(b" is not satisfied: ")?;
    append_named(alloc, token, index, out)?;
    Ok(())
}

/// Appends a place in decimal.
fn append_index(alloc: Global, index: u16, out: &mut Vec<u8>) -> Result<(), NoMemory>
    ensures { OnOk result (out.new.items ≡ out.old.items ++ decimal index) }
{
    let digits = format!(in alloc; "{index}")?;
    out.extend_from_slice(digits.as_bytes())
}

/// Appends the caveat at a place of the token that the bytes spell.
fn append_named(alloc: Global, token: &[u8], index: u16, out: &mut Vec<u8>) -> Result<(), NoMemory>
    ensures { OnOk result (out.new.items
        ≡ out.old.items ++ escaped (caveat_at (read_of token.now) index)) }
{
    match read(alloc, token) {
        Ok(token) => append_caveat(&token, index, out),
        Err(TokenFault::Refused(_)) => Ok(()),
        Err(TokenFault::Memory) => Err(AllocError),
    }
}

/// Appends the caveat at a place, or nothing where there is none.
fn append_caveat(token: &Token, index: u16, out: &mut Vec<u8>) -> Result<(), NoMemory>
    ensures { OnOk result (out.new.items
        ≡ out.old.items ++ escaped (or_empty (slice_get token.now.caveats index))) }
{
    match token.caveat(index as usize) {
        Some(caveat) => append_escaped(caveat, out),
        None => Ok(()),
    }
}
