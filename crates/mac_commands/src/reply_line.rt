//! Replies as the lines that the pipe prints.
ghost use Rattle.std.specs.Prelude.{◌≡◌, ◌++◌, OnOk, codes};
ghost use Rattle.mac_commands.specs.ReplyLine.{owner_words, reply_line, reply_words, token_words};

use mac_wire::{NoMemory, Reply};
use mac_words::append_token_text;
use std::alloc::Global;

/// Appends the line of a reply.
pub(crate) fn append_reply_line(
    alloc: Global,
    reply: &Reply,
    out: &mut Vec<u8>,
) -> Result<(), NoMemory>
    ensures { OnOk result (out.new.items ≡ out.old.items ++ reply_line reply.now) }
{
    append_words(alloc, reply, out)?;
    out.extend_from_slice(b"\n")
}

/// Appends the words of a reply.
fn append_words(alloc: Global, reply: &Reply, out: &mut Vec<u8>) -> Result<(), NoMemory>
    ensures { OnOk result (out.new.items ≡ out.old.items ++ reply_words reply.now) }
{
    match reply {
        Reply::Granted => out.extend_from_slice(b"granted"),
        Reply::GrantedTo {
            identifier,
            location,
        } => append_owner(alloc, identifier.as_slice(), location.as_slice(), out),
        Reply::Token(token) => append_token(alloc, token.as_slice(), out),
        Reply::Refused(reason) => {
            let number = reason.code();
            let words = format!(in alloc; "refused {number}")?;
            out.extend_from_slice(words.as_bytes())
        }
        Reply::Unsatisfied(index) => {
            let words = format!(in alloc; "refused 24 {index}")?;
            out.extend_from_slice(words.as_bytes())
        }
    }
}

/// Appends the words of a token.
fn append_token(alloc: Global, token: &[u8], out: &mut Vec<u8>) -> Result<(), NoMemory>
    ensures { OnOk result (out.new.items ≡ out.old.items ++ token_words token.now) }
{
    out.extend_from_slice(b"token ")?;
    append_token_text(alloc, token, out)
}

/// Appends the words of a grant that tells whose the token is.
fn append_owner(
    alloc: Global,
    identifier: &[u8],
    location: &[u8],
    out: &mut Vec<u8>,
) -> Result<(), NoMemory>
    ensures { OnOk result
        (out.new.items ≡ out.old.items ++ owner_words identifier.now location.now) }
{
    let identifier = hex::encode(alloc, identifier)?;
    let location = hex::encode(alloc, location)?;
    out.extend_from_slice(b"granted to ")?;
    out.extend_from_slice(identifier.as_bytes())?;
    out.extend_from_slice(b" at ")?;
    out.extend_from_slice(location.as_bytes())
}
