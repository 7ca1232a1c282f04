//! Lines that take tokens back, printed, put into a list or dropped from it.
ghost use Rattle.std.specs.Prelude.{◌≡◌, ℕ, IfOk, List};
ghost use Rattle.mac_token.specs.Read.{raw_read_of};
ghost use Rattle.mac_words.specs.Revoked.{revoked_text};
ghost use Rattle.mac_commands.specs.Doing.{DoesRevoke, SaysNothing, SaysOf, StandsFor, TellsOwn};
ghost use Rattle.mac_commands.specs.Doing.{TellsRevoked};

use super::PersonFault;
use super::asking::RevokeWords;
use super::given::read_token;
use super::key_files::{make_file, read_kept};
use super::lists::{fault_of_list, read_list, replace_list};
use crate::observed_file::Held;
use mac_board::ReadFault;
use mac_token::TokenFault;
use mac_words::{Said, Whose, find_whose, put_behind, revoked_line, say_inspect, without_revoked};
use std::alloc::{Alloc, Global};
use std::fs::{self, File, Files};

/// What is said of a revoke.
pub(super) fn do_revoke<'a, R>(rt: &R, words: &'a RevokeWords) -> Result<Said, PersonFault<'a>>
where
    R: Alloc<A = Global> + Input + Eprint + Files<File = File>,
    R::Reader: Send,
    ensures { IfOk result (DoesRevoke words.now) }
{
    match (&words.identifier, &words.token) {
        (Some(identifier), None) => revoke(rt, words, identifier.as_bytes()),
        (None, Some(token)) => revoke_token(rt, words, token.as_str()),
        _ => Err(PersonFault::WhichToken),
    }
}

/// The same of a token, which says its identifier itself.
fn revoke_token<'a, R>(rt: &R, words: &'a RevokeWords, word: &str) -> Result<Said, PersonFault<'a>>
where
    R: Alloc<A = Global> + Input + Eprint + Files<File = File>,
    R::Reader: Send,
    ensures { IfOk result (λ said. (token : List ℕ) × StandsFor word.now token
        × TellsOwn words.now token (raw_read_of token) said) }
{
    let token = read_token(rt, word)?;
    match find_whose(rt.alloc(), token.as_slice()) {
        Ok(Whose { identifier, text }) => {
            tell_whose(rt, words.name.as_str(), text.as_slice());
            revoke(rt, words, identifier.as_slice())
        },
        Err(TokenFault::Memory) => Err(PersonFault::Memory),
        Err(TokenFault::Refused(_)) => Ok(say_inspect(rt.alloc(), token.as_slice())?),
    }
}

/// Tells whose a token is, as it says itself, in lines of plain words.
fn tell_whose<R: Eprint>(rt: &R, name: &str, text: &[u8]) {
    if let Ok(text) = str::from_utf8(text) {
        let _ = eprint!(rt; "name: {name}\n{text}");
    }
}

/// What is said of an identifier whose tokens are to be taken back, or not any more.
fn revoke<'a, R>(rt: &R, words: &'a RevokeWords, identifier: &[u8]) -> Result<Said, PersonFault<'a>>
where
    R: Alloc<A = Global> + Files<File = File>,
    ensures { IfOk result (TellsRevoked words.now identifier.now) }
{
    let name = words.name.as_str();
    let line = revoked_line(rt.alloc(), name, identifier)?;
    match (&words.into, &words.drop) {
        (None, None) => Ok(said_of(line)),
        (Some(path), None) => put_line(rt, path.as_str(), name, identifier, line.as_slice()),
        (None, Some(path)) => drop_line(rt, path.as_str(), name, identifier),
        (Some(_), Some(_)) => Err(PersonFault::RevokeOptions),
    }
}

/// What is printed as it is.
fn said_of(text: Vec<u8>) -> Said
    ensures { SaysOf text.items result }
{
    Said {
        text,
        is_refusal: false,
    }
}

/// Puts a line into a list, if the list hasn't it, or makes a list of it.
fn put_line<'a, R>(
    rt: &R,
    path: &'a str,
    name: &str,
    identifier: &[u8],
    line: &[u8],
) -> Result<Said, PersonFault<'a>>
where
    R: Alloc<A = Global> + Files<File = File>,
    requires { line.now ≡ revoked_text name.now identifier.now }
    ensures { IfOk result SaysNothing }
{
    if fs::symlink_metadata(rt, path).is_err() {
        make_file(rt, path, line)?;
        return Ok(said_of(Vec::new(rt.alloc())));
    }
    let kept = read_kept(rt, path, Held::List)?;
    let list = read_list(rt.alloc(), path, kept.text.as_slice())?;
    if !list.has(name.as_bytes(), identifier) {
        let changed = put_behind(rt.alloc(), kept.text.as_slice(), line)?;
        replace_list(rt, path, &kept, name, identifier, changed.as_slice())?;
    }
    Ok(said_of(Vec::new(rt.alloc())))
}

/// Drops each such line from a list, if the list has one.
fn drop_line<'a, R>(
    rt: &R,
    path: &'a str,
    name: &str,
    identifier: &[u8],
) -> Result<Said, PersonFault<'a>>
where
    R: Alloc<A = Global> + Files<File = File>,
    ensures { IfOk result SaysNothing }
{
    if fs::symlink_metadata(rt, path).is_err() {
        return Err(fault_of_list(rt, path, ReadFault::Unreadable));
    }
    let kept = read_kept(rt, path, Held::List)?;
    let list = read_list(rt.alloc(), path, kept.text.as_slice())?;
    if list.has(name.as_bytes(), identifier) {
        let text = kept.text.as_slice();
        let changed = without_revoked(rt.alloc(), text, name.as_bytes(), identifier)?;
        replace_list(rt, path, &kept, name, identifier, changed.as_slice())?;
    }
    Ok(said_of(Vec::new(rt.alloc())))
}
