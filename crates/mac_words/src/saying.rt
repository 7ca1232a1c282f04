//! What is said to a person who asks a request in words.

ghost use Rattle.std.specs.Prelude.{◌≡◌, [], IfOk};
ghost use Rattle.mac_decide.specs.Answer.{full_answer};
ghost use Rattle.mac_keys.specs.KeyTable.{table_of};
ghost use Rattle.mac_wire.specs.Request.{mint, attenuate, verify};
ghost use Rattle.mac_wire.specs.declared.arrival.Arrival.TheVariants as arrival;
ghost use Rattle.mac_words.specs.Payload.{texts_of};
ghost use Rattle.mac_words.specs.Said.{IsSaid, Says, SaysAlone, is_refusal, mint_form, next_form};
ghost use Rattle.mac_words.specs.Said.{SaysBytes, SaysUnder};

use crate::fault::FieldFault;
use crate::inspected::{find_whose, inspect};
use crate::key_lines::NameFault;
use crate::payload::{attenuate_payload, mint_payload, reply_to, verify_payload};
use crate::reply_text::{append_refusal, append_reply_text};
use crate::revoked::revoked_line;
use crate::spelled::Spelling;
use mac_decide::refusal_of;
use mac_keys::{KeyFault, KeyTable};
use mac_token::TokenFault;
use mac_wire::{NoMemory, Refusal, Reply, TokenForm};
use std::alloc::{AllocError, Global};

/// What is said to a person.
#[derive(Drop)]
pub struct Said {
    /// One or more lines, each with its line feed.
    pub text: Vec<u8>,
    /// Whether they tell of a refusal.
    pub is_refusal: bool,
}

/// What a token is minted of: the name of its key, and what it says.
#[derive(Clone, Copy)]
pub struct Minting<'a> {
    pub key: &'a str,
    pub location: &'a str,
    pub identifier: &'a str,
    pub caveats: &'a [String],
}

/// What is said of the words of a mint; the form that is left out is the text of version 2.
pub fn say_mint(
    alloc: Global,
    table: &KeyTable,
    form: Option<TokenForm>,
    words: &Minting<'_>,
) -> Result<Said, FieldFault>
    ensures { Says table.now [] (mint (mint_form form) words.now.key.now words.now.location.now
        words.now.identifier.now (texts_of words.now.caveats.now)) result }
{
    let Minting {
        key,
        location,
        identifier,
        caveats,
    } = *words;
    let form = mint_form(form);
    let payload = mint_payload(alloc, form, key, location, identifier, caveats)?;
    Ok(said_of(alloc, table, b"", payload)?)
}

/// What is said of the words of an attenuate, which no key is needed for; the form that is left out
/// is that of the token.
pub fn say_attenuate(
    alloc: Global,
    form: Option<TokenForm>,
    token: &[u8],
    caveats: &[String],
) -> Result<Said, FieldFault>
    ensures { SaysAlone token.now
        (attenuate (next_form form token.now) token.now (texts_of caveats.now)) result }
{
    let form = next_form(form, token);
    let payload = attenuate_payload(alloc, form, token, caveats)?;
    let table = no_keys(alloc)?;
    Ok(said_of(alloc, &table, token, payload)?)
}

/// What is said of the words of a verify, at a moment in seconds since 1970.
pub fn say_verify(
    alloc: Global,
    table: &KeyTable,
    key: &str,
    token: &[u8],
    moment: u64,
    facts: &[String],
) -> Result<Said, FieldFault>
    ensures { Says table.now token.now
        (verify key.now token.now moment (texts_of facts.now)) result }
{
    let payload = verify_payload(alloc, key, token, moment, facts)?;
    Ok(said_of(alloc, table, token, payload)?)
}

/// What is said of bytes that are looked at: what they spell, or why they are no token.
pub fn say_inspect(alloc: Global, token: &[u8]) -> Result<Said, NoMemory>
    ensures { IfOk result (SaysBytes token.now) }
{
    match inspect(alloc, token) {
        Ok(text) => Ok(Said {
            text,
            is_refusal: false,
        }),
        Err(TokenFault::Refused(why)) => refused(alloc, refusal_of(why)),
        Err(TokenFault::Memory) => Err(AllocError),
    }
}

/// The same, and behind what a token says the line that takes it back under a name.
pub fn say_inspect_under(alloc: Global, name: &str, token: &[u8]) -> Result<Said, NameFault>
    ensures { IfOk result (SaysUnder name.now token.now) }
{
    match find_whose(alloc, token) {
        Ok(whose) => {
            let line = revoked_line(alloc, name, whose.identifier.as_slice())?;
            let mut said = say_inspect(alloc, token)?;
            said.text.extend_from_slice(line.as_slice())?;
            Ok(said)
        }
        Err(TokenFault::Refused(why)) => Ok(refused(alloc, refusal_of(why))?),
        Err(TokenFault::Memory) => Err(NameFault::Memory),
    }
}

/// The form of a new token: its text where none is asked for.
fn mint_form(form: Option<TokenForm>) -> TokenForm
    ensures { result ≡ mint_form form }
{
    match form {
        Some(form) => form,
        None => TokenForm::V2Text,
    }
}

/// The form of a token that is made of another: that one's where none is asked for.
fn next_form(form: Option<TokenForm>, token: &[u8]) -> TokenForm
    ensures { result ≡ next_form form token.now }
{
    match form {
        Some(form) => form,
        None => Spelling::of(token).form(),
    }
}

/// What is said of the answer to a payload that is about these bytes of a token.
fn said_of(
    alloc: Global,
    table: &KeyTable,
    token: &[u8],
    payload: Vec<u8>,
) -> Result<Said, NoMemory>
    ensures { IfOk result
        (IsSaid token.now (full_answer None table.now (arrival.Payload payload.items))) }
{
    let reply = reply_to(alloc, table, payload)?;
    reply_said(alloc, token, &reply)
}

/// What is said of a reply.
fn reply_said(alloc: Global, token: &[u8], reply: &Reply) -> Result<Said, NoMemory>
    ensures { IfOk result (IsSaid token.now reply.now) }
{
    let mut text = Vec::new(alloc);
    append_reply_text(alloc, token, reply, &mut text)?;
    text.extend_from_slice(b"\n")?;
    Ok(Said {
        text,
        is_refusal: is_refusal(reply),
    })
}

/// Whether a reply refuses.
fn is_refusal(reply: &Reply) -> bool
    ensures { result ≡ is_refusal reply.now }
{
    match reply {
        Reply::Granted | Reply::GrantedTo { .. } | Reply::Token(_) => false,
        Reply::Refused(_) | Reply::Unsatisfied(_) => true,
    }
}

/// What is said of a refusal.
fn refused(alloc: Global, why: Refusal) -> Result<Said, NoMemory>
    ensures { IfOk result (IsSaid [] (Reply.Refused why)) }
{
    let mut text = Vec::new(alloc);
    append_refusal(alloc, why, &mut text)?;
    text.extend_from_slice(b"\n")?;
    Ok(Said {
        text,
        is_refusal: true,
    })
}

/// The table of a key file with no line.
fn no_keys(alloc: Global) -> Result<KeyTable, NoMemory>
    ensures { IfOk result (λ table. table_of [] ≡ Ok table) }
{
    match KeyTable::read(alloc, b"") {
        Ok(table) => Ok(table),
        Err(KeyFault::Line { .. }) => unreachable!("an empty text has no line with a fault"),
        Err(KeyFault::Memory) => Err(AllocError),
    }
}
