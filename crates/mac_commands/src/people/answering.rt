//! Doing what a person asks.
ghost use Rattle.std.specs.Prelude.{◌≡◌, ℕ, [], List, IfOk, Ok};
ghost use Rattle.mac_words.specs.Said.{Says};
ghost use Rattle.mac_commands.specs.Doing.{DoesAttenuate, DoesInspect, DoesMint, DoesTask};
ghost use Rattle.mac_commands.specs.Doing.{DoesVerify, EndsTask, IsDrawn};
ghost use Rattle.mac_commands.specs.People.{IsToldSo, SaysWords, SaysWordsAlone, attenuate_asked};
ghost use Rattle.mac_commands.specs.People.{mint_asked, person_status, said_status, verify_asked};

use super::asking::{AttenuateWords, InspectWords, MintWords, VerifyWords};
use super::checking::do_check;
use super::given::{draw_identifier, load_keys, read_form, read_moment, read_token};
use super::keygen::do_keygen;
use super::lists::load_table;
use super::readers::warn_of_readers;
use super::revoke::do_revoke;
use super::status_page::do_status;
use super::{PersonFault, Task};
use crate::status::Status;
use mac_keys::KeyTable;
use mac_wire::{TokenForm, WriterSink, send_all};
use mac_words::{
    Minting, Said, explain, say_attenuate, say_inspect, say_inspect_under, say_mint, say_verify,
    warnings,
};
use std::alloc::{Alloc, Global};
use std::fs::{File, Files};
use std::io;
use std::net::Net;
use std::random::RandomSource;
use std::time::Clock;

/// Does what a person asks, tells what comes of it, and says how the run ends.
pub fn run_task<R>(rt: &R, task: &Task) -> Status
where
    R: Alloc<A = Global> + Input + Print + Eprint,
    R: Files<File = File> + Net + Clock + RandomSource + Sync,
    R::Reader: Send,
    ensures { EndsTask task.now result }
{
    match do_task(rt, task) {
        Ok(said) => {
            warn(rt, task, &said);
            tell_said(rt, task, &said)
        }
        Err(fault) => tell_person(rt, fault),
    }
}

/// What is said to the person.
fn do_task<'a, R>(rt: &R, task: &'a Task) -> Result<Said, PersonFault<'a>>
where
    R: Alloc<A = Global> + Input + Eprint + Files<File = File> + Net + Clock + RandomSource,
    R::Reader: Send,
    ensures { IfOk result (DoesTask task.now) }
{
    match task {
        Task::Keygen(words) => do_keygen(rt, words),
        Task::Check(words) => do_check(rt, words),
        Task::Mint(words) => do_mint(rt, words),
        Task::Attenuate(words) => do_attenuate(rt, words),
        Task::Verify(words) => do_verify(rt, words),
        Task::Inspect(words) => do_inspect(rt, words),
        Task::Status(words) => do_status(rt, words),
        Task::Revoke(words) => do_revoke(rt, words),
    }
}

/// What is said of a mint: first its form is read, then its key file. An identifier that the words
/// don't say is drawn.
fn do_mint<'a, R>(rt: &R, words: &'a MintWords) -> Result<Said, PersonFault<'a>>
where
    R: Alloc<A = Global> + Eprint + Files + RandomSource,
    R::File: Send,
    ensures { IfOk result (DoesMint words.now) }
{
    let form = read_form(&words.form)?;
    let table = load_keys(rt, words.keys.as_str())?;
    match &words.identifier {
        Some(identifier) => {
            say_mint_under(rt.alloc(), &table, form, identifier.as_str(), words)
        },
        None => say_drawn(rt, &table, form, words),
    }
}

/// What is said of a mint with an identifier that is drawn.
fn say_drawn<'a, R>(
    rt: &R,
    table: &KeyTable,
    form: Option<TokenForm>,
    words: &MintWords,
) -> Result<Said, PersonFault<'a>>
where
    R: Alloc<A = Global> + Eprint + RandomSource,
    ensures { IfOk result (λ said. (identifier : List ℕ) × IsDrawn identifier
        × Says table.now [] (mint_asked form identifier words.now) (Ok said)) }
{
    let drawn = draw_identifier(rt)?;
    let said = say_mint_under(rt.alloc(), table, form, drawn.as_str(), words)?;
    tell_drawn(rt, drawn.as_str(), &said);
    Ok(said)
}

/// Tells on standard error which identifier was drawn for a token that was minted.
fn tell_drawn<R: Eprint>(rt: &R, identifier: &str, said: &Said) {
    if !said.is_refusal {
        let _ = eprintln!(rt; "identifier {identifier}");
    }
}

/// What is said of an attenuate: first its form is read, then its token.
fn do_attenuate<'a, R>(rt: &R, words: &'a AttenuateWords) -> Result<Said, PersonFault<'a>>
where
    R: Alloc<A = Global> + Input,
    R::Reader: Send,
    ensures { IfOk result (DoesAttenuate words.now) }
{
    let form = read_form(&words.form)?;
    let token = read_token(rt, words.token.as_str())?;
    say_attenuate_of(rt.alloc(), form, token.as_slice(), words)
}

/// What is said of a verify: first its moment is read, then its key file with its list, then its
/// token.
fn do_verify<'a, R>(rt: &R, words: &'a VerifyWords) -> Result<Said, PersonFault<'a>>
where
    R: Alloc<A = Global> + Input + Eprint + Files<File = File> + Clock,
    R::Reader: Send,
    ensures { IfOk result (DoesVerify words.now) }
{
    let moment = read_moment(rt, &words.at)?;
    let table = load_table(rt, words.keys.as_str(), &words.revoked)?;
    let token = read_token(rt, words.token.as_str())?;
    tell_lacks(rt, words, moment, &token);
    say_verify_under(rt.alloc(), &table, moment, token.as_slice(), words)
}

/// Tells on standard error which caveats of a token aren't satisfied, and why, where that is asked.
fn tell_lacks<R>(rt: &R, words: &VerifyWords, moment: u64, token: &[u8])
where
    R: Alloc<A = Global> + Eprint,
{
    if !words.explain {
        return;
    }
    if let Ok(text) = explain(rt.alloc(), token, moment, words.facts.as_slice()) {
        tell_text(rt, text.as_slice());
    }
}

/// What is said of a token, with the line that takes it back where a name is given.
fn do_inspect<'a, R>(rt: &R, words: &'a InspectWords) -> Result<Said, PersonFault<'a>>
where
    R: Alloc<A = Global> + Input,
    R::Reader: Send,
    ensures { IfOk result (DoesInspect words.now) }
{
    let token = read_token(rt, words.token.as_str())?;
    match &words.key {
        Some(name) => Ok(say_inspect_under(rt.alloc(), name.as_str(), token.as_slice())?),
        None => Ok(say_inspect(rt.alloc(), token.as_slice())?),
    }
}

/// What is said of the words of a mint with this identifier, under the keys of a table.
fn say_mint_under<'a>(
    alloc: Global,
    table: &KeyTable,
    form: Option<TokenForm>,
    identifier: &str,
    words: &MintWords,
) -> Result<Said, PersonFault<'a>>
    ensures { SaysWords table.now [] (mint_asked form identifier.now words.now) result }
{
    let words = Minting {
        key: words.key.as_str(),
        location: words.location.as_str(),
        identifier,
        caveats: words.caveats.as_slice(),
    };
    Ok(say_mint(alloc, table, form, &words)?)
}

/// What is said of the words of an attenuate about these bytes of a token.
fn say_attenuate_of<'a>(
    alloc: Global,
    form: Option<TokenForm>,
    token: &[u8],
    words: &AttenuateWords,
) -> Result<Said, PersonFault<'a>>
    ensures { SaysWordsAlone token.now (attenuate_asked form token.now words.now) result }
{
    Ok(say_attenuate(alloc, form, token, words.caveats.as_slice())?)
}

/// What is said of the words of a verify about these bytes of a token, under the keys of a table.
fn say_verify_under<'a>(
    alloc: Global,
    table: &KeyTable,
    moment: u64,
    token: &[u8],
    words: &VerifyWords,
) -> Result<Said, PersonFault<'a>>
    ensures { SaysWords table.now token.now (verify_asked token.now moment words.now) result }
{
    Ok(say_verify(
        alloc,
        table,
        words.key.as_str(),
        token,
        moment,
        words.facts.as_slice(),
    )?)
}

/// Warns on standard error of what is right but seldom meant: caveats of a new token that can
/// hardly hold, and a key file or a list that others than its owner may use.
fn warn<R: Alloc<A = Global> + Eprint + Files + Clock>(rt: &R, task: &Task, said: &Said) {
    if said.is_refusal {
        return;
    }
    match task {
        Task::Mint(words) => {
            warn_of_readers(rt, words.keys.as_str());
            warn_of_caveats(rt, words.caveats.as_slice());
        },
        Task::Attenuate(words) => warn_of_caveats(rt, words.caveats.as_slice()),
        Task::Verify(words) => {
            warn_of_readers(rt, words.keys.as_str());
            if let Some(path) = &words.revoked {
                warn_of_readers(rt, path.as_str());
            }
        },
        Task::Keygen(_) | Task::Check(_) | Task::Inspect(_) | Task::Status(_) | Task::Revoke(_) =>
            {},
    }
}

/// Warns on standard error of the caveats that can hardly hold. Where the clock tells no moment, no
/// time limit since 1970 has passed.
fn warn_of_caveats<R: Alloc<A = Global> + Eprint + Clock>(rt: &R, caveats: &[String]) {
    let moment = read_moment(rt, &None).unwrap_or(0);
    if let Ok(text) = warnings(rt.alloc(), caveats, moment) {
        tell_text(rt, text.as_slice());
    }
}

/// Tells a text on standard error.
fn tell_text<R: Eprint>(rt: &R, text: &[u8]) {
    if let Ok(text) = str::from_utf8(text) {
        let _ = eprint!(rt; "{text}");
    }
}

/// Tells what is said, and says how the run ends. A refusal goes to standard error, so that nobody
/// takes it for a token, but for that of a verify, which is its answer.
fn tell_said<R: Print + Eprint + Sync>(rt: &R, task: &Task, said: &Said) -> Status
    ensures { IsToldSo said.now.is_refusal result }
{
    if said.is_refusal && !matches!(task, Task::Verify(_)) {
        tell_text(rt, said.text.as_slice());
        return Status::Refused;
    }
    match send_all(&mut WriterSink::new(io::writer(rt)), said.text.as_slice()) {
        Ok(()) => said_status(said.is_refusal),
        Err(_) => tell_device(rt),
    }
}

/// How a run ends that said what it had to say.
fn said_status(is_refusal: bool) -> Status
    ensures { result ≡ said_status is_refusal }
{
    if is_refusal {
        Status::Refused
    } else {
        Status::Done
    }
}

/// Says that standard output can't be written, and how the run ends.
fn tell_device<R: Eprint>(rt: &R) -> Status
    ensures { result ≡ Status.DeviceFault }
{
    let _ = eprintln!(rt; "error: standard output can't be written");
    Status::DeviceFault
}

/// Names a fault on standard error, and says how the run ends.
fn tell_person<R: Eprint>(rt: &R, fault: PersonFault<'_>) -> Status
    ensures { result ≡ person_status fault.entry }
{
    let _ = eprintln!(rt; "error: {fault}");
    fault.status()
}
