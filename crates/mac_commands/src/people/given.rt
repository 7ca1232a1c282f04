//! What the words of a person name.
ghost use Rattle.std.specs.Prelude.{◌≡◌, ◌≢◌, [], ◌∷◌, ℕ, List, option_map, string_bytes};
ghost use Rattle.std.specs.Prelude.{IfOk, IfSome, MatchOption};
ghost use Rattle.mac_words.specs.TokenText.{bytes_told};
ghost use Rattle.mac_commands.specs.Doing.{IsDrawn, IsKeyTable, StandsFor};
ghost use Rattle.mac_commands.specs.Lines.{lines};
ghost use Rattle.mac_commands.specs.People.{GivesForm, GivesMoment};

use super::PersonFault;
use crate::fault::PipeFault;
use crate::input::read_input;
use crate::key_file::read_keys;
use crate::lines::next_line;
use mac_keys::KeyTable;
use mac_wire::{ReaderSource, TokenForm};
use mac_words::{form_named, moment, token_bytes};
use std::alloc::{Alloc, Global};
use std::fs::Files;
use std::random::RandomSource;
use std::time::{Clock, SystemTime, UNIX_EPOCH};

/// The keys of a file.
pub(super) fn load_keys<'a, R>(rt: &R, path: &'a str) -> Result<KeyTable, PersonFault<'a>>
where
    R: Files + Alloc<A = Global>,
    R::File: Send,
    ensures { IfOk result IsKeyTable }
{
    match read_keys(rt, path) {
        Ok(table) => Ok(table),
        Err(fault) => Err(PersonFault::of_key_file(rt, path, fault)),
    }
}

/// The bytes of a token: those of the word, or for a hyphen of the one line of standard input.
pub(super) fn read_token<'a, R>(rt: &R, word: &str) -> Result<Vec<u8>, PersonFault<'a>>
where
    R: Input + Alloc<A = Global>,
    R::Reader: Send,
    ensures { IfOk result (λ bytes. StandsFor word.now bytes.items) }
{
    match word {
        "-" => read_token_line(rt),
        _ => Ok(token_bytes(rt.alloc(), word.as_bytes())?),
    }
}

/// The bytes of the token that the one line of standard input tells.
fn read_token_line<'a, R>(rt: &R) -> Result<Vec<u8>, PersonFault<'a>>
where
    R: Input + Alloc<A = Global>,
    R::Reader: Send,
    ensures { IfOk result (λ bytes. (input : List ℕ) × (line : List ℕ)
        × (lines input ≡ line ∷ []) × (bytes_told line ≡ Ok bytes.items)) }
{
    let input = read_standard_input(rt)?;
    match only_line(input.as_slice()) {
        Some(line) => Ok(token_bytes(rt.alloc(), line)?),
        None => Err(PersonFault::Lines),
    }
}

/// All that standard input gives.
fn read_standard_input<'a, R>(rt: &R) -> Result<Vec<u8>, PersonFault<'a>>
where
    R: Input + Alloc<A = Global>,
    R::Reader: Send,
{
    match read_input(rt.alloc(), &mut ReaderSource::new(rt.reader())) {
        Ok(input) => Ok(input),
        Err(PipeFault::Memory) => Err(PersonFault::Memory),
        Err(_) => Err(PersonFault::Input),
    }
}

/// The one line of a text.
#[tactic(auto, using(crate::proofs::LineLemmas::no_line, crate::proofs::LineLemmas::two_lines))]
fn only_line(text: &[u8]) -> Option<&[u8]>
    ensures { MatchOption result ((line : List ℕ) → lines text.now ≢ line ∷ [])
        (λ line. lines text.now ≡ line.now ∷ []) }
{
    let (line, behind) = next_line(text)?;
    match next_line(behind) {
        Some(_) => None,
        None => Some(line),
    }
}

/// The form that a word names, if there is a word.
pub(super) fn read_form<'a>(word: &Option<String>) -> Result<Option<TokenForm>, PersonFault<'a>>
    ensures { GivesForm (option_map string_bytes word.now) result }
{
    let Some(word) = word else {
        return Ok(None);
    };
    match form_named(word.as_str()) {
        Some(form) => Ok(Some(form)),
        None => Err(PersonFault::Form),
    }
}

/// The moment that a word names; without a word the present.
pub(super) fn read_moment<'a, R>(rt: &R, word: &Option<String>) -> Result<u64, PersonFault<'a>>
where
    R: Alloc<A = Global> + Clock,
    ensures { IfSome word.now (λ word. GivesMoment (string_bytes word) result) }
{
    match word {
        Some(word) => parse_moment(rt.alloc(), word.as_str()),
        None => read_clock(rt),
    }
}

/// The moment that a word names.
fn parse_moment<'a>(alloc: Global, word: &str) -> Result<u64, PersonFault<'a>>
    ensures { GivesMoment word.now result }
{
    match moment(alloc, word)? {
        Some(second) => Ok(second),
        None => Err(PersonFault::Moment),
    }
}

/// The second of the system's clock.
fn read_clock<'a, R: Clock>(rt: &R) -> Result<u64, PersonFault<'a>> {
    let Ok(now) = SystemTime::now(rt) else {
        return Err(PersonFault::Clock);
    };
    match now.duration_since(UNIX_EPOCH) {
        Ok(since) => Ok(since.as_secs()),
        Err(_) => Err(PersonFault::Clock),
    }
}

/// 32 random bytes of the system.
pub(super) fn draw_secret<'a, R: RandomSource>(rt: &R) -> Result<[u8; 32], PersonFault<'a>> {
    let mut secret = [0u8; 32];
    match rt.fill_bytes(&mut secret) {
        Ok(()) => Ok(secret),
        Err(_) => Err(PersonFault::Random),
    }
}

/// 32 hexadecimal digits of random bytes of the system, for the identifier of a token.
pub(super) fn draw_identifier<'a, R>(rt: &R) -> Result<String, PersonFault<'a>>
where
    R: Alloc<A = Global> + RandomSource,
    ensures { IfOk result (λ digits. IsDrawn (string_bytes digits)) }
{
    let mut drawn = [0u8; 16];
    match rt.fill_bytes(&mut drawn) {
        Ok(()) => Ok(hex::encode(rt.alloc(), &drawn)?),
        Err(_) => Err(PersonFault::Random),
    }
}
