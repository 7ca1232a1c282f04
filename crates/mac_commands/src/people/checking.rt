//! What is told of a key file, and of a list of tokens that were taken back.
ghost use Rattle.std.specs.Prelude.{List, ℕ, IfOk, Ok, Some};
ghost use Rattle.mac_commands.specs.Doing.{ChecksText, DoesCheck, TellsLines, TellsNames};

use super::PersonFault;
use super::asking::CheckWords;
use super::key_files::read_text;
use super::lists::{read_list, read_text_of_list};
use super::readers::{warn_of_no_keys, warn_of_readers, warn_of_weak};
use mac_board::ListRefusal;
use mac_keys::{KeyFault, KeyTable, find_weak, wipe};
use mac_words::{Said, list_names, told_lines};
use std::alloc::{Alloc, Global};
use std::fs::{File, Files};

/// What is said of the files that the words name, first of the key file.
pub(super) fn do_check<'a, R>(rt: &R, words: &'a CheckWords) -> Result<Said, PersonFault<'a>>
where
    R: Alloc<A = Global> + Eprint + Files<File = File>,
    ensures { IfOk result (DoesCheck words.now) }
{
    if words.keys.is_none() && words.revoked.is_none() {
        return Err(PersonFault::WhichFile);
    }
    let mut text = tell_names(rt, &words.keys)?;
    let lines = tell_lines(rt, &words.revoked)?;
    text.extend_from_slice(lines.as_slice())?;
    Ok(Said {
        text,
        is_refusal: false,
    })
}

/// What is told of a key file, if one is named.
fn tell_names<'a, R>(rt: &R, keys: &'a Option<String>) -> Result<Vec<u8>, PersonFault<'a>>
where
    R: Alloc<A = Global> + Eprint + Files<File = File>,
    ensures { IfOk result (λ told. TellsNames keys.now told.items) }
{
    match keys {
        Some(path) => {
            let said = check_keys(rt, path.as_str())?;
            Ok(said.text)
        }
        None => Ok(Vec::new(rt.alloc())),
    }
}

/// What is said of a key file.
fn check_keys<'a, R>(rt: &R, path: &'a str) -> Result<Said, PersonFault<'a>>
where
    R: Alloc<A = Global> + Eprint + Files<File = File>,
    ensures { IfOk result (λ said. (text : List ℕ) × ChecksText text (Ok said)) }
{
    let mut text = read_text(rt, path)?;
    let said = say_names(rt.alloc(), path, text.as_slice());
    if let Ok(said) = &said {
        warn_of_readers(rt, path);
        warn_of_weak(rt, path, find_weak(text.as_slice()));
        warn_of_no_keys(rt, path, said.text.len());
    }
    wipe(text.as_mut_slice());
    said
}

/// The names of a key file, or its first fault.
fn say_names<'a>(alloc: Global, path: &'a str, text: &[u8]) -> Result<Said, PersonFault<'a>>
    ensures { ChecksText text.now result }
{
    match KeyTable::read(alloc, text) {
        Ok(table) => Ok(Said {
            text: list_names(alloc, &table)?,
            is_refusal: false,
        }),
        Err(KeyFault::Line { line, kind }) => Err(PersonFault::Checked { path, line, kind }),
        Err(KeyFault::Memory) => Err(PersonFault::Memory),
    }
}

/// What is told of a list, if one is named.
fn tell_lines<'a, R>(rt: &R, revoked: &'a Option<String>) -> Result<Vec<u8>, PersonFault<'a>>
where
    R: Alloc<A = Global> + Eprint + Files<File = File>,
    ensures { IfOk result (λ told. TellsLines revoked.now told.items) }
{
    match revoked {
        Some(path) => check_list(rt, path.as_str()),
        None => Ok(Vec::new(rt.alloc())),
    }
}

/// How many lines of a list take tokens back, or its first fault.
fn check_list<'a, R>(rt: &R, path: &'a str) -> Result<Vec<u8>, PersonFault<'a>>
where
    R: Alloc<A = Global> + Eprint + Files<File = File>,
    ensures { IfOk result (λ told. TellsLines (Some path.now) told.items) }
{
    let text = read_text_of_list(rt, path)?;
    let bytes = text.as_slice();
    match read_list(rt.alloc(), path, bytes) {
        Ok(_list) => {
            warn_of_readers(rt, path);
            let told = told_lines(rt.alloc(), bytes)?;
            Ok(told)
        }
        Err(
            PersonFault::List {
                path,
                why: ListRefusal::Faulty { line, kind },
            },
        ) => Err(PersonFault::CheckedList { path, line, kind }),
        Err(other) => Err(other),
    }
}
