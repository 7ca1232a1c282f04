//! New keys, and changes of keys.
ghost use Rattle.std.specs.Prelude.{◌≡◌, ◌++◌, [], false, IfOk};
ghost use Rattle.mac_commands.specs.Doing.{DoesKeygen, GivesDeed, GivesPart};
ghost use Rattle.mac_commands.specs.Doing.{IsChanged, IsNewLine, PrintsLine, SaysChange, SaysNothing};
ghost use Rattle.mac_commands.specs.Doing.{SaysOf, change_status, putting, taking};
ghost use Rattle.mac_commands.specs.People.{person_status};
ghost use Rattle.mac_commands.specs.declared.people.keygen.Change.TheVariants.{Above, Below};

use super::PersonFault;
use super::asking::KeygenWords;
use super::given::draw_secret;
use super::key_files::{create_file, read_kept, replace_file};
use crate::observed_file::Held;
use mac_keys::{
    ChangeFault, KeyFault, add_above, add_below, drop_lower, drop_upper, raise_lower, wipe,
};
use mac_words::{Said, key_line};
use std::alloc::{Alloc, AllocError, Global};
use std::fs::{File, Files};
use std::random::RandomSource;

/// What a keygen is to do, with the path of the file.
#[derive(Clone, Copy)]
enum Deed<'a> {
    Print,
    Into(&'a str),
    Change(Change, &'a str),
}

/// What becomes of the lines of a name.
#[derive(Clone, Copy)]
pub(super) enum Change {
    /// A new line stands above its only one.
    Above,
    /// A new line stands below its only one.
    Below,
    /// The second of its two lines stands above the first.
    Raise,
    /// The second of its two lines is gone.
    Drop,
    /// The first of its two lines is gone.
    DropFirst,
}

/// A line of a key file with a new secret, printed or put into a file; or a change of the lines
/// that a file has.
pub(super) fn do_keygen<'a, R>(rt: &R, words: &'a KeygenWords) -> Result<Said, PersonFault<'a>>
where
    R: Alloc<A = Global> + Files<File = File> + RandomSource,
    ensures { IfOk result (DoesKeygen words.now) }
{
    let name = words.name.as_str();
    match deed_of(words)? {
        Deed::Print => print_line(rt, name),
        Deed::Into(path) => put_into(rt, name, path),
        Deed::Change(change, path) => change_file(rt, change, name, path),
    }
}

/// What the words ask for, of which one option at most names a file.
fn deed_of<'a>(words: &'a KeygenWords) -> Result<Deed<'a>, PersonFault<'a>>
    ensures { GivesDeed words.now result }
{
    match (putting_deed(words)?, taking_deed(words)?) {
        (Deed::Print, deed) | (deed, Deed::Print) => Ok(deed),
        _ => Err(PersonFault::Options),
    }
}

/// What the options ask for that put a new line into a file.
fn putting_deed<'a>(words: &'a KeygenWords) -> Result<Deed<'a>, PersonFault<'a>>
    ensures { GivesPart (putting words.now) words.now result }
{
    match (&words.into, &words.above, &words.below) {
        (None, None, None) => Ok(Deed::Print),
        (Some(path), None, None) => Ok(Deed::Into(path.as_str())),
        (None, Some(path), None) => Ok(Deed::Change(Change::Above, path.as_str())),
        (None, None, Some(path)) => Ok(Deed::Change(Change::Below, path.as_str())),
        _ => Err(PersonFault::Options),
    }
}

/// What the options ask for that make no key.
fn taking_deed<'a>(words: &'a KeygenWords) -> Result<Deed<'a>, PersonFault<'a>>
    ensures { GivesPart (taking words.now) words.now result }
{
    match (&words.raise, &words.drop, &words.drop_first) {
        (None, None, None) => Ok(Deed::Print),
        (Some(path), None, None) => Ok(Deed::Change(Change::Raise, path.as_str())),
        (None, Some(path), None) => Ok(Deed::Change(Change::Drop, path.as_str())),
        (None, None, Some(path)) => Ok(Deed::Change(Change::DropFirst, path.as_str())),
        _ => Err(PersonFault::Options),
    }
}

/// The line, to be printed.
fn print_line<'a, R>(rt: &R, name: &str) -> Result<Said, PersonFault<'a>>
where
    R: Alloc<A = Global> + RandomSource,
    ensures { IfOk result (PrintsLine name.now) }
{
    let text = new_line(rt, name)?;
    Ok(Said {
        text,
        is_refusal: false,
    })
}

/// Puts the line into a file that isn't there yet.
fn put_into<'a, R>(rt: &R, name: &str, path: &'a str) -> Result<Said, PersonFault<'a>>
where
    R: Alloc<A = Global> + Files<File = File> + RandomSource,
    ensures { IfOk result SaysNothing }
{
    let mut line = new_line(rt, name)?;
    create_file(rt, path, line.as_slice())?;
    wipe(line.as_mut_slice());
    Ok(say_nothing(rt.alloc()))
}

/// Changes the lines of a name in the key file of the path, and says which one is dropped.
fn change_file<'a, R>(
    rt: &R,
    change: Change,
    name: &str,
    path: &'a str,
) -> Result<Said, PersonFault<'a>>
where
    R: Alloc<A = Global> + Files<File = File> + RandomSource,
    ensures { IfOk result (SaysChange change name.now) }
{
    let mut kept = read_kept(rt, path, Held::Keys)?;
    let mut changed = change_text(rt, change, path, kept.text.as_slice(), name)?;
    replace_file(rt, change, name, path, &kept, changed.as_slice())?;
    wipe(changed.as_mut_slice());
    wipe(kept.text.as_mut_slice());
    say_change(rt.alloc(), change, name)
}

/// The text of a key file with a change of the lines of a name.
fn change_text<'a, R>(
    rt: &R,
    change: Change,
    path: &'a str,
    text: &[u8],
    name: &str,
) -> Result<Vec<u8>, PersonFault<'a>>
where
    R: Alloc<A = Global> + RandomSource,
    ensures { IfOk result (λ changed. IsChanged change name.now text.now changed.items) }
{
    let changed = match change {
        Change::Above => put_above(rt, text, name)?,
        Change::Below => put_below(rt, text, name)?,
        Change::Raise => raise_lower(rt.alloc(), text, name.as_bytes()),
        Change::Drop => drop_lower(rt.alloc(), text, name.as_bytes()),
        Change::DropFirst => drop_upper(rt.alloc(), text, name.as_bytes()),
    };
    match changed {
        Ok(changed) => Ok(changed),
        Err(why) => Err(fault_of_change(path, why)),
    }
}

/// The text with a new line above the name's only one.
fn put_above<'a, R>(
    rt: &R,
    text: &[u8],
    name: &str,
) -> Result<Result<Vec<u8>, ChangeFault>, PersonFault<'a>>
where
    R: Alloc<A = Global> + RandomSource,
    ensures { IfOk result (λ put. IfOk put (λ changed.
        IsChanged Above name.now text.now changed.items)) }
{
    let mut line = new_line(rt, name)?;
    let changed = add_above(rt.alloc(), text, name.as_bytes(), line.as_slice());
    wipe(line.as_mut_slice());
    Ok(changed)
}

/// The text with a new line below the name's only one.
fn put_below<'a, R>(
    rt: &R,
    text: &[u8],
    name: &str,
) -> Result<Result<Vec<u8>, ChangeFault>, PersonFault<'a>>
where
    R: Alloc<A = Global> + RandomSource,
    ensures { IfOk result (λ put. IfOk put (λ changed.
        IsChanged Below name.now text.now changed.items)) }
{
    let mut line = new_line(rt, name)?;
    let changed = add_below(rt.alloc(), text, name.as_bytes(), line.as_slice());
    wipe(line.as_mut_slice());
    Ok(changed)
}

/// What is said of a change: which line was dropped, if one was.
fn say_change<'a>(alloc: Global, change: Change, name: &str) -> Result<Said, PersonFault<'a>>
    ensures { IfOk result (SaysChange change name.now) }
{
    match change {
        Change::Drop => Ok(say_dropped(alloc, name, b": the second line is dropped\n")?),
        Change::DropFirst => Ok(say_dropped(alloc, name, b": the first line is dropped\n")?),
        Change::Above | Change::Below | Change::Raise => Ok(say_nothing(alloc)),
    }
}

/// What is said where a line of a name was dropped.
fn say_dropped(alloc: Global, name: &str, dropped: &[u8]) -> Result<Said, AllocError>
    ensures { IfOk result (SaysOf (name.now ++ dropped.now)) }
{
    let mut text = Vec::from_slice(alloc, name.as_bytes())?;
    text.extend_from_slice(dropped)?;
    Ok(Said {
        text,
        is_refusal: false,
    })
}

/// A line of a key file that gives the name a new secret.
fn new_line<'a, R>(rt: &R, name: &str) -> Result<Vec<u8>, PersonFault<'a>>
where
    R: Alloc<A = Global> + RandomSource,
    ensures { IfOk result (IsNewLine name.now) }
{
    let mut secret = draw_secret(rt)?;
    let line = key_line(rt.alloc(), name, &secret);
    wipe(&mut secret);
    Ok(line?)
}

/// Why a key file doesn't change, as a person is told it.
fn fault_of_change<'a>(path: &'a str, why: ChangeFault) -> PersonFault<'a>
    ensures { person_status result ≡ change_status why }
{
    match why {
        ChangeFault::File(KeyFault::Line { line, kind }) => {
            PersonFault::KeyLine { path, line, kind }
        },
        ChangeFault::File(KeyFault::Memory) => PersonFault::Memory,
        _ => PersonFault::Change { path, why },
    }
}

/// What is said where a file was written: nothing.
fn say_nothing(alloc: Global) -> Said
    ensures { SaysNothing result }
{
    Said {
        text: Vec::new(alloc),
        is_refusal: false,
    }
}
