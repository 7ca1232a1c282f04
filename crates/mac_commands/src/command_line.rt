//! The command line: what its words ask the program to do.
//!
//! `clap` says what a line means. It names one of the subcommands, `pipe`, `serve`, `listen` and
//! `page` for programs, `keygen`, `check`, `mint`, `attenuate`, `verify`, `inspect`, `status` and
//! `revoke` for people. `--help` or `-h`, before the subcommand or after it, asks for help, and
//! `--version` or `-V` before it for the version.

ghost use Rattle.std.specs.Prelude.{◌≡◌, ◌⊎◌, [], map, IfOk, IfErr, OnOk, Some};
ghost use Rattle.std.specs.Prelude.{string_bytes, take};
ghost use Rattle.std.specs.Vec.Iter.{into_iter_items, into_iter_len};
ghost use Rattle.clap.specs.Words.{FailsBy, fault_of, found_of, kind_of, rows_of, subcommand_of};
ghost use Rattle.clap.specs.Words.{subcommand_rows_of};
ghost use Rattle.mac_commands.specs.CommandLine.{AsksUnknownMode, HasUnknownMode, IsChosen, MayEnd};
ghost use Rattle.mac_commands.specs.CommandLine.{command_line, exit_status};
ghost use Rattle.mac_commands.specs.Options.{HasCommand, HasOptions};
ghost use Rattle.mac_commands.specs.People.{IsTaskName};

use crate::choices::Chosen;
use crate::commands::build_command;
use crate::options::{OptionFault, read_choice};
use crate::people::read_task;
use crate::status::Status;
use clap::error::ErrorKind;
use clap::{ArgMatches, Error};
use std::alloc::{Alloc, Global};
use std::env::{self, Args, Env};
use std::io;

/// What is told where a word is not UTF-8.
const NOT_TEXT: &str = "error: a word of the command line is not UTF-8\n";

/// What is told where an option for a mode names none.
const UNKNOWN_MODE: &str = "error: the mode of a socket is 600, 660 or 666\n";

/// The words of the process, the first being the program's name.
///
/// An error holds how the run ends and the text to show, as that of `choose`: a word that is not
/// UTF-8 makes a bad line.
pub fn read_words<R: Env + Alloc<A = Global>>(rt: &R) -> Result<Vec<String>, (Status, String)>
    ensures refused { IfErr result (λ fault.
        (fault.0 ≡ Status.BadLine) ⊎ (fault.0 ≡ Status.NoMemory)) }
    ensures memory { IfErr result (λ fault. fault.0 ≡ Status.NoMemory → string_bytes fault.1 ≡ []) }
{
    match env::args(rt) {
        Ok(given) => gather_words(rt.alloc(), given),
        Err(error) if error.kind() == io::ErrorKind::InvalidData => {
            Err(refuse_line(rt.alloc(), NOT_TEXT))
        },
        Err(_) => Err(refuse_for_memory(rt.alloc())),
    }
}

/// The words that are given, each of them and in their order.
fn gather_words(alloc: Global, given: Args) -> Result<Vec<String>, (Status, String)>
    ensures words { IfOk result (λ words.
        words.items ≡ take (into_iter_len given) (into_iter_items given)) }
    ensures memory { IfErr result (λ fault.
        (fault.0 ≡ Status.NoMemory) × (string_bytes fault.1 ≡ [])) }
{
    let mut words = Vec::new(alloc);
    for word in given {
        if words.push(word).is_err() {
            return Err(refuse_for_memory(alloc));
        }
    }
    Ok(words)
}

/// What the words of a command line ask for, the first being the program's name.
///
/// An error holds how the run ends and the text to show: well with the help or the version that was
/// asked for, badly with what is wrong with the line, and with no text where memory ran out.
#[tactic(auto, using(crate::proofs::CommandLineLemmas::status_of_error))]
pub fn choose(alloc: Global, words: &[String]) -> Result<Chosen, (Status, String)>
    ensures accepted { OnOk result (fault_of command_line (map string_bytes words.now) ≡ []) }
    ensures choice { IfOk result (λ chosen.
        IsChosen chosen (subcommand_of command_line (map string_bytes words.now))) }
    ensures refused { IfErr result (λ fault. (MayEnd (map string_bytes words.now) fault.0)
        ⊎ (((fault.0 ≡ Status.BadLine) × AsksUnknownMode (map string_bytes words.now))
        ⊎ (fault.0 ≡ Status.NoMemory))) }
    ensures memory { IfErr result (λ fault. fault.0 ≡ Status.NoMemory → string_bytes fault.1 ≡ []) }
{
    match match_words(alloc, words) {
        Ok(matches) => choose_matched(alloc, &matches),
        Err(error) => Err(refuse(alloc, &error)),
    }
}

/// What `clap` finds in the words.
fn match_words<'a>(alloc: Global, words: &'a [String]) -> Result<ArgMatches<'a>, Error>
    ensures faults { FailsBy (fault_of command_line (map string_bytes words.now)) result }
    ensures rows { IfOk result (λ matches. subcommand_rows_of matches
        ≡ subcommand_of command_line (map string_bytes words.now)) }
    ensures options { IfOk result (λ matches. HasCommand (subcommand_rows_of matches)) }
{
    build_command(alloc)?.try_get_matches_from(words)
}

/// What the subcommand of a line that `clap` takes stands for.
fn choose_matched(alloc: Global, matches: &ArgMatches<'_>) -> Result<Chosen, (Status, String)>
    requires { HasCommand (subcommand_rows_of matches.now) }
    ensures choice { IfOk result (λ chosen. IsChosen chosen (subcommand_rows_of matches.now)) }
    ensures refused { IfErr result (λ fault.
        ((fault.0 ≡ Status.BadLine) × HasUnknownMode (subcommand_rows_of matches.now))
        ⊎ (fault.0 ≡ Status.NoMemory)) }
    ensures memory { IfErr result (λ fault. fault.0 ≡ Status.NoMemory → string_bytes fault.1 ≡ []) }
{
    let Some((name, options)) = matches.subcommand() else {
        unreachable!("`clap` asks for a subcommand")
    };
    choose_subcommand(alloc, name, options)
}

/// What a subcommand with these options stands for.
#[tactic(auto, using(crate::proofs::SubcommandLemmas::machine_options))]
fn choose_subcommand(
    alloc: Global,
    name: &str,
    options: &ArgMatches<'_>,
) -> Result<Chosen, (Status, String)>
    requires { HasOptions name.now (rows_of (found_of options.now)) ⊎ IsTaskName name.now }
    ensures choice { IfOk result (λ chosen.
        IsChosen chosen (Some (name.now, rows_of (found_of options.now)))) }
    ensures refused { IfErr result (λ fault. ((fault.0 ≡ Status.BadLine)
        × HasUnknownMode (Some (name.now, rows_of (found_of options.now))))
        ⊎ (fault.0 ≡ Status.NoMemory)) }
    ensures memory { IfErr result (λ fault. fault.0 ≡ Status.NoMemory → string_bytes fault.1 ≡ []) }
{
    match name {
        "pipe" | "serve" | "listen" | "page" => choose_machine(alloc, name, options),
        _ => choose_person(alloc, name, options),
    }
}

/// The choice that a subcommand for programs stands for.
fn choose_machine(
    alloc: Global,
    name: &str,
    options: &ArgMatches<'_>,
) -> Result<Chosen, (Status, String)>
    requires { HasOptions name.now (rows_of (found_of options.now)) }
    ensures choice { IfOk result (λ chosen.
        IsChosen chosen (Some (name.now, rows_of (found_of options.now)))) }
    ensures refused { IfErr result (λ fault. ((fault.0 ≡ Status.BadLine)
        × HasUnknownMode (Some (name.now, rows_of (found_of options.now))))
        ⊎ (fault.0 ≡ Status.NoMemory)) }
    ensures memory { IfErr result (λ fault. fault.0 ≡ Status.NoMemory → string_bytes fault.1 ≡ []) }
{
    match read_choice(alloc, name, options) {
        Ok(choice) => Ok(Chosen::Machine(choice)),
        Err(OptionFault::UnknownMode) => Err(refuse_line(alloc, UNKNOWN_MODE)),
        Err(OptionFault::NoMemory) => Err(refuse_for_memory(alloc)),
    }
}

/// The task that a subcommand for people stands for.
fn choose_person(
    alloc: Global,
    name: &str,
    options: &ArgMatches<'_>,
) -> Result<Chosen, (Status, String)>
    requires { IsTaskName name.now }
    ensures choice { IfOk result (λ chosen.
        IsChosen chosen (Some (name.now, rows_of (found_of options.now)))) }
    ensures memory { IfErr result (λ fault.
        (fault.0 ≡ Status.NoMemory) × (string_bytes fault.1 ≡ [])) }
{
    match read_task(alloc, name, options) {
        Ok(task) => Ok(Chosen::Person(task)),
        Err(_) => Err(refuse_for_memory(alloc)),
    }
}

/// How a run ends with an error of `clap`, and the text of that.
fn refuse(alloc: Global, error: &Error) -> (Status, String)
    ensures status { (result.0 ≡ exit_status (kind_of error.now)) ⊎ (result.0 ≡ Status.NoMemory) }
    ensures memory { result.0 ≡ Status.NoMemory → string_bytes result.1 ≡ [] }
{
    match (status_of_kind(error.kind()), error.to_string(alloc)) {
        (Status::NoMemory, _) | (_, Err(_)) => refuse_for_memory(alloc),
        (status, Ok(text)) => (status, text),
    }
}

/// How a run ends with an error of this kind.
fn status_of_kind(kind: ErrorKind) -> Status
    ensures { result ≡ exit_status kind }
{
    match kind {
        ErrorKind::DisplayHelp | ErrorKind::DisplayVersion => Status::Done,
        ErrorKind::OutOfMemory => Status::NoMemory,
        _ => Status::BadLine,
    }
}

/// What is answered where memory ran out: no text.
fn refuse_for_memory(alloc: Global) -> (Status, String)
    ensures status { result.0 ≡ Status.NoMemory }
    ensures text { string_bytes result.1 ≡ [] }
{
    (Status::NoMemory, String::new(alloc))
}

/// A bad line, with what is wrong with it.
fn refuse_line(alloc: Global, text: &str) -> (Status, String)
    ensures status { (result.0 ≡ Status.BadLine) ⊎ (result.0 ≡ Status.NoMemory) }
    ensures memory { result.0 ≡ Status.NoMemory → string_bytes result.1 ≡ [] }
{
    match String::from_str(alloc, text) {
        Ok(text) => (Status::BadLine, text),
        Err(_) => refuse_for_memory(alloc),
    }
}
