//! What the command line is built of, as `clap` is told it.
ghost use Rattle.std.specs.Prelude.{◌≡◌, false, map, true, IfOk, IsOkAnd};
ghost use Rattle.clap.specs.Words.{app_of, new_app, rule_of, with_rule, with_subcommand};
ghost use Rattle.mac_commands.specs.Arguments.{flag, number, number_from, option, required};
ghost use Rattle.mac_commands.specs.Arguments.{with_rules};
ghost use Rattle.mac_commands.specs.People.{repeated, word};
ghost use Rattle.mac_commands.specs.Tables.{argument_rule};

use clap::builder::ValueParser;
use clap::{Arg, ArgAction, Command};
use std::alloc::{AllocError, Global};

/// What the help says of `--keys`.
pub(crate) const KEYS_HELP: &str = "The file of key lines";

/// An argument of a subcommand, as a table names it: its name first, and its help last.
#[derive(Clone, Copy)]
pub(crate) enum Argument {
    /// `--NAME`.
    Flag(&'static str, &'static str),
    /// `--NAME VALUE`.
    Text(&'static str, &'static str, &'static str),
    /// The same, which has to be given.
    Required(&'static str, &'static str, &'static str),
    /// `--NAME COUNT`, from 1 to this number.
    Count(&'static str, u64, &'static str),
    /// The same, which has to be given.
    RequiredCount(&'static str, u64, &'static str),
    /// `--NAME BYTES`, from one number to the other.
    Bytes(&'static str, u64, u64, &'static str),
    /// `--NAME TEXT`, which may be given often, and not as the empty text.
    Repeated(&'static str, &'static str),
    /// A word without a name, which has to be given.
    Word(&'static str, &'static str, &'static str),
    /// The same, which may be left out.
    OptionalWord(&'static str, &'static str, &'static str),
}

/// The program with one more subcommand, where that could be built.
pub(crate) fn add_subcommand<'a>(
    program: Command<'a>,
    built: Result<Command<'a>, AllocError>,
) -> Result<Command<'a>, AllocError>
    requires { IfOk built (λ command. (app_of command).top.is_plain ≡ true) }
    ensures { IfOk result (λ whole. IsOkAnd built.entry (λ command.
        app_of whole ≡ with_subcommand (app_of program.entry) (app_of command).top)) }
{
    let command = built?;
    program.subcommand(command)
}

/// A subcommand without its arguments.
pub(crate) fn build_subcommand<'a>(
    alloc: Global,
    name: &'a str,
    about: &'a str,
    help: &'a str,
) -> Command<'a>
    ensures { app_of result ≡ new_app name.entry.now }
{
    Command::new(alloc, name).about(about).after_help(help)
}

/// The subcommand with one more argument.
pub(crate) fn add_arg<'a>(command: Command<'a>, arg: Arg<'a>) -> Result<Command<'a>, AllocError>
    requires { arg.global ≡ false }
    ensures { IfOk result (λ whole.
        app_of whole ≡ with_rule (app_of command.entry) (rule_of arg.entry)) }
{
    command.arg(arg)
}

/// The subcommand with these arguments behind its own.
pub(crate) fn add_arguments<'a>(
    alloc: Global,
    command: Command<'a>,
    arguments: &[Argument],
) -> Result<Command<'a>, AllocError>
    ensures { IfOk result (λ whole.
        app_of whole ≡ with_rules (app_of command.entry) (map argument_rule arguments.now)) }
{
    let mut command = command;
    for argument in arguments {
        command = add_arg(command, build_argument(alloc, argument))?;
    }
    Ok(command)
}

/// The argument that a table names.
fn build_argument<'a>(alloc: Global, argument: &Argument) -> Arg<'a>
    ensures rule { rule_of result ≡ argument_rule argument.now }
    ensures local { result.global ≡ false }
{
    match *argument {
        Argument::Flag(name, help) => build_flag(alloc, name, help),
        Argument::Text(name, value, help) => build_option(alloc, name, value, help),
        Argument::Required(name, value, help) => build_required(alloc, name, value, help),
        Argument::Count(name, most, help) => build_count(alloc, name, most, help),
        Argument::RequiredCount(name, most, help) => build_required_count(alloc, name, most, help),
        Argument::Bytes(name, least, most, help) => build_bytes(alloc, name, least, most, help),
        Argument::Repeated(name, help) => build_repeated(alloc, name, help),
        Argument::Word(name, value, help) => build_word(alloc, name, value, help),
        Argument::OptionalWord(name, value, help) => build_optional_word(alloc, name, value, help),
    }
}

/// An option without a value.
fn build_flag<'a>(alloc: Global, name: &'a str, help: &'a str) -> Arg<'a>
    ensures rule { rule_of result ≡ flag name.entry.now }
    ensures local { result.global ≡ false }
{
    Arg::new(alloc, name)
        .long(name)
        .action(ArgAction::SetTrue)
        .help(help)
}

/// An option that takes a value.
fn build_option<'a>(alloc: Global, name: &'a str, value: &'a str, help: &'a str) -> Arg<'a>
    ensures rule { rule_of result ≡ option name.entry.now }
    ensures local { result.global ≡ false }
{
    Arg::new(alloc, name)
        .long(name)
        .value_name(value)
        .help(help)
}

/// An option that takes a number from 1 to `most`.
fn build_count<'a>(alloc: Global, name: &'a str, most: u64, help: &'a str) -> Arg<'a>
    ensures rule { rule_of result ≡ number most (option name.entry.now) }
    ensures local { result.global ≡ false }
{
    build_option(alloc, name, "COUNT", help).value_parser(ValueParser::unsigned(1, most))
}

/// The same, which has to be given.
fn build_required_count<'a>(alloc: Global, name: &'a str, most: u64, help: &'a str) -> Arg<'a>
    ensures rule { rule_of result ≡ required (number most (option name.entry.now)) }
    ensures local { result.global ≡ false }
{
    build_count(alloc, name, most, help).required(true)
}

/// An option that takes a number of bytes from `least` to `most`.
fn build_bytes<'a>(alloc: Global, name: &'a str, least: u64, most: u64, help: &'a str) -> Arg<'a>
    ensures rule { rule_of result ≡ number_from least most (option name.entry.now) }
    ensures local { result.global ≡ false }
{
    build_option(alloc, name, "BYTES", help).value_parser(ValueParser::unsigned(least, most))
}

/// An option that may be given often, and not as the empty text.
pub(crate) fn build_repeated<'a>(alloc: Global, name: &'a str, help: &'a str) -> Arg<'a>
    ensures rule { rule_of result ≡ repeated (option name.entry.now) }
    ensures local { result.global ≡ false }
{
    build_option(alloc, name, "TEXT", help)
        .action(ArgAction::Append)
        .value_parser(ValueParser::NonEmptyString)
}

/// An option that has to be given.
fn build_required<'a>(alloc: Global, name: &'a str, value: &'a str, help: &'a str) -> Arg<'a>
    ensures rule { rule_of result ≡ required (option name.entry.now) }
    ensures local { result.global ≡ false }
{
    build_option(alloc, name, value, help).required(true)
}

/// A word that has to be given, without a name.
fn build_word<'a>(alloc: Global, name: &'a str, value: &'a str, help: &'a str) -> Arg<'a>
    ensures rule { rule_of result ≡ required (word name.entry.now) }
    ensures local { result.global ≡ false }
{
    Arg::new(alloc, name)
        .value_name(value)
        .required(true)
        .help(help)
}

/// A word that may be given, without a name.
fn build_optional_word<'a>(alloc: Global, name: &'a str, value: &'a str, help: &'a str) -> Arg<'a>
    ensures rule { rule_of result ≡ word name.entry.now }
    ensures local { result.global ≡ false }
{
    Arg::new(alloc, name).value_name(value).help(help)
}
