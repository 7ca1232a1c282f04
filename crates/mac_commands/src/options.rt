//! What the options of a subcommand say.
ghost use Rattle.std.specs.Prelude.{◌≡◌, ◌⊎◌, codes, false, IfOk, None};
ghost use Rattle.clap.specs.Words.{first_of, found_of, rows_of};
ghost use Rattle.mac_commands.specs.CommandLine.{IsText, mode_given};
ghost use Rattle.mac_commands.specs.Options.{Chooses, HasListenOptions, HasNumber, HasOptions};
ghost use Rattle.mac_commands.specs.Options.{ChoosesHttp, HasHttpOptions, HasServeOptions};
ghost use Rattle.mac_commands.specs.Options.{IsGiven, MayRead, Reads};
ghost use Rattle.mac_commands.specs.declared.options.OptionFault.TheVariants.{NoMemory};

use crate::choices::{
    Choice, HttpOptions, ListenOptions, Mode, PageOptions, PipeOptions, ServeOptions,
};
use crate::people::{read_flag, read_optional_text};
use clap::ArgMatches;
use std::alloc::{AllocError, Global};

/// Why options that `clap` takes give no choice.
#[derive(Clone, Copy)]
pub enum OptionFault {
    /// `--mode`, `--verify-mode`, `--http-mode` or `--http-calls-mode` has digits that name no
    /// mode.
    UnknownMode,
    /// Memory ran out.
    NoMemory,
}

impl From<AllocError> for OptionFault {
    ghost from_gives = { λ _ fault. fault ≡ NoMemory };

    fn from(_refused: AllocError) -> OptionFault {
        OptionFault::NoMemory
    }
}

/// The choice that a subcommand with these options stands for.
pub fn read_choice(
    alloc: Global,
    name: &str,
    options: &ArgMatches<'_>,
) -> Result<Choice, OptionFault>
    requires { HasOptions name.now (rows_of (found_of options.now)) }
    ensures { Chooses name.now (rows_of (found_of options.now)) result }
{
    match name {
        "pipe" => read_pipe(alloc, options),
        "serve" => read_serve(alloc, options),
        "listen" => read_listen(alloc, options),
        "page" => read_page(alloc, options),
        _ => unreachable!("the subcommand is one of those above"),
    }
}

/// The choice of the options of `pipe`.
fn read_pipe(alloc: Global, options: &ArgMatches<'_>) -> Result<Choice, OptionFault>
    ensures { Chooses (codes "pipe") (rows_of (found_of options.now)) result }
{
    Ok(Choice::Pipe(PipeOptions {
        revoked: read_optional_text(alloc, options, "revoked")?,
    }))
}

/// The choice of the options of `serve`.
fn read_serve(alloc: Global, options: &ArgMatches<'_>) -> Result<Choice, OptionFault>
    requires { HasServeOptions (rows_of (found_of options.now)) }
    ensures { Chooses (codes "serve") (rows_of (found_of options.now)) result }
{
    Ok(Choice::Serve(ServeOptions {
        socket: read_text(alloc, options, "socket")?,
        keys: read_text(alloc, options, "keys")?,
        workers: read_number(options, "workers"),
        accept: read_number(options, "accept"),
        keys_of_others: read_flag(options, "keys-of-others"),
        revoked: read_optional_text(alloc, options, "revoked")?,
    }))
}

/// The choice of the options of `listen`; the modes are looked at first.
fn read_listen(alloc: Global, options: &ArgMatches<'_>) -> Result<Choice, OptionFault>
    requires { HasListenOptions (rows_of (found_of options.now)) }
    ensures { Chooses (codes "listen") (rows_of (found_of options.now)) result }
{
    let (Some(mode), Some(verify_mode)) = (
        read_mode(options, "mode"),
        read_mode(options, "verify-mode"),
    ) else {
        return Err(OptionFault::UnknownMode);
    };
    if !has_http_modes(options) {
        return Err(OptionFault::UnknownMode);
    }
    Ok(Choice::Listen(ListenOptions {
        socket: read_text(alloc, options, "socket")?,
        keys: read_text(alloc, options, "keys")?,
        workers: read_optional_number(options, "workers"),
        mode,
        idle: read_optional_number(options, "idle"),
        loops: read_optional_number(options, "loops"),
        connections: read_optional_number(options, "connections"),
        drain: read_optional_number(options, "drain"),
        remember: read_optional_number(options, "remember"),
        memory: read_optional_number(options, "memory"),
        names: read_optional_text(alloc, options, "names")?,
        verify_socket: read_optional_text(alloc, options, "verify-socket")?,
        verify_mode,
        verify_names: read_optional_text(alloc, options, "verify-names")?,
        verify_connections: read_optional_number(options, "verify-connections"),
        replace: read_flag(options, "replace"),
        log: read_optional_text(alloc, options, "log")?,
        keys_of_others: read_flag(options, "keys-of-others"),
        revoked: read_optional_text(alloc, options, "revoked")?,
        allow_empty_revoked: read_flag(options, "allow-empty-revoked"),
        http: read_http(alloc, options)?,
    }))
}

/// Whether each mode of a socket over HTTP is one.
fn has_http_modes(options: &ArgMatches<'_>) -> bool
    ensures { result ≡ false →
        (mode_given (first_of (codes "http-mode") (rows_of (found_of options.now))) ≡ None)
        ⊎ (mode_given (first_of (codes "http-calls-mode")
        (rows_of (found_of options.now))) ≡ None) }
{
    read_mode(options, "http-mode").is_some() && read_mode(options, "http-calls-mode").is_some()
}

/// The choice of the options of `page`.
fn read_page(alloc: Global, options: &ArgMatches<'_>) -> Result<Choice, OptionFault>
    ensures { Chooses (codes "page") (rows_of (found_of options.now)) result }
{
    Ok(Choice::Page(PageOptions {
        address: read_optional_text(alloc, options, "address")?,
        keys: read_optional_text(alloc, options, "keys")?,
        revoked: read_optional_text(alloc, options, "revoked")?,
    }))
}

/// What the options of `listen` say of sockets over HTTP; the modes are looked at first.
fn read_http(alloc: Global, options: &ArgMatches<'_>) -> Result<HttpOptions, OptionFault>
    requires { HasHttpOptions (rows_of (found_of options.now)) }
    ensures { ChoosesHttp (rows_of (found_of options.now)) result }
{
    let (Some(mode), Some(calls_mode)) = (
        read_mode(options, "http-mode"),
        read_mode(options, "http-calls-mode"),
    ) else {
        return Err(OptionFault::UnknownMode);
    };
    Ok(HttpOptions {
        here: read_optional_text(alloc, options, "http")?,
        anywhere: read_optional_text(alloc, options, "http-anywhere")?,
        mode,
        connections: read_optional_number(options, "http-connections"),
        patience: read_optional_number(options, "http-patience"),
        granted: read_optional_text(alloc, options, "http-granted")?,
        facts: read_optional_text(alloc, options, "http-facts")?,
        strict_paths: read_flag(options, "http-strict-paths"),
        names: read_optional_text(alloc, options, "http-names")?,
        calls: read_optional_text(alloc, options, "http-calls")?,
        calls_mode,
        calls_allow: read_optional_text(alloc, options, "http-calls-allow")?,
        calls_names: read_optional_text(alloc, options, "http-calls-names")?,
        allow: read_optional_text(alloc, options, "http-allow")?,
        admin: read_optional_text(alloc, options, "http-admin")?,
    })
}

/// The value of an option that has to be given.
fn read_text(alloc: Global, options: &ArgMatches<'_>, name: &str) -> Result<String, AllocError>
    requires { IsGiven name.now (rows_of (found_of options.now)) }
    ensures { IfOk result (λ text.
        IsText text (first_of name.now (rows_of (found_of options.now)))) }
{
    match options.get_str(name) {
        Some(text) => String::from_str(alloc, text),
        None => unreachable!("`clap` asks for the option"),
    }
}

/// The number of an option that has to be given.
fn read_number(options: &ArgMatches<'_>, name: &str) -> u64
    requires { HasNumber name.now (rows_of (found_of options.now)) }
    ensures { Reads name.now (rows_of (found_of options.now)) result }
{
    match options.get_one::<u64>(name) {
        Some(number) => number,
        None => unreachable!("`clap` asks for a number"),
    }
}

/// The number of an option that may be left out.
fn read_optional_number(options: &ArgMatches<'_>, name: &str) -> Option<u64>
    ensures { MayRead name.now (rows_of (found_of options.now)) result }
{
    options.get_one::<u64>(name)
}

/// Who may connect to the socket whose mode this option tells.
fn read_mode(options: &ArgMatches<'_>, name: &str) -> Option<Mode>
    ensures { result ≡ mode_given (first_of name.now (rows_of (found_of options.now))) }
{
    match options.get_str(name) {
        Some(digits) => Mode::of(digits),
        None => Some(Mode::Owner),
    }
}
