//! The command line as `clap` is told it, and what its options say.
ghost use Rattle.std.specs.Prelude.{◌≡◌, IfOk};
ghost use Rattle.clap.specs.Words.{app_of};
ghost use Rattle.mac_commands.specs.Arguments.{with_rules};
ghost use Rattle.mac_commands.specs.CommandLine.{calls_rules, command_line, further_rules};
ghost use Rattle.mac_commands.specs.CommandLine.{gateway_rules, listen_command};
ghost use Rattle.mac_commands.specs.CommandLine.{page_command, pipe_command, serve_command, served_app};

use crate::help::{LISTEN_HELP, PAGE_HELP, PIPE_HELP, SERVE_HELP};
use crate::parts::{Argument, KEYS_HELP, add_arguments, add_subcommand, build_subcommand};
use crate::people::add_people;
use clap::Command;
use mac_pool::WORKERS_MAX;
use std::alloc::{AllocError, Global};

/// The most connections that one run of `serve` takes.
pub const ACCEPT_MAX: u64 = 1000;

/// The most seconds that `--idle` takes: a day.
pub const IDLE_MAX: u64 = 86400;

/// The most threads that `--loops` takes.
pub const LOOPS_MAX: u64 = 64;

/// The most connections that `--connections` and `--verify-connections` take.
pub const CONNECTIONS_MAX: u64 = 1_000_000;

/// The most seconds that `--drain` takes: an hour.
pub const DRAIN_MAX: u64 = 3600;

/// The most bytes that `--remember` takes: a gibibyte.
pub const REMEMBER_MAX: u64 = 1_073_741_824;

/// The fewest bytes that `--memory` takes: 64 MiB.
pub const MEMORY_MIN: u64 = 67_108_864;

/// The most bytes that it takes: a tebibyte.
pub const MEMORY_MAX: u64 = 1_099_511_627_776;

/// The most connections that `--http-connections` takes.
pub const HTTP_CONNECTIONS_MAX: u64 = 1024;

/// The most seconds that `--http-patience` takes: an hour.
pub const HTTP_PATIENCE_MAX: u64 = 3600;

/// The version, as `--version` and `listen` print it. A build of a commit writes its first digits
/// over the last word.
pub const VERSION: &str = "0.1.0 (uncommitted)";

/// What help says of the options that `serve` and `listen` share.
const SOCKET_HELP: &str = "Where the socket is made";

const SERVE_WORKERS_HELP: &str = "How many threads answer requests, from 1 to 16";

const ACCEPT_HELP: &str = "How many connections are served, from 1 to 1000";

const LISTEN_WORKERS_HELP: &str =
    "How many threads answer requests, from 1 to 16 [default: one a processor]";

const MODE_HELP: &str =
    "Who may connect: 600 the owner, 660 the group too, 666 everyone [default: 600]";

const IDLE_HELP: &str =
    "Ends a connection that makes no progress for so many seconds [default: see below]";

const LOOPS_HELP: &str =
    "How many threads wait for connections and answer them, 1 to 64 [default: one a processor]";

const CONNECTIONS_HELP: &str =
    "How many connections are live at a time, from 1 to 1000000 [default: 10000]";

const DRAIN_HELP: &str =
    "How many seconds connections get once the daemon is told to end, 1 to 3600 [default: 10]";

const REMEMBER_HELP: &str = "How many bytes tokens found good are remembered in, from 0 (none) \
    to 1073741824 [default: 16777216]";

const MEMORY_HELP: &str = "How many bytes connections have together with these tokens, \
    from 67108864 [default: half of all]";

const NAMES_HELP: &str =
    "The key names that may be used at the socket, with commas between them [default: all]";

const VERIFY_HELP: &str =
    "Where a second socket is made, at which tokens are verified and attenuated, but not minted";

const VERIFY_MODE_HELP: &str =
    "Who may connect to the second socket: 600, 660 or 666 [default: 600]";

const VERIFY_NAMES_HELP: &str =
    "The key names that may be used at the second socket [default: all]";

const VERIFY_CONNECTIONS_HELP: &str =
    "How many connections the second socket has at a time, from 1 to 1000000 [default: see below]";

const REPLACE_HELP: &str =
    "Takes the sockets over from a daemon that listens there; that one ends without loss";

const LOG_HELP: &str = "What is logged besides: requests, mints or identifiers, or several of \
    these with commas between, a line for each [default: nothing]";

const OTHERS_HELP: &str = "Takes files that others may use too, which are refused without this";

const HTTP_HELP: &str =
    "Where gateways ask over HTTP: unix:PATH, 127.0.0.1:PORT or [::1]:PORT, with commas between";

const HTTP_ANYWHERE_HELP: &str = "The same, at addresses that other machines may reach";

const HTTP_MODE_HELP: &str =
    "Who may connect to Unix sockets over HTTP: 600, 660 or 666 [default: 600]";

const HTTP_CONNECTIONS_HELP: &str =
    "How many connections over HTTP are live at a time, from 1 to 1024 [default: 256]";

const HTTP_PATIENCE_HELP: &str =
    "Closes a connection over HTTP that brings no whole request for so many seconds [default: 10]";

const HTTP_GRANTED_HELP: &str = "The status that grants: 200 or 204 [default: 200]";

const HTTP_FACTS_HELP: &str =
    "Where facts are taken from: header, query, forwarded, with commas between [default: none]";

const HTTP_STRICT_HELP: &str =
    "Refuses a path that holds ; or %00, %09, %u or bytes that are no shortest UTF-8";

const HTTP_NAMES_HELP: &str =
    "The names that may be verified over HTTP, with commas between [default: all]";

const HTTP_CALLS_HELP: &str =
    "Where programs of this machine call with JSON: unix:PATH or ports of loopback, with commas";

const HTTP_CALLS_MODE_HELP: &str =
    "Who may connect to Unix sockets of --http-calls: 600, 660 or 666 [default: 600]";

const HTTP_CALLS_ALLOW_HELP: &str = "Which calls are answered there: mint, attenuate, inspect, \
    check, with commas between [default: all but mint]";

const HTTP_CALLS_NAMES_HELP: &str =
    "The names that may be used there, with commas between [default: all]";

const HTTP_ALLOW_HELP: &str =
    "No longer taken: --http-calls and --http-calls-allow stand in its place";

const PAGE_ADDRESS_HELP: &str =
    "Where it is served: 127.0.0.1:PORT or [::1]:PORT [default: 127.0.0.1 at a free port]";

const PAGE_KEYS_HELP: &str = "A key file, under whose names the page mints and verifies";

const HTTP_ADMIN_HELP: &str =
    "Where operators ask over HTTP, at addresses of this machine; gateways get no page then";

const REVOKED_HELP: &str =
    "A list of tokens that were taken back, with lines `revoked NAME HEX`; it may change";

const ONCE_REVOKED_HELP: &str = "A list of tokens that were taken back, which is read once";

const EMPTY_REVOKED_HELP: &str = "Takes a list that has lost all its lines";

/// The whole command line.
pub fn build_command<'a>(alloc: Global) -> Result<Command<'a>, AllocError>
    ensures { IfOk result (λ command. app_of command ≡ command_line) }
{
    let program = Command::new(alloc, "macaroond")
        .about("Mints, narrows and verifies macaroons")
        .version(VERSION)
        .subcommand_required(true)
        .disable_help_subcommand(true);
    let program = add_subcommand(program, build_pipe(alloc))?;
    let program = add_subcommand(program, build_serve(alloc))?;
    let program = add_subcommand(program, build_listen(alloc))?;
    let program = add_subcommand(program, build_page(alloc))?;
    add_people(alloc, program)
}

/// The subcommand `pipe`, whose option may be left out.
fn build_pipe<'a>(alloc: Global) -> Result<Command<'a>, AllocError>
    ensures { IfOk result (λ pipe. app_of pipe ≡ pipe_command) }
{
    let about = "Answers the requests on standard input, one line each";
    let pipe = build_subcommand(alloc, "pipe", about, PIPE_HELP);
    let arguments = [Argument::Text("revoked", "FILE", ONCE_REVOKED_HELP)];
    add_arguments(alloc, pipe, &arguments)
}

/// The subcommand `serve`: four of its options have to be given.
fn build_serve<'a>(alloc: Global) -> Result<Command<'a>, AllocError>
    ensures { IfOk result (λ serve. app_of serve ≡ serve_command) }
{
    let served = build_served(alloc)?;
    let arguments = [
        Argument::Flag("keys-of-others", OTHERS_HELP),
        Argument::Text("revoked", "FILE", ONCE_REVOKED_HELP),
    ];
    add_arguments(alloc, served, &arguments)
}

/// The same with the options that have to be given.
fn build_served<'a>(alloc: Global) -> Result<Command<'a>, AllocError>
    ensures { IfOk result (λ serve. app_of serve ≡ served_app) }
{
    let about = "Answers the requests of so many connections over a Unix socket";
    let serve = build_subcommand(alloc, "serve", about, SERVE_HELP);
    let arguments = [
        Argument::Required("socket", "PATH", SOCKET_HELP),
        Argument::Required("keys", "PATH", KEYS_HELP),
        Argument::RequiredCount("workers", WORKERS_MAX as u64, SERVE_WORKERS_HELP),
        Argument::RequiredCount("accept", ACCEPT_MAX, ACCEPT_HELP),
    ];
    add_arguments(alloc, serve, &arguments)
}

/// The subcommand `listen`, whose socket and key file have to be given.
fn build_listen<'a>(alloc: Global) -> Result<Command<'a>, AllocError>
    ensures { IfOk result (λ listen. app_of listen ≡ listen_command) }
{
    let about = "Answers requests over a Unix socket until it is told to end";
    let listen = build_subcommand(alloc, "listen", about, LISTEN_HELP);
    let arguments = [
        Argument::Required("socket", "PATH", SOCKET_HELP),
        Argument::Required("keys", "PATH", KEYS_HELP),
        Argument::Count("workers", WORKERS_MAX as u64, LISTEN_WORKERS_HELP),
        Argument::Text("mode", "DIGITS", MODE_HELP),
        Argument::Count("idle", IDLE_MAX, IDLE_HELP),
        Argument::Count("loops", LOOPS_MAX, LOOPS_HELP),
        Argument::Count("connections", CONNECTIONS_MAX, CONNECTIONS_HELP),
        Argument::Count("drain", DRAIN_MAX, DRAIN_HELP),
        Argument::Bytes("remember", 0, REMEMBER_MAX, REMEMBER_HELP),
        Argument::Bytes("memory", MEMORY_MIN, MEMORY_MAX, MEMORY_HELP),
        Argument::Text("names", "NAMES", NAMES_HELP),
    ];
    let listen = add_arguments(alloc, listen, &arguments)?;
    add_further(alloc, listen)
}

/// The subcommand with its options for a second socket, for its log and for its files, and with
/// those for HTTP.
fn add_further<'a>(alloc: Global, listen: Command<'a>) -> Result<Command<'a>, AllocError>
    ensures { IfOk result (λ whole. app_of whole ≡ with_rules (with_rules
        (with_rules (app_of listen.entry) further_rules) gateway_rules) calls_rules) }
{
    let arguments = [
        Argument::Text("verify-socket", "PATH", VERIFY_HELP),
        Argument::Text("verify-mode", "DIGITS", VERIFY_MODE_HELP),
        Argument::Text("verify-names", "NAMES", VERIFY_NAMES_HELP),
        Argument::Count(
            "verify-connections",
            CONNECTIONS_MAX,
            VERIFY_CONNECTIONS_HELP,
        ),
        Argument::Flag("replace", REPLACE_HELP),
        Argument::Text("log", "WORDS", LOG_HELP),
        Argument::Flag("keys-of-others", OTHERS_HELP),
        Argument::Text("revoked", "FILE", REVOKED_HELP),
        Argument::Flag("allow-empty-revoked", EMPTY_REVOKED_HELP),
    ];
    let listen = add_arguments(alloc, listen, &arguments)?;
    add_http(alloc, listen)
}

/// The subcommand `page`, whose options may be left out.
fn build_page<'a>(alloc: Global) -> Result<Command<'a>, AllocError>
    ensures { IfOk result (λ page. app_of page ≡ page_command) }
{
    let about = "Shows what a macaroon says on a page, for a browser on this machine";
    let page = build_subcommand(alloc, "page", about, PAGE_HELP);
    let arguments = [
        Argument::Text("address", "ADDRESS", PAGE_ADDRESS_HELP),
        Argument::Text("keys", "FILE", PAGE_KEYS_HELP),
        Argument::Text("revoked", "FILE", ONCE_REVOKED_HELP),
    ];
    add_arguments(alloc, page, &arguments)
}

/// The subcommand with its options for HTTP.
fn add_http<'a>(alloc: Global, listen: Command<'a>) -> Result<Command<'a>, AllocError>
    ensures { IfOk result (λ whole. app_of whole
        ≡ with_rules (with_rules (app_of listen.entry) gateway_rules) calls_rules) }
{
    let arguments = [
        Argument::Text("http", "ADDRESSES", HTTP_HELP),
        Argument::Text("http-anywhere", "ADDRESSES", HTTP_ANYWHERE_HELP),
        Argument::Text("http-mode", "DIGITS", HTTP_MODE_HELP),
        Argument::Count(
            "http-connections",
            HTTP_CONNECTIONS_MAX,
            HTTP_CONNECTIONS_HELP,
        ),
        Argument::Count("http-patience", HTTP_PATIENCE_MAX, HTTP_PATIENCE_HELP),
        Argument::Text("http-granted", "STATUS", HTTP_GRANTED_HELP),
        Argument::Text("http-facts", "SOURCES", HTTP_FACTS_HELP),
        Argument::Flag("http-strict-paths", HTTP_STRICT_HELP),
        Argument::Text("http-names", "NAMES", HTTP_NAMES_HELP),
    ];
    let listen = add_arguments(alloc, listen, &arguments)?;
    add_calls(alloc, listen)
}

/// The subcommand with its options for calls over HTTP, and for operators.
fn add_calls<'a>(alloc: Global, listen: Command<'a>) -> Result<Command<'a>, AllocError>
    ensures { IfOk result (λ whole. app_of whole ≡ with_rules (app_of listen.entry) calls_rules) }
{
    let arguments = [
        Argument::Text("http-calls", "ADDRESSES", HTTP_CALLS_HELP),
        Argument::Text("http-calls-mode", "DIGITS", HTTP_CALLS_MODE_HELP),
        Argument::Text("http-calls-allow", "CALLS", HTTP_CALLS_ALLOW_HELP),
        Argument::Text("http-calls-names", "NAMES", HTTP_CALLS_NAMES_HELP),
        Argument::Text("http-allow", "CALLS", HTTP_ALLOW_HELP),
        Argument::Text("http-admin", "ADDRESSES", HTTP_ADMIN_HELP),
    ];
    add_arguments(alloc, listen, &arguments)
}
