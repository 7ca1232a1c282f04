//! The subcommands for people, as `clap` is told them.
ghost use Rattle.std.specs.Prelude.{◌≡◌, IfOk};
ghost use Rattle.clap.specs.Words.{app_of};
ghost use Rattle.mac_commands.specs.People.{attenuate_command, check_command, inspect_command};
ghost use Rattle.mac_commands.specs.People.{keygen_command, mint_command, verify_command};
ghost use Rattle.mac_commands.specs.People.{revoke_command, status_command, with_key, with_people};

use crate::parts::{
    Argument, KEYS_HELP, add_arg, add_arguments, add_subcommand, build_repeated, build_subcommand,
};
use clap::Command;
use std::alloc::{AllocError, Global};

/// What the help of `keygen` says below its options.
const KEYGEN_HELP: &str = "\
Prints a line of a key file, `key NAME SECRET`: the secret is 32 random bytes of the system, in
hexadecimal. NAME has 1 to 64 letters, digits, dots, underscores or dashes. Whoever can read the
line can mint tokens under the key, so a key file is for its owner alone. The first line of a name
mints, and tokens of both are verified. One of these options at most may be given:
  --into makes a file of mode 600 that isn't there yet, with the line.
  --above puts the line above that of a name which has one: the new key mints from then on.
  --below puts the line below that of a name which has one: the old key mints still.
  --raise makes no key. It puts the second line of a name above its first, whose key minted so far.
  --drop makes no key. It drops the second line of a name that has two, once its tokens are gone,
  and prints which one that was. It never drops the line that mints.
  --drop-first makes no key. It drops the first line of a name that has two: the second one mints.
All but --into keep the owner, the group and the mode of FILE, and its other bytes. They write
FILE.keygen and move it over FILE; what a run that was cut left of it, the next run removes. FILE
may not be a link.

Example:
  macaroond keygen bank --into keys
  macaroond keygen bank --above keys
  macaroond keygen bank --drop keys

Exit status:
  0  the line was printed, or the file was written
  1  refused, and nothing was changed: FILE (--into) or FILE.new is there already, FILE is a link or
     was changed meanwhile, another run changes it, or the name has no line, or two already (--above
     and --below), or one alone (--raise, --drop and --drop-first)
  2  a bad command line
  3  the system gives no random bytes, a file or standard output failed, or a key line has a fault
  4  memory ran out";

/// What the help of `check` says below its options.
const CHECK_HELP: &str = "\
Prints a line for each name of the key file, in the order of their bytes: `NAME: one key`, or
`NAME: two keys`, and eight digits of each key, by which two machines are compared; and behind them
how many lines the list has that take tokens back, `revoked lines: COUNT`. One of both files at
least is to be given. Warns on standard error of a file that others may use, and of a secret of
fewer than 16 bytes.

Example:
  macaroond check --keys keys --revoked revoked

Exit status:
  0  each line is right, and what the files hold was printed
  1  a line has a fault; standard error names the first with its number
  2  a bad command line
  3  a file or standard output failed
  4  memory ran out";

/// What the help of `mint` says below its options.
const MINT_HELP: &str = "\
Prints a new token, one of form v2-binary as `hex:` and its digits. Without --identifier the token
gets 128 random bits in hexadecimal, which standard error tells as `identifier DIGITS`. A refusal is
told there too, and so is a caveat that can hardly hold: one that is nearly a bound of time, a time limit
that has passed, `path under /a/` with a slash at its end, `method=GET` without its spaces, or one
that stands there twice.

Example:
  macaroond mint --keys keys --key bank --identifier alice --caveat 'time < 2030-01-01T00:00'

Exit status:
  0  the token was printed
  1  refused: the key file has no such key, or a limit is passed
  2  a bad command line
  3  the key file or standard output failed, a key line has a fault, or the system gives no random
     bytes
  4  memory ran out";

/// What the help of `attenuate` says below its options.
const ATTENUATE_HELP: &str = "\
Prints the token with the caveats behind its own: one that is granted in fewer cases. No key is
needed for it. TOKEN is the token's text, `hex:` and its digits, or - for one line of standard
input. A refusal is told on standard error, and so is a caveat that can hardly hold, as `mint` does.

Example:
  macaroond attenuate --caveat 'account = 3735928559' \"$token\"

Exit status:
  0  the token was printed
  1  refused: the token is none, or a limit is passed
  2  a bad command line
  3  standard input or standard output failed
  4  memory ran out";

/// What the help of `verify` says below its options.
const VERIFY_HELP: &str = "\
Prints `granted`, or `refused`, the number of the reason and the reason. A caveat holds where it is
one of the facts, a time limit `time < 2030-01-01T00:00` that isn't over, or a lower bound of time
`time >= 2026-01-01T00:00` that has come. TOKEN is the token's text, `hex:` and its digits, or - for
one line of standard input. MOMENT is a number of seconds since 1970, or a time as
2026-01-31T12:00:00Z. With --revoked a token of the list is refused. With --explain standard error
tells each caveat that doesn't hold, and below it why: when its time ended or begins, or from which
byte on the nearest fact is another.

Example:
  macaroond verify --keys keys --key bank --fact 'account = 3735928559' \"$token\"

Exit status:
  0  granted
  1  refused
  2  a bad command line
  3  a file, standard input, the clock or standard output failed, or a line of a file has a fault
  4  memory ran out";

/// What the help of `inspect` says below its options.
const INSPECT_HELP: &str = "\
Prints what the token says: its form, location, identifier, caveats and signature. No key is
needed for it, and nothing is verified. Bytes that aren't printable ASCII, and the backslash, are
printed as \\x and two digits. With --key the last line is `revoked NAME HEX`, which takes the token
back in a list. TOKEN is the token's text, `hex:` and its digits, or - for one line of standard
input.

Example:
  macaroond inspect \"$token\"

Exit status:
  0  the token was told
  1  it is no token; standard error says why
  2  a bad command line
  3  standard input or standard output failed
  4  memory ran out";

/// What the help of `status` says below its options.
const STATUS_HELP: &str = "\
Asks a daemon that listens at PATH, over the socket PATH.status, which is for the user that the
daemon runs as. Prints a line for each number that it counts, `NAME VALUE`, and behind them one for
each name that has a key: `key NAME` and eight digits of each of its keys, as `check` prints them.
With --prometheus the lines are those of Prometheus's text form, without keys. With --connections
there is a line for each connection: its number, its socket, for how many milliseconds it is there,
how many requests it was answered, how many bytes it hasn't taken, and whether it is plain or wide.

Example:
  macaroond status --socket /run/macaroond/socket

Exit status:
  0  what the daemon told was printed
  2  a bad command line
  3  no daemon answers there, or it says nothing for five seconds, or standard output failed
  4  memory ran out";

const STATUS_SOCKET_HELP: &str = "The socket of the daemon";

const PROMETHEUS_HELP: &str = "Prints the numbers as Prometheus reads them";

const LISTED_HELP: &str = "Prints the connections that there are";

const INTO_HELP: &str = "Makes this file with the line, for its owner alone";

const ABOVE_HELP: &str = "Puts the line above the name's old one in this key file";

const BELOW_HELP: &str = "Puts the line below the name's old one in this key file";

const RAISE_HELP: &str = "Puts the name's second line above its first in this key file";

const DROP_HELP: &str = "Drops the name's second line from this key file";

const FIRST_HELP: &str = "Drops the name's first line, whose key mints, from this key file";

const REVOKE_INTO_HELP: &str = "Puts the line into this list, which is made where it isn't there";

const REVOKE_DROP_HELP: &str = "Drops the line from this list";

const LIST_HELP: &str = "A list of tokens that were taken back";

const LINE_HELP: &str = "The name of the key, for a last line that takes the token back";

const KEY_HELP: &str = "The name of the key";

const TOKEN_HELP: &str = "The token, or - for a line of standard input";

const LOCATION_HELP: &str = "Where the token is for [default: empty]";

const IDENTIFIER_HELP: &str = "What the token is about [default: 32 random digits]";

const CAVEAT_HELP: &str = "A caveat; may be given often";

const EXPLAIN_HELP: &str = "Tells which caveats are not satisfied, and why";

const FACT_HELP: &str = "What is known of the request; may be given often";

const MOMENT_HELP: &str = "The moment of the request [default: now]";

const MINT_FORM_HELP: &str = "The form: v1-text, v2-text, v2-binary or v2-json [default: v2-text]";

const NEXT_FORM_HELP: &str =
    "The form: v1-text, v2-text, v2-binary or v2-json [default: that of the token]";

/// What the help of `revoke` says below its options.
const REVOKE_HELP: &str = "\
Prints a line of a list of tokens that were taken back, `revoked NAME HEX`: tokens of that name with
that identifier are refused by a daemon that has the list (--revoked), and with them all that were
narrowed from one. The identifier is that of --identifier, as `mint` takes it, or that of TOKEN: the
token's text, `hex:` and its digits, or - for one line of standard input. Whose the token is, as it
says itself, is told on standard error first; no key is asked for.
  --into puts the line behind those of FILE, or makes FILE with mode 600. A line that is there
  already isn't put there again.
  --drop takes each such line out of FILE.
Both look at the whole of FILE first, and change nothing where a line of it has a fault. They keep
the owner, the group and the mode of FILE, write FILE.keygen and move it over FILE.

Example:
  macaroond revoke bank --identifier alice:5f3c --into revoked
  macaroond revoke bank --into revoked - < token

Exit status:
  0  the line was printed, or the list has it, or has it no more
  1  refused, and nothing was changed: TOKEN is none, FILE.new is there, FILE is a link or was
     changed meanwhile, or another run changes it
  2  a bad command line
  3  a file, standard input or standard output failed, or a line of FILE has a fault
  4  memory ran out";

/// Adds the subcommands for people.
pub(crate) fn add_people<'a>(alloc: Global, program: Command<'a>) -> Result<Command<'a>, AllocError>
    ensures { IfOk result (λ whole. app_of whole ≡ with_people (app_of program.entry)) }
{
    let program = add_subcommand(program, build_keygen(alloc))?;
    let program = add_subcommand(program, build_check(alloc))?;
    let program = add_subcommand(program, build_mint(alloc))?;
    let program = add_subcommand(program, build_attenuate(alloc))?;
    let program = add_subcommand(program, build_verify(alloc))?;
    let program = add_subcommand(program, build_inspect(alloc))?;
    let program = add_subcommand(program, build_status(alloc))?;
    add_subcommand(program, build_revoke(alloc))
}

/// The subcommand `keygen`, with six options and the name of the key.
fn build_keygen<'a>(alloc: Global) -> Result<Command<'a>, AllocError>
    ensures { IfOk result (λ whole. app_of whole ≡ keygen_command) }
{
    let command = build_subcommand(
        alloc,
        "keygen",
        "Makes a key line with a new secret, or drops an old one",
        KEYGEN_HELP,
    );
    let arguments = [
        Argument::Text("into", "FILE", INTO_HELP),
        Argument::Text("above", "FILE", ABOVE_HELP),
        Argument::Text("below", "FILE", BELOW_HELP),
        Argument::Text("raise", "FILE", RAISE_HELP),
        Argument::Text("drop", "FILE", DROP_HELP),
        Argument::Text("drop-first", "FILE", FIRST_HELP),
        Argument::Word("name", "NAME", KEY_HELP),
    ];
    add_arguments(alloc, command, &arguments)
}

/// The subcommand `check`, with the key file and the list.
fn build_check<'a>(alloc: Global) -> Result<Command<'a>, AllocError>
    ensures { IfOk result (λ whole. app_of whole ≡ check_command) }
{
    let about = "Tells what a key file holds, and a list of tokens that were taken back";
    let check = build_subcommand(alloc, "check", about, CHECK_HELP);
    let arguments = [
        Argument::Text("keys", "FILE", KEYS_HELP),
        Argument::Text("revoked", "FILE", LIST_HELP),
    ];
    add_arguments(alloc, check, &arguments)
}

/// The subcommand `mint`: of its six options two have to be given.
fn build_mint<'a>(alloc: Global) -> Result<Command<'a>, AllocError>
    ensures { IfOk result (λ whole. app_of whole ≡ mint_command) }
{
    let command = build_subcommand(alloc, "mint", "Prints a new token", MINT_HELP);
    let command = add_key_options(alloc, command)?;
    let arguments = [
        Argument::Text("location", "TEXT", LOCATION_HELP),
        Argument::Text("identifier", "TEXT", IDENTIFIER_HELP),
        Argument::Repeated("caveat", CAVEAT_HELP),
        Argument::Text("form", "FORM", MINT_FORM_HELP),
    ];
    add_arguments(alloc, command, &arguments)
}

/// The subcommand `attenuate`, which asks for at least one caveat.
fn build_attenuate<'a>(alloc: Global) -> Result<Command<'a>, AllocError>
    ensures { IfOk result (λ whole. app_of whole ≡ attenuate_command) }
{
    let command = build_subcommand(
        alloc,
        "attenuate",
        "Prints a token with further caveats",
        ATTENUATE_HELP,
    );
    let caveats = build_repeated(alloc, "caveat", CAVEAT_HELP).required(true);
    let command = add_arg(command, caveats)?;
    let arguments = [
        Argument::Text("form", "FORM", NEXT_FORM_HELP),
        Argument::Word("token", "TOKEN", TOKEN_HELP),
    ];
    add_arguments(alloc, command, &arguments)
}

/// The subcommand `verify`, whose moment is the present where it is left out.
fn build_verify<'a>(alloc: Global) -> Result<Command<'a>, AllocError>
    ensures { IfOk result (λ whole. app_of whole ≡ verify_command) }
{
    let command = build_subcommand(
        alloc,
        "verify",
        "Tells whether a key grants a token",
        VERIFY_HELP,
    );
    let command = add_key_options(alloc, command)?;
    let arguments = [
        Argument::Repeated("fact", FACT_HELP),
        Argument::Text("at", "MOMENT", MOMENT_HELP),
        Argument::Text("revoked", "FILE", LIST_HELP),
        Argument::Flag("explain", EXPLAIN_HELP),
        Argument::Word("token", "TOKEN", TOKEN_HELP),
    ];
    add_arguments(alloc, command, &arguments)
}

/// The subcommand `inspect`, with the name of a key, and the token.
fn build_inspect<'a>(alloc: Global) -> Result<Command<'a>, AllocError>
    ensures { IfOk result (λ whole. app_of whole ≡ inspect_command) }
{
    let command = build_subcommand(alloc, "inspect", "Tells what a token says", INSPECT_HELP);
    let arguments = [
        Argument::Text("key", "NAME", LINE_HELP),
        Argument::Word("token", "TOKEN", TOKEN_HELP),
    ];
    add_arguments(alloc, command, &arguments)
}

/// The subcommand `status`, with the socket and two flags.
fn build_status<'a>(alloc: Global) -> Result<Command<'a>, AllocError>
    ensures { IfOk result (λ whole. app_of whole ≡ status_command) }
{
    let command = build_subcommand(alloc, "status", "Tells how a daemon is", STATUS_HELP);
    let arguments = [
        Argument::Required("socket", "PATH", STATUS_SOCKET_HELP),
        Argument::Flag("prometheus", PROMETHEUS_HELP),
        Argument::Flag("connections", LISTED_HELP),
    ];
    add_arguments(alloc, command, &arguments)
}

/// The subcommand `revoke`, with three options, the name of the key, and a token.
fn build_revoke<'a>(alloc: Global) -> Result<Command<'a>, AllocError>
    ensures { IfOk result (λ whole. app_of whole ≡ revoke_command) }
{
    let about = "Makes a line that takes a token back";
    let command = build_subcommand(alloc, "revoke", about, REVOKE_HELP);
    let arguments = [
        Argument::Text("into", "FILE", REVOKE_INTO_HELP),
        Argument::Text("drop", "FILE", REVOKE_DROP_HELP),
        Argument::Text("identifier", "TEXT", "What the token is about"),
        Argument::Word("name", "NAME", KEY_HELP),
        Argument::OptionalWord("token", "TOKEN", TOKEN_HELP),
    ];
    add_arguments(alloc, command, &arguments)
}

/// The subcommand with the options `--keys` and `--key`.
fn add_key_options<'a>(alloc: Global, command: Command<'a>) -> Result<Command<'a>, AllocError>
    ensures { IfOk result (λ whole. app_of whole ≡ with_key (app_of command.entry)) }
{
    let arguments = [
        Argument::Required("keys", "FILE", KEYS_HELP),
        Argument::Required("key", "NAME", KEY_HELP),
    ];
    add_arguments(alloc, command, &arguments)
}
