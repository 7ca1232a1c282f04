//! What a person asks of the program, in the words of the command line.
ghost use Rattle.std.specs.Prelude.{◌≡◌, map, option_map, string_bytes, IfOk};
ghost use Rattle.clap.specs.Words.{all_of, first_of, found_of, rows_of};
ghost use Rattle.mac_words.specs.Payload.{texts_of};
ghost use Rattle.mac_commands.specs.People.{HasAttenuate, HasCheck, HasInspect, HasKeygen, HasMint};
ghost use Rattle.mac_commands.specs.People.{HasRevoke, HasStatus, HasTask, HasVerify};
ghost use Rattle.mac_commands.specs.People.{IsTaskName, is_set};
ghost use Rattle.mac_commands.specs.People.{task_name, text_given, texts_given};

use clap::ArgMatches;
use std::alloc::{AllocError, Global};

/// What a person asks of the program, in the words of the command line.
#[derive(Drop)]
pub enum Task {
    /// Make a key line with a new secret, or drop an old one.
    Keygen(KeygenWords),
    /// Tell what a key file holds, and a list of tokens that were taken back.
    Check(CheckWords),
    /// Print a new token.
    Mint(MintWords),
    /// Print a token with further caveats.
    Attenuate(AttenuateWords),
    /// Tell whether a key grants a token.
    Verify(VerifyWords),
    /// Tell what a token says.
    Inspect(InspectWords),
    /// Tell how a daemon is.
    Status(StatusWords),
    /// Make a line that takes a token back, or drop it.
    Revoke(RevokeWords),
}

/// The words of a keygen: of the paths one at most is to be given.
#[derive(Drop)]
pub struct KeygenWords {
    /// The name of the key.
    pub name: String,
    /// The path of a new file for the line.
    pub into: Option<String>,
    /// The path of a key file in which the line is put above the name's old one.
    pub above: Option<String>,
    /// The path of a key file in which the line is put below the name's old one.
    pub below: Option<String>,
    /// The path of a key file in which the name's second line is put above its first.
    pub raise: Option<String>,
    /// The path of a key file from which the name's second line is dropped.
    pub drop: Option<String>,
    /// The path of a key file from which the name's first line is dropped.
    pub drop_first: Option<String>,
}

/// The words of a check: one at least is to be given.
#[derive(Drop)]
pub struct CheckWords {
    /// The path of the key file.
    pub keys: Option<String>,
    /// The path of the list.
    pub revoked: Option<String>,
}

/// The words of a mint.
#[derive(Drop)]
pub struct MintWords {
    /// The path of the key file.
    pub keys: String,
    /// The name of the key.
    pub key: String,
    /// The token's location.
    pub location: String,
    /// The token's identifier.
    pub identifier: Option<String>,
    /// The token's caveats, in order.
    pub caveats: Vec<String>,
    /// The form of the token.
    pub form: Option<String>,
}

/// The words of an attenuate.
#[derive(Drop)]
pub struct AttenuateWords {
    /// The token.
    pub token: String,
    /// The further caveats, in order.
    pub caveats: Vec<String>,
    /// The form of the new token.
    pub form: Option<String>,
}

/// The words of a verify.
#[derive(Drop)]
pub struct VerifyWords {
    /// The path of the key file.
    pub keys: String,
    /// The name of the key.
    pub key: String,
    /// The token.
    pub token: String,
    /// What is known of the request.
    pub facts: Vec<String>,
    /// The moment of the request.
    pub at: Option<String>,
    /// The path of a list of tokens that were taken back.
    pub revoked: Option<String>,
    /// Whether it is told which caveats aren't satisfied, and why.
    pub explain: bool,
}

/// The words of an inspect.
#[derive(Drop)]
pub struct InspectWords {
    /// The token.
    pub token: String,
    /// The name of the key under which it would be taken back.
    pub key: Option<String>,
}

/// The words of a status: one flag at most is to be given.
#[derive(Drop)]
pub struct StatusWords {
    /// The path of the daemon's socket.
    pub socket: String,
    /// Whether its numbers are told as Prometheus reads them.
    pub prometheus: bool,
    /// Whether its connections are told.
    pub connections: bool,
}

/// The words of a revoke: of the paths one at most is to be given, and of identifier and token
/// exactly one.
#[derive(Drop)]
pub struct RevokeWords {
    /// The name of the key.
    pub name: String,
    /// The path of a list into which the line is put.
    pub into: Option<String>,
    /// The path of a list from which it is dropped.
    pub drop: Option<String>,
    /// The token's identifier.
    pub identifier: Option<String>,
    /// The token.
    pub token: Option<String>,
}

/// The task that a subcommand with these options stands for. An argument that was left out is the
/// empty text; `clap` takes no line that leaves out one that it asks for.
pub fn read_task(alloc: Global, name: &str, options: &ArgMatches<'_>) -> Result<Task, AllocError>
    requires { IsTaskName name.now }
    ensures { IfOk result (λ task. (task_name task ≡ name.now)
        × HasTask task (rows_of (found_of options.now))) }
{
    match name {
        "keygen" => Ok(Task::Keygen(read_keygen(alloc, options)?)),
        "check" => Ok(Task::Check(read_check(alloc, options)?)),
        "mint" => Ok(Task::Mint(read_mint(alloc, options)?)),
        "attenuate" => Ok(Task::Attenuate(read_attenuate(alloc, options)?)),
        "verify" => Ok(Task::Verify(read_verify(alloc, options)?)),
        "inspect" => Ok(Task::Inspect(read_inspect(alloc, options)?)),
        "status" => Ok(Task::Status(read_status(alloc, options)?)),
        "revoke" => Ok(Task::Revoke(read_revoke(alloc, options)?)),
        _ => unreachable!("the subcommand is one of those above"),
    }
}

/// The words of the arguments of `keygen`.
fn read_keygen(alloc: Global, options: &ArgMatches<'_>) -> Result<KeygenWords, AllocError>
    ensures { IfOk result (λ words. HasKeygen words (rows_of (found_of options.now))) }
{
    Ok(KeygenWords {
        name: read_text_or_empty(alloc, options, "name")?,
        into: read_optional_text(alloc, options, "into")?,
        above: read_optional_text(alloc, options, "above")?,
        below: read_optional_text(alloc, options, "below")?,
        raise: read_optional_text(alloc, options, "raise")?,
        drop: read_optional_text(alloc, options, "drop")?,
        drop_first: read_optional_text(alloc, options, "drop-first")?,
    })
}

/// The words of the arguments of `check`.
fn read_check(alloc: Global, options: &ArgMatches<'_>) -> Result<CheckWords, AllocError>
    ensures { IfOk result (λ words. HasCheck words (rows_of (found_of options.now))) }
{
    Ok(CheckWords {
        keys: read_optional_text(alloc, options, "keys")?,
        revoked: read_optional_text(alloc, options, "revoked")?,
    })
}

/// The words of the arguments of `inspect`.
fn read_inspect(alloc: Global, options: &ArgMatches<'_>) -> Result<InspectWords, AllocError>
    ensures { IfOk result (λ words. HasInspect words (rows_of (found_of options.now))) }
{
    Ok(InspectWords {
        token: read_text_or_empty(alloc, options, "token")?,
        key: read_optional_text(alloc, options, "key")?,
    })
}

/// The words of the arguments of `mint`.
fn read_mint(alloc: Global, options: &ArgMatches<'_>) -> Result<MintWords, AllocError>
    ensures { IfOk result (λ words. HasMint words (rows_of (found_of options.now))) }
{
    Ok(MintWords {
        keys: read_text_or_empty(alloc, options, "keys")?,
        key: read_text_or_empty(alloc, options, "key")?,
        location: read_text_or_empty(alloc, options, "location")?,
        identifier: read_optional_text(alloc, options, "identifier")?,
        caveats: read_texts(alloc, options, "caveat")?,
        form: read_optional_text(alloc, options, "form")?,
    })
}

/// The words of the arguments of `attenuate`.
fn read_attenuate(alloc: Global, options: &ArgMatches<'_>) -> Result<AttenuateWords, AllocError>
    ensures { IfOk result (λ words. HasAttenuate words (rows_of (found_of options.now))) }
{
    Ok(AttenuateWords {
        token: read_text_or_empty(alloc, options, "token")?,
        caveats: read_texts(alloc, options, "caveat")?,
        form: read_optional_text(alloc, options, "form")?,
    })
}

/// The words of the arguments of `verify`.
fn read_verify(alloc: Global, options: &ArgMatches<'_>) -> Result<VerifyWords, AllocError>
    ensures { IfOk result (λ words. HasVerify words (rows_of (found_of options.now))) }
{
    Ok(VerifyWords {
        keys: read_text_or_empty(alloc, options, "keys")?,
        key: read_text_or_empty(alloc, options, "key")?,
        token: read_text_or_empty(alloc, options, "token")?,
        facts: read_texts(alloc, options, "fact")?,
        at: read_optional_text(alloc, options, "at")?,
        revoked: read_optional_text(alloc, options, "revoked")?,
        explain: read_flag(options, "explain"),
    })
}

/// The words of the arguments of `status`.
fn read_status(alloc: Global, options: &ArgMatches<'_>) -> Result<StatusWords, AllocError>
    ensures { IfOk result (λ words. HasStatus words (rows_of (found_of options.now))) }
{
    Ok(StatusWords {
        socket: read_text_or_empty(alloc, options, "socket")?,
        prometheus: read_flag(options, "prometheus"),
        connections: read_flag(options, "connections"),
    })
}

/// The words of the arguments of `revoke`.
fn read_revoke(alloc: Global, options: &ArgMatches<'_>) -> Result<RevokeWords, AllocError>
    ensures { IfOk result (λ words. HasRevoke words (rows_of (found_of options.now))) }
{
    let into = read_optional_text(alloc, options, "into")?;
    Ok(RevokeWords {
        name: read_text_or_empty(alloc, options, "name")?,
        into,
        drop: read_optional_text(alloc, options, "drop")?,
        identifier: read_optional_text(alloc, options, "identifier")?,
        token: read_optional_text(alloc, options, "token")?,
    })
}

/// Whether a flag was set: `clap` gives it the value `true` then.
pub(crate) fn read_flag(options: &ArgMatches<'_>, name: &str) -> bool
    ensures { result ≡ is_set name.now (rows_of (found_of options.now)) }
{
    match options.get_str(name) {
        Some(text) => text == "true",
        None => false,
    }
}

/// The value of an argument, or the empty text.
fn read_text_or_empty(
    alloc: Global,
    options: &ArgMatches<'_>,
    name: &str,
) -> Result<String, AllocError>
    ensures { IfOk result (λ text. string_bytes text
        ≡ text_given (first_of name.now (rows_of (found_of options.now)))) }
{
    match options.get_str(name) {
        Some(text) => String::from_str(alloc, text),
        None => Ok(String::new(alloc)),
    }
}

/// The value of an option that may be left out.
pub(crate) fn read_optional_text(
    alloc: Global,
    options: &ArgMatches<'_>,
    name: &str,
) -> Result<Option<String>, AllocError>
    ensures { IfOk result (λ text. option_map string_bytes text
        ≡ first_of name.now (rows_of (found_of options.now))) }
{
    match options.get_str(name) {
        Some(text) => Ok(Some(String::from_str(alloc, text)?)),
        None => Ok(None),
    }
}

/// The values of an option that may be given often, in order.
fn read_texts(
    alloc: Global,
    options: &ArgMatches<'_>,
    name: &str,
) -> Result<Vec<String>, AllocError>
    ensures { IfOk result (λ texts. texts_of texts.items
        ≡ texts_given (all_of name.now (rows_of (found_of options.now)))) }
{
    match options.get_strs(name) {
        Some(texts) => copy_texts(alloc, texts),
        None => Ok(Vec::new(alloc)),
    }
}

/// Texts of its own, each a copy.
fn copy_texts(alloc: Global, texts: &[&str]) -> Result<Vec<String>, AllocError>
    ensures { IfOk result (λ copies. texts_of copies.items ≡ map (λ text. text.now) texts.now) }
{
    let mut copies = Vec::new(alloc);
    for text in texts {
        copies.push(String::from_str(alloc, text)?)?;
    }
    Ok(copies)
}
