//! One line of a key file.
//!
//! ```text
//! line   = "" / "#" *any / "key " name " " secret
//! name   = 1*64 (letter / digit / "." / "_" / "-")
//! secret = 1* (digit digit), hexadecimal digits of either case
//! ```
ghost use Rattle.std.specs.Prelude.{◌≡◌, ◌+◌, ◌^◌, ◌<◌, length, position, option_map};
ghost use Rattle.std.specs.Prelude.{IfSome, IsErrOf};
ghost use Rattle.std.specs.List.{list_all};
ghost use Rattle.mac_keys.specs.Line.{is_ignored, is_name_byte, is_name, is_space, parted};
ghost use Rattle.mac_keys.specs.Line.{fields_of, secret_of, line_of};
ghost use Rattle.mac_keys.specs.Found.{is_line_of};
ghost use Rattle.mac_keys.specs.Meaning.{ArePairs, HasPairs};
ghost use Rattle.mac_keys.specs.Answers.{Answers, seen};
ghost use Rattle.mac_keys.specs.Taken.{fault_of_line};
ghost use Rattle.mac_keys.specs.declared.line.Refusal.TheVariants.{Line, Memory};

use crate::fault::{KeyFault, LineFault};
use hex::FromHexError;
use std::alloc::{AllocError, AllocFailed, Global};

/// The greatest number of bytes in a name.
pub const NAME_MAX: usize = 64;

/// A name, and the secret that the line gives it.
#[derive(Drop)]
pub(crate) struct KeyLine<'a> {
    pub(crate) name: &'a [u8],
    pub(crate) secret: Vec<u8>,
}

/// Why a line isn't taken.
#[derive(Drop)]
pub(crate) enum Refusal {
    Line(LineFault),
    Memory,
}

impl Refusal {
    /// The fault of the line at an index, counted from 0.
    pub(crate) fn at_line(self, index: usize) -> KeyFault
        requires { index + 1 < 2 ^ 64 }
        ensures { result ≡ fault_of_line index self }
    {
        match self {
            Refusal::Line(fault) => KeyFault::Line {
                line: index as u64 + 1,
                kind: fault,
            },
            Refusal::Memory => KeyFault::Memory,
        }
    }
}

impl From<AllocError> for Refusal {
    ghost from_gives = { λ _ refusal. refusal ≡ Memory };

    fn from(_error: AllocError) -> Refusal {
        Refusal::Memory
    }
}

impl From<LineFault> for Refusal {
    ghost from_gives = { λ fault refusal. refusal ≡ Line fault };

    fn from(fault: LineFault) -> Refusal {
        Refusal::Line(fault)
    }
}

impl<T: Drop> From<AllocFailed<T>> for Refusal {
    ghost from_gives = { λ _ refusal. refusal ≡ Memory };

    fn from(_error: AllocFailed<T>) -> Refusal {
        Refusal::Memory
    }
}

/// What a line says by itself: nothing, or a name's secret.
pub(crate) fn read_line<'a>(alloc: Global, line: &'a [u8]) -> Result<Option<KeyLine<'a>>, Refusal>
    ensures said { Answers (option_map seen) result (line_of line.now) }
    ensures memory { IsErrOf result Refusal.Memory → HasPairs line.now }
{
    if is_ignored(line) {
        return Ok(None);
    }
    let Some((name, digits)) = fields(line) else {
        return Err(Refusal::Line(LineFault::BadLine));
    };
    if !is_name(name) {
        return Err(Refusal::Line(LineFault::BadName));
    }
    let secret = secret(alloc, digits)?;
    Ok(Some(KeyLine { name, secret }))
}

/// Whether a line has the form of a key line, and this name.
pub(crate) fn is_line_of(line: &[u8], name: &[u8]) -> bool
    ensures { result ≡ is_line_of name.now line.now }
{
    match fields(line) {
        Some((found, _)) => found == name,
        None => false,
    }
}

pub(crate) fn is_ignored(line: &[u8]) -> bool
    ensures { result ≡ is_ignored line.now }
{
    match line.first() {
        None => true,
        Some(first) => *first == b'#',
    }
}

/// The name and the digits behind `key `, as the next space parts them.
pub(crate) fn fields(line: &[u8]) -> Option<(&[u8], &[u8])>
    ensures { option_map (λ found. (found.0.now, found.1.now)) result ≡ fields_of line.now }
{
    parted(line.strip_prefix(b"key ")?)
}

/// What stands before the first space, and behind it.
pub(crate) fn parted(rest: &[u8]) -> Option<(&[u8], &[u8])>
    ensures { option_map (λ found. (found.0.now, found.1.now)) result ≡ parted rest.now }
{
    let space = first_space(rest)?;
    Some((&rest[..space], &rest[space + 1..]))
}

fn first_space(rest: &[u8]) -> Option<usize>
    ensures place { result ≡ position is_space rest.now }
    ensures within { IfSome result (λ space. space < length rest.now) }
{
    rest.iter().position(|byte| *byte == b' ')
}

/// Whether the bytes are a name that a key file may have: 1 to 64 letters and digits of ASCII,
/// dots, underscores and dashes.
pub fn is_name(name: &[u8]) -> bool
    ensures { result ≡ is_name name.now }
{
    !name.is_empty() && name.len() <= NAME_MAX && has_name_bytes(name)
}

fn has_name_bytes(name: &[u8]) -> bool
    ensures { result ≡ list_all is_name_byte name.now }
{
    name.iter().all(|byte| is_name_byte(*byte))
}

fn is_name_byte(byte: u8) -> bool
    ensures { result ≡ is_name_byte byte }
{
    byte.is_ascii_alphanumeric() || byte == b'.' || byte == b'_' || byte == b'-'
}

/// The bytes of a secret.
fn secret(alloc: Global, digits: &[u8]) -> Result<Vec<u8>, Refusal>
    ensures said { Answers (λ secret. secret.items) result (secret_of digits.now) }
    ensures memory { IsErrOf result Refusal.Memory → ArePairs digits.now }
{
    if digits.is_empty() {
        return Err(Refusal::Line(LineFault::EmptySecret));
    }
    match hex::decode(alloc, digits) {
        Ok(secret) => Ok(secret),
        Err(FromHexError::OutOfMemory) => Err(Refusal::Memory),
        Err(_) => Err(Refusal::Line(LineFault::BadHex)),
    }
}
