//! Lines of a key file, made anew.

ghost use Rattle.std.specs.Prelude.{◌≡◌};
ghost use Rattle.mac_words.specs.KeyLine.{GivesLine};
ghost use Rattle.mac_words.specs.declared.key_lines.NameFault.TheVariants.{Memory};

use mac_keys::is_name;
use std::alloc::{AllocError, Global};
use thiserror::Error;

/// Why no line gives a name a secret.
#[derive(Clone, Copy, Debug, PartialEq, Eq, Error)]
pub enum NameFault {
    /// The name is none that a key file has.
    #[error("the name of a key is 1 to 64 letters, digits, dots, underscores or dashes")]
    BadName,
    /// Memory ran out.
    #[error("memory ran out")]
    Memory,
}

impl From<AllocError> for NameFault {
    ghost from_gives = { λ _ fault. fault ≡ Memory };

    fn from(_refused: AllocError) -> NameFault {
        NameFault::Memory
    }
}

/// The line of a key file that gives a name a secret, with its line feed.
pub fn key_line(alloc: Global, name: &str, secret: &[u8; 32]) -> Result<Vec<u8>, NameFault>
    ensures { GivesLine name.now secret.now result }
{
    if !is_name(name.as_bytes()) {
        return Err(NameFault::BadName);
    }
    let digits = hex::encode(alloc, secret)?;
    let mut line = Vec::new(alloc);
    line.extend_from_slice(b"key ")?;
    line.extend_from_slice(name.as_bytes())?;
    line.extend_from_slice(b" ")?;
    line.extend_from_slice(digits.as_bytes())?;
    line.extend_from_slice(b"\n")?;
    Ok(line)
}
