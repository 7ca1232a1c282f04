//! Why a key file can't be read.
ghost use Rattle.std.specs.Prelude.{◌≡◌};
ghost use Rattle.mac_keys.specs.Fault.{code_of};

use crate::key_map::NAMES_MAX;
use crate::line::NAME_MAX;
use thiserror::Error;

/// What is wrong with a line of a key file.
#[derive(Clone, Copy, Debug, PartialEq, Eq, Error)]
pub enum LineFault {
    /// The name is empty or too long, or has a byte that no name has.
    #[error("the name is not 1 to {} letters, digits, dots, underscores or dashes", NAME_MAX)]
    BadName,
    /// The digits of the secret are no bytes in hexadecimal.
    #[error("the secret is not in hexadecimal, two digits a byte")]
    BadHex,
    /// The secret has no digits.
    #[error("the secret is empty")]
    EmptySecret,
    /// Two earlier lines give the name a secret.
    #[error("the name stands on two earlier lines")]
    Twice,
    /// The table has as many names as it may.
    #[error("the name is one more than the {} that a table holds", NAMES_MAX)]
    TooMany,
    /// The line isn't of the form `key NAME HEX`.
    #[error("the line is not of the form `key NAME HEX`")]
    BadLine,
}

impl LineFault {
    /// The number of this kind of fault, 1 to 6. No kind's number ever changes.
    pub fn code(&self) -> u8
        ensures { result ≡ code_of self.now }
    {
        match self {
            LineFault::BadName => 1,
            LineFault::BadHex => 2,
            LineFault::EmptySecret => 3,
            LineFault::Twice => 4,
            LineFault::TooMany => 5,
            LineFault::BadLine => 6,
        }
    }
}

/// Why [`KeyTable::read`](crate::KeyTable::read) gave no table.
#[derive(Clone, Copy, Debug, PartialEq, Eq, Error)]
pub enum KeyFault {
    /// A line has a fault, and no earlier line has any.
    #[error("line {line}: {kind}")]
    Line {
        /// The line, counted from 1.
        line: u64,
        /// What is wrong with it.
        kind: LineFault,
    },
    /// Memory ran out.
    #[error("there is no memory for the key table")]
    Memory,
}
