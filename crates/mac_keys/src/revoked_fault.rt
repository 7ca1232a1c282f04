//! Why a list of tokens that were taken back can't be read.
ghost use Rattle.std.specs.Prelude.{◌≡◌};
ghost use Rattle.mac_keys.specs.declared.revoked_fault.RevokedFault.TheVariants.{Memory};

use std::alloc::{AllocError, AllocFailed};
use thiserror::Error;

/// What is wrong with a line of such a list.
#[derive(Clone, Copy, Debug, PartialEq, Eq, Error)]
pub enum RevokedLineFault {
    /// The name is empty or too long, or has a byte that no name has.
    #[error("the name is not 1 to 64 letters, digits, dots, underscores or dashes")]
    BadName,
    /// The digits of the identifier are no bytes in hexadecimal.
    #[error("the identifier is not in hexadecimal, two digits a byte")]
    BadHex,
    /// The line isn't of the form `revoked NAME HEX`.
    #[error("the line is not of the form `revoked NAME HEX`")]
    BadLine,
}

/// Why [`RevokedList::read`](crate::RevokedList::read) gave no list.
#[derive(Clone, Copy, Debug, PartialEq, Eq, Error)]
pub enum RevokedFault {
    /// A line has a fault, and no earlier line has any.
    #[error("line {line}: {kind}")]
    Line {
        /// The line, counted from 1.
        line: u64,
        /// What is wrong with it.
        kind: RevokedLineFault,
    },
    /// Memory ran out.
    #[error("there is no memory for the list of tokens that were taken back")]
    Memory,
}

impl From<AllocError> for RevokedFault {
    ghost from_gives = { λ _ fault. fault ≡ Memory };

    fn from(_error: AllocError) -> RevokedFault {
        RevokedFault::Memory
    }
}

impl<T: Drop> From<AllocFailed<T>> for RevokedFault {
    ghost from_gives = { λ _ fault. fault ≡ Memory };

    fn from(_error: AllocFailed<T>) -> RevokedFault {
        RevokedFault::Memory
    }
}
