//! Why words make no request.

ghost use Rattle.std.specs.Prelude.{◌≡◌};
ghost use Rattle.mac_words.specs.declared.fault.FieldFault.TheVariants as field;
ghost use Rattle.mac_words.specs.declared.fault.TextFault.TheVariants as text;

use std::alloc::{AllocError, AllocFailed};
use thiserror::Error;

/// Why words make no payload that a frame carries.
#[derive(Clone, Copy, Debug, PartialEq, Eq, Error)]
pub enum FieldFault {
    /// The name of the key has more than 255 bytes.
    #[error("the name of the key is longer than 255 bytes")]
    LongName,
    /// A text has more than 65,535 bytes.
    #[error("a text or the token is longer than 65535 bytes")]
    LongText,
    /// There are more than 255 caveats.
    #[error("there are more than 255 caveats")]
    ManyCaveats,
    /// There are more than 128 facts.
    #[error("there are more than 128 facts")]
    ManyFacts,
    /// The payload has more than 65,536 bytes.
    #[error("the words are longer than a request may be, 65536 bytes in all")]
    LongPayload,
    /// Memory ran out.
    #[error("memory ran out")]
    Memory,
}

impl From<AllocError> for FieldFault {
    ghost from_gives = { λ _ fault. fault ≡ field.Memory };

    fn from(_refused: AllocError) -> FieldFault {
        FieldFault::Memory
    }
}

impl<T: Drop> From<AllocFailed<T>> for FieldFault {
    ghost from_gives = { λ _ fault. fault ≡ field.Memory };

    fn from(_refused: AllocFailed<T>) -> FieldFault {
        FieldFault::Memory
    }
}

/// Why a text names no bytes of a token.
#[derive(Clone, Copy, Debug, PartialEq, Eq, Error)]
pub enum TextFault {
    /// What follows `hex:` is no bytes in hexadecimal.
    #[error("what follows `hex:` is not hexadecimal, two digits a byte")]
    BadHex,
    /// Memory ran out.
    #[error("memory ran out")]
    Memory,
}

impl From<AllocError> for TextFault {
    ghost from_gives = { λ _ fault. fault ≡ text.Memory };

    fn from(_refused: AllocError) -> TextFault {
        TextFault::Memory
    }
}
