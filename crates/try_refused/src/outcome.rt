//! What comes of a call.

use std::alloc::{AllocError, AllocFailed};

/// What came of a call.
#[derive(Clone, Copy, PartialEq, Eq)]
pub(crate) enum Outcome {
    /// It succeeded at once, and gave what it is to give.
    Made,
    /// Memory was refused to it; what is to stand stood, and made once more it succeeded.
    Stood,
    /// Memory was refused before the call or after it.
    Elsewhere,
    /// Something else.
    Wrong,
}

impl Outcome {
    /// The outcome in words.
    pub(crate) fn text(self) -> &'static str {
        match self {
            Outcome::Made => "made",
            Outcome::Stood => "refused, and made once more",
            Outcome::Elsewhere => "refused elsewhere",
            Outcome::Wrong => "wrong",
        }
    }
}

/// Memory was refused to what only prepares or judges a call.
#[derive(Clone, Copy)]
pub(crate) struct Refused;

impl From<AllocError> for Refused {
    fn from(_refused: AllocError) -> Refused {
        Refused
    }
}

impl<T: Drop> From<AllocFailed<T>> for Refused {
    fn from(_refused: AllocFailed<T>) -> Refused {
        Refused
    }
}

/// The outcome of a call that succeeded at once, by whether it gave what it is to give.
pub(crate) fn made_if(is_right: bool) -> Outcome {
    if is_right {
        Outcome::Made
    } else {
        Outcome::Wrong
    }
}

/// The outcome of a call that was refused memory, by whether all stood and it then succeeded.
pub(crate) fn stood_if(is_right: bool) -> Outcome {
    if is_right {
        Outcome::Stood
    } else {
        Outcome::Wrong
    }
}

/// The outcome of a call that is lent all it takes, by what it gave: whether that is right, or
/// `None` where memory was refused; and by what it gives when it is made once more.
pub(crate) fn once_more(first: Option<bool>, again: Option<bool>) -> Outcome {
    match (first, again) {
        (Some(true), Some(true)) => Outcome::Made,
        (None, Some(true)) => Outcome::Stood,
        (Some(true), None) => Outcome::Elsewhere,
        _ => Outcome::Wrong,
    }
}
