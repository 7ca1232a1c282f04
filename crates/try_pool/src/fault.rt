//! Why a run comes to nothing.

use std::alloc::{AllocError, AllocFailed};

/// Why a run has no outcome.
#[derive(Clone, Copy)]
pub(crate) enum RunFault {
    /// The word isn't one of a run's forms.
    NoRun,
    /// Memory, a thread or a desk was refused.
    Refused,
    /// What came back isn't what was to come.
    Wrong,
}

impl From<AllocError> for RunFault {
    fn from(_fault: AllocError) -> RunFault {
        RunFault::Refused
    }
}

impl<T: Drop> From<AllocFailed<T>> for RunFault {
    fn from(_fault: AllocFailed<T>) -> RunFault {
        RunFault::Refused
    }
}
