//! Why a run of the pipe ended early.
ghost use Rattle.std.specs.Prelude.{◌≡◌};
ghost use Rattle.mac_commands.specs.Status.{pipe_status};
ghost use Rattle.mac_commands.specs.declared.fault.PipeFault.TheVariants.{Device, Memory};

use crate::status::Status;
use mac_keys::LineFault;
use mac_wire::DeviceFault;
use std::alloc::{AllocError, AllocFailed};
use thiserror::Error;

/// Why a run of the pipe ended early. The text is what the program prints.
#[derive(Clone, Copy, Debug, Error)]
pub enum PipeFault {
    /// The first key line with a fault, counted from 1, and the fault's number.
    #[error("keys: line {line} kind {}", .kind.code())]
    Keys { line: u64, kind: LineFault },
    /// A device failed.
    #[error("fault 3")]
    Device,
    /// The input is longer than the pipe reads.
    #[error("fault 3")]
    TooLong,
    /// Memory ran out.
    #[error("fault 4")]
    Memory,
}

impl PipeFault {
    /// How a run ends that has this fault.
    pub fn status(self) -> Status
        ensures { result ≡ pipe_status self }
    {
        match self {
            PipeFault::Keys { .. } => Status::BadKeys,
            PipeFault::Device | PipeFault::TooLong => Status::DeviceFault,
            PipeFault::Memory => Status::NoMemory,
        }
    }
}

impl From<AllocError> for PipeFault {
    ghost from_gives = { λ _ fault. fault ≡ Memory };

    fn from(_refused: AllocError) -> PipeFault {
        PipeFault::Memory
    }
}

impl<T: Drop> From<AllocFailed<T>> for PipeFault {
    ghost from_gives = { λ _ fault. fault ≡ Memory };

    fn from(_refused: AllocFailed<T>) -> PipeFault {
        PipeFault::Memory
    }
}

impl From<DeviceFault> for PipeFault {
    ghost from_gives = { λ _ fault. fault ≡ Device };

    fn from(_failed: DeviceFault) -> PipeFault {
        PipeFault::Device
    }
}

impl From<(DeviceFault, usize)> for PipeFault {
    ghost from_gives = { λ _ fault. fault ≡ Device };

    fn from(_failed: (DeviceFault, usize)) -> PipeFault {
        PipeFault::Device
    }
}
